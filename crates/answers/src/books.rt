// A book judged without claims: rows 3 to 9, then 14. Three matrices are scratch. Refusals pass through a `match`, where must-fail edits change them.
ghost use Rattle.std.specs.Prelude.{◌≡◌, [], Ok};
ghost use Rattle.records.specs.Check.{book_check};
ghost use Rattle.outcomes.specs.Call.{by_runs};
ghost use Rattle.outcomes.specs.Fresh.{fresh_call, uncounted};

use matrices::Matrix;
use outcomes::Counts;
use records::Refused;

// Row 14 of a book that passes the rows before, with the counts of an index that nobody asks for.
fn count_in(
    book: &[u8],
    n: usize,
    e: &mut Matrix,
    d: &mut Matrix,
    t: &mut Matrix,
) -> Result<Counts, Refused>
    requires { book_check book.now ≡ Ok n }
    ensures { result ≡ by_runs book.now n }
{
    let mut voids = [0u64; matrices::ROW_WORDS];
    let mut order = [0u16; matrices::ROWS];
    let mut lead = [0u16; matrices::ROWS];
    let settled = contradiction::settle_counted(
        book, n, &mut voids, e, &mut order, &mut lead, d, t,
    );
    match settled {
        Err(clash) => Err(Refused::from(clash)),
        Ok(counts) => Ok(Counts::of(n, counts)),
    }
}

// A fresh call on a run of records.
pub fn judge_run(
    run: &[u8],
    e: &mut Matrix,
    d: &mut Matrix,
    t: &mut Matrix,
) -> Result<Counts, Refused>
    ensures { result ≡ fresh_call run.now [] }
{
    match records::check_book(run) {
        Err(refused) => Err(refused),
        Ok(n) => count_in(run, n, e, d, t),
    }
}

// Row 14 of a book that passes the rows before.
fn settle_in(
    book: &[u8],
    n: usize,
    e: &mut Matrix,
    d: &mut Matrix,
    t: &mut Matrix,
) -> Result<usize, Refused>
    requires { book_check book.now ≡ Ok n }
    ensures { result ≡ uncounted (by_runs book.now n) }
{
    let mut voids = [0u64; matrices::ROW_WORDS];
    match contradiction::settle_book(book, n, &mut voids, e, d, t) {
        Err(first) => Err(Refused::from(first)),
        Ok(()) => Ok(n),
    }
}

// The same for a caller that wants no counts of nodes and shadows: no index is made.
pub fn judge_book(
    book: &[u8],
    e: &mut Matrix,
    d: &mut Matrix,
    t: &mut Matrix,
) -> Result<usize, Refused>
    ensures { result ≡ uncounted (fresh_call book.now []) }
{
    match records::check_book(book) {
        Err(why) => Err(why),
        Ok(n) => settle_in(book, n, e, d, t),
    }
}
