// The two calls of the piece book: rows 1 to 14 from top to bottom, the index, the answers.
#![tactic(auto)]

ghost use Rattle.records.specs.Refused.{refused_at};
ghost use Rattle.std.specs.Prelude.{◌≡◌, [], length, ltb, ◌||◌};
ghost use Rattle.outcomes.specs.Lent.{lent};
ghost use Rattle.outcomes.specs.Call.{Determined};
ghost use Rattle.records.specs.declared.Refusal.TheVariants.{Contradiction};
ghost use Rattle.outcomes.specs.Outcome.{number, place, node_count};
ghost use Rattle.outcomes.specs.Demands.{Demand2, Demand3, Contradicted};
ghost use Rattle.outcomes.specs.Fitting.{Fitting};
ghost use Rattle.answers.specs.Judging.{rows_check, Cleared, Exact, Judged};
ghost use Rattle.index.specs.Sizes.{MARKS-BYTES, PARENTHESES-BYTES, PLACES, SHADOWS};

pub use alone::{answer_alone, judge_alone};
pub use books::{judge_book, judge_run};
use matrices::Matrix;
use outcomes::Counts;
use records::{Refusal, Refused};

pub mod alone;
pub mod books;

// Zeroes the four parts of the index.
pub fn clear_index(parens: &mut [u8], marks: &mut [u8], shadows: &mut [u16], places: &mut [u16])
    ensures { Cleared (length parens.old) (length marks.old) (length shadows.old) (length places.old) parens.new marks.new shadows.new places.new }
{
    parens.fill(0);
    marks.fill(0);
    shadows.fill(0);
    places.fill(0);
}

// Refuses a contradictory book, with the index zeroed.
fn refuse_clash(
    place: usize,
    parens: &mut [u8],
    marks: &mut [u8],
    shadows: &mut [u16],
    places: &mut [u16],
) -> Result<Counts, Refused>
    ensures { (result ≡ refused_at Contradiction place) × Cleared (length parens.old) (length marks.old) (length shadows.old) (length places.old) parens.new marks.new shadows.new places.new }
{
    clear_index(parens, marks, shadows, places);
    Err(Refusal::Contradiction.at(place))
}

// The marks of the whole book, then row 14, the index and the answers, for a book and claims that pass the rows before, in lent parts of document 01's lengths.
// n is the count of the book's pieces, or a larger one. The matrices are scratch.
fn judge_in(
    book: &[u8],
    n: usize,
    claims: &[u8],
    e: &mut Matrix,
    d: &mut Matrix,
    t: &mut Matrix,
    u: &mut Matrix,
    p: &mut Matrix,
    q: &mut Matrix,
    parens: &mut [u8],
    marks: &mut [u8],
    shadows: &mut [u16],
    places: &mut [u16],
    answers: &mut [u8],
) -> Result<Counts, Refused>
    requires { Exact book.now n claims.now (lent parens.old marks.old shadows.old places.old answers.old) }
    ensures { Judged book.now n claims.now (lent parens.old marks.old shadows.old places.old answers.old) result (lent parens.new marks.new shadows.new places.new answers.new) }
{
    let mut voids = [0u64; matrices::ROW_WORDS];
    let mut order = [0u16; matrices::ROWS];
    let mut lead = [0u16; matrices::ROWS];
    let settled = contradiction::settle(
        book, n, &mut voids, e, &mut order, &mut lead, d, t, parens, marks, shadows, places,
    );
    match settled {
        Err(clash) => refuse_clash(clash.place, parens, marks, shadows, places),
        Ok(counts) => {
            claims::answer_all(
                book, n, &voids, claims, e, &mut order, &mut lead, d, t, u, p, q, answers,
            );
            Ok(Counts::of(n, counts))
        }
    }
}

// Row 1.
pub fn short(
    parens: usize,
    marks: usize,
    shadows: usize,
    places: usize,
    answers: usize,
    claims: usize,
) -> bool
    ensures { result ≡ (ltb parens PARENTHESES-BYTES || (ltb marks MARKS-BYTES || (ltb shadows SHADOWS || (ltb places PLACES || ltb answers claims)))) }
{
    parens < index::PARENTHESES_BYTES
        || marks < index::MARKS_BYTES
        || shadows < index::SHADOWS
        || places < index::PLACES
        || answers < claims
}

// Rows 3 to 13: the piece count of a book that passes them with its claims.
fn check_rows(book: &[u8], claims: &[u8]) -> Result<usize, Refused>
    ensures { result ≡ rows_check book.now claims.now }
{
    let n = records::check_book(book)?;
    records::check_claims(claims, n)?;
    Ok(n)
}

// Answers the claims about the book and writes the index. Demands 1 to 3 stand in the promises. The six matrices are scratch: what they hold at entry does not matter, and at exit it is free.
pub fn answer_claims(
    book: &[u8],
    claims: &[u8],
    parens: &mut [u8],
    marks: &mut [u8],
    shadows: &mut [u16],
    places: &mut [u16],
    answers: &mut [u8],
    e: &mut Matrix,
    d: &mut Matrix,
    t: &mut Matrix,
    u: &mut Matrix,
    p: &mut Matrix,
    q: &mut Matrix,
) -> Result<Counts, Refused>
    ensures determined { Determined book.now claims.now (lent parens.old marks.old shadows.old places.old answers.old) result (lent parens.new marks.new shadows.new places.new answers.new) }
    ensures demand2 { Demand2 book.now claims.now answers.new (number result) }
    ensures demand3 { Demand3 book.now claims.now (lent parens.old marks.old shadows.old places.old answers.old) answers.new (number result) }
    ensures contradicted { Contradicted book.now (number result) (place result) }
    ensures fitting { Fitting book.now (number result) (node_count result) }
{
    let asked = claims.len() / records::RECORD_BYTES;
    if short(
        parens.len(),
        marks.len(),
        shadows.len(),
        places.len(),
        answers.len(),
        asked,
    ) {
        return Err(Refusal::ShortBuffer.at(0));
    }
    // no `?`: a must-fail edit changes the refusal here
    let n = match check_rows(book, claims) {
        Err(refused) => return Err(refused),
        Ok(n) => n,
    };
    judge_in(
        book,
        n,
        claims,
        e,
        d,
        t,
        u,
        p,
        q,
        &mut parens[..index::PARENTHESES_BYTES],
        &mut marks[..index::MARKS_BYTES],
        &mut shadows[..index::SHADOWS],
        &mut places[..index::PLACES],
        &mut answers[..asked],
    )
}

// Writes the index alone: the call with no claims and no answers.
pub fn write_index(
    book: &[u8],
    parens: &mut [u8],
    marks: &mut [u8],
    shadows: &mut [u16],
    places: &mut [u16],
    e: &mut Matrix,
    d: &mut Matrix,
    t: &mut Matrix,
    u: &mut Matrix,
    p: &mut Matrix,
    q: &mut Matrix,
) -> Result<Counts, Refused>
    ensures determined { Determined book.now [] (lent parens.old marks.old shadows.old places.old []) result (lent parens.new marks.new shadows.new places.new []) }
    ensures demand2 { Demand2 book.now [] [] (number result) }
    ensures demand3 { Demand3 book.now [] (lent parens.old marks.old shadows.old places.old []) [] (number result) }
    ensures contradicted { Contradicted book.now (number result) (place result) }
    ensures fitting { Fitting book.now (number result) (node_count result) }
{
    let claims = [0u8; 1];
    let mut answers = [0u8; 1];
    answer_claims(
        book,
        &claims[..0],
        parens,
        marks,
        shadows,
        places,
        &mut answers[..0],
        e,
        d,
        t,
        u,
        p,
        q,
    )
}
