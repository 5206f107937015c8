// Row 14 of a run: whether it is contradictory, and at which record; with its first two matrices, its steps, and its index where one is asked for.
ghost use Rattle.std.specs.Prelude.{◌≡◌, true, ◌+◌, ◌/◌, length, Ok};
ghost use Rattle.rules.specs.Follows.{clash};
ghost use Rattle.rules.specs.Entries.{shortest_clash};
ghost use Rattle.records.specs.Check.{book_check};
ghost use Rattle.records.specs.Facts.{entries, facts};
ghost use Rattle.matrices.specs.Sizes.{ROW-WORDS};
ghost use Rattle.closure.specs.Counted.{MarksOf};
ghost use Rattle.closure.specs.Void.{void_of, Voids};
ghost use Rattle.contradiction.specs.Settleable.{Settleable};
ghost use Rattle.records.specs.declared.Refusal.TheVariants.{Contradiction};
ghost use Rattle.closure.specs.Bounded.{Bounded};
ghost use Rattle.contradiction.specs.Settled.{row, Settles, Steps, Indexes, Counts};

use crate::first_matrices;
use closure::LeaderSteps;
use matrices::{Matrix, RowNumbers};
use records::{Refusal, Refused};

// The place of the contradiction in a contradictory book: the last record of the shortest contradictory run from the start, found by halving, since
// contradiction only grows with the run. By hand: the runs are the starts of one slice, and `partition_point` searches the entries of a slice. The
// matrices are scratch.
fn contradiction(
    book: &[u8],
    n: usize,
    voids: &[u64],
    e: &mut Matrix,
    d: &mut Matrix,
    t: &mut Matrix,
) -> usize
    requires { Bounded n (facts book.now) × Voids voids.now × (clash (void_of voids.now) n (facts book.now) ≡ true) }
    ensures { result + 1 ≡ shortest_clash (void_of voids.now) n (entries book.now) }
{
    let mut low: usize = 0;
    let mut high = book.len() / records::RECORD_BYTES;
    while low + 1 < high {
        let mid = (low + high) / 2;
        let end = records::RECORD_BYTES * mid;
        if first_matrices::contradicts(&book[..end], n, voids, e, d, t) {
            high = mid;
            continue;
        }
        low = mid;
    }
    low
}

// A contradictory run: the place is the last record of its shortest contradictory run from the start.
#[derive(Clone, Copy, Debug, PartialEq, Eq)]
pub struct Clash {
    pub place: usize,
}

impl From<Clash> for Refused {
    ghost from_gives = { λ clash r. r ≡ (record { refusal = Contradiction; place = clash.place }) };

    fn from(clash: Clash) -> Refused {
        Refusal::Contradiction.at(clash.place)
    }
}

// Marks the voids of a book and settles its row 14, with its index, steps, D and T where it is free.
pub fn settle(
    book: &[u8],
    n: usize,
    voids: &mut [u64],
    e: &mut Matrix,
    order: &mut RowNumbers,
    lead: &mut RowNumbers,
    d: &mut Matrix,
    t: &mut Matrix,
    parens: &mut [u8],
    marks: &mut [u8],
    shadows: &mut [u16],
    places: &mut [u16],
) -> Result<index::Counts, Clash>
    requires { Settleable n book.now (length parens.old) (length marks.old) (length shadows.old) (length places.old) × (length voids.old ≡ ROW-WORDS) }
    ensures { MarksOf book.now voids.new × Settles (void_of voids.new) n book.now d.new t.new (row result) × Steps n book.now e.new order.new lead.new (row result) × Indexes n book.now parens.new marks.new shadows.new places.new result }
{
    closure::marking::mark_voids(book, voids);
    let mut number = [0u16; matrices::ROWS];
    let count = first_matrices::grouped(book, n, e, &mut number, lead, order);
    let counts = first_matrices::index_of(
        book, n, count, &number, t, parens, marks, shadows, places,
    );
    containment::contents(n, counts.nodes, parens, marks, shadows, places, lead, d);
    closure::steps(book, lead, n, e);
    closure::meeting(book, n, voids, LeaderSteps { e, order, lead }, t);
    if verdicts::clashes(book, voids, d, t) {
        return Err(Clash {
            place: contradiction(book, n, voids, e, d, t),
        });
    }
    Ok(counts)
}

// The same for a caller that wants no more of the index than its counts.
pub fn settle_counted(
    book: &[u8],
    n: usize,
    voids: &mut [u64],
    e: &mut Matrix,
    order: &mut RowNumbers,
    lead: &mut RowNumbers,
    d: &mut Matrix,
    t: &mut Matrix,
) -> Result<index::Counts, Clash>
    requires { (book_check book.now ≡ Ok n) × (length voids.old ≡ ROW-WORDS) }
    ensures { MarksOf book.now voids.new × Settles (void_of voids.new) n book.now d.new t.new (row result) × Steps n book.now e.new order.new lead.new (row result) × Counts n book.now result }
{
    let mut parens = [0u8; index::PARENTHESES_BYTES];
    let mut marks = [0u8; index::MARKS_BYTES];
    let mut shadows = [0u16; index::SHADOWS];
    let mut places = [0u16; index::PLACES];
    settle(
        book,
        n,
        voids,
        e,
        order,
        lead,
        d,
        t,
        &mut parens,
        &mut marks,
        &mut shadows,
        &mut places,
    )
}

// Settles row 14 of a run with the marks of its book, for a caller that wants no index.
pub fn settle_alone(
    run: &[u8],
    n: usize,
    voids: &[u64],
    e: &mut Matrix,
    order: &mut RowNumbers,
    lead: &mut RowNumbers,
    d: &mut Matrix,
    t: &mut Matrix,
) -> Result<(), Clash>
    requires { Bounded n (facts run.now) × Voids voids.now }
    ensures { Settles (void_of voids.now) n run.now d.new t.new result × Steps n run.now e.new order.new lead.new result }
{
    if first_matrices::begin_alone(run, n, voids, e, order, lead, d, t) {
        return Err(Clash {
            place: contradiction(run, n, voids, e, d, t),
        });
    }
    Ok(())
}

// The same for a caller that needs D and T alone.
pub fn settle_run(
    run: &[u8],
    n: usize,
    voids: &[u64],
    e: &mut Matrix,
    d: &mut Matrix,
    t: &mut Matrix,
) -> Result<(), Clash>
    requires { Bounded n (facts run.now) × Voids voids.now }
    ensures { Settles (void_of voids.now) n run.now d.new t.new result }
{
    let mut order = [0u16; matrices::ROWS];
    let mut lead = [0u16; matrices::ROWS];
    settle_alone(run, n, voids, e, &mut order, &mut lead, d, t)
}

// The marks of a book of n pieces that passes the rows before, then its row 14, D and T.
pub fn settle_book(
    book: &[u8],
    n: usize,
    voids: &mut [u64],
    e: &mut Matrix,
    d: &mut Matrix,
    t: &mut Matrix,
) -> Result<(), Clash>
    requires { (book_check book.now ≡ Ok n) × (length voids.old ≡ ROW-WORDS) }
    ensures { MarksOf book.now voids.new × Settles (void_of voids.new) n book.now d.new t.new result }
{
    closure::marking::mark_voids(book, voids);
    settle_run(book, n, voids, e, d, t)
}
