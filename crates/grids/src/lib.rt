// The grids of a book of at most 64 pieces, one for each kind of claim: its facts as bits, closed under the rules by rounds.
#![tactic(auto)]

ghost use Rattle.std.specs.Prelude.{◌≡◌, not, ◌&&◌, [], ℕ, ◌<◌, ◌≤◌, eqb, ltb, Ok, Err};
ghost use Rattle.matrices.specs.Matrix.{bit};
ghost use Rattle.rules.specs.Fact.{fact_of};
ghost use Rattle.grids.specs.Grid.{Inserted};
ghost use Rattle.grids.specs.Loaded.{Put, Loaded, Loadable};
ghost use Rattle.grids.specs.Answers.{Answers};
ghost use Rattle.records.specs.Facts.{facts};
ghost use Rattle.records.specs.Marked.{marked};
ghost use Rattle.records.specs.Check.{book_check};
ghost use Rattle.grids.specs.Gridded.{Blank, Gridded};
ghost use Rattle.grids.specs.Sizes.{SIDE};
ghost use Rattle.records.specs.Sizes.{NOTPART, PART};

use matrices::Matrix;
use outcomes::Counts;
use records::{Refusal, Refused};
use rounds::{Grid, Grids};

pub mod rounds;

// The grid with bit b of row a set.
fn insert(l: Grid, a: usize, b: usize) -> Grid
    requires { (a < SIDE) × (b < SIDE) }
    ensures { Inserted l result a b }
{
    let mut r = l;
    r[a] = l[a] | (1 << b);
    r
}

// The grids with the bit of a fact set.
fn put(g: Grids, kind: u8, a: usize, b: usize) -> Grids
    requires { (PART ≤ kind) × (kind ≤ NOTPART) × (a < SIDE) × (b < SIDE) }
    ensures { Put g result (fact_of kind a b) }
{
    match kind {
        records::PART => Grids {
            part: insert(g.part, a, b),
            ..g
        },
        records::APART => Grids {
            apart: insert(g.apart, a, b),
            ..g
        },
        records::MEETS => Grids {
            meets: insert(g.meets, a, b),
            ..g
        },
        _ => Grids {
            notpart: insert(g.notpart, a, b),
            ..g
        },
    }
}

// The row of the pieces below n.
fn pieces_below(n: usize) -> u64
    requires { n ≤ SIDE }
    ensures { (k : ℕ) → bit result k ≡ ltb k n }
{
    let mut r: u64 = 0;
    for i in 0..n {
        r |= 1 << i;
    }
    r
}

// The bit of piece a where it is not marked; else no bit.
fn live(marks: u64, a: usize) -> u64
    requires { a < SIDE }
    ensures { (k : ℕ) → bit result k ≡ (eqb a k && not (bit marks a)) }
{
    if (marks >> a) & 1 == 1 {
        return 0;
    }
    1 << a
}

// Four grids without a bit.
fn no_bits() -> Grids
    ensures { Blank result }
{
    Grids {
        part: [0u64; rounds::SIDE],
        apart: [0u64; rounds::SIDE],
        meets: [0u64; rounds::SIDE],
        notpart: [0u64; rounds::SIDE],
    }
}

// The grids of the rules without a premise: n pieces, those in `marks` void.
fn start(n: usize, marks: u64) -> Grids
    requires { n ≤ SIDE }
    ensures { Loaded (bit marks) n [] result }
{
    let all = pieces_below(n);
    let mut part = [0u64; rounds::SIDE];
    let mut apart = [0u64; rounds::SIDE];
    let mut meets = [0u64; rounds::SIDE];
    for a in 0..rounds::SIDE {
        let whole = rounds::chosen(marks, a, all);
        part[a] = rounds::chosen(all, a, all & ((1 << a) | 1 | whole));
        apart[a] = rounds::chosen(all, a, whole);
        meets[a] = rounds::chosen(all, a, all & live(marks, a));
    }
    Grids {
        part,
        apart,
        meets,
        notpart: [0u64; rounds::SIDE],
    }
}

// The grids of the rules without a premise, with the facts of the book.
fn load(book: &[u8], n: usize, marks: u64) -> Grids
    requires { Loadable n book.now }
    ensures { Loaded (bit marks) n (facts book.now) result }
{
    let count = book.len() / records::RECORD_BYTES;
    let mut g = start(n, marks);
    for i in 0..count {
        let r = records::record_at(book, i);
        if records::states_fact(r) {
            g = put(g, r.kind, r.a, r.b);
        }
    }
    g
}

// What the call comes to, and the grids: without a bit where it is refused.
#[derive(Clone, Copy)]
pub struct GridAnswer {
    pub outcome: Result<Counts, Refused>,
    pub grids: Grids,
}

fn refuse(refused: Refused) -> GridAnswer
    ensures { (result.outcome ≡ Err refused) × Blank result.grids }
{
    GridAnswer {
        outcome: Err(refused),
        grids: no_bits(),
    }
}

// The grids of an accepted book of n pieces.
fn grids_of(book: &[u8], n: usize) -> Grids
    requires { (book_check book.now ≡ Ok n) × (n ≤ SIDE) }
    ensures { Answers (marked book.now) n (facts book.now) result }
{
    let mut voids = [0u64; matrices::ROW_WORDS];
    closure::marking::mark_voids(book, &mut voids);
    rounds::close(load(book, n, voids[0]))
}

// The grids of a book: rows 3 to 14, then 16.
pub fn grid(book: &[u8], e: &mut Matrix, d: &mut Matrix, t: &mut Matrix) -> GridAnswer
    ensures { Gridded book.now result.outcome result.grids }
{
    let outcome = answers::judge_run(book, e, d, t);
    match outcome {
        Err(refused) => refuse(refused),
        Ok(counts) => {
            if rounds::SIDE < counts.pieces {
                return refuse(Refusal::TooManyPieces.at(0));
            }
            GridAnswer {
                outcome,
                grids: grids_of(book, counts.pieces),
            }
        }
    }
}
