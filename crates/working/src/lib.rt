// A working book: records are added and withdrawn one at a time, and claims are answered, each as a fresh call on the
// records then standing would have it. The records stand in an area of bytes that the caller lends beside the counts.
#![tactic(auto)]

ghost use Rattle.std.specs.Prelude.{◌≡◌, ◌≤◌, length};
ghost use Rattle.outcomes.specs.Fresh.{fresh_call};
ghost use Rattle.working.specs.Rows.{answer_of};
ghost use Rattle.working.specs.Kept.{Extended, Started, Added, Withdrawn, Answered};
ghost use Rattle.records.specs.Sizes.{BOOK-BYTES, RECORD-BYTES};

use keeping::Asked;
pub use keeping::{Settled, Working};
use matrices::Matrix;
use records::Refusal;

pub mod keeping;
pub mod runs;

// A fresh call on the run that a call would leave, and what is kept after it.
fn keep(
    was: Working,
    area: &mut [u8],
    run: &[u8],
    e: &mut Matrix,
    d: &mut Matrix,
    t: &mut Matrix,
) -> Settled
    requires { (length run.now ≤ BOOK-BYTES) × (BOOK-BYTES ≤ length area.old) }
    ensures { Extended was area.old run.now result area.new }
{
    let outcome = answers::judge_run(run, e, d, t);
    keeping::settle(was, area, run, run.len() / records::RECORD_BYTES, outcome)
}

// A start: no records.
pub fn start(area: &mut [u8], e: &mut Matrix, d: &mut Matrix, t: &mut Matrix) -> Settled
    ensures { Started area.old result.outcome result.working area.new }
{
    let none = Working {
        records: 0,
        pieces: 0,
    };
    if area.len() < records::BOOK_BYTES {
        return keeping::refuse(none, Refusal::ShortBuffer);
    }
    let run = [0u8; 0];
    keep(none, area, &run, e, d, t)
}

pub fn add_to(
    was: Working,
    area: &mut [u8],
    addition: &[u8],
    e: &mut Matrix,
    d: &mut Matrix,
    t: &mut Matrix,
) -> Settled
    ensures { Added was area.old addition.now result.outcome result.working area.new }
{
    let records = was.records;
    if area.len() < records::BOOK_BYTES {
        return keeping::refuse(was, Refusal::ShortBuffer);
    }
    if records::RECORDS < records {
        return keeping::refuse(was, Refusal::TooManyRecords);
    }
    if addition.len() != records::RECORD_BYTES {
        return keeping::refuse(was, Refusal::BookLength);
    }
    if records::RECORDS <= records {
        return keeping::refuse(was, Refusal::TooManyRecords);
    }
    let mut run = [0u8; records::BOOK_BYTES];
    let end = runs::extend(area, records, addition, &mut run);
    keep(was, area, &run[..end], e, d, t)
}

pub fn withdraw_from(
    was: Working,
    area: &mut [u8],
    number: usize,
    e: &mut Matrix,
    d: &mut Matrix,
    t: &mut Matrix,
) -> Settled
    ensures { Withdrawn was area.old number result.outcome result.working area.new }
{
    let records = was.records;
    if area.len() < records::BOOK_BYTES {
        return keeping::refuse(was, Refusal::ShortBuffer);
    }
    if records::RECORDS < records {
        return keeping::refuse(was, Refusal::TooManyRecords);
    }
    if records <= number {
        return keeping::refuse(was, Refusal::NotStanding);
    }
    let mut run = [0u8; records::BOOK_BYTES];
    let end = runs::remove(area, records, number, &mut run);
    keep(was, area, &run[..end], e, d, t)
}

// A fresh call on a run of records and one claim.
fn answer_run(
    run: &[u8],
    claim: &[u8],
    e: &mut Matrix,
    d: &mut Matrix,
    t: &mut Matrix,
    u: &mut Matrix,
    p: &mut Matrix,
    q: &mut Matrix,
) -> Asked
    requires { length claim.now ≡ RECORD-BYTES }
    ensures { (result.outcome ≡ fresh_call run.now claim.now) × (result.answer ≡ answer_of run.now claim.now result.outcome) }
{
    let mut answers = [0u8; 1];
    let outcome = answers::answer_alone(run, claim, e, d, t, u, p, q, &mut answers);
    Asked {
        outcome,
        answer: answers[0],
    }
}

pub fn ask_of(
    was: Working,
    area: &[u8],
    claim: &[u8],
    e: &mut Matrix,
    d: &mut Matrix,
    t: &mut Matrix,
    u: &mut Matrix,
    p: &mut Matrix,
    q: &mut Matrix,
) -> Asked
    ensures { Answered was area.now claim.now result }
{
    let records = was.records;
    if area.len() < records::BOOK_BYTES {
        return Asked {
            outcome: Err(Refusal::ShortBuffer.at(0)),
            answer: 0,
        };
    }
    if records::RECORDS < records {
        return Asked {
            outcome: Err(Refusal::TooManyRecords.at(0)),
            answer: 0,
        };
    }
    let end = records::RECORD_BYTES * records;
    if claim.len() != records::RECORD_BYTES {
        let outcome = keeping::misfit(&area[..end], claim);
        return Asked { outcome, answer: 0 };
    }
    answer_run(&area[..end], claim, e, d, t, u, p, q)
}
