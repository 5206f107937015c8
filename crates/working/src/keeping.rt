// What a working book keeps after a call: the counts and the record area. Acceptance writes both, a refusal leaves both.
ghost use Rattle.records.specs.Refused.{refused_at};
ghost use Rattle.std.specs.Prelude.{◌≡◌, ◌≤◌, length};
ghost use Rattle.records.specs.Check.{book_check};
ghost use Rattle.outcomes.specs.One.{by_one};
ghost use Rattle.working.specs.Kept.{kept_state, kept_area, image};
ghost use Rattle.records.specs.Sizes.{BOOK-BYTES, RECORD-BYTES};

use crate::runs;
use outcomes::Counts;
use records::{Refusal, Refused};

// The counts of the records that stand and of the pieces that they name.
#[derive(Clone, Copy)]
pub struct Working {
    pub records: usize,
    pub pieces: usize,
}

// The counts after a call, and what it came to.
#[derive(Clone, Copy)]
pub struct Settled {
    pub working: Working,
    pub outcome: Result<Counts, Refused>,
}

// What a claim came to, and its answer byte: 0 with a refusal.
#[derive(Clone, Copy)]
pub struct Asked {
    pub outcome: Result<Counts, Refused>,
    pub answer: u8,
}

// The counts and the area after a call that came to the outcome: acceptance writes the run to the front of the area, with zeros behind it.
pub fn settle(
    was: Working,
    area: &mut [u8],
    run: &[u8],
    records: usize,
    outcome: Result<Counts, Refused>,
) -> Settled
    requires { (length run.now ≤ BOOK-BYTES) × (BOOK-BYTES ≤ length area.old) }
    ensures { (result.outcome ≡ outcome) × ((result.working ≡ kept_state was records outcome) × (area.new ≡ kept_area area.old (image run.now) outcome)) }
{
    match outcome {
        Err(_) => Settled {
            working: was,
            outcome,
        },
        Ok(counts) => {
            runs::write_runs(run, &run[..0], &mut area[..records::BOOK_BYTES]);
            Settled {
                working: Working {
                    records,
                    pieces: counts.pieces,
                },
                outcome,
            }
        }
    }
}

// A refusal at place 0, with the counts as they were.
pub fn refuse(was: Working, refusal: Refusal) -> Settled
    ensures { (result.outcome ≡ refused_at refusal 0) × (result.working ≡ was) }
{
    Settled {
        working: was,
        outcome: Err(refusal.at(0)),
    }
}

// A claim of other than 6 bytes: the book's rows, then 10.
pub fn misfit(run: &[u8], claim: &[u8]) -> Result<Counts, Refused>
    requires { length claim.now ≡ RECORD-BYTES → ⊥ }
    ensures { result ≡ by_one run.now claim.now (book_check run.now) }
{
    records::check_book(run)?;
    Err(Refusal::ClaimsLength.at(0))
}
