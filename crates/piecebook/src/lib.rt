// The calls of include/piecebook.h: those of `answers`, `grids`, `working`, `convert`, `catalog`, `replicates`, `compare`, `chain_check`, `chain_writing`, `clash` and `text`, with document 01's numbers for an outcome.
#![tactic(auto)]

ghost use Rattle.std.specs.Prelude.{◌≡◌, []};
ghost use Rattle.outcomes.specs.Lent.{lent};
ghost use Rattle.outcomes.specs.Demands.{Demand2, Demand3, Contradicted};
ghost use Rattle.outcomes.specs.Fitting.{Fitting};
ghost use Rattle.piecebook.specs.Exported.{Exported};
ghost use Rattle.piecebook.specs.GridResult.{GridResult};
ghost use Rattle.piecebook.specs.OpenBook.{Started, Added, Withdrawn, Answered, Replied, state_of};
ghost use Rattle.convert.specs.Converted.{converted};
ghost use Rattle.convert.specs.Same.{InForce, SameAnswers};
ghost use Rattle.piecebook.specs.Converts.{Converts};
ghost use Rattle.piecebook.specs.Replicates.{Replicates};

use grids::rounds::Grid;
use matrices::Matrix;
use outcomes::Counts;
use records::Refused;
use replicates::Window;
use results::{PiecebookConverted, PiecebookResult};
use working::{Settled, Working};

pub mod catalogs;
pub mod chain_calls;
pub mod comparisons;
pub mod results;
pub mod texts;

#[unsafe(no_mangle)]
pub extern "C" fn piecebook_answer_with(
    book: &[u8],
    claims: &[u8],
    parens: &mut [u8],
    marks: &mut [u8],
    shadows: &mut [u16],
    places: &mut [u16],
    answers: &mut [u8],
    e: &mut Matrix,
    d: &mut Matrix,
    t: &mut Matrix,
    u: &mut Matrix,
    p: &mut Matrix,
    q: &mut Matrix,
) -> PiecebookResult
    ensures exported { Exported book.now claims.now (lent parens.old marks.old shadows.old places.old answers.old) result (lent parens.new marks.new shadows.new places.new answers.new) }
    ensures demand2 { Demand2 book.now claims.now answers.new result.number }
    ensures demand3 { Demand3 book.now claims.now (lent parens.old marks.old shadows.old places.old answers.old) answers.new result.number }
    ensures contradicted { Contradicted book.now result.number result.place }
    ensures fitting { Fitting book.now result.number result.nodes }
{
    let outcome = answers::answer_claims(
        book, claims, parens, marks, shadows, places, answers, e, d, t, u, p, q,
    );
    results::result_of(outcome)
}

#[unsafe(no_mangle)]
pub extern "C" fn piecebook_index_with(
    book: &[u8],
    parens: &mut [u8],
    marks: &mut [u8],
    shadows: &mut [u16],
    places: &mut [u16],
    e: &mut Matrix,
    d: &mut Matrix,
    t: &mut Matrix,
    u: &mut Matrix,
    p: &mut Matrix,
    q: &mut Matrix,
) -> PiecebookResult
    ensures exported { Exported book.now [] (lent parens.old marks.old shadows.old places.old []) result (lent parens.new marks.new shadows.new places.new []) }
    ensures demand2 { Demand2 book.now [] [] result.number }
    ensures demand3 { Demand3 book.now [] (lent parens.old marks.old shadows.old places.old []) [] result.number }
    ensures contradicted { Contradicted book.now result.number result.place }
    ensures fitting { Fitting book.now result.number result.nodes }
{
    let outcome = answers::write_index(book, parens, marks, shadows, places, e, d, t, u, p, q);
    results::result_of(outcome)
}

// The grids as include/piecebook.h has them.
#[repr(C)]
#[derive(Clone, Copy)]
pub struct PiecebookGrids {
    pub number: usize,
    pub place: usize,
    pub part: Grid,
    pub apart: Grid,
    pub meets: Grid,
    pub notpart: Grid,
}

#[unsafe(no_mangle)]
pub extern "C" fn piecebook_grid_with(
    book: &[u8],
    e: &mut Matrix,
    d: &mut Matrix,
    t: &mut Matrix,
) -> PiecebookGrids
    ensures { GridResult book.now result }
{
    let sheet = grids::grid(book, e, d, t);
    let outcome = sheet.outcome;
    let grids = sheet.grids;
    let part = grids.part;
    let apart = grids.apart;
    let meets = grids.meets;
    let notpart = grids.notpart;
    let result = results::result_of(outcome);
    PiecebookGrids {
        number: result.number,
        place: result.place,
        part,
        apart,
        meets,
        notpart,
    }
}

// The counts of a working book, which the caller keeps beside its record area.
#[repr(C)]
#[derive(Clone, Copy)]
pub struct PiecebookWorking {
    pub records: usize,
    pub pieces: usize,
}

// What a call on a working book comes to; the answer is 0 but for an answered claim.
#[repr(C)]
#[derive(Clone, Copy)]
pub struct PiecebookWorkingResult {
    pub number: usize,
    pub place: usize,
    pub answer: usize,
}

// The counts after a call, and its result.
#[repr(C)]
#[derive(Clone, Copy)]
pub struct PiecebookWorked {
    pub working: PiecebookWorking,
    pub result: PiecebookWorkingResult,
}

fn told(outcome: Result<Counts, Refused>, answer: usize) -> PiecebookWorkingResult
    ensures { Replied outcome answer result }
{
    match outcome {
        Ok(_) => PiecebookWorkingResult {
            number: 0,
            place: 0,
            answer,
        },
        Err(refused) => PiecebookWorkingResult {
            number: usize::from(records::refusal_number(refused.refusal)),
            place: refused.place,
            answer,
        },
    }
}

fn state_of(working: PiecebookWorking) -> Working
    ensures { result ≡ state_of working }
{
    Working {
        records: working.records,
        pieces: working.pieces,
    }
}

fn worked(settled: Settled) -> PiecebookWorked
    ensures { (state_of result.working ≡ settled.working) × Replied settled.outcome 0 result.result }
{
    let state = settled.working;
    let outcome = settled.outcome;
    PiecebookWorked {
        working: PiecebookWorking {
            records: state.records,
            pieces: state.pieces,
        },
        result: told(outcome, 0),
    }
}

// By value: an addition, a withdrawal and a claim.
pub fn add_to(
    was: PiecebookWorking,
    area: &mut [u8],
    addition: &[u8],
    e: &mut Matrix,
    d: &mut Matrix,
    t: &mut Matrix,
) -> PiecebookWorked
    ensures { Added was area.old addition.now result.result result.working area.new }
{
    let settled = working::add_to(state_of(was), area, addition, e, d, t);
    worked(settled)
}

pub fn withdraw_from(
    was: PiecebookWorking,
    area: &mut [u8],
    number: usize,
    e: &mut Matrix,
    d: &mut Matrix,
    t: &mut Matrix,
) -> PiecebookWorked
    ensures { Withdrawn was area.old number result.result result.working area.new }
{
    let settled = working::withdraw_from(state_of(was), area, number, e, d, t);
    worked(settled)
}

pub fn ask_of(
    was: PiecebookWorking,
    area: &[u8],
    claim: &[u8],
    e: &mut Matrix,
    d: &mut Matrix,
    t: &mut Matrix,
    u: &mut Matrix,
    p: &mut Matrix,
    q: &mut Matrix,
) -> PiecebookWorkingResult
    ensures { Answered was area.now claim.now result }
{
    let asked = working::ask_of(state_of(was), area, claim, e, d, t, u, p, q);
    let outcome = asked.outcome;
    told(outcome, usize::from(asked.answer))
}

// The counts are lent as two numbers, which is how C lays them out. A refused start leaves them.
#[unsafe(no_mangle)]
pub extern "C" fn piecebook_start_with(
    state: &mut [usize; 2],
    area: &mut [u8],
    e: &mut Matrix,
    d: &mut Matrix,
    t: &mut Matrix,
) -> PiecebookWorkingResult
    ensures { Started state.old area.old result state.new area.new }
{
    let settled = working::start(area, e, d, t);
    let begun = settled.working;
    let outcome = settled.outcome;
    let Ok(_) = outcome else {
        return told(outcome, 0);
    };
    *state = [begun.records, begun.pieces];
    told(outcome, 0)
}

#[unsafe(no_mangle)]
pub extern "C" fn piecebook_add_with(
    state: &mut PiecebookWorking,
    area: &mut [u8],
    addition: &[u8],
    e: &mut Matrix,
    d: &mut Matrix,
    t: &mut Matrix,
) -> PiecebookWorkingResult
    ensures { Added state.old area.old addition.now result state.new area.new }
{
    let done = add_to(*state, area, addition, e, d, t);
    *state = done.working;
    done.result
}

#[unsafe(no_mangle)]
pub extern "C" fn piecebook_withdraw_with(
    state: &mut PiecebookWorking,
    area: &mut [u8],
    number: usize,
    e: &mut Matrix,
    d: &mut Matrix,
    t: &mut Matrix,
) -> PiecebookWorkingResult
    ensures { Withdrawn state.old area.old number result state.new area.new }
{
    let done = withdraw_from(*state, area, number, e, d, t);
    *state = done.working;
    done.result
}

// A claim changes nothing.
#[unsafe(no_mangle)]
pub extern "C" fn piecebook_ask_with(
    state: &mut PiecebookWorking,
    area: &[u8],
    claim: &[u8],
    e: &mut Matrix,
    d: &mut Matrix,
    t: &mut Matrix,
    u: &mut Matrix,
    p: &mut Matrix,
    q: &mut Matrix,
) -> PiecebookWorkingResult
    ensures { Answered state.old area.now claim.now result × (state.new ≡ state.old) }
{
    ask_of(*state, area, claim, e, d, t, u, p, q)
}

#[unsafe(no_mangle)]
pub extern "C" fn piecebook_convert_with(
    book: &[u8],
    out: &mut [u8],
    e: &mut Matrix,
    d: &mut Matrix,
    t: &mut Matrix,
) -> PiecebookConverted
    ensures converts { Converts book.now out.old result out.new }
    ensures accepted { result.number ≡ 0 → InForce book.now (converted book.now) }
    ensures same { result.number ≡ 0 → SameAnswers book.now (converted book.now) }
{
    let conversion = convert::convert(book, out, e, d, t);
    results::converted_of(conversion)
}

// What a part of the measurement log comes to, as include/piecebook.h has it, and the window to hand to the next.
#[repr(C)]
#[derive(Clone, Copy)]
pub struct PiecebookReplicatesResult {
    pub number: usize,
    pub place: usize,
    pub window: Window,
}

#[unsafe(no_mangle)]
pub extern "C" fn piecebook_replicates_with(
    book: &[u8],
    window: Window,
    log: &[u8],
    out: &mut [u8],
    e: &mut Matrix,
    d: &mut Matrix,
    t: &mut Matrix,
    a: &mut Matrix,
) -> PiecebookReplicatesResult
    ensures { Replicates book.now window log.now out.old result out.new }
{
    let done = replicates::replicates(book, window, log, out, e, d, t, a);
    let outcome = done.outcome;
    let next = done.window;
    let reply = told(outcome, 0);
    PiecebookReplicatesResult {
        number: reply.number,
        place: reply.place,
        window: next,
    }
}
