// A page held against the text of a chain, line by line.
ghost use Rattle.std.specs.Prelude.{◌≤◌, ◌≡◌, length};
ghost use Rattle.records.specs.Record.{record_at};
ghost use Rattle.chain_format.specs.Step.{steps};
ghost use Rattle.verdicts.specs.Answers.{answer_byte};
ghost use Rattle.chain_pages.specs.StepLine.{step_line, step_lines};
ghost use Rattle.chain_pages.specs.AnswerLine.{answer_line};
ghost use Rattle.chain_pages.specs.ChainText.{chain_text};
ghost use Rattle.chain_pages.specs.Begins.{Passed, Same, Narrow};
ghost use Rattle.chain_format.specs.Sizes.{CHAIN-BYTES};
ghost use Rattle.records.specs.Sizes.{RECORD-BYTES};

use chain_format::Step;
use verdicts::Answer;

// The longest line of a step, and of a claim with its answer.
const LINE_BYTES: usize = 52;

// Where a text ends that stands at a place; behind the page where another stands there.
fn pass(page: &[u8], at: usize, text: &[u8]) -> usize
    ensures { Passed page.now at text.now result }
{
    let past = page.len() + 1;
    if page.len() < at {
        return past;
    }
    if page.len() - at < text.len() {
        return past;
    }
    let end = at + text.len();
    if check::same(&page[at..end], text) {
        return end;
    }
    past
}

// Where the line of step i ends that stands at a place.
fn pass_step(page: &[u8], at: usize, i: usize, s: Step) -> usize
    requires { Narrow i s }
    ensures { Passed page.now at (step_line i s) result }
{
    let mut line = [0u8; LINE_BYTES];
    let n = crate::lines::put_step(&mut line, 0, i, s);
    pass(page, at, &line[..n])
}

// Where the lines of all steps end that stand at a place.
fn pass_steps(page: &[u8], at: usize, c: &[u8]) -> usize
    requires { length c.now ≤ CHAIN-BYTES }
    ensures { Passed page.now at (step_lines c.now (steps c.now)) result }
{
    let n = c.len() / chain_format::STEP_BYTES;
    let mut end = at;
    for i in 0..n {
        end = pass_step(page, end, i, chain_format::step_at(c, i));
    }
    end
}

// Where the line of the claim with its answer ends, at the start of the page.
fn pass_answer(page: &[u8], claim: &[u8], answer: Answer) -> usize
    requires { length claim.now ≡ RECORD-BYTES }
    ensures { Passed page.now 0 (answer_line (record_at claim.now 0) (answer_byte answer)) result }
{
    let mut line = [0u8; LINE_BYTES];
    let r = records::record_at(claim, 0);
    let n = crate::lines::put_answered(&mut line, 0, r, u8::from(answer));
    pass(page, 0, &line[..n])
}

// Whether the page is the text of the claim, the answer and the steps.
pub fn is_text(page: &[u8], claim: &[u8], answer: Answer, c: &[u8]) -> bool
    requires { (length claim.now ≡ RECORD-BYTES) × (length c.now ≤ CHAIN-BYTES) }
    ensures { Same page.now (chain_text (record_at claim.now 0) answer c.now) result }
{
    let at = pass_answer(page, claim, answer);
    pass_steps(page, at, c) == page.len()
}
