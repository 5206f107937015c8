// The lines of a chain: the claim with its answer, and a line a step.
ghost use Rattle.std.specs.Prelude.{◌≡◌};
ghost use Rattle.chain_format.specs.Step.{steps};
ghost use Rattle.pages.specs.Text.{field};
ghost use Rattle.pages.specs.Put.{Put};
ghost use Rattle.pages.specs.Entry.{entry};
ghost use Rattle.chain_pages.specs.StepLine as on;
ghost use Rattle.chain_pages.specs.StepLine.{grounds, ground, step_line, step_lines};
ghost use Rattle.chain_pages.specs.AnswerLine.{answer_line};
ghost use Rattle.chain_pages.specs.ChainText.{chain_text};

use chain_format::Step;
use records::Record;
use verdicts::Answer;

// How many numbers a step's line has behind its words.
pub fn count(rule: u8) -> u8
    ensures { result ≡ on.count rule }
{
    let counts = [1u8, 2, 2, 0, 0, 2, 2, 2, 2, 0, 1, 1];
    let i = usize::from(rule);
    if i < counts.len() { counts[i] } else { 0 }
}

// The words of a step's rule, and the byte behind them.
fn put_rule(page: &mut [u8], at: usize, rule: u8, last: u8) -> usize
    ensures { Put page.old at (field (entry rule grounds) last) page.new result }
{
    let table =
        b"RECORD\nRULE a FROM\nRULE b FROM\nRULE c\nRULE f\nRULE a' FROM\nRULE b' FROM\nRULE c' FROM\nRULE d' FROM\nRULE e'\nRULE d RECORD\nRULE e RECORD\n";
    pages::put_entry(page, at, table, usize::from(rule), last)
}

// What a step rests on.
fn put_ground(page: &mut [u8], at: usize, s: Step) -> usize
    ensures { Put page.old at (ground s) page.new result }
{
    let n = count(s.rule);
    if n == 0 {
        return put_rule(page, at, s.rule, b'\n');
    }
    let at = put_rule(page, at, s.rule, b' ');
    if n == 1 {
        return pages::put_number(page, at, s.first, b'\n');
    }
    let at = pages::put_number(page, at, s.first, b' ');
    pages::put_number(page, at, s.second, b'\n')
}

// The line of step i.
pub fn put_step(page: &mut [u8], at: usize, i: usize, s: Step) -> usize
    ensures { Put page.old at (step_line i s) page.new result }
{
    let at = pages::put_number(page, at, i, b' ');
    let at = sentences::put_kind(page, at, s.kind, b' ');
    let at = pages::put_number(page, at, s.a, b' ');
    let at = pages::put_number(page, at, s.b, b' ');
    put_ground(page, at, s)
}

// The lines of all steps.
pub fn put_steps(page: &mut [u8], at: usize, c: &[u8]) -> usize
    ensures { Put page.old at (step_lines c.now (steps c.now)) page.new result }
{
    let n = c.len() / chain_format::STEP_BYTES;
    let mut end = at;
    for i in 0..n {
        let s = chain_format::step_at(c, i);
        end = put_step(page, end, i, s);
    }
    end
}

// The line of the claim with its answer.
pub fn put_answered(page: &mut [u8], at: usize, claim: Record, answer: u8) -> usize
    ensures { Put page.old at (answer_line claim answer) page.new result }
{
    let at = sentences::put_kind(page, at, claim.kind, b' ');
    let at = pages::put_number(page, at, claim.a, b' ');
    let at = pages::put_number(page, at, claim.b, b' ');
    if claim.origin == 0 {
        return sentences::put_answer(page, at, answer, b'\n');
    }
    let at = pages::put(page, at, b"sheets ");
    sentences::put_answer(page, at, answer, b'\n')
}

// The text of a chain.
pub fn put_chain(page: &mut [u8], at: usize, claim: Record, answer: Answer, c: &[u8]) -> usize
    ensures { Put page.old at (chain_text claim answer c.now) page.new result }
{
    let at = put_answered(page, at, claim, u8::from(answer));
    put_steps(page, at, c)
}
