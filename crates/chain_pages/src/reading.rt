// The page of `why` read back. This only guesses, from a few bytes of each line: what was guessed is held against the page.
ghost use Rattle.std.specs.Prelude.{◌≡◌, ◌+◌, ◌*◌, ◌≤◌, ◌%◌, length, take, drop, get_or};
ghost use Rattle.chain_pages.specs.Read.{place_in, kind_by, rule_in, origin_by, answer_by, steps_in};
ghost use Rattle.chain_pages.specs.Found.{DigitsAt, FoundAt, FoundIf, StepAt, HeadOf};
ghost use Rattle.chain_format.specs.Sizes.{CHAIN-BYTES, STEP-BYTES, STEPS};
ghost use Rattle.numbers.specs.Sizes.{BYTE-VALUES};

use chain_format::Step;
use records::Record;
use text::words::{Sort, Word};
use verdicts::Answer;

// A number, 0 where there is none, and the place behind it.
#[derive(Clone, Copy, Debug, PartialEq, Eq)]
pub struct Found {
    pub value: usize,
    pub next: usize,
}

#[derive(Clone, Copy)]
pub struct StepFound {
    pub step: Step,
    pub next: usize,
}

#[derive(Clone, Copy)]
pub struct Head {
    pub claim: Record,
    pub answer: Answer,
    pub next: usize,
}

fn byte(s: &[u8], i: usize) -> u8
    ensures { result ≡ get_or s.now i 0 }
{
    s.get(i).copied().unwrap_or(0)
}

// The next digits: what is no digit is passed over.
fn digits_behind(s: &[u8], at: usize) -> Word
    requires { at ≤ length s.now }
    ensures { DigitsAt s.now at result.from result.to }
{
    let from = text::words::run_end(Sort::Gap, s, at);
    let to = text::words::run_end(Sort::Digit, s, from);
    Word { from, to }
}

// The next number.
fn number_behind(s: &[u8], at: usize) -> Found
    requires { at ≤ length s.now }
    ensures { FoundAt s.now at result.value result.next }
{
    let Word { from, to } = digits_behind(s, at);
    let value = text::words::read_number(&s[from..to]).unwrap_or(0);
    Found { value, next: to }
}

// The next number where one is wanted.
fn number_if(n: usize, s: &[u8], at: usize) -> Found
    requires { at ≤ length s.now }
    ensures { FoundIf n s.now at result.value result.next }
{
    if n == 0 {
        return Found { value: 0, next: at };
    }
    number_behind(s, at)
}

// The place of a byte in a table.
fn place_of(table: &[u8], x: u8) -> u8
    ensures { result ≡ place_in 0 table.now x % BYTE-VALUES }
{
    for i in 0..table.len() {
        if table[i] == x {
            return numbers::low(i);
        }
    }
    numbers::low(table.len())
}

fn kind_by(x: u8) -> u8
    ensures { result ≡ kind_by x }
{
    place_of(b".PAMN", x)
}

// The rule behind the second number of a step: ` RULE a' FROM`, ` RECORD`.
fn rule_at(s: &[u8], at: usize) -> u8
    requires { at ≤ length s.now }
    ensures { result ≡ rule_in (drop at s.now) }
{
    let x = byte(s, at + 6);
    if byte(s, at + 7) == b'\'' {
        return place_of(b".....abcde", x);
    }
    place_of(b"Dabcf.....de", x)
}

// A step, from behind its number on.
fn read_step(s: &[u8], at: usize) -> StepFound
    requires { at ≤ length s.now }
    ensures { StepAt s.now at result.step result.next }
{
    let kind = kind_by(byte(s, at + 1));
    let a = number_behind(s, at);
    let b = number_behind(s, a.next);
    let rule = rule_at(s, b.next);
    let n = usize::from(crate::lines::count(rule));
    let first = number_if(n, s, b.next);
    let second = number_if(n / 2, s, first.next);
    let step = Step {
        rule,
        kind,
        a: a.value,
        b: b.value,
        first: first.value,
        second: second.value,
    };
    StepFound {
        step,
        next: second.next,
    }
}

// Reads steps, 16,400 at most, into the front of c, and says how many.
pub fn read_steps(s: &[u8], at: usize, c: &mut [u8]) -> usize
    requires { (at ≤ length s.now) × (CHAIN-BYTES ≤ length c.old) }
    ensures { (result ≤ STEPS) × (take (STEP-BYTES * result) c.new ≡ steps_in STEPS (drop at s.now)) }
{
    let mut at = at;
    for n in 0..chain_format::STEPS {
        let Word { from, to } = digits_behind(s, at);
        if from == to {
            return n;
        }
        let read = read_step(s, to);
        chain_format::put_step(c, n, read.step);
        at = read.next;
    }
    chain_format::STEPS
}

fn origin_by(x: u8) -> u8
    ensures { result ≡ origin_by x }
{
    if x == b's' { 1 } else { 0 }
}

fn answer_by(x: u8) -> Answer
    ensures { result ≡ answer_by x }
{
    if x == b'F' {
        Answer::Follows
    } else {
        Answer::Denied
    }
}

// The claim and its answer: `PART 5 2 sheets FOLLOWS`.
pub fn read_head(s: &[u8]) -> Head
    ensures { HeadOf s.now result.claim result.answer result.next }
{
    let kind = kind_by(byte(s, 0));
    let a = number_behind(s, 0);
    let b = number_behind(s, a.next);
    let next = b.next;
    let origin = origin_by(byte(s, next + 1));
    let answer = answer_by(byte(s, next + 1 + 7 * usize::from(origin)));
    let claim = Record {
        kind,
        origin,
        a: a.value,
        b: b.value,
    };
    Head {
        claim,
        answer,
        next,
    }
}
