// What a step of a chain is: its bytes, what it may cite, and the rules by number.
ghost use Rattle.std.specs.Prelude.{◌≡◌, true, ◌&&◌, ◌+◌, ◌*◌, ◌≤◌, eqb, length, get_or};
ghost use Rattle.lists.specs.Front.{placed};
ghost use Rattle.chain_format.specs.Step as on;
ghost use Rattle.chain_format.specs.Step.{step_at, step_bytes, showing};
ghost use Rattle.chain_format.specs.Citing as may;
ghost use Rattle.chain_format.specs.Citing.{none, citing};
ghost use Rattle.chain_format.specs.Rule.{rule};
ghost use Rattle.chain_format.specs.Justified as by;
ghost use Rattle.chain_format.specs.Sizes.{STEP-BYTES};

use records::Record;

// A step: its rule, the kind and the pieces of the fact that it shows, and its premises, or the record that it cites. A step read back may hold any
// byte for its rule and its kind, and is written as it was read.
#[derive(Clone, Copy)]
pub struct Step {
    pub rule: u8,
    pub kind: u8,
    pub a: usize,
    pub b: usize,
    pub first: usize,
    pub second: usize,
}

// The one reader of steps.
pub fn step_at(c: &[u8], i: usize) -> Step
    requires { STEP-BYTES * i + STEP-BYTES ≤ length c.now }
    ensures { result ≡ step_at c.now i }
{
    let at = crate::STEP_BYTES * i;
    Step {
        rule: c[at],
        kind: c[at + 1],
        a: numbers::number_at(c, at + 2),
        b: numbers::number_at(c, at + 4),
        first: numbers::number_at(c, at + 6),
        second: numbers::number_at(c, at + 8),
    }
}

// The one writer of steps.
pub fn put_step(c: &mut [u8], i: usize, s: Step)
    requires { STEP-BYTES * i + STEP-BYTES ≤ length c.old }
    ensures { c.new ≡ placed (STEP-BYTES * i) (step_bytes s) c.old }
{
    let ten = [
        s.rule,
        s.kind,
        numbers::low(s.a),
        numbers::low(s.a / numbers::BYTE_VALUES),
        numbers::low(s.b),
        numbers::low(s.b / numbers::BYTE_VALUES),
        numbers::low(s.first),
        numbers::low(s.first / numbers::BYTE_VALUES),
        numbers::low(s.second),
        numbers::low(s.second / numbers::BYTE_VALUES),
    ];
    numbers::copy_to(&ten, c, crate::STEP_BYTES * i);
}

// APART and MEETS.
fn unordered(kind: u8) -> bool
    ensures { result ≡ on.unordered kind }
{
    kind == records::APART || kind == records::MEETS
}

fn has_ends(s: Step, a: usize, b: usize) -> bool
    ensures { result ≡ (eqb s.a a && eqb s.b b) }
{
    s.a == a && s.b == b
}

// Whether the step shows the fact of that kind about a and b.
#[tactic(auto, unfolding(crate::specs::Step::showing))]
pub fn shows(s: Step, kind: u8, a: usize, b: usize) -> bool
    ensures { result ≡ showing s kind a b }
{
    s.kind == kind && (has_ends(s, a, b) || unordered(kind) && has_ends(s, b, a))
}

// Whether the claim lets a record's fact be cited.
pub fn lets(claim: Record, r: Record) -> bool
    ensures { result ≡ may.lets claim r }
{
    claim.origin == 0 || r.origin == 0
}

// Whether the record that the step cites may be cited, and says what the step shows.
pub fn cites(claim: Record, book: &[u8], s: Step) -> bool
    ensures { result ≡ by.cites (get_or (citing claim book.now) s.first none) s }
{
    if book.len() / records::RECORD_BYTES <= s.first {
        return false;
    }
    let r = records::record_at(book, s.first);
    records::states_fact(r) && lets(claim, r) && shows(s, r.kind, r.a, r.b)
}
