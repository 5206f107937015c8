// The check of a chain: that each step is justified by the book and by earlier steps.
ghost use Rattle.std.specs.Prelude.{◌≡◌, true, ◌&&◌, ◌||◌, ◌+◌, ◌*◌, ◌≤◌, eqb, length, get_or};
ghost use Rattle.records.specs.declared.Record as of;
ghost use Rattle.records.specs.Pieces.{stated};
ghost use Rattle.records.specs.Facts.{saying};
ghost use Rattle.closure.specs.Counted.{MarksOf};
ghost use Rattle.chain_format.specs.Step.{showing};
ghost use Rattle.chain_format.specs.Citing.{none, citing, marks_piece};
ghost use Rattle.chain_format.specs.Rule.{rule};
ghost use Rattle.chain_format.specs.Justified.{some, named, premised, step_ok};
ghost use Rattle.chain_format.specs.Other as end;
ghost use Rattle.chain_format.specs.Chain.{chain_ok};
ghost use Rattle.chain_format.specs.Sizes.{STEP-BYTES};
ghost use Rattle.records.specs.Sizes.{PIECES};

use crate::steps;
use crate::steps::Step;
use records::Record;

// Whether record i marks piece g, which a mark of any origin may be cited for.
fn marks_piece(book: &[u8], i: usize, g: usize) -> bool
    ensures { (claim : of.Record) → result ≡ marks_piece g (get_or (citing claim book.now) i none) }
{
    if book.len() / records::RECORD_BYTES <= i {
        return false;
    }
    let r = records::record_at(book, i);
    r.kind == records::VOID && r.a == g
}

// Whether the step shows that two pieces are apart, and cites a mark of one of them and nothing else.
fn void_apart(book: &[u8], s: Step) -> bool
    ensures { (claim : of.Record) → result ≡ (eqb s.second 0 && (showing s 2 s.a s.b && (marks_piece s.a (get_or (citing claim book.now) s.first none) || marks_piece s.b (get_or (citing claim book.now) s.first none)))) }
{
    s.second == 0
        && steps::shows(s, records::APART, s.a, s.b)
        && (marks_piece(book, s.first, s.a) || marks_piece(book, s.first, s.b))
}

// Whether the step shows that a piece is part of another, and cites its mark and nothing else.
fn void_part(book: &[u8], s: Step) -> bool
    ensures { (claim : of.Record) → result ≡ (eqb s.second 0 && (showing s 1 s.a s.b && marks_piece s.a (get_or (citing claim book.now) s.first none))) }
{
    s.second == 0 && steps::shows(s, records::PART, s.a, s.b) && marks_piece(book, s.first, s.a)
}

// Whether the step shows a fact for which nothing is asked.
fn shows_freely(s: Step, kind: u8, a: usize, b: usize) -> bool
    ensures { result ≡ ((eqb s.first 0 && eqb s.second 0) && showing s kind a b) }
{
    s.first == 0 && s.second == 0 && steps::shows(s, kind, a, b)
}

// Of x and y the one that is not z.
#[tactic(auto, unfolding(crate::specs::Other::other))]
fn other(x: usize, y: usize, z: usize) -> usize
    ensures { result ≡ end.other x y z }
{
    if x == z { y } else { x }
}

// A fact: its kind and its pieces.
#[derive(Clone, Copy)]
struct Fact(u8, usize, usize);

fn shows_fact(s: Step, f: Fact) -> bool
    ensures { result ≡ showing s f.0 f.1 f.2 }
{
    steps::shows(s, f.0, f.1, f.2)
}

// Two premises, and what they show.
#[derive(Clone, Copy)]
struct Form(Fact, Fact, Fact);

// Whether p and q show the premises of a form, and s shows what follows.
fn follows(form: Form, p: Step, q: Step, s: Step) -> bool
    ensures { result ≡ (showing s form.2.0 form.2.1 form.2.2 && (showing p form.0.0 form.0.1 form.0.2 && showing q form.1.0 form.1.1 form.1.2)) }
{
    shows_fact(s, form.2) && shows_fact(p, form.0) && shows_fact(q, form.1)
}

// Whether the step follows from the premises p and q by its rule about g, h and k.
fn by_rule(s: Step, p: Step, q: Step, g: usize, h: usize, k: usize) -> bool
    ensures { result ≡ premised s p q (rule s.rule g h k) }
{
    let form = match s.rule {
        crate::RULE_A => Form(
            Fact(records::PART, g, h),
            Fact(records::PART, h, k),
            Fact(records::PART, g, k),
        ),
        crate::RULE_B => Form(
            Fact(records::PART, g, h),
            Fact(records::APART, h, k),
            Fact(records::APART, g, k),
        ),
        crate::RULE_A_PRIME => Form(
            Fact(records::PART, g, h),
            Fact(records::NOTPART, g, k),
            Fact(records::NOTPART, h, k),
        ),
        crate::RULE_B_PRIME => Form(
            Fact(records::NOTPART, g, k),
            Fact(records::PART, h, k),
            Fact(records::NOTPART, g, h),
        ),
        crate::RULE_C_PRIME => Form(
            Fact(records::PART, h, k),
            Fact(records::MEETS, g, h),
            Fact(records::MEETS, g, k),
        ),
        crate::RULE_D_PRIME => Form(
            Fact(records::MEETS, g, h),
            Fact(records::APART, k, h),
            Fact(records::NOTPART, g, k),
        ),
        _ => return false,
    };
    follows(form, p, q, s)
}

// Whether the step follows by its rule from the premises p and q. Where the rule holds of any g, h, k, it is of these.
fn by_premises(s: Step, p: Step, q: Step) -> bool
    ensures { result ≡ some (named s p q) (λ g h k. premised s p q (rule s.rule g h k)) }
{
    match s.rule {
        crate::RULE_A => by_rule(s, p, q, s.a, p.b, s.b),
        crate::RULE_B => by_rule(s, p, q, p.a, p.b, other(q.a, q.b, p.b)),
        crate::RULE_A_PRIME => by_rule(s, p, q, p.a, s.a, s.b),
        crate::RULE_B_PRIME => by_rule(s, p, q, s.a, s.b, p.b),
        crate::RULE_C_PRIME => by_rule(s, p, q, other(q.a, q.b, p.a), p.a, p.b),
        crate::RULE_D_PRIME => by_rule(s, p, q, s.a, other(p.a, p.b, s.a), s.b),
        _ => false,
    }
}

// Whether step i is justified by what the claim lets cite of the book's records and by earlier steps.
fn step_ok(book: &[u8], n: usize, voids: &[u64], claim: Record, c: &[u8], i: usize) -> bool
    requires { (n ≤ PIECES) × MarksOf book.now voids.now × (STEP-BYTES * i + STEP-BYTES ≤ length c.now) }
    ensures { result ≡ step_ok n (citing claim book.now) c.now i }
{
    let s = steps::step_at(c, i);
    if n <= s.a || n <= s.b {
        return false;
    }
    match s.rule {
        crate::STORED => s.second == 0 && steps::cites(claim, book, s),
        crate::RULE_C => shows_freely(s, records::PART, s.a, s.a),
        crate::RULE_F => shows_freely(s, records::PART, s.a, 0),
        crate::RULE_E_PRIME => {
            !matrices::has(voids, s.a) && shows_freely(s, records::MEETS, s.a, s.a)
        }
        crate::RULE_D => void_apart(book, s),
        crate::RULE_E => void_part(book, s),
        _ => {
            if i <= s.first || i <= s.second {
                return false;
            }
            let p = steps::step_at(c, s.first);
            let q = steps::step_at(c, s.second);
            by_premises(s, p, q)
        }
    }
}

// Whether the steps are a chain behind the answer to the claim, in a book of n pieces with these marks.
pub fn check_steps(book: &[u8], n: usize, voids: &[u64], claim: Record, c: &[u8]) -> bool
    requires { (n ≤ PIECES) × MarksOf book.now voids.now × (stated claim ≡ true) }
    ensures { result ≡ chain_ok n (citing claim book.now) (saying claim) c.now }
{
    if c.len() % crate::STEP_BYTES != 0 {
        return false;
    }
    let m = c.len() / crate::STEP_BYTES;
    if m < 1 || crate::STEPS < m {
        return false;
    }
    for i in 0..m {
        if !step_ok(book, n, voids, claim, c, i) {
            return false;
        }
    }
    let last = steps::step_at(c, m - 1);
    steps::shows(last, claim.kind, claim.a, claim.b)
        || steps::shows(last, records::OPPOSITES - claim.kind, claim.a, claim.b)
}
