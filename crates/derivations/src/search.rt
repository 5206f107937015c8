// The searches for what a chain begins with: a record that leads to the fact, a mark, a common piece.
ghost use Rattle.std.specs.Prelude.{◌≡◌, true, not, ◌&&◌, ◌<◌, ◌≤◌, length, IfSome};
ghost use Rattle.matrices.specs.Matrix.{bit_of, IsMatrix};
ghost use Rattle.rules.specs.Fact.{AllWithin};
ghost use Rattle.records.specs.Record.{record_at, records};
ghost use Rattle.records.specs.Facts.{facts};
ghost use Rattle.records.specs.Marked.{marks};
ghost use Rattle.closure.specs.Void.{void_of};
ghost use Rattle.chain_format.specs.Citing.{citing};
ghost use Rattle.derivations.specs.Aim.{kind_for, joining, serving};
ghost use Rattle.derivations.specs.Found.{Found, Singly, Ground, Citable, Witnessed, Sought, Met};
ghost use Rattle.matrices.specs.Sizes.{ROW-WORDS};
ghost use Rattle.records.specs.Sizes.{NOTPART, PART, PIECES, RECORDS};

use chain_format::Step;
use records::Record;

// What a record is searched for: the three kinds of stored facts, and an APART that shows NOTPART by rule (d').
#[derive(Clone, Copy)]
pub enum Aim {
    Apart,
    Meets,
    NotPart,
    Outside,
}

// A step that needs no earlier one, and the pieces of which it shows its kind, in the order that the fact asks for.
#[derive(Clone, Copy)]
pub struct Witness {
    pub step: Step,
    pub x: usize,
    pub y: usize,
}

// Two bits of a matrix.
fn both(d: &[u64], r: usize, i: usize, s: usize, j: usize) -> bool
    requires { (IsMatrix d.now) × (r < PIECES) × (i < PIECES) × (s < PIECES) × (j < PIECES) }
    ensures { result ≡ (bit_of d.now r i && bit_of d.now s j) }
{
    matrices::test(d, r, i) && matrices::test(d, s, j)
}

// Whether the pieces x and y of a record lead to a fact about a and b.
fn joins(aim: Aim, d: &[u64], t: &[u64], a: usize, b: usize, x: usize, y: usize) -> bool
    requires { (IsMatrix d.now) × (IsMatrix t.now) × (a < PIECES) × (b < PIECES) × (x < PIECES) × (y < PIECES) }
    ensures { result ≡ joining aim d.now t.now a b x y }
{
    match aim {
        Aim::Apart => both(d, x, a, y, b),
        Aim::Meets => both(d, a, x, b, y),
        Aim::NotPart => both(d, a, x, y, b),
        Aim::Outside => matrices::test(d, x, b) && matrices::meet(t, a, d, y),
    }
}

fn kind_for(aim: Aim) -> u8
    ensures { result ≡ kind_for aim }
{
    match aim {
        Aim::Apart | Aim::Outside => records::APART,
        Aim::Meets => records::MEETS,
        Aim::NotPart => records::NOTPART,
    }
}

// Whether a record may be cited and leads to a fact about a and b.
fn serves(aim: Aim, claim: Record, d: &[u64], t: &[u64], a: usize, b: usize, r: Record) -> bool
    requires { (IsMatrix d.now) × (IsMatrix t.now) × (a < PIECES) × (b < PIECES) × (PART ≤ r.kind → r.kind ≤ NOTPART → (r.a < PIECES) × (r.b < PIECES)) }
    ensures { result ≡ serving aim claim d.now t.now a b r }
{
    if r.kind != kind_for(aim) || !chain_format::lets(claim, r) {
        return false;
    }
    joins(aim, d, t, a, b, r.a, r.b)
        || r.kind != records::NOTPART && joins(aim, d, t, a, b, r.b, r.a)
}

// The first record that does.
pub fn find_record(
    aim: Aim,
    claim: Record,
    book: &[u8],
    d: &[u64],
    t: &[u64],
    a: usize,
    b: usize,
) -> Option<usize>
    requires { (IsMatrix d.now) × (IsMatrix t.now) × (a < PIECES) × (b < PIECES) × AllWithin PIECES (facts book.now) }
    ensures { Found (λ i. serving aim claim d.now t.now a b (record_at book.now i)) (records book.now) result }
{
    for i in 0..book.len() / records::RECORD_BYTES {
        if serves(aim, claim, d, t, a, b, records::record_at(book, i)) {
            return Some(i);
        }
    }
    None
}

// What record i, which leads to the fact, is cited for.
pub fn cite_record(
    aim: Aim,
    n: usize,
    claim: Record,
    book: &[u8],
    d: &[u64],
    t: &[u64],
    a: usize,
    b: usize,
    i: usize,
) -> Witness
    requires { Citable n book.now d.now t.now × (a < n) × (b < n) × (i < records book.now) × (serving aim claim d.now t.now a b (record_at book.now i) ≡ true) }
    ensures { Witnessed n (citing claim book.now) aim d.now t.now a b result }
{
    let r = records::record_at(book, i);
    let step = Step {
        rule: chain_format::STORED,
        kind: r.kind,
        a: r.a,
        b: r.b,
        first: i,
        second: 0,
    };
    if joins(aim, d, t, a, b, r.a, r.b) {
        Witness {
            step,
            x: r.a,
            y: r.b,
        }
    } else {
        Witness {
            step,
            x: r.b,
            y: r.a,
        }
    }
}

// What the first record is cited for that leads to the fact.
pub fn find_witness(
    aim: Aim,
    n: usize,
    claim: Record,
    book: &[u8],
    d: &[u64],
    t: &[u64],
    a: usize,
    b: usize,
) -> Option<Witness>
    requires { Citable n book.now d.now t.now × (n ≤ PIECES) × (a < n) × (b < n) × AllWithin PIECES (facts book.now) }
    ensures { Sought n claim book.now aim d.now t.now a b result }
{
    let i = find_record(aim, claim, book, d, t, a, b)?;
    Some(cite_record(aim, n, claim, book, d, t, a, b, i))
}

// A step that shows the fact of this kind about a and b by rule (f), or by a record that may be cited. No matrix is asked.
pub fn find_single(
    n: usize,
    claim: Record,
    book: &[u8],
    kind: u8,
    a: usize,
    b: usize,
) -> Option<Step>
    requires { (n ≤ PIECES) × (a < n) × (b < n) × (records book.now ≤ RECORDS) }
    ensures { IfSome result (Singly n (citing claim book.now) kind a b) }
{
    let topmost = Step {
        rule: chain_format::RULE_F,
        kind,
        a,
        b,
        first: 0,
        second: 0,
    };
    if chain_format::shows(topmost, records::PART, a, 0) {
        return Some(topmost);
    }
    for i in 0..book.len() / records::RECORD_BYTES {
        let step = Step {
            rule: chain_format::STORED,
            first: i,
            ..topmost
        };
        if chain_format::cites(claim, book, step) {
            return Some(step);
        }
    }
    None // no step shows it
}

// The first record that marks piece g.
pub fn find_mark(book: &[u8], g: usize) -> Option<usize>
    ensures { Found (λ i. marks g (record_at book.now i)) (records book.now) result }
{
    for i in 0..book.len() / records::RECORD_BYTES {
        let r = records::record_at(book, i);
        if r.kind == records::VOID && r.a == g {
            return Some(i);
        }
    }
    None
}

// The first piece in both a and b that is not marked.
fn find_common(n: usize, voids: &[u64], d: &[u64], a: usize, b: usize) -> Option<usize>
    requires { (n ≤ PIECES) × (length voids.now ≡ ROW-WORDS) × (IsMatrix d.now) × (a < PIECES) × (b < PIECES) }
    ensures { Found (λ x. not (void_of voids.now x) && (bit_of d.now a x && bit_of d.now b x)) n result }
{
    for x in 0..n {
        if !matrices::has(voids, x) && both(d, a, x, b, x) {
            return Some(x);
        }
    }
    None
}

// A common piece meets itself, which cites nothing.
fn meeting_in(g: usize) -> Witness
    ensures { result ≡ (record { step = record { rule = 9; kind = 3; a = g; b = g; first = 0; second = 0 }; x = g; y = g }) }
{
    Witness {
        step: Step {
            rule: chain_format::RULE_E_PRIME,
            kind: records::MEETS,
            a: g,
            b: g,
            first: 0,
            second: 0,
        },
        x: g,
        y: g,
    }
}

// A step that shows that a part of a meets one of b: in a common piece that is not marked, or by a stored MEETS.
pub fn find_meeting(
    n: usize,
    claim: Record,
    book: &[u8],
    voids: &[u64],
    e: &[u64],
    d: &[u64],
    t: &[u64],
    a: usize,
    b: usize,
) -> Option<Witness>
    requires { Ground n claim book.now voids.now e.now d.now t.now × (a < n) × (b < n) }
    ensures { Met n claim book.now a b result }
{
    if let Some(g) = find_common(n, voids, d, a, b) {
        return Some(meeting_in(g));
    }
    find_witness(Aim::Meets, n, claim, book, d, t, a, b)
}
