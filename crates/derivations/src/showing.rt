// The steps that show a fact: along paths of PARTs, and from a stored fact.
ghost use Rattle.std.specs.Prelude.{◌≡◌, true, ℕ, ◌+◌, ◌<◌, ◌≤◌, length};
ghost use Rattle.chain_format.specs.Citing.{citing};
ghost use Rattle.chain_format.specs.Step.{showing};
ghost use Rattle.matrices.specs.Matrix.{bit_of, IsMatrix};
ghost use Rattle.derivations.specs.Hops.{Reaches};
ghost use Rattle.derivations.specs.Distinct.{Upward};
ghost use Rattle.derivations.specs.Lifts.{Setting, Telling, Unmarked, Inside, Reached, Leads, Lifted, Grounded, Carried, Lifts, Routed, Spans, Outlies};
ghost use Rattle.derivations.specs.Routes.{lift_to, route_to};
ghost use Rattle.derivations.specs.Commons.{Last, Risen, Joined};
ghost use Rattle.chain_format.specs.Sizes.{CHAIN-BYTES, STEPS};
ghost use Rattle.derivations.specs.Sizes.{HOPS, LIFT-STEPS, LIFTS-STEPS};
ghost use Rattle.records.specs.Sizes.{MEETS, PIECES};

use crate::search::Witness;
use chain_format::Step;
use records::Record;

// A fact: its kind and its two pieces.
#[derive(Clone, Copy)]
pub struct Fact {
    pub kind: u8,
    pub a: usize,
    pub b: usize,
}

// A fact carried along g PART k to what the step shows, by the step's rule, the PART as its first premise or its second.
#[derive(Clone, Copy)]
pub struct Lift {
    pub g: usize,
    pub k: usize,
    pub step: Step,
    pub first: bool,
}

// From one fact to another of its kind.
#[derive(Clone, Copy)]
pub struct Route {
    pub once: Lift,
    pub twice: Lift,
}

// g PART k, which follows from the book whose steps of containment are in e.
pub fn show_part(
    book: &[u8],
    n: usize,
    claim: Record,
    e: &[u64],
    g: usize,
    k: usize,
    c: &mut [u8],
    at: usize,
) -> usize
    requires { Setting n claim book.now e.now × (g < n) × (k < n) × Inside n claim book.now g k × (CHAIN-BYTES ≤ length c.old) × (at + LIFT-STEPS ≤ STEPS) }
    ensures { Reached n claim book.now g k c.old at c.new result }
{
    let mut hop = [0u16; matrices::ROWS];
    let mut order = [0u16; matrices::ROWS];
    let mut source = [0u16; matrices::ROWS];
    crate::hops::find_hops(k, n, e, &mut hop, &mut order);
    crate::hops::find_sources(claim, book, &hop, &mut source);
    crate::writing::write_part(g, k, &hop, &source, c, at)
}

// What step `at - 1` shows, lifted; the premises of the lift's step are filled in. Where g is k, that step shows it already, and nothing is written.
pub fn show_lift(
    book: &[u8],
    n: usize,
    claim: Record,
    e: &[u64],
    l: Lift,
    c: &mut [u8],
    at: usize,
) -> usize
    requires { Setting n claim book.now e.now × Leads n claim book.now l × (CHAIN-BYTES ≤ length c.old) × (at + LIFT-STEPS ≤ STEPS) × (1 ≤ at) }
    ensures { Lifted n claim book.now l c.old at c.new result }
{
    if l.g == l.k {
        return at;
    }
    let m = show_part(book, n, claim, e, l.g, l.k, c, at);
    let (first, second) = if l.first {
        (m - 1, at - 1)
    } else {
        (at - 1, m - 1)
    };
    crate::writing::put_step(
        c,
        m,
        Step {
            first,
            second,
            ..l.step
        },
    );
    m + 1
}

// What the step `base` shows, carried along a route, unless it shows what is at the end already.
fn carry(
    book: &[u8],
    n: usize,
    claim: Record,
    e: &[u64],
    base: Step,
    route: Route,
    c: &mut [u8],
    at: usize,
) -> usize
    requires { Setting n claim book.now e.now × Grounded n (citing claim book.now) base × Carried base route × Leads n claim book.now route.once × Leads n claim book.now route.twice × (CHAIN-BYTES ≤ length c.old) × (at + LIFTS-STEPS ≤ STEPS) }
    ensures { Lifts n claim book.now base route c.old at c.new result }
{
    let once = route.once;
    let twice = route.twice;
    crate::writing::put_step(c, at, base);
    let t = twice.step;
    if chain_format::shows(base, t.kind, t.a, t.b) {
        return at + 1;
    }
    let m = show_lift(book, n, claim, e, once, c, at + 1);
    show_lift(book, n, claim, e, twice, c, m)
}

// To f along g PART k.
fn lift_to(g: usize, k: usize, rule: u8, first: bool, f: Fact) -> Lift
    ensures { result ≡ lift_to g k rule first f.kind f.a f.b }
{
    let step = Step {
        rule,
        kind: f.kind,
        a: f.a,
        b: f.b,
        first: 0,
        second: 0,
    };
    Lift { g, k, step, first }
}

// The rules by which a fact about x and y leads to f, of its kind.
fn route_to(f: Fact, x: usize, y: usize) -> Route
    ensures { result ≡ route_to f.kind f.a f.b x y }
{
    let half = Fact { b: y, ..f };
    match f.kind {
        records::APART => Route {
            once: lift_to(f.a, x, chain_format::RULE_B, true, half),
            twice: lift_to(f.b, y, chain_format::RULE_B, true, f),
        },
        records::MEETS => Route {
            once: lift_to(x, f.a, chain_format::RULE_C_PRIME, true, half),
            twice: lift_to(y, f.b, chain_format::RULE_C_PRIME, true, f),
        },
        _ => Route {
            once: lift_to(x, f.a, chain_format::RULE_A_PRIME, true, half),
            twice: lift_to(f.b, y, chain_format::RULE_B_PRIME, false, f),
        },
    }
}

// The fact f, from the fact of its kind that w shows.
pub fn show_fact(
    book: &[u8],
    n: usize,
    claim: Record,
    e: &[u64],
    w: Witness,
    f: Fact,
    c: &mut [u8],
    at: usize,
) -> usize
    requires { Setting n claim book.now e.now × Grounded n (citing claim book.now) w.step × (showing w.step f.kind w.x w.y ≡ true) × Routed n claim book.now f.kind f.a f.b w.x w.y × (CHAIN-BYTES ≤ length c.old) × (at + LIFTS-STEPS ≤ STEPS) }
    ensures { Spans n claim book.now f.kind f.a f.b w.x w.y c.old at c.new result }
{
    let base = w.step;
    let route = route_to(f, w.x, w.y);
    carry(book, n, claim, e, base, route, c, at)
}

// From g MEETS g, which step `at - 1` shows, to k MEETS g along the hops; nothing where g is k.
fn rise(n: usize, hop: &[u16], source: &[u16], g: usize, k: usize, c: &mut [u8], at: usize) -> usize
    requires { (length hop.now ≡ PIECES) × (length source.now ≡ PIECES) × (CHAIN-BYTES ≤ length c.old) × (1 ≤ at) × (at + LIFT-STEPS ≤ STEPS) × (g < n) × (k < n) × (n ≤ PIECES) × Reaches hop.now k g HOPS }
    ensures { Risen n hop.now source.now g k c.old at c.new result }
{
    if g == k {
        return at;
    }
    let top = crate::writing::write_part(g, k, hop, source, c, at);
    crate::writing::put_step(
        c,
        top,
        Step {
            rule: chain_format::RULE_C_PRIME,
            kind: records::MEETS,
            a: k,
            b: g,
            first: top - 1,
            second: at - 1,
        },
    );
    top + 1
}

// The last piece in b on the way that the hops lead from x, which is in b, to a.
fn last_inside(hop: &[u16], d: &[u64], x: usize, a: usize, b: usize) -> usize
    requires { (length hop.now ≡ PIECES) × (IsMatrix d.now) × (b < PIECES) × Reaches hop.now a x HOPS × (bit_of d.now b x ≡ true) × ((y : ℕ) → Upward hop.now a x y → y < PIECES) }
    ensures { Last hop.now d.now a b x result }
{
    let mut last = x;
    let mut y = x;
    for _taken in 0..records::LAST_PIECE {
        if y == a {
            return last;
        }
        y = usize::from(hop[y]);
        if matrices::test(d, b, y) {
            last = y;
        }
    }
    last
}

// The MEETS of f's pieces, by a piece x in both that is not marked: the last piece in f.b on the way from x to f.a meets itself. No piece further up on that way is
// on the way to f.b, so that no hop is shown twice.
fn show_common(
    book: &[u8],
    n: usize,
    claim: Record,
    e: &[u64],
    d: &[u64],
    x: usize,
    f: Fact,
    c: &mut [u8],
    at: usize,
) -> usize
    requires { Setting n claim book.now e.now × Telling n claim book.now d.now × Unmarked n claim book.now x × (x < n) × (f.a < n) × (f.b < n) × Inside n claim book.now x f.a × Inside n claim book.now x f.b × (CHAIN-BYTES ≤ length c.old) × (at + LIFTS-STEPS ≤ STEPS) }
    ensures { Joined n claim book.now x x f.a f.b c.old at c.new result }
{
    let mut hop = [0u16; matrices::ROWS];
    let mut order = [0u16; matrices::ROWS];
    let mut source = [0u16; matrices::ROWS];
    crate::hops::find_hops(f.a, n, e, &mut hop, &mut order);
    crate::hops::find_sources(claim, book, &hop, &mut source);
    let g = last_inside(&hop, d, x, f.a, f.b);
    crate::writing::put_step(
        c,
        at,
        Step {
            rule: chain_format::RULE_E_PRIME,
            kind: records::MEETS,
            a: g,
            b: g,
            first: 0,
            second: 0,
        },
    );
    let m = rise(n, &hop, &source, g, f.a, c, at + 1);
    let step = Step {
        rule: chain_format::RULE_C_PRIME,
        kind: records::MEETS,
        a: f.a,
        b: f.b,
        first: 0,
        second: 0,
    };
    let last = Lift {
        g,
        k: f.b,
        step,
        first: true,
    };
    show_lift(book, n, claim, e, last, c, m)
}

// The MEETS of f's pieces, from the MEETS that w shows of a part of each.
pub fn show_meeting(
    book: &[u8],
    n: usize,
    claim: Record,
    e: &[u64],
    d: &[u64],
    w: Witness,
    f: Fact,
    c: &mut [u8],
    at: usize,
) -> usize
    requires { Setting n claim book.now e.now × Telling n claim book.now d.now × Grounded n (citing claim book.now) w.step × (showing w.step MEETS w.x w.y ≡ true) × (w.x ≡ w.y → Unmarked n claim book.now w.x) × (w.x < n) × (w.y < n) × (f.a < n) × (f.b < n) × Inside n claim book.now w.x f.a × Inside n claim book.now w.y f.b × (CHAIN-BYTES ≤ length c.old) × (at + LIFTS-STEPS ≤ STEPS) }
    ensures { Joined n claim book.now w.x w.y f.a f.b c.old at c.new result }
{
    if w.x == w.y {
        return show_common(book, n, claim, e, d, w.x, f, c, at);
    }
    let meets = Fact {
        kind: records::MEETS,
        ..f
    };
    show_fact(book, n, claim, e, w, meets, c, at)
}

// The NOTPART of f's pieces from step 0 on: the APART of which f.b lies in the one piece, and the meeting of f.a with the other.
pub fn show_outside(
    book: &[u8],
    n: usize,
    claim: Record,
    e: &[u64],
    d: &[u64],
    apart: Witness,
    meets: Witness,
    f: Fact,
    c: &mut [u8],
) -> usize
    requires { Setting n claim book.now e.now × Grounded n (citing claim book.now) apart.step × (showing apart.step 2 apart.x apart.y ≡ true) × Grounded n (citing claim book.now) meets.step × (showing meets.step MEETS meets.x meets.y ≡ true) × Telling n claim book.now d.now × (meets.x ≡ meets.y → Unmarked n claim book.now meets.x) × (apart.x < n) × (apart.y < n) × (meets.x < n) × (meets.y < n) × (f.a < n) × (f.b < n) × Inside n claim book.now f.b apart.x × Inside n claim book.now meets.x f.a × Inside n claim book.now meets.y apart.y × (CHAIN-BYTES ≤ length c.old) }
    ensures { Outlies n claim book.now f.a f.b apart.x apart.y meets.x meets.y c.old 0 c.new result }
{
    let base = apart.step;
    crate::writing::put_step(c, 0, base);
    let step = Step {
        rule: chain_format::RULE_B,
        kind: records::APART,
        a: f.b,
        b: apart.y,
        first: 0,
        second: 0,
    };
    let other = Lift {
        g: f.b,
        k: apart.x,
        step,
        first: true,
    };
    let i = show_lift(book, n, claim, e, other, c, 1);
    let meeting = Fact {
        kind: records::MEETS,
        a: f.a,
        b: apart.y,
    };
    let j = show_meeting(book, n, claim, e, d, meets, meeting, c, i);
    crate::writing::put_step(
        c,
        j,
        Step {
            rule: chain_format::RULE_D_PRIME,
            kind: records::NOTPART,
            a: f.a,
            b: f.b,
            first: j - 1,
            second: i - 1,
        },
    );
    j + 1
}
