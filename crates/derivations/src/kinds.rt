// The chain that ends in a given fact, from step 0 on: its length, or 0 where the fact does not follow.
ghost use Rattle.std.specs.Prelude.{◌≡◌, true, false, ◌<◌, ◌≤◌, length};
ghost use Rattle.rules.specs.Fact as fact;
ghost use Rattle.records.specs.Record.{records};
ghost use Rattle.chain_format.specs.Citing.{citing};
ghost use Rattle.records.specs.Marked.{marked};
ghost use Rattle.derivations.specs.declared.search.Aim.TheVariants.{Outside};
ghost use Rattle.derivations.specs.Found.{Ground, Voided, Witnessed, Chained};
ghost use Rattle.chain_format.specs.Sizes.{CHAIN-BYTES};
ghost use Rattle.records.specs.Sizes.{PIECES, RECORDS};

use crate::search::{Aim, Witness};
use crate::showing::Fact;
use crate::{search, showing};
use chain_format::Step;
use records::Record;

// The PART of f's pieces a and b: by a mark of a, or along stored PARTs.
fn chain_part(
    n: usize,
    claim: Record,
    book: &[u8],
    voids: &[u64],
    e: &[u64],
    d: &[u64],
    t: &[u64],
    f: Fact,
    c: &mut [u8],
) -> usize
    requires { Ground n claim book.now voids.now e.now d.now t.now × (f.a < n) × (f.b < n) × (CHAIN-BYTES ≤ length c.old) }
    ensures { Chained n claim book.now (fact.PART f.a f.b) c.old c.new result }
{
    let a = f.a;
    let b = f.b;
    if matrices::has(voids, a) {
        let i = search::find_mark(book, a).unwrap();
        crate::writing::put_step(
            c,
            0,
            Step {
                rule: chain_format::RULE_E,
                kind: records::PART,
                a,
                b,
                first: i,
                second: 0,
            },
        );
        return 1;
    }
    if !matrices::test(d, b, a) {
        return 0;
    }
    showing::show_part(book, n, claim, e, a, b, c, 0)
}

// The step a APART b by a mark of g, which is a or b.
fn void_step(book: &[u8], g: usize, a: usize, b: usize, c: &mut [u8]) -> usize
    requires { (marked book.now g ≡ true) × (records book.now ≤ RECORDS) × (a < PIECES) × (b < PIECES) × (CHAIN-BYTES ≤ length c.old) }
    ensures { Voided book.now g a b c.old c.new result }
{
    let i = search::find_mark(book, g).unwrap();
    crate::writing::put_step(
        c,
        0,
        Step {
            rule: chain_format::RULE_D,
            kind: records::APART,
            a,
            b,
            first: i,
            second: 0,
        },
    );
    1
}

// a APART b: by a mark of either, or by a stored APART.
fn chain_apart(
    n: usize,
    claim: Record,
    book: &[u8],
    voids: &[u64],
    e: &[u64],
    d: &[u64],
    t: &[u64],
    f: Fact,
    c: &mut [u8],
) -> usize
    requires { Ground n claim book.now voids.now e.now d.now t.now × (f.a < n) × (f.b < n) × (CHAIN-BYTES ≤ length c.old) }
    ensures { Chained n claim book.now (fact.APART f.a f.b) c.old c.new result }
{
    let a = f.a;
    let b = f.b;
    if matrices::has(voids, a) {
        return void_step(book, a, a, b, c);
    }
    if matrices::has(voids, b) {
        return void_step(book, b, a, b, c);
    }
    let Some(w) = search::find_witness(Aim::Apart, n, claim, book, d, t, a, b) else {
        return 0;
    };
    let apart = Fact {
        kind: records::APART,
        ..f
    };
    showing::show_fact(book, n, claim, e, w, apart, c, 0)
}

// a MEETS b: by a common part, or by a stored MEETS.
fn chain_meets(
    n: usize,
    claim: Record,
    book: &[u8],
    voids: &[u64],
    e: &[u64],
    d: &[u64],
    t: &[u64],
    f: Fact,
    c: &mut [u8],
) -> usize
    requires { Ground n claim book.now voids.now e.now d.now t.now × (f.a < n) × (f.b < n) × (CHAIN-BYTES ≤ length c.old) }
    ensures { Chained n claim book.now (fact.MEETS f.a f.b) c.old c.new result }
{
    let Some(w) = search::find_meeting(n, claim, book, voids, e, d, t, f.a, f.b) else {
        return 0;
    };
    showing::show_meeting(book, n, claim, e, d, w, f, c, 0)
}

// a NOTPART b of a piece that is not marked and one that is: a MEETS a, b APART a, and rule (d').
fn chain_outside_void(
    n: usize,
    claim: Record,
    book: &[u8],
    voids: &[u64],
    e: &[u64],
    d: &[u64],
    t: &[u64],
    f: Fact,
    c: &mut [u8],
) -> usize
    requires { Ground n claim book.now voids.now e.now d.now t.now × (f.a < n) × (f.b < n) × (marked book.now f.a ≡ false) × (marked book.now f.b ≡ true) × (CHAIN-BYTES ≤ length c.old) }
    ensures { Chained n claim book.now (fact.NOTPART f.a f.b) c.old c.new result }
{
    let a = f.a;
    let b = f.b;
    let i = search::find_mark(book, b).unwrap();
    crate::writing::put_step(
        c,
        0,
        Step {
            rule: chain_format::RULE_E_PRIME,
            kind: records::MEETS,
            a,
            b: a,
            first: 0,
            second: 0,
        },
    );
    crate::writing::put_step(
        c,
        1,
        Step {
            rule: chain_format::RULE_D,
            kind: records::APART,
            a: b,
            b: a,
            first: i,
            second: 0,
        },
    );
    crate::writing::put_step(
        c,
        2,
        Step {
            rule: chain_format::RULE_D_PRIME,
            kind: records::NOTPART,
            a,
            b,
            first: 0,
            second: 1,
        },
    );
    3
}

// a NOTPART b by the stored APART that u cites, of which b lies in one piece and a meets the other.
fn chain_outside(
    n: usize,
    claim: Record,
    book: &[u8],
    voids: &[u64],
    e: &[u64],
    d: &[u64],
    t: &[u64],
    f: Fact,
    u: Witness,
    c: &mut [u8],
) -> usize
    requires { Ground n claim book.now voids.now e.now d.now t.now × (f.a < n) × (f.b < n) × Witnessed n (citing claim book.now) Outside d.now t.now f.a f.b u × (CHAIN-BYTES ≤ length c.old) }
    ensures { Chained n claim book.now (fact.NOTPART f.a f.b) c.old c.new result }
{
    let Some(w) = search::find_meeting(n, claim, book, voids, e, d, t, f.a, u.y) else {
        return 0;
    };
    showing::show_outside(book, n, claim, e, d, u, w, f, c)
}

// a NOTPART b: by a mark of b, by a stored NOTPART, or by a stored APART.
fn chain_notpart(
    n: usize,
    claim: Record,
    book: &[u8],
    voids: &[u64],
    e: &[u64],
    d: &[u64],
    t: &[u64],
    f: Fact,
    c: &mut [u8],
) -> usize
    requires { Ground n claim book.now voids.now e.now d.now t.now × (f.a < n) × (f.b < n) × (CHAIN-BYTES ≤ length c.old) }
    ensures { Chained n claim book.now (fact.NOTPART f.a f.b) c.old c.new result }
{
    let a = f.a;
    let b = f.b;
    if verdicts::marks_tell(records::NOTPART, a, b, voids) {
        return chain_outside_void(n, claim, book, voids, e, d, t, f, c);
    }
    if let Some(w) = search::find_witness(Aim::NotPart, n, claim, book, d, t, a, b) {
        let outside = Fact {
            kind: records::NOTPART,
            ..f
        };
        return showing::show_fact(book, n, claim, e, w, outside, c, 0);
    }
    let Some(u) = search::find_witness(Aim::Outside, n, claim, book, d, t, a, b) else {
        return 0;
    };
    chain_outside(n, claim, book, voids, e, d, t, f, u, c)
}

// The fact f, of a kind 1 to 4.
pub fn chain_for(
    n: usize,
    claim: Record,
    book: &[u8],
    voids: &[u64],
    e: &[u64],
    d: &[u64],
    t: &[u64],
    f: Fact,
    c: &mut [u8],
) -> usize
    requires { Ground n claim book.now voids.now e.now d.now t.now × (f.a < n) × (f.b < n) × (CHAIN-BYTES ≤ length c.old) }
    ensures { Chained n claim book.now (fact.fact_of f.kind f.a f.b) c.old c.new result }
{
    match f.kind {
        records::PART => chain_part(n, claim, book, voids, e, d, t, f, c),
        records::APART => chain_apart(n, claim, book, voids, e, d, t, f, c),
        records::MEETS => chain_meets(n, claim, book, voids, e, d, t, f, c),
        _ => chain_notpart(n, claim, book, voids, e, d, t, f, c),
    }
}
