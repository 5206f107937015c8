// The chain behind a contradiction: from the facts of the records before the place of 14, and all marks, to the opposite of what the record there states.
#![tactic(auto)]

ghost use Rattle.records.specs.Refused.{refused_at};
ghost use Rattle.std.specs.Prelude.{◌≡◌, ◌+◌, ◌*◌, ◌<◌, ◌≤◌, length, get_or, take, Ok};
ghost use Rattle.records.specs.Record.{record_at};
ghost use Rattle.records.specs.Check.{book_check};
ghost use Rattle.clash.specs.Clash.{unrestricted, clash_ok, passes, Written};
ghost use Rattle.clash.specs.Silenced.{silenced_byte, silenced, Placed, Behind};
ghost use Rattle.chain_format.specs.Sizes.{CHAIN-BYTES};
ghost use Rattle.records.specs.Sizes.{RECORD-BYTES};

use derivations::showing::Fact;
use matrices::Matrix;
use records::{Record, Refusal, Refused};

// What the call says: the book has no contradiction, or the refusal and its place; and how many steps it wrote.
#[derive(Clone, Copy)]
pub struct Clash {
    pub reply: Result<(), Refused>,
    pub steps: usize,
}

// Byte p of the copy in which no record from number i on states a fact.
fn silenced_byte(book: &[u8], i: usize, p: usize) -> u8
    requires { p < length book.now }
    ensures { result ≡ silenced_byte i p (get_or book.now p 0) }
{
    let x = book[p];
    if p % records::RECORD_BYTES != 0 || p / records::RECORD_BYTES < i {
        return x;
    }
    match x {
        records::PART..=records::NOTPART => records::TRAY,
        _ => x,
    }
}

// Writes that copy to the front of `out`.
fn silence(book: &[u8], i: usize, out: &mut [u8])
    requires { length book.now ≤ length out.old }
    ensures { take (length book.now) out.new ≡ silenced book.now i }
{
    for p in 0..book.len() {
        out[p] = silenced_byte(book, i, p);
    }
}

// Record i as a claim that picks all facts.
fn claim_at(book: &[u8], i: usize) -> Record
    requires { RECORD-BYTES * i + RECORD-BYTES ≤ length book.now }
    ensures { result ≡ unrestricted (record_at book.now i) }
{
    Record {
        origin: 0,
        ..records::record_at(book, i)
    }
}

// The chain, for a book of n pieces that 14 refuses at this place. The facts of the copy are those before the place, which are free of contradiction. The
// matrices are scratch.
fn write_behind(
    book: &[u8],
    place: usize,
    n: usize,
    voids: &[u64],
    e: &mut Matrix,
    d: &mut Matrix,
    t: &mut Matrix,
    c: &mut [u8],
) -> usize
    requires { Placed book.now place n voids.now × (CHAIN-BYTES ≤ length c.old) }
    ensures { Behind book.now place c.old result c.new }
{
    let mut copy = [0u8; records::BOOK_BYTES];
    silence(book, place, &mut copy);
    let length = book.len();
    let run = &copy[..length];
    // free, since the place is that of the first contradiction
    let _ = contradiction::settle_run(run, n, voids, e, d, t);
    closure::edges(run, n, e);
    let claim = claim_at(book, place);
    let opposite = Fact {
        kind: records::OPPOSITES - claim.kind,
        a: claim.a,
        b: claim.b,
    };
    derivations::kinds::chain_for(n, claim, run, voids, e, d, t, opposite, c)
}

// Row 14 and the chain, for a book of n pieces that passes the rows before.
fn judge(
    book: &[u8],
    n: usize,
    c: &mut [u8],
    e: &mut Matrix,
    d: &mut Matrix,
    t: &mut Matrix,
) -> Clash
    requires { (book_check book.now ≡ Ok n) × (CHAIN-BYTES ≤ length c.old) }
    ensures { Written book.now c.old result c.new }
{
    let mut voids = [0u64; matrices::ROW_WORDS];
    match contradiction::settle_book(book, n, &mut voids, e, d, t) {
        Ok(()) => Clash {
            reply: Ok(()),
            steps: 0,
        },
        Err(clash) => Clash {
            reply: Err(Refused::from(clash)),
            steps: write_behind(book, clash.place, n, &voids, e, d, t, c),
        },
    }
}

fn refuse(refused: Refused) -> Clash
    ensures { result ≡ record { reply = Err refused; steps = 0 } }
{
    Clash {
        reply: Err(refused),
        steps: 0,
    }
}

// Writes the chain behind the contradiction of a book that has one; which of several is free.
pub fn write_clash(
    book: &[u8],
    steps: &mut [u8],
    e: &mut Matrix,
    d: &mut Matrix,
    t: &mut Matrix,
) -> Clash
    ensures { Written book.now steps.old result steps.new }
{
    if steps.len() < chain_format::CHAIN_BYTES {
        return refuse(Refusal::ShortSteps.at(0));
    }
    match records::check_book(book) {
        Err(refused) => refuse(refused),
        Ok(n) => judge(book, n, steps, e, d, t),
    }
}

// Whether the steps are a chain behind the contradiction of a book of n pieces that 14 refuses at this place.
fn check_behind(book: &[u8], place: usize, n: usize, voids: &[u64], c: &[u8]) -> bool
    requires { Placed book.now place n voids.now }
    ensures { result ≡ clash_ok book.now place c.now }
{
    let mut copy = [0u8; records::BOOK_BYTES];
    silence(book, place, &mut copy);
    let length = book.len();
    let run = &copy[..length];
    let claim = claim_at(book, place);
    if !chain_format::check_steps(run, n, voids, claim, c) {
        return false;
    }
    let last = chain_format::step_at(c, c.len() / chain_format::STEP_BYTES - 1);
    chain_format::shows(last, records::OPPOSITES - claim.kind, claim.a, claim.b)
}

// Row 14 and the steps, for a book of n pieces that passes the rows before.
fn check_sound(
    book: &[u8],
    n: usize,
    steps: &[u8],
    e: &mut Matrix,
    d: &mut Matrix,
    t: &mut Matrix,
) -> bool
    requires { book_check book.now ≡ Ok n }
    ensures { result ≡ passes book.now steps.now }
{
    let mut voids = [0u64; matrices::ROW_WORDS];
    match contradiction::settle_book(book, n, &mut voids, e, d, t) {
        Ok(()) => false,
        Err(clash) => check_behind(book, clash.place, n, &voids, steps),
    }
}

// Whether the steps, whoever wrote them, are a chain behind the contradiction of the book.
pub fn check_clash(
    book: &[u8],
    steps: &[u8],
    e: &mut Matrix,
    d: &mut Matrix,
    t: &mut Matrix,
) -> bool
    ensures { result ≡ passes book.now steps.now }
{
    match records::check_book(book) {
        Err(_) => false,
        Ok(n) => check_sound(book, n, steps, e, d, t),
    }
}
