// The chain behind an answer, written: the call for one claim.
#![tactic(auto)]

ghost use Rattle.records.specs.Refused.{refused_at};
ghost use Rattle.std.specs.Prelude.{◌≡◌, ◌<◌, ◌≤◌, length, true, false, Ok};
ghost use Rattle.records.specs.Pieces.{stated};
ghost use Rattle.rules.specs.Fact.{Within};
ghost use Rattle.rules.specs.Follows.{clash};
ghost use Rattle.records.specs.Facts.{saying, facts};
ghost use Rattle.records.specs.Marked.{marked};
ghost use Rattle.records.specs.Check.{book_check};
ghost use Rattle.closure.specs.Counted.{MarksOf};
ghost use Rattle.derivations.specs.Found.{Ground};
ghost use Rattle.contradiction.specs.Opened.{Opened};
ghost use Rattle.closure.specs.Void.{void_of};
ghost use Rattle.chain_writing.specs.Call.{Answering, Judged, Written};
ghost use Rattle.chain_format.specs.Sizes.{CHAIN-BYTES};

use derivations::showing::Fact;
use matrices::Matrix;
use records::{Record, Refusal, Refused};
use verdicts::Answer;

// What the call says: the answer, or the refusal and its place; and how many steps it wrote.
#[derive(Clone, Copy)]
pub struct Chain {
    pub reply: Result<Answer, Refused>,
    pub steps: usize,
}

// The chain for the claim, or else for its opposite. The kinds of opposite claims add up to 5.
fn write_found(
    n: usize,
    claim: Record,
    book: &[u8],
    voids: &[u64],
    e: &Matrix,
    d: &Matrix,
    t: &Matrix,
    c: &mut [u8],
) -> Chain
    requires { Ground n claim book.now voids.now e.now d.now t.now × (stated claim ≡ true) × Within n (saying claim) × (CHAIN-BYTES ≤ length c.old) }
    ensures { Answering n claim book.now c.old result c.new }
{
    let stated = Fact {
        kind: claim.kind,
        a: claim.a,
        b: claim.b,
    };
    let m = derivations::kinds::chain_for(n, claim, book, voids, e, d, t, stated, c);
    if 0 < m {
        return Chain {
            reply: Ok(Answer::Follows),
            steps: m,
        };
    }
    let opposite = Fact {
        kind: records::OPPOSITES - claim.kind,
        a: claim.a,
        b: claim.b,
    };
    let k = derivations::kinds::chain_for(n, claim, book, voids, e, d, t, opposite, c);
    if 0 < k {
        return Chain {
            reply: Ok(Answer::Denied),
            steps: k,
        };
    }
    Chain {
        reply: Ok(Answer::Open),
        steps: 0,
    }
}

// An unrestricted claim: one step where a record says it, else from the D and T of the book. The stored steps are put into e.
fn write_whole(
    n: usize,
    claim: Record,
    book: &[u8],
    voids: &[u64],
    e: &mut Matrix,
    d: &Matrix,
    t: &Matrix,
    c: &mut [u8],
) -> Chain
    requires { (book_check book.now ≡ Ok n) × MarksOf book.now voids.now × Opened (void_of voids.now) n (facts book.now) d.now t.now false × (claim.origin ≡ 0) × (stated claim ≡ true) × Within n (saying claim) × (CHAIN-BYTES ≤ length c.old) }
    ensures { Answering n claim book.now c.old result c.new }
{
    let kind = claim.kind;
    let a = claim.a;
    let b = claim.b;
    if let Some(step) = derivations::search::find_single(n, claim, book, kind, a, b) {
        chain_format::put_step(c, 0, step);
        return Chain {
            reply: Ok(Answer::Follows),
            steps: 1,
        };
    }
    let opposite = records::OPPOSITES - kind;
    if let Some(step) = derivations::search::find_single(n, claim, book, opposite, a, b) {
        chain_format::put_step(c, 0, step);
        return Chain {
            reply: Ok(Answer::Denied),
            steps: 1,
        };
    }
    closure::edges(book, n, e);
    write_found(n, claim, book, voids, e, d, t, c)
}

// A restricted claim: from the steps, D and T of the cutting sheets, for which the matrices are used again. Steps cite the records by their numbers in the book.
fn write_restricted(
    n: usize,
    claim: Record,
    book: &[u8],
    voids: &[u64],
    e: &mut Matrix,
    d: &mut Matrix,
    t: &mut Matrix,
    c: &mut [u8],
) -> Chain
    requires { (book_check book.now ≡ Ok n) × MarksOf book.now voids.now × (false ≡ clash (marked book.now) n (facts book.now)) × ((claim.origin ≡ 0) → ⊥) × (stated claim ≡ true) × Within n (saying claim) × (CHAIN-BYTES ≤ length c.old) }
    ensures { Answering n claim book.now c.old result c.new }
{
    let mut kept = [0u8; records::BOOK_BYTES];
    let length = records::keep_sheets(book, &mut kept);
    let run = &kept[..length];
    // free, since the whole book is
    let _ = contradiction::settle_run(run, n, voids, e, d, t);
    closure::edges(run, n, e);
    write_found(n, claim, book, voids, e, d, t, c)
}

fn refuse(refused: Refused) -> Chain
    ensures { result ≡ record { reply = Err refused; steps = 0 } }
{
    Chain {
        reply: Err(refused),
        steps: 0,
    }
}

// Row 14 and the chain, for a book and a claim that pass the rows before.
fn judge(
    book: &[u8],
    n: usize,
    claim: Record,
    c: &mut [u8],
    e: &mut Matrix,
    d: &mut Matrix,
    t: &mut Matrix,
) -> Chain
    requires { (book_check book.now ≡ Ok n) × (stated claim ≡ true) × Within n (saying claim) × (CHAIN-BYTES ≤ length c.old) }
    ensures { Judged n claim book.now c.old result c.new }
{
    let mut voids = [0u64; matrices::ROW_WORDS];
    if let Err(clash) = contradiction::settle_book(book, n, &mut voids, e, d, t) {
        return refuse(Refused::from(clash));
    }
    if claim.origin == 0 {
        return write_whole(n, claim, book, &voids, e, d, t, c);
    }
    write_restricted(n, claim, book, &voids, e, d, t, c)
}

// Writes the chain behind the answer to the one claim about the book; which of several is free.
pub fn write_chain(
    book: &[u8],
    claim: &[u8],
    steps: &mut [u8],
    e: &mut Matrix,
    d: &mut Matrix,
    t: &mut Matrix,
) -> Chain
    ensures { Written book.now claim.now steps.old result steps.new }
{
    if steps.len() < chain_format::CHAIN_BYTES {
        return refuse(Refusal::ShortSteps.at(0));
    }
    let n = match records::check_book(book) {
        Err(refused) => return refuse(refused),
        Ok(n) => n,
    };
    if claim.len() != records::RECORD_BYTES {
        return refuse(Refusal::ClaimsLength.at(0));
    }
    if let Err(refused) = records::check_claims(claim, n) {
        return refuse(refused);
    }
    judge(book, n, records::record_at(claim, 0), steps, e, d, t)
}
