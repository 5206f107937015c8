// The answers to a list of claims about a book that is not contradictory.
#![tactic(auto)]

ghost use Rattle.std.specs.Prelude.{◌≡◌, length};
ghost use Rattle.records.specs.Facts.{facts};
ghost use Rattle.records.specs.Kept.{sheets};
ghost use Rattle.closure.specs.Void.{void_of};
ghost use Rattle.records.specs.Claimed.{answers_to};
ghost use Rattle.claims.specs.Answered.{Closing, AnsweredFrom, Answers, restricted, Restrictable, Answerable};

use closure::LeaderSteps;
use matrices::{Matrix, RowNumbers};

// Answers each claim of one origin from the marks and the closure that are lent.
fn answer_each(
    origin: u8,
    claims: &[u8],
    voids: &[u64],
    d: &Matrix,
    u: &Matrix,
    p: &Matrix,
    t: &Matrix,
    q: &Matrix,
    answers: &mut [u8],
)
    requires { Closing claims.now voids.now (length answers.old) }
    ensures { Answers (void_of voids.now) origin claims.now d.now u.now p.now t.now q.now answers.old answers.new }
{
    let n = claims.len() / records::RECORD_BYTES;
    for i in 0..n {
        let claim = records::record_at(claims, i);
        if claim.origin != origin {
            continue;
        }
        let answer = verdicts::answer_to(claim.kind, claim.a, claim.b, voids, d, u, p, t, q);
        answers[i] = u8::from(answer);
    }
}

// Whether some claim is to be answered from the cutting sheets alone.
fn some_restricted(claims: &[u8]) -> bool
    ensures { result ≡ restricted claims.now }
{
    let n = claims.len() / records::RECORD_BYTES;
    for i in 0..n {
        let r = records::record_at(claims, i);
        if 0 < r.origin {
            return true;
        }
    }
    false
}

// Answers the restricted claims on a book that is not contradictory: from the closure of its cutting sheets, for which the six matrices are used again.
fn answer_restricted(
    book: &[u8],
    n: usize,
    voids: &[u64],
    claims: &[u8],
    e: &mut Matrix,
    order: &mut RowNumbers,
    lead: &mut RowNumbers,
    d: &mut Matrix,
    t: &mut Matrix,
    u: &mut Matrix,
    p: &mut Matrix,
    q: &mut Matrix,
    answers: &mut [u8],
)
    requires { Restrictable book.now n voids.now claims.now (length answers.old) }
    ensures { AnsweredFrom (void_of voids.now) 1 n (facts (sheets book.now)) claims.now answers.old answers.new }
{
    let mut kept = [0u8; records::BOOK_BYTES];
    let length = records::keep_sheets(book, &mut kept);
    let run = &kept[..length];
    // free, since the whole book is
    let _ = contradiction::settle_alone(run, n, voids, e, order, lead, d, t);
    closure::complete(run, n, voids, LeaderSteps { e, order, lead }, u, p, q);
    answer_each(1, claims, voids, d, u, p, t, q, answers);
}

// Answers the claims on a book that is not contradictory: e are its steps, joined in the order that is lent, d and t its first two matrices. The others are scratch; without
// claims they are not touched.
pub fn answer_all(
    book: &[u8],
    n: usize,
    voids: &[u64],
    claims: &[u8],
    e: &mut Matrix,
    order: &mut RowNumbers,
    lead: &mut RowNumbers,
    d: &mut Matrix,
    t: &mut Matrix,
    u: &mut Matrix,
    p: &mut Matrix,
    q: &mut Matrix,
    answers: &mut [u8],
)
    requires { Answerable book.now n voids.now claims.now e.old order.old lead.old d.old t.old (length answers.old) }
    ensures { answers.new ≡ answers_to book.now n claims.now }
{
    if claims.len() < records::RECORD_BYTES {
        return;
    }
    closure::complete(book, n, voids, LeaderSteps { e, order, lead }, u, p, q);
    answer_each(0, claims, voids, d, u, p, t, q, answers);
    if !some_restricted(claims) {
        return;
    }
    answer_restricted(
        book, n, voids, claims, e, order, lead, d, t, u, p, q, answers,
    );
}
