// Document 01's session, written on a page of bytes that the caller lends.
#![tactic(auto)]

ghost use Rattle.std.specs.Prelude.{◌≤◌, ◌≡◌, length, get_or, replicate};
ghost use Rattle.records.specs.Record.{records};
ghost use Rattle.pages.specs.Put.{Put};
ghost use Rattle.pages.specs.Printed.{Printed};
ghost use Rattle.report.specs.Session.{claim_line, claim_lines, counts_line, refusal_line, session};
ghost use Rattle.report.specs.Room.{bytes_for};
ghost use Rattle.report.specs.Page.{printed};
ghost use Rattle.report.specs.Answered.{Answered};
ghost use Rattle.report.specs.Asked.{Asked};
ghost use Rattle.report.specs.Rooms.{ANSWERS-MOST, ANSWERS-ROOM};
ghost use Rattle.text.specs.Rooms.{CLAIMS-ROOM};

use outcomes::Counts;
use records::{Record, Refused};

// Bytes of claims that a session reads: one claim more than row 11 lets pass, so that row 11 can tell.
pub const CLAIMS_READ: usize = 24582;

// Bytes of a page that always serve: `Room.bytes_for` of so many claims.
pub const PAGE_BYTES: usize = 135285;

// The line of claim i.
fn put_claim(page: &mut [u8], at: usize, i: usize, claim: Record, answer: u8) -> usize
    ensures { Put page.old at (claim_line i claim answer) page.new result }
{
    let at = pages::put_number(page, at, i, b' ');
    let kind = claim.kind;
    let at = sentences::put_kind(page, at, kind, b' ');
    let at = pages::put_number(page, at, claim.a, b' ');
    let at = pages::put_number(page, at, claim.b, b' ');
    sentences::put_answer(page, at, answer, b'\n')
}

// The line of the three counts.
pub fn put_counts(page: &mut [u8], at: usize, pieces: usize, nodes: usize, shadows: usize) -> usize
    ensures { Put page.old at (counts_line pieces nodes shadows) page.new result }
{
    let at = pages::put(page, at, b"PIECES ");
    let at = pages::put_number(page, at, pieces, b' ');
    let at = pages::put(page, at, b"NODES ");
    let at = pages::put_number(page, at, nodes, b' ');
    let at = pages::put(page, at, b"SHADOWS ");
    pages::put_number(page, at, shadows, b'\n')
}

// The one line of a refusal.
fn put_refusal(page: &mut [u8], at: usize, number: usize, place: usize) -> usize
    ensures { Put page.old at (refusal_line number place) page.new result }
{
    let at = pages::put(page, at, b"REFUSED ");
    let at = pages::put_number(page, at, number, b' ');
    pages::put_number(page, at, place, b'\n')
}

// An answer, or 0 where there is none.
fn answer_at(answers: &[u8], i: usize) -> u8
    ensures { result ≡ get_or answers.now i 0 }
{
    answers.get(i).copied().unwrap_or(0)
}

// The lines of all claims.
pub fn put_claims(page: &mut [u8], at: usize, claims: &[u8], answers: &[u8]) -> usize
    ensures { Put page.old at (claim_lines claims.now answers.now (records claims.now)) page.new result }
{
    let n = claims.len() / records::RECORD_BYTES;
    let mut end = at;
    for i in 0..n {
        let claim = records::record_at(claims, i);
        let answer = answer_at(answers, i);
        end = put_claim(page, end, i, claim, answer);
    }
    end
}

// Answers the claims, with an index that nobody asks for.
pub fn answer(book: &[u8], claims: &[u8], answers: &mut [u8]) -> Result<Counts, Refused>
    requires { answers.old ≡ replicate ANSWERS-MOST 0 }
    ensures { Answered book.now claims.now answers.new result }
{
    let mut e = [0u64; matrices::WORDS];
    let mut d = [0u64; matrices::WORDS];
    let mut t = [0u64; matrices::WORDS];
    let mut u = [0u64; matrices::WORDS];
    let mut p = [0u64; matrices::WORDS];
    let mut q = [0u64; matrices::WORDS];
    answers::answer_alone(
        book, claims, &mut e, &mut d, &mut t, &mut u, &mut p, &mut q, answers,
    )
}

// Answers the claims and writes the page: how much of it is text.
fn write_session(book: &[u8], claims: &[u8], page: &mut [u8]) -> usize
    requires { (length claims.now ≤ CLAIMS-ROOM) × (ANSWERS-ROOM ≤ length page.old) }
    ensures { Printed page.old (printed book.now claims.now) page.new result }
{
    let mut answers = [0u8; records::CLAIMS + 1];
    match answer(book, claims, &mut answers) {
        Err(refused) => {
            let number = records::refusal_number(refused.refusal);
            put_refusal(page, 0, usize::from(number), refused.place)
        }
        Ok(counts) => {
            let at = put_counts(page, 0, counts.pieces, counts.nodes, counts.shadows);
            put_claims(page, at, claims, &answers)
        }
    }
}

// Answers the claims about the book and writes the session on the page.
pub fn ask(book: &[u8], claims: &[u8], page: &mut [u8]) -> Option<usize>
    ensures { Asked book.now claims.now page.old page.new result }
{
    if CLAIMS_READ < claims.len() || page.len() < PAGE_BYTES {
        return None;
    }
    Some(write_session(book, claims, page))
}
