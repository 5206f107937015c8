// Whether a page of `why` verifies: it is read back and checked. The reader guesses; where the text of what it guessed is not the page, the page does not verify.
ghost use Rattle.std.specs.Prelude.{◌≡◌, true, ◌≤◌, length};
ghost use Rattle.records.specs.Record.{record_at};
ghost use Rattle.records.specs.Facts.{saying};
ghost use Rattle.records.specs.Pieces.{stated};
ghost use Rattle.chain_check.specs.Call.{passes};
ghost use Rattle.chain_pages.specs.Verified.{tells, Judged, Verifies};
ghost use Rattle.chain_format.specs.Sizes.{CHAIN-BYTES, STEP-BYTES};
ghost use Rattle.records.specs.Sizes.{RECORD-BYTES};

use verdicts::Answer;

// Whether the last step shows the claim, or its opposite, as the answer says. The kinds of opposite facts add up to 5.
fn last_tells(claim: &[u8], answer: Answer, c: &[u8]) -> bool
    requires { (length claim.now ≡ RECORD-BYTES) × (STEP-BYTES ≤ length c.now) × (stated (record_at claim.now 0) ≡ true) }
    ensures { result ≡ tells answer (saying (record_at claim.now 0)) c.now }
{
    let f = records::record_at(claim, 0);
    let s = chain_format::step_at(c, c.len() / chain_format::STEP_BYTES - 1);
    match answer {
        Answer::Follows => chain_format::shows(s, f.kind, f.a, f.b),
        Answer::Denied => chain_format::shows(s, records::OPPOSITES - f.kind, f.a, f.b),
        Answer::Open => false,
    }
}

// The check of R-2, which works in these matrices.
fn check_chain(book: &[u8], claim: &[u8], steps: &[u8]) -> bool
    ensures { result ≡ passes book.now claim.now steps.now }
{
    let mut e = [0u64; matrices::WORDS];
    let mut d = [0u64; matrices::WORDS];
    let mut t = [0u64; matrices::WORDS];
    chain_check::check_chain(book, claim, steps, &mut e, &mut d, &mut t)
}

// Whether the page is that of the claim, the answer and the steps, and these pass.
fn is_page_of(book: &[u8], page: &[u8], claim: &[u8], answer: Answer, c: &[u8]) -> bool
    requires { (length claim.now ≡ RECORD-BYTES) × (length c.now ≤ CHAIN-BYTES) }
    ensures { Judged book.now page.now claim.now answer c.now result }
{
    if crate::comparing::is_text(page, claim, answer, c) {
        if check_chain(book, claim, c) {
            return last_tells(claim, answer, c);
        }
        return false;
    }
    false
}

// Whether a page that `why` may have printed about the book passes the check of R-2.
pub fn verify(book: &[u8], page: &[u8]) -> bool
    ensures { Verifies book.now page.now result }
{
    let head = crate::reading::read_head(page);
    let claim = sentences::sources::six_bytes(head.claim);
    let answer = head.answer;
    let mut c = [0u8; chain_format::CHAIN_BYTES];
    let n = crate::reading::read_steps(page, head.next, &mut c);
    let end = chain_format::STEP_BYTES * n;
    is_page_of(book, page, &claim, answer, &c[..end])
}
