// The check of a chain: whether steps, whoever wrote them, are one behind the answer to a claim about a book. What it is for a chain to pass is in
// specs/, what that means in proofs/.
#![tactic(auto)]

ghost use Rattle.std.specs.Prelude.{◌≡◌, length, Ok};
ghost use Rattle.records.specs.Check.{book_check};
ghost use Rattle.chain_check.specs.Call.{passes, Checked};
ghost use Rattle.records.specs.Sizes.{RECORD-BYTES};

use matrices::Matrix;
use records::Refused;

// The claim's rows and the steps, in an accepted book of n pieces.
fn check_accepted(book: &[u8], n: usize, claim: &[u8], steps: &[u8]) -> bool
    requires { (book_check book.now ≡ Ok n) × (length claim.now ≡ RECORD-BYTES) }
    ensures { Checked n book.now claim.now steps.now result }
{
    match records::check_claims(claim, n) {
        Err(Refused { .. }) => false,
        Ok(()) => {
            let mut voids = [0u64; matrices::ROW_WORDS];
            closure::marking::mark_voids(book, &mut voids);
            chain_format::check_steps(book, n, &voids, records::record_at(claim, 0), steps)
        }
    }
}

// Whether the steps, whoever wrote them, are a chain behind the answer to the claim about the book.
pub fn check_chain(
    book: &[u8],
    claim: &[u8],
    steps: &[u8],
    e: &mut Matrix,
    d: &mut Matrix,
    t: &mut Matrix,
) -> bool
    ensures { result ≡ passes book.now claim.now steps.now }
{
    if claim.len() != records::RECORD_BYTES {
        return false;
    }
    match answers::judge_book(book, e, d, t) {
        Err(_) => false,
        Ok(n) => check_accepted(book, n, claim, steps),
    }
}
