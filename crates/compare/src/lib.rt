// Two books of one core under the same numbers: both answers to each claim, and whether their records can be laid in ice together.
#![tactic(auto)]

ghost use Rattle.std.specs.Prelude.{◌≡◌, not, [], ◌++◌, ◌*◌, ◌≤◌, length};
ghost use Rattle.rules.specs.Follows.{clash};
ghost use Rattle.records.specs.Record.{records};
ghost use Rattle.records.specs.Facts.{facts};
ghost use Rattle.records.specs.Marked.{marked};
ghost use Rattle.outcomes.specs.Fresh.{fresh_call};
ghost use Rattle.compare.specs.Call.{by_book, Determined};
ghost use Rattle.compare.specs.Demands.{Demanded};
ghost use Rattle.compare.specs.Judging.{Judgeable, Ready, Rows, Judged};
ghost use Rattle.records.specs.Sizes.{BOOK-BYTES};

use matrices::Matrix;
use records::{Refusal, Refused};

pub mod joint;

// The numbers of the books in a refusal: 0 for one of buffers and claims.
pub const NEITHER: usize = 0;

pub const FIRST: usize = 1;

pub const SECOND: usize = 2;

// The refusal of a book, 1 or 2, or of buffers and claims, 0, and its place.
#[derive(Clone, Copy, Debug, PartialEq, Eq)]
pub struct RefusedOf {
    pub book: usize,
    pub refusal: Refusal,
    pub place: usize,
}

// A refusal of whose book it is.
fn refused_of(book: usize, refused: Refused) -> RefusedOf
    ensures { result ≡ record { book = book; refusal = refused.refusal; place = refused.place } }
{
    RefusedOf {
        book,
        refusal: refused.refusal,
        place: refused.place,
    }
}

// Whether the records of a run can be laid in ice, all its marks counting. The matrices are scratch.
fn are_consistent(run: &[u8], n: usize, e: &mut Matrix, d: &mut Matrix, t: &mut Matrix) -> bool
    requires { Judgeable run.now n }
    ensures { result ≡ not (clash (marked run.now) n (facts run.now)) }
{
    let mut voids = [0u64; matrices::ROW_WORDS];
    closure::marking::mark_voids(run, &mut voids);
    !contradiction::contradicts(run, n, &voids, e, d, t)
}

// The same of two books together.
fn lay_together(
    first: &[u8],
    second: &[u8],
    n: usize,
    e: &mut Matrix,
    d: &mut Matrix,
    t: &mut Matrix,
) -> bool
    requires { Judgeable (first.now ++ second.now) n × (length first.now ≤ BOOK-BYTES) × (length second.now ≤ BOOK-BYTES) }
    ensures { result ≡ not (clash (marked (first.now ++ second.now)) n (facts (first.now ++ second.now))) }
{
    let mut run = [0u8; joint::JOINT_BYTES];
    let end = joint::join(first, second, &mut run);
    are_consistent(&run[..end], n, e, d, t)
}

// Both books and their answers among n pieces, the larger's, then their records together, all in the same matrices. Each book's
// answers are kept by themselves, so that nothing is written where the second is refused.
fn judge_both(
    first: &[u8],
    second: &[u8],
    n: usize,
    claims: &[u8],
    out: &mut [u8],
    e: &mut Matrix,
    d: &mut Matrix,
    t: &mut Matrix,
    u: &mut Matrix,
    p: &mut Matrix,
    q: &mut Matrix,
) -> Result<bool, RefusedOf>
    requires { Ready first.now second.now claims.now n × (3 * records claims.now ≤ length out.old) }
    ensures { Judged first.now second.now claims.now out.old result out.new }
{
    let asked = claims.len() / records::RECORD_BYTES;
    let mut ours = [0u8; records::CLAIMS];
    let mut theirs = [0u8; records::CLAIMS];
    let one = answers::judge_alone(first, n, claims, e, d, t, u, p, q, &mut ours[..asked]);
    if let Err(refused) = one {
        return Err(refused_of(FIRST, refused));
    }
    let two = answers::judge_alone(second, n, claims, e, d, t, u, p, q, &mut theirs[..asked]);
    if let Err(refused) = two {
        return Err(refused_of(SECOND, refused));
    }
    let consistent = lay_together(first, second, n, e, d, t);
    joint::write_answers(&ours[..asked], &theirs[..asked], out);
    Ok(consistent)
}

// The refusal of the first book that a fresh call refuses, or what comes after both.
fn after(
    first: &[u8],
    second: &[u8],
    rest: Result<bool, RefusedOf>,
    e: &mut Matrix,
    d: &mut Matrix,
    t: &mut Matrix,
) -> Result<bool, RefusedOf>
    ensures { result ≡ by_book 1 (fresh_call first.now []) (by_book 2 (fresh_call second.now []) rest) }
{
    if let Err(refused) = answers::judge_book(first, e, d, t) {
        return Err(refused_of(FIRST, refused));
    }
    if let Err(refused) = answers::judge_book(second, e, d, t) {
        return Err(refused_of(SECOND, refused));
    }
    rest
}

// Rows 3 to 13: the count of the larger book, or the first refusal, which row 14 of the books before it comes before.
fn check_rows(first: &[u8], second: &[u8], claims: &[u8]) -> Result<usize, Refused>
    ensures { Rows first.now second.now claims.now result }
{
    let own = records::check_book(first)?;
    let other = records::check_book(second)?;
    let n = own.max(other);
    records::check_claims(claims, n)?;
    Ok(n)
}

// Compares two books: for each claim both answers, then 1 SAME, 2 ONE OPEN or 3 OPPOSED.
pub fn compare(
    first: &[u8],
    second: &[u8],
    claims: &[u8],
    out: &mut [u8],
    e: &mut Matrix,
    d: &mut Matrix,
    t: &mut Matrix,
    u: &mut Matrix,
    p: &mut Matrix,
    q: &mut Matrix,
) -> Result<bool, RefusedOf>
    ensures determined { Determined first.now second.now claims.now out.old result out.new }
    ensures demanded { Demanded first.now second.now claims.now (length out.old) out.new result }
{
    let asked = claims.len() / records::RECORD_BYTES;
    if out.len() < joint::COMPARED_BYTES * asked {
        return Err(refused_of(NEITHER, Refusal::ShortBuffer.at(0)));
    }
    match check_rows(first, second, claims) {
        Err(refused) => after(first, second, Err(refused_of(NEITHER, refused)), e, d, t),
        Ok(n) => judge_both(first, second, n, claims, out, e, d, t, u, p, q),
    }
}
