// Claims answered with an index that nobody asks for. Six matrices are scratch.
ghost use Rattle.std.specs.Prelude.{◌≡◌, length};
ghost use Rattle.outcomes.specs.Lent.{unasked};
ghost use Rattle.outcomes.specs.Call.{by_runs, outcome, left};
ghost use Rattle.answers.specs.Judging.{Answerable};

use matrices::Matrix;
use outcomes::Counts;
use records::{Refusal, Refused};

// Row 14 and the answers, for a book and claims that pass the rows before. n is the count of the book's pieces, or a larger one.
pub fn judge_alone(
    book: &[u8],
    n: usize,
    claims: &[u8],
    e: &mut Matrix,
    d: &mut Matrix,
    t: &mut Matrix,
    u: &mut Matrix,
    p: &mut Matrix,
    q: &mut Matrix,
    answers: &mut [u8],
) -> Result<Counts, Refused>
    requires { Answerable book.now n claims.now (length answers.old) }
    ensures { (result ≡ by_runs book.now n) × (answers.new ≡ (left book.now claims.now (unasked answers.old) result).answers) }
{
    let mut parens = [0u8; index::PARENTHESES_BYTES];
    let mut marks = [0u8; index::MARKS_BYTES];
    let mut shadows = [0u16; index::SHADOWS];
    let mut places = [0u16; index::PLACES];
    crate::judge_in(
        book,
        n,
        claims,
        e,
        d,
        t,
        u,
        p,
        q,
        &mut parens,
        &mut marks,
        &mut shadows,
        &mut places,
        answers,
    )
}

// The call that answers claims, without its index.
pub fn answer_alone(
    book: &[u8],
    claims: &[u8],
    e: &mut Matrix,
    d: &mut Matrix,
    t: &mut Matrix,
    u: &mut Matrix,
    p: &mut Matrix,
    q: &mut Matrix,
    answers: &mut [u8],
) -> Result<Counts, Refused>
    ensures { (result ≡ outcome book.now claims.now (unasked answers.old)) × (answers.new ≡ (left book.now claims.now (unasked answers.old) result).answers) }
{
    let asked = claims.len() / records::RECORD_BYTES;
    if answers.len() < asked {
        return Err(Refusal::ShortBuffer.at(0));
    }
    // no `?`: a must-fail edit changes the refusal here
    match crate::check_rows(book, claims) {
        Err(refused) => Err(refused),
        Ok(n) => judge_alone(book, n, claims, e, d, t, u, p, q, &mut answers[..asked]),
    }
}
