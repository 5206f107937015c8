// The page of `compare`: two books and the claims that both answer.
ghost use Rattle.std.specs.Prelude.{◌*◌, ◌≤◌, length};
ghost use Rattle.records.specs.Record.{records};
ghost use Rattle.pages.specs.Put.{Put};
ghost use Rattle.pages.specs.Written.{Page};
ghost use Rattle.sentences.specs.Sources.{of_second, of_claims};
ghost use Rattle.compare.specs.Call.{Determined};
ghost use Rattle.beside_pages.specs.ComparisonText.{pair_line, pair_lines, together_line, refused_in, beside_text, comparison_text};
ghost use Rattle.beside_pages.specs.Rooms.{COMPARISON-HEAD, COMPARISON-ROOM};
ghost use Rattle.text.specs.Rooms.{CLAIMS-ROOM};

use compare::RefusedOf;
use records::{Record, Refused};
use sentences::Whom;
use text::Form;

// The bytes of the longest comparison: three a claim.
const ROOM: usize = 12291;

// The line of claim i.
fn put_pair(
    page: &mut [u8],
    at: usize,
    i: usize,
    claim: Record,
    ours: u8,
    theirs: u8,
    agreement: u8,
) -> usize
    ensures { Put page.old at (pair_line i claim ours theirs agreement) page.new result }
{
    let at = pages::put_number(page, at, i, b' ');
    let kind = claim.kind;
    let at = sentences::put_kind(page, at, kind, b' ');
    let at = pages::put_number(page, at, claim.a, b' ');
    let at = pages::put_number(page, at, claim.b, b' ');
    let at = sentences::put_answer(page, at, ours, b' ');
    let at = sentences::put_answer(page, at, theirs, b' ');
    sentences::put_agreement(page, at, agreement, b'\n')
}

// The lines of all claims, where the bytes have three of each.
fn put_pairs(page: &mut [u8], at: usize, claims: &[u8], bytes: &[u8]) -> usize
    requires { 3 * records claims.now ≤ length bytes.now }
    ensures { Put page.old at (pair_lines claims.now bytes.now (records claims.now)) page.new result }
{
    let n = claims.len() / records::RECORD_BYTES;
    let mut end = at;
    for i in 0..n {
        let k = compare::joint::COMPARED_BYTES * i;
        let claim = records::record_at(claims, i);
        end = put_pair(page, end, i, claim, bytes[k], bytes[k + 1], bytes[k + 2]);
    }
    end
}

fn put_together(page: &mut [u8], together: bool) -> usize
    ensures { Put page.old 0 (together_line together) page.new result }
{
    if together {
        return pages::put(page, 0, b"TOGETHER YES\n");
    }
    pages::put(page, 0, b"TOGETHER NO\n")
}

// The one line of a refusal: of a book, 1 or 2, or of the claims.
fn put_refused_in(
    page: &mut [u8],
    of: RefusedOf,
    source: &[u8],
    second: &[u8],
    claims: &[u8],
) -> usize
    ensures put { Put page.old 0 (refused_in of.book of.refusal of.place source.now second.now claims.now) page.new result }
    ensures claims_len_bound { length (refused_in of.book of.refusal of.place source.now second.now claims.now) ≤ COMPARISON-HEAD }
{
    let refused = Refused {
        refusal: of.refusal,
        place: of.place,
    };
    if of.book == compare::SECOND {
        let at = sentences::put_prefix_of(page, 0, Whom::Second);
        return sentences::put_refused(page, at, refused, second, claims);
    }
    sentences::put_refused(page, 0, refused, source, claims)
}

// Compares two books, in matrices of its own.
fn compared(first: &[u8], other: &[u8], asked: &[u8], bytes: &mut [u8]) -> Result<bool, RefusedOf>
    ensures { Determined first.now other.now asked.now bytes.old result bytes.new }
{
    let mut e = [0u64; matrices::WORDS];
    let mut d = [0u64; matrices::WORDS];
    let mut t = [0u64; matrices::WORDS];
    let mut u = [0u64; matrices::WORDS];
    let mut p = [0u64; matrices::WORDS];
    let mut q = [0u64; matrices::WORDS];
    compare::compare(
        first, other, asked, bytes, &mut e, &mut d, &mut t, &mut u, &mut p, &mut q,
    )
}

// The text of the comparison, from the start of the page. Answers where it ends.
fn put_comparison(
    first: &[u8],
    other: &[u8],
    asked: &[u8],
    source: &[u8],
    second: &[u8],
    claims: &[u8],
    page: &mut [u8],
) -> usize
    requires { length asked.now ≤ CLAIMS-ROOM }
    ensures put { Put page.old 0 (beside_text first.now other.now asked.now source.now second.now claims.now) page.new result }
    ensures claims_len_bound { length (beside_text first.now other.now asked.now source.now second.now claims.now) ≤ COMPARISON-ROOM }
{
    let mut bytes = [0u8; ROOM];
    match compared(first, other, asked, &mut bytes) {
        Err(of) => put_refused_in(page, of, source, second, claims),
        Ok(together) => {
            let at = put_together(page, together);
            put_pairs(page, at, asked, &bytes)
        }
    }
}

// Two books that were read, and the claims of a source.
fn write_answers(
    first: &[u8],
    other: &[u8],
    source: &[u8],
    second: &[u8],
    claims: &[u8],
    page: &mut [u8],
) -> Option<usize>
    ensures page { Page page.old (of_claims claims.now (λ asked. beside_text first.now other.now asked source.now second.now claims.now)) page.new result }
    ensures claims_len_bound { length (of_claims claims.now (λ asked. beside_text first.now other.now asked source.now second.now claims.now)) ≤ COMPARISON-ROOM }
{
    let mut asked = [0u8; text::CLAIMS_ROOM];
    let read = sentences::sources::read_source(Form::Claims, claims, &mut asked);
    match read {
        Err(unread) => sentences::write_unread_of(page, Whom::Claims, unread),
        Ok(n) => {
            let end = put_comparison(first, other, &asked[..n], source, second, claims, page);
            pages::finish(page.len(), end)
        }
    }
}

// A book that was read, and a second one of a source.
fn write_second(
    first: &[u8],
    source: &[u8],
    second: &[u8],
    claims: &[u8],
    page: &mut [u8],
) -> Option<usize>
    ensures page { Page page.old (of_second second.now (λ other. of_claims claims.now (λ asked. beside_text first.now other asked source.now second.now claims.now))) page.new result }
    ensures claims_len_bound { length (of_second second.now (λ other. of_claims claims.now (λ asked. beside_text first.now other asked source.now second.now claims.now))) ≤ COMPARISON-ROOM }
{
    let mut other = [0u8; text::BOOK_ROOM];
    let read = sentences::sources::read_source(Form::Records, second, &mut other);
    match read {
        Err(unread) => sentences::write_unread_of(page, Whom::Second, unread),
        Ok(n) => write_answers(first, &other[..n], source, second, claims, page),
    }
}

// Two books and the claims that both answer: 208,960 bytes always serve.
pub fn write_comparison(
    source: &[u8],
    second: &[u8],
    claims: &[u8],
    page: &mut [u8],
) -> Option<usize>
    ensures page { Page page.old (comparison_text source.now second.now claims.now) page.new result }
    ensures claims_len_bound { length (comparison_text source.now second.now claims.now) ≤ COMPARISON-ROOM }
{
    let mut first = [0u8; text::BOOK_ROOM];
    let read = sentences::sources::read_source(Form::Records, source, &mut first);
    match read {
        Err(unread) => sentences::write_unread_of(page, Whom::Book, unread),
        Ok(n) => write_second(&first[..n], source, second, claims, page),
    }
}
