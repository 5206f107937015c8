// The page of `why` with a claim: the claim with its answer, and a chain behind it.
ghost use Rattle.std.specs.Prelude.{◌≤◌, length};
ghost use Rattle.pages.specs.Put.{Put};
ghost use Rattle.chain_pages.specs.ChainText.{Bytes};
ghost use Rattle.chain_pages.specs.WhyText.{why_text};
ghost use Rattle.chain_pages.specs.Why.{Whole, Shown, OfBook, OfSource, Why};
ghost use Rattle.chain_format.specs.Sizes.{CHAIN-BYTES};
ghost use Rattle.chain_pages.specs.Rooms.{WHY-ROOM};

use chain_writing::Chain;
use records::{Record, Refused};
use sentences::{Unread, Whom};
use text::Form;
use verdicts::Answer;

// The text of a reply and of steps, from the start of the page. Answers where it ends.
fn put_why(
    page: &mut [u8],
    source: &[u8],
    claim: &[u8],
    reply: Result<Answer, Refused>,
    c: &[u8],
) -> usize
    requires { Whole claim.now reply × (length c.now ≤ CHAIN-BYTES) }
    ensures put { Put page.old 0 (why_text source.now claim.now reply c.now) page.new result }
    ensures c_len_bound { length (why_text source.now claim.now reply c.now) ≤ WHY-ROOM }
    ensures bytes { Bytes c.now }
{
    match reply {
        Err(refused) => { sentences::put_refused_book(page, 0, refused, source) }
        Ok(answer) => {
            let r = records::record_at(claim, 0);
            crate::lines::put_chain(page, 0, r, answer, c)
        }
    }
}

// The writer's call, which works in these matrices.
fn write_chain(book: &[u8], claim: &[u8], steps: &mut [u8; chain_format::CHAIN_BYTES]) -> Chain
    ensures { Shown book.now claim.now result steps.new }
{
    let mut e = [0u64; matrices::WORDS];
    let mut d = [0u64; matrices::WORDS];
    let mut t = [0u64; matrices::WORDS];
    chain_writing::write_chain(book, claim, steps, &mut e, &mut d, &mut t)
}

// The page of the answer to the one claim about the book, and of a chain behind it. The book was read from the source.
fn why_book(page: &mut [u8], source: &[u8], book: &[u8], claim: &[u8]) -> Option<usize>
    ensures { OfBook source.now book.now claim.now page.old page.new result }
{
    let mut c = [0u8; chain_format::CHAIN_BYTES];
    let written = write_chain(book, claim, &mut c);
    let reply = written.reply;
    let n = chain_format::STEP_BYTES * written.steps;
    let end = put_why(page, source, claim, reply, &c[..n]);
    pages::finish(page.len(), end)
}

// The same for the book of a source.
fn why_source(page: &mut [u8], source: &[u8], claim: Record) -> Option<usize>
    ensures { OfSource source.now claim page.old page.new result }
{
    let mut book = [0u8; text::BOOK_ROOM];
    let read = sentences::sources::read_source(Form::Records, source, &mut book);
    match read {
        Err(unread) => sentences::write_unread_of(page, Whom::Book, unread),
        Ok(n) => {
            let six = sentences::sources::six_bytes(claim);
            why_book(page, source, &book[..n], &six)
        }
    }
}

// The page of the claim that the words say, about the book of a source: its answer, and a chain behind it.
pub fn write_why(source: &[u8], words: &[u8], page: &mut [u8]) -> Option<usize>
    ensures { Why source.now words.now page.old page.new result }
{
    let said = sentences::sources::read_words(Form::Claims, words);
    match said {
        Err(cause) => sentences::write_unread_of(page, Whom::ClaimWords, Unread { line: 0, cause }),
        Ok(claim) => why_source(page, source, claim),
    }
}
