// The pages of `check` and `ask`: document 01's session, with the sentence of a refusal.
ghost use Rattle.std.specs.Prelude.{[], ◌+◌, ◌*◌, ◌≤◌, length};
ghost use Rattle.records.specs.Record.{records};
ghost use Rattle.pages.specs.Put.{Put};
ghost use Rattle.pages.specs.Written.{Page};
ghost use Rattle.sentences.specs.Sources.{of_book, of_claims};
ghost use Rattle.book_pages.specs.AskText.{session_text, check_text, ask_text, ask_words_text};
ghost use Rattle.book_pages.specs.Rooms.{ASK-ROOM, ASK-WORDS-ROOM, CLAIM-LINE};
ghost use Rattle.sentences.specs.Rooms.{REFUSED-LINE};
ghost use Rattle.text.specs.Rooms.{CLAIMS-ROOM};

use sentences::{Unread, Whom};
use text::Form;

// An answer for each claim, and one more.
const ANSWERS_ROOM: usize = 4097;

// The text of the call's outcome, from the start of the page. Answers where it ends.
fn put_session(book: &[u8], claims: &[u8], source: &[u8], other: &[u8], page: &mut [u8]) -> usize
    requires { length claims.now ≤ CLAIMS-ROOM }
    ensures put { Put page.old 0 (session_text book.now claims.now source.now other.now) page.new result }
    ensures other_len_bound { length (session_text book.now claims.now source.now other.now) ≤ REFUSED-LINE + CLAIM-LINE * records claims.now }
{
    let mut answers = [0u8; ANSWERS_ROOM];
    match report::answer(book, claims, &mut answers) {
        Err(refused) => { sentences::put_refused(page, 0, refused, source, other) }
        Ok(counts) => {
            let at = report::put_counts(page, 0, counts.pieces, counts.nodes, counts.shadows);
            report::put_claims(page, at, claims, &answers)
        }
    }
}

// The answers about a book to the claims of a source.
fn write_answers(book: &[u8], source: &[u8], claims: &[u8], page: &mut [u8]) -> Option<usize>
    ensures page { Page page.old (of_claims claims.now (λ asked. session_text book.now asked source.now claims.now)) page.new result }
    ensures claims_len_bound { length (of_claims claims.now (λ asked. session_text book.now asked source.now claims.now)) ≤ ASK-ROOM }
{
    let mut asked = [0u8; text::CLAIMS_ROOM];
    let read = sentences::sources::read_source(Form::Claims, claims, &mut asked);
    match read {
        Err(unread) => sentences::write_unread_of(page, Whom::Claims, unread),
        Ok(n) => {
            let end = put_session(book, &asked[..n], source, claims, page);
            pages::finish(page.len(), end)
        }
    }
}

// The answers to the claims about the book: 135,343 bytes always serve.
pub fn write_ask(source: &[u8], claims: &[u8], page: &mut [u8]) -> Option<usize>
    ensures page { Page page.old (ask_text source.now claims.now) page.new result }
    ensures claims_len_bound { length (ask_text source.now claims.now) ≤ ASK-ROOM }
{
    let mut book = [0u8; text::BOOK_ROOM];
    let read = sentences::sources::read_source(Form::Records, source, &mut book);
    match read {
        Err(unread) => sentences::write_unread_of(page, Whom::Book, unread),
        Ok(n) => write_answers(&book[..n], source, claims, page),
    }
}

// The answer about a source to one claim, or to none.
fn write_about(source: &[u8], claims: &[u8], page: &mut [u8]) -> Option<usize>
    requires { length claims.now ≤ CLAIMS-ROOM }
    ensures page { Page page.old (of_book source.now (λ book. session_text book claims.now source.now [])) page.new result }
    ensures source_len_bound { length (of_book source.now (λ book. session_text book claims.now source.now [])) ≤ REFUSED-LINE + CLAIM-LINE * records claims.now }
{
    let mut book = [0u8; text::BOOK_ROOM];
    let none = [0u8; 0];
    let read = sentences::sources::read_source(Form::Records, source, &mut book);
    match read {
        Err(unread) => sentences::write_unread_of(page, Whom::Book, unread),
        Ok(n) => {
            let end = put_session(&book[..n], claims, source, &none, page);
            pages::finish(page.len(), end)
        }
    }
}

// The counts of the book: 142 bytes always serve.
pub fn write_check(source: &[u8], page: &mut [u8]) -> Option<usize>
    ensures page { Page page.old (check_text source.now) page.new result }
    ensures source_len_bound { length (check_text source.now) ≤ REFUSED-LINE }
{
    let none = [0u8; 0];
    write_about(source, &none, page)
}

// The answer to the claim in the words: 175 bytes always serve.
pub fn write_ask_words(source: &[u8], words: &[u8], page: &mut [u8]) -> Option<usize>
    ensures page { Page page.old (ask_words_text source.now words.now) page.new result }
    ensures words_len_bound { length (ask_words_text source.now words.now) ≤ ASK-WORDS-ROOM }
{
    let said = sentences::sources::read_words(Form::Claims, words);
    match said {
        Err(cause) => sentences::write_unread_of(page, Whom::ClaimWords, Unread { line: 0, cause }),
        Ok(claim) => {
            let six = sentences::sources::six_bytes(claim);
            write_about(source, &six, page)
        }
    }
}
