// The page of `inside`, `touching` and `apart`: the pieces of which a claim follows, one number a line.
ghost use Rattle.std.specs.Prelude.{◌≤◌, ◌≡◌, length, replicate};
ghost use Rattle.pages.specs.Put.{Put};
ghost use Rattle.pages.specs.Written.{Page};
ghost use Rattle.sentences.specs.Sources.{of_book};
ghost use Rattle.book_pages.specs.Listed.{Listed};
ghost use Rattle.book_pages.specs.ListText.{number_lines, list_lines, catalog_text, list_text};
ghost use Rattle.book_pages.specs.Rooms.{LIST-ROOM};
ghost use Rattle.records.specs.Sizes.{PIECES};

use catalog::Counts;
use records::Refused;
use sentences::{Unread, Whom};
use text::Form;

// The numbers of a list, one a line.
fn put_numbers(page: &mut [u8], at: usize, list: &[u16]) -> usize
    ensures { Put page.old at (number_lines list.now (length list.now)) page.new result }
{
    let mut end = at;
    for &x in list {
        end = pages::put_number(page, end, usize::from(x), b'\n');
    }
    end
}

// The lines of a list, from the start of the page.
fn put_list(page: &mut [u8], list: &[u16]) -> usize
    requires { length list.now ≤ PIECES }
    ensures put { Put page.old 0 (list_lines list.now) page.new result }
    ensures list_len_bound { length (list_lines list.now) ≤ LIST-ROOM }
{
    let at = pages::put(page, 0, b"PIECES ");
    let at = pages::put_number(page, at, list.len(), b'\n');
    put_numbers(page, at, list)
}

// The list of a catalog, of which nobody asks for more.
fn list_pieces(book: &[u8], kind: usize, g: usize, list: &mut [u16]) -> Result<Counts, Refused>
    requires { list.old ≡ replicate PIECES 0 }
    ensures { Listed book.now kind g list.new result }
{
    let mut parens = [0u8; index::PARENTHESES_BYTES];
    let mut marks = [0u8; index::MARKS_BYTES];
    let mut shadows = [0u16; index::SHADOWS];
    let mut places = [0u16; index::PLACES];
    let mut meets = [0u16; areas::AREA_NUMBERS];
    let mut apart = [0u16; areas::AREA_NUMBERS];
    let mut notpart = [0u16; areas::AREA_NUMBERS];
    let mut e = [0u64; matrices::WORDS];
    let mut d = [0u64; matrices::WORDS];
    let mut t = [0u64; matrices::WORDS];
    catalog::write_catalog(
        book,
        kind,
        g,
        &mut parens,
        &mut marks,
        &mut shadows,
        &mut places,
        list,
        &mut meets,
        &mut apart,
        &mut notpart,
        &mut e,
        &mut d,
        &mut t,
    )
}

// The text of a catalog's list, from the start of the page. Answers where it ends.
fn put_catalog(book: &[u8], source: &[u8], kind: usize, g: usize, page: &mut [u8]) -> usize
    ensures put { Put page.old 0 (catalog_text book.now source.now kind g) page.new result }
    ensures g_len_bound { length (catalog_text book.now source.now kind g) ≤ LIST-ROOM }
{
    let mut list = [0u16; records::PIECES];
    match list_pieces(book, kind, g, &mut list) {
        Err(refused) => { sentences::put_refused_book(page, 0, refused, source) }
        Ok(counts) => put_list(page, &list[..counts.listed]),
    }
}

// The list that a catalog of a source has.
fn write_pieces(source: &[u8], kind: usize, g: usize, page: &mut [u8]) -> Option<usize>
    ensures page { Page page.old (of_book source.now (λ book. catalog_text book source.now kind g)) page.new result }
    ensures g_len_bound { length (of_book source.now (λ book. catalog_text book source.now kind g)) ≤ LIST-ROOM }
{
    let mut book = [0u8; text::BOOK_ROOM];
    let read = sentences::sources::read_source(Form::Records, source, &mut book);
    match read {
        Err(unread) => sentences::write_unread_of(page, Whom::Book, unread),
        Ok(n) => {
            let end = put_catalog(&book[..n], source, kind, g, page);
            pages::finish(page.len(), end)
        }
    }
}

// The pieces x of which the claim of a kind 1 to 3 about x and the piece in the words follows, on a page: 12,300 bytes always serve.
pub fn write_list(source: &[u8], kind: usize, words: &[u8], page: &mut [u8]) -> Option<usize>
    ensures page { Page page.old (list_text source.now kind words.now) page.new result }
    ensures words_len_bound { length (list_text source.now kind words.now) ≤ LIST-ROOM }
{
    let said = sentences::sources::read_words(Form::Log, words);
    match said {
        Err(cause) => sentences::write_unread_of(page, Whom::Words, Unread { line: 0, cause }),
        Ok(number) => write_pieces(source, kind, number.a, page),
    }
}
