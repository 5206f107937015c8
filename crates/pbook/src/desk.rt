// The page of each command, by its family. Each is a `match` on its enum, which the compiler holds complete: a table of functions is no plainer.
ghost use Rattle.std.specs.Prelude.{◌≡◌};
ghost use Rattle.change_pages.specs.Made.{Made};
ghost use Rattle.pbook.specs.Paged.{SessionPaged, BookPaged, list_kind, WordsPaged, change_by, export_by, words_form, change_form, end_of};

use change_pages::Changed;
use commands::{BookPage, Change, Export, Session, WordsPage};
use text::Form;

// What is asked are the words, or the claims of standard input.
pub fn session_page(which: Session, source: &[u8], asked: &[u8], page: &mut [u8]) -> Option<usize>
    ensures { SessionPaged which source.now asked.now page.old page.new result }
{
    match which {
        Session::Check => book_pages::session::write_check(source, page),
        Session::AskWords => book_pages::session::write_ask_words(source, asked, page),
        Session::AskInput => book_pages::session::write_ask(source, asked, page),
    }
}

pub fn book_page(which: BookPage, source: &[u8], page: &mut [u8]) -> Option<usize>
    ensures { BookPaged which source.now page.old page.new result }
{
    match which {
        BookPage::Why => chain_pages::write_contradiction(source, page),
        BookPage::Grid => book_pages::grid::write_grid(source, page),
        BookPage::Show => book_pages::show::write_show(source, page),
    }
}

// The kind of a list's claims; a chain has none.
fn list_kind(which: WordsPage) -> Option<u8>
    ensures { result ≡ list_kind which }
{
    match which {
        WordsPage::Why => None,
        WordsPage::Inside => Some(records::PART),
        WordsPage::Touching => Some(records::MEETS),
        WordsPage::Apart => Some(records::APART),
    }
}

pub fn words_page(which: WordsPage, source: &[u8], words: &[u8], page: &mut [u8]) -> Option<usize>
    ensures { WordsPaged which source.now words.now page.old page.new result }
{
    let Some(kind) = list_kind(which) else {
        return chain_pages::write_why(source, words, page);
    };
    book_pages::listing::write_list(source, usize::from(kind), words, page)
}

// What the words of a page are.
pub fn words_form(which: WordsPage) -> Form
    ensures { result ≡ words_form which }
{
    match which {
        WordsPage::Why => Form::Claims,
        WordsPage::Inside => Form::Log,
        WordsPage::Touching => Form::Log,
        WordsPage::Apart => Form::Log,
    }
}

// What the words of a change are.
pub fn change_form(which: Change) -> Form
    ensures { result ≡ change_form which }
{
    match which {
        Change::Add => Form::Records,
        Change::Withdraw => Form::Log,
    }
}

pub fn change_page(
    which: Change,
    source: &[u8],
    words: &[u8],
    out: &mut [u8; change_pages::OUT_BYTES],
    page: &mut [u8],
) -> Changed
    ensures { Made (change_by which source.now words.now) out.new page.old page.new result }
{
    match which {
        Change::Add => change_pages::write_added(source, words, out, page),
        Change::Withdraw => change_pages::write_withdrawn(source, words, out, page),
    }
}

pub fn export_page(
    which: Export,
    source: &[u8],
    out: &mut [u8; change_pages::OUT_BYTES],
    page: &mut [u8],
) -> Changed
    ensures { Made (export_by which source.now) out.new page.old page.new result }
{
    match which {
        Export::Pack => change_pages::write_packed(source, out, page),
        Export::Convert => change_pages::write_converted(source, out, page),
    }
}

// Where a page ends. Each page here has the room that always serves.
pub fn end_of(written: Option<usize>) -> usize
    ensures { result ≡ end_of written }
{
    written.unwrap_or(0)
}
