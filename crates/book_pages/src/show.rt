// The page of `show`: the book as text.
ghost use Rattle.std.specs.Prelude.{◌≤◌, length};
ghost use Rattle.pages.specs.Written.{Page};
ghost use Rattle.book_pages.specs.ShowText.{shown_text, show_text};
ghost use Rattle.book_pages.specs.Rooms.{SHOW-ROOM};
ghost use Rattle.text.specs.Rooms.{BOOK-ROOM};

use sentences::Whom;
use text::Form;

fn write_shown(book: &[u8], source: &[u8], page: &mut [u8]) -> Option<usize>
    requires { length book.now ≤ BOOK-ROOM }
    ensures page { Page page.old (shown_text book.now source.now) page.new result }
    ensures source_len_bound { length (shown_text book.now source.now) ≤ SHOW-ROOM }
{
    match records::check_book(book) {
        Err(refused) => {
            let end = sentences::put_refused_book(page, 0, refused, source);
            pages::finish(page.len(), end)
        }
        Ok(_) => {
            if book.len() == 0 {
                let end = pages::put(page, 0, b"# no records\n");
                return pages::finish(page.len(), end);
            }
            text::showing::show_book(book, page)
        }
    }
}

// The book as text: 229,404 bytes always serve.
pub fn write_show(source: &[u8], page: &mut [u8]) -> Option<usize>
    ensures page { Page page.old (show_text source.now) page.new result }
    ensures source_len_bound { length (show_text source.now) ≤ SHOW-ROOM }
{
    let mut book = [0u8; text::BOOK_ROOM];
    let read = sentences::sources::read_source(Form::Records, source, &mut book);
    match read {
        Err(unread) => sentences::write_unread_of(page, Whom::Book, unread),
        Ok(n) => write_shown(&book[..n], source, page),
    }
}
