// The check of a book, for bench/records.c.
ghost use Rattle.std.specs.Prelude.{◌≡◌};
ghost use Rattle.records.specs.Check.{book_check};
ghost use Rattle.records.specs.CheckNumbers.{book_number};

// The number of a book's first refusal by rows 3 to 9, or 0.
#[unsafe(no_mangle)]
pub extern "C" fn records_check_book(book: &[u8]) -> u8
    ensures { result ≡ book_number (book_check book.now) }
{
    match records::check_book(book) {
        Ok(_) => 0,
        Err(refused) => records::refusal_number(refused.refusal),
    }
}
