// A book, or a list of claims, shown as text on a page that the caller lends.
ghost use Rattle.std.specs.Prelude.{◌∷◌};
ghost use Rattle.pages.specs.Text.{field, line};
ghost use Rattle.pages.specs.Decimal.{decimal};
ghost use Rattle.pages.specs.Put.{Put};
ghost use Rattle.pages.specs.Written.{Page};
ghost use Rattle.text.specs.Shown.{kind_word, choice_fields, show_record, show_records, show_book, show_claims};

use records::Record;

// The word of a kind and a space.
fn put_kind(page: &mut [u8], at: usize, kind: u8) -> usize
    ensures { Put page.old at (field (kind_word kind) 32) page.new result }
{
    match kind {
        records::PART => pages::put(page, at, b"PART "),
        records::APART => pages::put(page, at, b"APART "),
        records::MEETS => pages::put(page, at, b"MEETS "),
        records::NOTPART => pages::put(page, at, b"NOTPART "),
        records::VOID => pages::put(page, at, b"VOID "),
        _ => pages::put(page, at, b" "),
    }
}

// The last number of a line, and the word behind it where byte 1 has one.
fn put_last(page: &mut [u8], at: usize, n: usize, choice: &[u8], x: u8) -> usize
    ensures { Put page.old at (line (decimal n ∷ choice_fields choice.now x)) page.new result }
{
    if x == 1 {
        let at = pages::put_number(page, at, n, b' ');
        let at = pages::put(page, at, choice);
        return pages::put_byte(page, at, b'\n');
    }
    pages::put_number(page, at, n, b'\n')
}

// The line of a record, where `choice` is the word for byte 1 that is 1.
pub fn put_record(page: &mut [u8], at: usize, choice: &[u8], r: Record) -> usize
    ensures { Put page.old at (show_record choice.now r) page.new result }
{
    let kind = r.kind;
    let at = put_kind(page, at, kind);
    if kind == records::VOID {
        return put_last(page, at, r.a, choice, r.origin);
    }
    let at = pages::put_number(page, at, r.a, b' ');
    put_last(page, at, r.b, choice, r.origin)
}

// The lines of all records.
fn put_records(page: &mut [u8], choice: &[u8], s: &[u8]) -> usize
    ensures { Put page.old 0 (show_records choice.now s.now) page.new result }
{
    let n = s.len() / records::RECORD_BYTES;
    let mut end = 0;
    for i in 0..n {
        end = put_record(page, end, choice, records::record_at(s, i));
    }
    end
}

// Writes a book as text to the front of a page, and says how many bytes it has; or the page is too short.
pub fn show_book(book: &[u8], page: &mut [u8]) -> Option<usize>
    ensures { Page page.old (show_book book.now) page.new result }
{
    let end = put_records(page, b"scanner", book);
    pages::finish(page.len(), end)
}

// The same of claims.
pub fn show_claims(claims: &[u8], page: &mut [u8]) -> Option<usize>
    ensures { Page page.old (show_claims claims.now) page.new result }
{
    let end = put_records(page, b"sheets", claims);
    pages::finish(page.len(), end)
}
