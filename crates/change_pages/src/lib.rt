// The pages of the commands that write a file, and the new book that they write.
#![tactic(auto)]

ghost use Rattle.std.specs.Prelude.{◌≡◌, [], ◌++◌, ◌≤◌, length, take};
ghost use Rattle.outcomes.specs.Fresh.{fresh_call, uncounted};
ghost use Rattle.convert.specs.Conversion.{conversion, Determined};
ghost use Rattle.pages.specs.Written.{Page};
ghost use Rattle.sentences.specs.Refusals.{refused};
ghost use Rattle.sentences.specs.Unread.{whom_number, cause_number, unread_line};
ghost use Rattle.change_pages.specs.Change.{New, Kept, new_line};
ghost use Rattle.change_pages.specs.Changes.{judged, packing, by_conversion, converting, adding, withdrawing, withdrawn, without};
ghost use Rattle.change_pages.specs.Made.{Made};
ghost use Rattle.change_pages.specs.Order.{Ordered};
ghost use Rattle.change_pages.specs.Rooms.{OUT-BYTES};
ghost use Rattle.sentences.specs.Rooms.{REFUSED-LINE};
ghost use Rattle.text.specs.Rooms.{BOOK-ROOM};

use records::{Record, Refusal, Refused};
use sentences::{Cause, Unread, Whom};
use text::Form;

// The bytes of a new book: a record more than a book that is read.
pub const OUT_BYTES: usize = 49164;

// The page, and how many of the lent bytes are the new book, where there is one.
#[derive(Clone, Copy, Debug, PartialEq, Eq)]
pub struct Changed {
    pub written: Option<usize>,
    pub book: Option<usize>,
}

// What words order: the record or the number in them, and how many bytes of the source are the book.
#[derive(Clone, Copy)]
pub struct Order {
    pub entry: Record,
    pub length: usize,
}

// Why nothing is ordered, and of whom that is told.
#[derive(Clone, Copy, Debug, PartialEq, Eq)]
pub struct NoOrder {
    pub whom: Whom,
    pub cause: Cause,
}

// The line of a new book, on a page of its own.
fn write_line(page: &mut [u8], run: &[u8]) -> Option<usize>
    ensures page { Page page.old (new_line run.now) page.new result }
    ensures run_len_bound { length (new_line run.now) ≤ REFUSED-LINE }
{
    let at = pages::put(page, 0, b"RECORDS ");
    let at = pages::put_number(page, at, run.len() / records::RECORD_BYTES, b' ');
    let at = pages::put(page, at, b"PIECES ");
    let at = pages::put_number(page, at, records::piece_count(run), b'\n');
    pages::finish(page.len(), at)
}

// The page of an empty book that was made.
pub fn write_new(page: &mut [u8]) -> Option<usize>
    ensures page { Page page.old (new_line []) page.new result }
    ensures new_line_len_bound { length (new_line []) ≤ REFUSED-LINE }
{
    let none = [0u8; 0];
    write_line(page, &none)
}

// What cannot be read.
fn tell(page: &mut [u8], whom: Whom, unread: Unread) -> Changed
    ensures { Made (Kept (unread_line (whom_number whom) unread.line (cause_number unread.cause))) [] page.old page.new result }
{
    let written = sentences::write_unread_of(page, whom, unread);
    let book = None;
    Changed { written, book }
}

// What is not ordered: words have no line, and neither has a source that is text.
fn tell_order(page: &mut [u8], wrong: NoOrder) -> Changed
    ensures { Made (Kept (unread_line (whom_number wrong.whom) 0 (cause_number wrong.cause))) [] page.old page.new result }
{
    let line = 0;
    let cause = wrong.cause;
    tell(page, wrong.whom, Unread { line, cause })
}

// A refusal of the book.
fn refuse(page: &mut [u8], why: Refused, source: &[u8]) -> Changed
    ensures { Made (Kept (refused why.refusal why.place source.now [])) [] page.old page.new result }
{
    let end = sentences::put_refused_book(page, 0, why, source);
    let written = pages::finish(page.len(), end);
    let book = None;
    Changed { written, book }
}

// A new book, the first n of the lent bytes.
fn accept(page: &mut [u8], out: &[u8], n: usize) -> Changed
    requires { n ≤ length out.now }
    ensures { Made (New (take n out.now)) out.now page.old page.new result }
{
    let written = write_line(page, &out[..n]);
    let book = Some(n);
    Changed { written, book }
}

// A fresh call on a run of records, which works in these matrices.
fn judge(run: &[u8]) -> Result<usize, Refused>
    ensures { result ≡ uncounted (fresh_call run.now []) }
{
    let mut e = [0u64; matrices::WORDS];
    let mut d = [0u64; matrices::WORDS];
    let mut t = [0u64; matrices::WORDS];
    answers::judge_book(run, &mut e, &mut d, &mut t)
}

// What a fresh call on the first n of the lent bytes makes of them.
fn settle(page: &mut [u8], source: &[u8], out: &[u8], n: usize) -> Changed
    requires { n ≤ length out.now }
    ensures { Made (judged source.now (take n out.now) (fresh_call (take n out.now) [])) out.now page.old page.new result }
{
    match judge(&out[..n]) {
        Err(why) => refuse(page, why, source),
        Ok(_) => accept(page, out, n),
    }
}

// A book in either form as records.
pub fn write_packed(source: &[u8], out: &mut [u8; OUT_BYTES], page: &mut [u8]) -> Changed
    ensures { Made (packing source.now) out.new page.old page.new result }
{
    let read = sentences::sources::read_source(Form::Records, source, out);
    match read {
        Err(unread) => tell(page, Whom::Book, unread),
        Ok(n) => settle(page, source, out, n),
    }
}

// The converter's call, which works in these matrices.
fn convert(book: &[u8], out: &mut [u8]) -> Result<usize, Refused>
    ensures { Determined book.now out.old result out.new }
{
    let mut e = [0u64; matrices::WORDS];
    let mut d = [0u64; matrices::WORDS];
    let mut t = [0u64; matrices::WORDS];
    convert::convert(book, out, &mut e, &mut d, &mut t)
}

// What the converter makes of a book that was read from the source.
fn convert_book(page: &mut [u8], source: &[u8], book: &[u8], out: &mut [u8; OUT_BYTES]) -> Changed
    ensures { Made (by_conversion source.now book.now (conversion book.now OUT-BYTES)) out.new page.old page.new result }
{
    match convert(book, out) {
        Err(refused) => refuse(page, refused, source),
        Ok(n) => accept(page, out, n),
    }
}

// A book of the former edition, converted.
pub fn write_converted(source: &[u8], out: &mut [u8; OUT_BYTES], page: &mut [u8]) -> Changed
    ensures { Made (converting source.now) out.new page.old page.new result }
{
    let mut book = [0u8; text::BOOK_ROOM];
    let read = sentences::sources::read_source(Form::Records, source, &mut book);
    match read {
        Err(unread) => tell(page, Whom::Book, unread),
        Ok(n) => convert_book(page, source, &book[..n], out),
    }
}

// A book of records with six bytes behind it.
fn extend(
    book: &[u8],
    six: [u8; records::RECORD_BYTES],
    source: &[u8],
    out: &mut [u8; OUT_BYTES],
    page: &mut [u8],
) -> Changed
    requires { length book.now ≤ BOOK-ROOM }
    ensures { Made (judged source.now (book.now ++ six) (fresh_call (book.now ++ six) [])) out.new page.old page.new result }
{
    let n = book.len() + records::RECORD_BYTES;
    working::runs::write_runs(book, &six, out);
    settle(page, source, out, n)
}

// What the words order and the bytes of the book that they order it of, or whom to tell what.
fn read_order(form: Form, source: &[u8], words: &[u8]) -> Result<Order, NoOrder>
    ensures { Ordered form source.now words.now result }
{
    let said = sentences::sources::read_words(form, words);
    match said {
        Err(cause) => {
            let whom = Whom::Words;
            Err(NoOrder { whom, cause })
        }
        Ok(entry) => {
            if text::is_text(source) {
                let (whom, cause) = (Whom::Book, Cause::NotRecords);
                return Err(NoOrder { whom, cause });
            }
            let length = source.len().min(text::BOOK_ROOM);
            Ok(Order { entry, length })
        }
    }
}

// The book with the record in the words.
pub fn write_added(
    source: &[u8],
    words: &[u8],
    out: &mut [u8; OUT_BYTES],
    page: &mut [u8],
) -> Changed
    ensures { Made (adding source.now words.now) out.new page.old page.new result }
{
    let read = read_order(Form::Records, source, words);
    match read {
        Err(wrong) => tell_order(page, wrong),
        Ok(order) => {
            let n = order.length;
            let six = sentences::sources::six_bytes(order.entry);
            extend(&source[..n], six, source, out, page)
        }
    }
}

// The outcome of a book without record i, whose bytes are written to `out`.
fn withdraw(
    book: &[u8],
    i: usize,
    source: &[u8],
    out: &mut [u8; OUT_BYTES],
    page: &mut [u8],
) -> Changed
    requires { length book.now ≤ BOOK-ROOM }
    ensures { Made (judged source.now (without book.now i) (withdrawn book.now i)) out.new page.old page.new result }
{
    let end = book.len();
    if end % records::RECORD_BYTES != 0 {
        return refuse(page, Refusal::BookLength.at(0), source);
    }
    if records::RECORDS < end / records::RECORD_BYTES {
        return refuse(page, Refusal::TooManyRecords.at(0), source);
    }
    if end / records::RECORD_BYTES <= i {
        return refuse(page, Refusal::NotStanding.at(0), source);
    }
    working::runs::write_without(book, records::RECORD_BYTES * i, end, out);
    let n = end - records::RECORD_BYTES;
    settle(page, source, out, n)
}

// The book without the record whose number is in the words.
pub fn write_withdrawn(
    source: &[u8],
    words: &[u8],
    out: &mut [u8; OUT_BYTES],
    page: &mut [u8],
) -> Changed
    ensures { Made (withdrawing source.now words.now) out.new page.old page.new result }
{
    let read = read_order(Form::Log, source, words);
    match read {
        Err(wrong) => tell_order(page, wrong),
        Ok(order) => {
            let n = order.length;
            withdraw(&source[..n], order.entry.a, source, out, page)
        }
    }
}
