// The calls of include/piecebook.h on text: read, shown, and the line of an entry.
ghost use Rattle.std.specs.Prelude.{◌≡◌};
ghost use Rattle.text.specs.Place.{place_line};
ghost use Rattle.text.specs.Shown.{show_book, show_claims};
ghost use Rattle.piecebook.specs.Texts.{Told, ReadAs, Reads, Handed, Shows};

use text::Form;
use text::reading::Unread;

// The numbers behind those of the reasons: a page that is too short, a form that is none.
const SHORT_PAGE: usize = 6;

const NO_FORM: usize = 7;

// What a reading comes to, as include/piecebook.h has it.
#[repr(C)]
#[derive(Clone, Copy)]
pub struct PiecebookReading {
    pub number: usize,
    pub line: usize,
    pub length: usize,
}

pub fn reading_of(read: Result<usize, Unread>) -> PiecebookReading
    ensures { Told read result }
{
    match read {
        Ok(length) => PiecebookReading {
            number: 0,
            line: 0,
            length,
        },
        Err(Unread::BadLine(line, reason)) => PiecebookReading {
            number: usize::from(text::reason_number(reason)),
            line,
            length: 0,
        },
        Err(Unread::ShortBuffer) => PiecebookReading {
            number: SHORT_PAGE,
            line: 0,
            length: 0,
        },
    }
}

pub fn read_as(form: Form, text: &[u8], out: &mut [u8]) -> PiecebookReading
    ensures { ReadAs form text.now out.old result out.new }
{
    let read = text::reading::read_text(form, text, out);
    reading_of(read)
}

#[unsafe(no_mangle)]
pub extern "C" fn piecebook_read_text(form: usize, text: &[u8], out: &mut [u8]) -> PiecebookReading
    ensures { Reads form text.now out.old result out.new }
{
    match form {
        0 => read_as(Form::Records, text, out),
        1 => read_as(Form::Claims, text, out),
        2 => read_as(Form::Log, text, out),
        _ => PiecebookReading {
            number: NO_FORM,
            line: 0,
            length: 0,
        },
    }
}

// The line of an entry, counted from 1, or 0 where there is none.
#[unsafe(no_mangle)]
pub extern "C" fn piecebook_text_line(text: &[u8], entry: usize) -> usize
    ensures { result ≡ place_line text.now entry }
{
    text::reading::entry_line(text, entry)
}

// What a shown page comes to, as include/piecebook.h has it.
#[repr(C)]
#[derive(Clone, Copy)]
pub struct PiecebookShown {
    pub number: usize,
    pub length: usize,
}

pub fn shown_of(written: Option<usize>) -> PiecebookShown
    ensures { Handed written result }
{
    match written {
        Some(length) => PiecebookShown { number: 0, length },
        None => PiecebookShown {
            number: 1,
            length: 0,
        },
    }
}

#[unsafe(no_mangle)]
pub extern "C" fn piecebook_show(book: &[u8], page: &mut [u8]) -> PiecebookShown
    ensures { Shows (show_book book.now) page.old result page.new }
{
    let written = text::showing::show_book(book, page);
    shown_of(written)
}

#[unsafe(no_mangle)]
pub extern "C" fn piecebook_show_claims(claims: &[u8], page: &mut [u8]) -> PiecebookShown
    ensures { Shows (show_claims claims.now) page.old result page.new }
{
    let written = text::showing::show_claims(claims, page);
    shown_of(written)
}
