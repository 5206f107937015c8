// The commands that read, and lay out a page: one function for each family.
ghost use Rattle.std.specs.Prelude.{◌≤◌, length, IfOk};

use crate::arguments::{BOOK, NEXT, path, said};
use crate::desk;
use commands::{BookPage, Session, WordsPage};
use files::Told;
use text::Form;

// Writes a page, or nothing of one that has no room.
fn print(rt: &HostRuntime, written: Option<usize>, page: &[u8]) {
    files::write_page(rt, page, desk::end_of(written));
}

// The file that an argument names.
fn read_named<'a>(rt: &HostRuntime, i: usize, buf: &'a mut [u8]) -> Result<&'a [u8], Told>
    ensures { IfOk result (λ read. length read.now ≤ length buf.old) }
{
    let mut name = io::buffer();
    let n = files::read_file(rt, path(rt, i, &mut name)?, buf)?;
    Ok(&buf[..n])
}

// Standard input.
fn read_input<'a>(rt: &HostRuntime, buf: &'a mut [u8]) -> Result<&'a [u8], Told>
    ensures { IfOk result (λ read. length read.now ≤ length buf.old) }
{
    let n = files::read_input(rt, buf)?;
    Ok(&buf[..n])
}

pub fn check(rt: &HostRuntime, source: &mut [u8], page: &mut [u8]) -> Result<(), Told> {
    let book = read_named(rt, BOOK, source)?;
    let written = desk::session_page(Session::Check, book, &[], page);
    print(rt, written, page);
    Ok(())
}

pub fn ask_words(rt: &HostRuntime, source: &mut [u8], page: &mut [u8]) -> Result<(), Told> {
    let mut line = io::buffer();
    let words = said(rt, Form::Claims, &mut line, page)?;
    let book = read_named(rt, BOOK, source)?;
    let written = desk::session_page(Session::AskWords, book, words, page);
    print(rt, written, page);
    Ok(())
}

pub fn ask_input(
    rt: &HostRuntime,
    source: &mut [u8],
    input: &mut [u8],
    page: &mut [u8],
) -> Result<(), Told> {
    let book = read_named(rt, BOOK, source)?;
    let claims = read_input(rt, input)?;
    let written = desk::session_page(Session::AskInput, book, claims, page);
    print(rt, written, page);
    Ok(())
}

pub fn book(
    rt: &HostRuntime,
    which: BookPage,
    source: &mut [u8],
    page: &mut [u8],
) -> Result<(), Told> {
    let book = read_named(rt, BOOK, source)?;
    let written = desk::book_page(which, book, page);
    print(rt, written, page);
    Ok(())
}

pub fn words(
    rt: &HostRuntime,
    which: WordsPage,
    source: &mut [u8],
    page: &mut [u8],
) -> Result<(), Told> {
    let mut line = io::buffer();
    let words = said(rt, desk::words_form(which), &mut line, page)?;
    let book = read_named(rt, BOOK, source)?;
    let written = desk::words_page(which, book, words, page);
    print(rt, written, page);
    Ok(())
}

pub fn replicates(
    rt: &HostRuntime,
    source: &mut [u8],
    input: &mut [u8],
    page: &mut [u8],
) -> Result<(), Told> {
    let book = read_named(rt, BOOK, source)?;
    let log = read_input(rt, input)?;
    let written = beside_pages::log::write_log(book, log, page);
    print(rt, written, page);
    Ok(())
}

// A chain is a page of `why`: its buffer has a byte more than the longest.
pub fn verify(
    rt: &HostRuntime,
    source: &mut [u8],
    long: &mut [u8],
    page: &mut [u8],
) -> Result<(), Told> {
    let book = read_named(rt, BOOK, source)?;
    let chain = read_named(rt, NEXT, long)?;
    let written = chain_pages::write_verdict(book, chain, page);
    print(rt, written, page);
    Ok(())
}

pub fn compare(
    rt: &HostRuntime,
    source: &mut [u8],
    other: &mut [u8],
    input: &mut [u8],
    page: &mut [u8],
) -> Result<(), Told> {
    let book = read_named(rt, BOOK, source)?;
    let second = read_named(rt, NEXT, other)?;
    let claims = read_input(rt, input)?;
    let written = beside_pages::comparison::write_comparison(book, second, claims, page);
    print(rt, written, page);
    Ok(())
}
