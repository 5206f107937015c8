// The commands that write a file. The lock is made before the book is read, so that nobody else's change is lost.
ghost use Rattle.std.specs.Prelude.{◌≤◌, length, IfOk};

use crate::arguments::{BOOK, NEXT, path, said};
use crate::desk;
use commands::{Change, Export};
use files::changing::Lock;
use files::{Told, changing};
use std::io::Error;

// What the system says of a file that is not there.
const ENOENT: i32 = 2;

// A book that is to be changed, and who may use it.
#[derive(Drop)]
struct Plain<'a> {
    book: &'a [u8],
    mode: u32,
}

// Reads the book that is to be changed, whose lock is made.
fn read_plain<'a>(rt: &HostRuntime, name: &[u8], source: &'a mut [u8]) -> Result<Plain<'a>, Told>
    ensures { IfOk result (λ plain. length plain.book.now ≤ length source.old) }
{
    let Some(mode) = changing::look_at(rt, name)? else {
        return Err(files::fail(rt, name, &Error::from_raw_os_error(ENOENT)));
    };
    let n = files::read_file(rt, name, source)?;
    Ok(Plain {
        book: &source[..n],
        mode,
    })
}

// A book changed by words that can be read.
fn change_book(
    rt: &HostRuntime,
    which: Change,
    name: &[u8],
    words: &[u8],
    source: &mut [u8],
    page: &mut [u8],
) -> Result<(), Told> {
    let lock = Lock::make(rt, name)?;
    let Ok(Plain { book, mode }) = read_plain(rt, name, source) else {
        lock.release(rt);
        return Err(Told);
    };
    let mut out = [0u8; change_pages::OUT_BYTES];
    let made = desk::change_page(which, book, words, &mut out, page);
    if let Some(n) = made.book {
        lock.keep(rt, &out[..n], mode)?;
    } else {
        lock.release(rt);
    }
    files::write_page(rt, page, desk::end_of(made.written));
    Ok(())
}

// The words are read before the lock is made.
pub fn change(
    rt: &HostRuntime,
    which: Change,
    source: &mut [u8],
    page: &mut [u8],
) -> Result<(), Told> {
    let mut line = io::buffer();
    let words = said(rt, desk::change_form(which), &mut line, page)?;
    let mut name = io::buffer();
    let name = path(rt, BOOK, &mut name)?;
    change_book(rt, which, name, words, source, page)
}

// A book written to another file, whose lock is made first.
fn export_book(
    rt: &HostRuntime,
    which: Export,
    name: &[u8],
    target: &[u8],
    source: &mut [u8],
    page: &mut [u8],
) -> Result<(), Told> {
    let lock = Lock::make(rt, target)?;
    let Ok(n) = files::read_file(rt, name, source) else {
        lock.release(rt);
        return Err(Told);
    };
    let mut out = [0u8; change_pages::OUT_BYTES];
    let made = desk::export_page(which, &source[..n], &mut out, page);
    if let Some(n) = made.book {
        lock.keep_from(rt, &out[..n], name)?;
    } else {
        lock.release(rt);
    }
    files::write_page(rt, page, desk::end_of(made.written));
    Ok(())
}

pub fn export(
    rt: &HostRuntime,
    which: Export,
    source: &mut [u8],
    page: &mut [u8],
) -> Result<(), Told> {
    let mut name = io::buffer();
    let name = path(rt, BOOK, &mut name)?;
    let mut target = io::buffer();
    let target = path(rt, NEXT, &mut target)?;
    export_book(rt, which, name, target, source, page)
}

// An empty book in a new file.
pub fn new(rt: &HostRuntime, page: &mut [u8]) -> Result<(), Told> {
    let mut name = io::buffer();
    changing::make_empty(rt, path(rt, BOOK, &mut name)?)?;
    let end = desk::end_of(change_pages::write_new(page));
    files::write_page(rt, page, end);
    Ok(())
}
