// The question program: reads a book from the file book.rec and claims from standard input, and writes the page that `report` lays out. Where the page cannot be written whole, that is told on standard error in the system's words.
#![tactic(auto)]

ghost use Rattle.std.specs.Prelude.{◌≤◌, length};

use std::fs;
use std::io::Read;

// Bytes of a book that are read: one record more than row 4 lets pass, so that row 4 can tell.
const BOOK_READ: usize = 49158;

// Reads until the buffer is full, the input ends or a read fails.
fn read_full<'a, F: Read>(file: &mut F, buf: &'a mut [u8]) -> &'a [u8]
    ensures { length result.now ≤ length buf.old }
{
    let (n, _) = files::read_full(file, buf);
    &buf[..n]
}

// As much of the file book.rec as fits; nothing, the empty book, where it cannot be opened.
fn read_book<'a>(rt: &HostRuntime, buf: &'a mut [u8]) -> &'a [u8]
    ensures { length result.now ≤ length buf.old }
{
    match fs::open(rt, "book.rec") {
        Ok(mut file) => read_full(&mut file, buf),
        Err(_) => &[],
    }
}

fn main(rt: HostRuntime) {
    let mut book = [0u8; BOOK_READ];
    let book = read_book(&rt, &mut book);
    let mut claims = [0u8; report::CLAIMS_READ];
    let claims = read_full(&mut rt.stdin(), &mut claims);
    let mut page = [0u8; report::PAGE_BYTES];
    if let Some(end) = report::ask(book, claims, &mut page) {
        files::write_page(&rt, &page, end);
    }
}
