// The program's arguments: a path, and words joined into a line.
ghost use Rattle.std.specs.Prelude.{◌≤◌, length, IfOk};
ghost use Rattle.io.specs.Counts.{IsPrefixLen};

use crate::desk;
use files::Told;
use std::env::{Env, FillError};
use std::io::Error;
use text::Form;

// The places of the words of a command: the book, and what follows it.
pub const BOOK: usize = 2;

pub const NEXT: usize = 3;

// What the system says of an argument that is missing, and of one that is longer than its buffer.
const EINVAL: i32 = 22;

const ENAMETOOLONG: i32 = 36;

// How many arguments there are, the program's name among them.
pub fn count(rt: &HostRuntime) -> usize {
    (0..usize::MAX)
        .position(|i| matches!(rt.arg(i, &mut []), Err(FillError::NotPresent)))
        .unwrap_or(usize::MAX)
}

// Why an argument is not in its buffer, as the system says it.
fn reason(error: FillError) -> Error {
    Error::from_raw_os_error(match error {
        FillError::NotPresent => EINVAL,
        FillError::TooLong => ENAMETOOLONG,
    })
}

// A path. Where there is none, or one that is longer than the buffer, the reason is told.
pub fn path<'a>(rt: &HostRuntime, i: usize, buf: &'a mut [u8]) -> Result<&'a [u8], Told>
    ensures { IfOk result (λ path. length path.now ≤ length buf.old) }
{
    match rt.arg(i, buf) {
        Ok(n) => Ok(&buf[..n]),
        Err(e) => Err(files::fail(rt, buf, &reason(e))),
    }
}

// The arguments from number `first` on with a space between. Where they do not fit, the whole line, which is too long then.
fn words(rt: &HostRuntime, first: usize, line: &mut [u8]) -> usize
    ensures { IsPrefixLen result line.new }
{
    let mut at: usize = 0;
    for i in first..usize::MAX {
        match rt.arg(i, &mut line[at..]) {
            Ok(n) => at += n,
            Err(FillError::NotPresent) => break,
            Err(FillError::TooLong) => return line.len(),
        }
        if line.len() <= at {
            return line.len();
        }
        line[at] = b' ';
        at += 1;
    }
    at.saturating_sub(1)
}

// The words behind the book. They are told first where they are wrong: they are not judged by a file that cannot be read.
pub fn said<'a>(
    rt: &HostRuntime,
    form: Form,
    line: &'a mut [u8],
    page: &mut [u8],
) -> Result<&'a [u8], Told>
    ensures { IfOk result (λ words. length words.now ≤ length line.old) }
{
    let n = words(rt, NEXT, line);
    let said = &line[..n];
    let bad = desk::end_of(book_pages::words::write_words(form, said, page));
    if 0 < bad {
        files::write_page(rt, page, bad);
        return Err(Told);
    }
    Ok(said)
}
