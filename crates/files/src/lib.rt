// Files by name, read whole and written whole. What fails is told on standard error in the system's words, with the name.
#![tactic(auto)]

ghost use Rattle.std.specs.Prelude.{◌≡◌, length, IfOk};
ghost use Rattle.io.specs.Counts.{IsPrefixLen};

use saying::Said;
use std::fmt::Display;
use std::io::{Error, ErrorKind, Read, Write};
use std::{fs, io};

pub mod changing;
pub mod modes;
mod saying;

// Something failed, and that was told on standard error.
#[derive(Clone, Copy, Debug)]
pub struct Told;

// Reads until the buffer is full, the file ends or a read fails: how many bytes stand at the front of the buffer, and what failed.
// `read_exact` does not say how many bytes a shorter file had, and `read_to_end` needs the heap.
pub fn read_full<F: Read>(file: &mut F, buf: &mut [u8]) -> (usize, io::Result<()>)
    ensures front { IsPrefixLen result.0 buf.new }
    ensures whole { length buf.new ≡ length buf.old }
{
    let mut done: usize = 0;
    while done < buf.len() {
        match file.read(&mut buf[done..]) {
            Ok(0) => break,
            Ok(n) => done += n,
            Err(e) => return (done, Err(e)),
        }
    }
    (done, Ok(()))
}

// Reads to the end of the file, or until the buffer is full, and answers how many bytes stand at the front of the buffer.
fn read_all<F: Read>(file: &mut F, buf: &mut [u8]) -> io::Result<usize>
    ensures { IfOk result (λ n. IsPrefixLen n buf.new) }
{
    let (n, ended) = read_full(file, buf);
    ended?;
    Ok(n)
}

// The same, of the file of a name.
fn read_named(rt: &HostRuntime, name: &[u8], buf: &mut [u8]) -> io::Result<usize>
    ensures { IfOk result (λ n. IsPrefixLen n buf.new) }
{
    let mut file = fs::open(rt, modes::path_of(name)?)?;
    read_all(&mut file, buf)
}

pub fn read_file(rt: &HostRuntime, name: &[u8], buf: &mut [u8]) -> Result<usize, Told>
    ensures { IfOk result (λ n. IsPrefixLen n buf.new) }
{
    read_named(rt, name, buf).map_err(|e| fail(rt, name, &e))
}

pub fn read_input(rt: &HostRuntime, buf: &mut [u8]) -> Result<usize, Told>
    ensures { IfOk result (λ n. IsPrefixLen n buf.new) }
{
    read_all(&mut rt.stdin(), buf).map_err(|e| fail(rt, b"standard input", &e))
}

// Writes the first n bytes, or answers why that could not be done. The end of a page is tested here: with a slice the caller of each page would prove it.
pub fn write_front<W: Write>(out: &mut W, bytes: &[u8], n: usize) -> io::Result<()> {
    let Some(front) = bytes.get(..n) else {
        return Err(Error::from(ErrorKind::InvalidInput));
    };
    out.write_all(front)
}

// Writes the first n bytes of a page to standard output.
pub fn write_page(rt: &HostRuntime, page: &[u8], n: usize) {
    if let Err(e) = write_front(&mut rt.stdout(), page, n) {
        fail(rt, b"standard output", &e);
    }
}

// A line on standard error: a name, whose bytes may be no text, and what is said of it.
pub fn tell(rt: &HostRuntime, name: &[u8], said: impl Display + Drop) -> Told {
    let mut err = rt.stderr();
    let _ = err.write_all(name);
    let _ = writeln!(err, ": {said}");
    Told
}

// A line on standard error: a name and what the system says of it.
pub fn fail(rt: &HostRuntime, name: &[u8], error: &Error) -> Told {
    tell(rt, name, Said(error))
}
