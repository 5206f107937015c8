// A whole text read into the bytes of its entries, and the line that an entry was read from.
ghost use Rattle.std.specs.Prelude.{◌≡◌, ◌+◌, ◌≤◌, length};
ghost use Rattle.lists.specs.Front.{placed};
ghost use Rattle.text.specs.Entry.{size, bytes_of};
ghost use Rattle.text.specs.Text.{bytes_most, mark_length, read_text};
ghost use Rattle.text.specs.Either.{as_text, read_either};
ghost use Rattle.text.specs.Lent.{into, leaves};
ghost use Rattle.text.specs.Place.{entries_on, place_line};
ghost use Rattle.text.specs.Reading.{Stepped, lines_into, lines_leave};

use crate::words::{Sort, next_word, run_end};
use crate::{Form, Reason};
use records::Record;

// The longest text.
const TEXT_BYTES: usize = 524288;

// The mark that may begin a text.
const MARK: [u8; 3] = [239, 187, 191];

// Why a text is not read: its first bad line, counted from 1, and the reason; or too few bytes were lent. A text that is too long has line 0.
#[derive(Clone, Copy, Debug, PartialEq, Eq)]
pub enum Unread {
    BadLine(usize, Reason),
    ShortBuffer,
}

// How many bytes can be read at most.
pub fn bytes_most(form: Form) -> usize
    ensures { result ≡ bytes_most form }
{
    match form {
        Form::Records => crate::BOOK_ROOM,
        Form::Claims => crate::CLAIMS_ROOM,
        Form::Log => crate::LOG_ROOM,
    }
}

// How many bytes at the start of a text are passed over.
#[tactic(auto, unfolding(crate::specs::Text::mark_length, crate::specs::Text::marked))]
fn mark_length(text: &[u8]) -> usize
    ensures { result ≡ mark_length text.now }
{
    if text.starts_with(&MARK) {
        MARK.len()
    } else {
        0
    }
}

// Puts the bytes of an entry at a place, and answers the place behind them.
fn put_entry(form: Form, e: Record, out: &mut [u8], at: usize) -> usize
    requires { at + size form ≤ length out.old }
    ensures { (result ≡ at + length (bytes_of form e)) × (out.new ≡ placed at (bytes_of form e) out.old) }
{
    let a = e.a;
    let b = e.b;
    if let Form::Log = form {
        let two = [numbers::low(a), numbers::low(a / numbers::BYTE_VALUES)];
        numbers::copy_to(&two, out, at);
        return at + 2;
    }
    let six = [
        e.kind,
        e.origin,
        numbers::low(a),
        numbers::low(a / numbers::BYTE_VALUES),
        numbers::low(b),
        numbers::low(b / numbers::BYTE_VALUES),
    ];
    numbers::copy_to(&six, out, at);
    at + records::RECORD_BYTES
}

// Reads one line, and puts what it says behind the bytes that are done.
fn take_line(form: Form, l: &[u8], out: &mut [u8], done: usize) -> Result<usize, Reason>
    requires { done + size form ≤ length out.old }
    ensures { Stepped form l.now done out.old out.new result }
{
    let Some(entry) = crate::lines::read_line(form, l)? else {
        return Ok(done);
    };
    Ok(put_entry(form, entry, out, done))
}

// Reads the lines from a place on.
fn read_lines(form: Form, text: &[u8], from: usize, out: &mut [u8]) -> Result<usize, Unread>
    requires { bytes_most form ≤ length out.old }
    ensures { (result ≡ lines_into form from text.now) × (out.new ≡ lines_leave form from text.now out.old) }
{
    let most = bytes_most(form);
    let mut at = from;
    let mut line = 1;
    let mut done = 0;
    while at < text.len() {
        if done == most {
            return Ok(done);
        }
        let end = run_end(Sort::Inner, text, at);
        match take_line(form, &text[at..end], out, done) {
            Err(reason) => return Err(Unread::BadLine(line, reason)),
            Ok(next) => done = next,
        }
        at = end + 1;
        line += 1;
    }
    Ok(done)
}

// Reads a text into the front of `out`, and says how many bytes its entries are: all of them, or those before the first bad line. What is behind them is
// left as it was.
pub fn read_text(form: Form, text: &[u8], out: &mut [u8]) -> Result<usize, Unread>
    ensures { (result ≡ into form (length out.old) (read_text form text.now))
        × (out.new ≡ leaves form (read_text form text.now) out.old) }
{
    if out.len() < bytes_most(form) {
        return Err(Unread::ShortBuffer);
    }
    if TEXT_BYTES < text.len() {
        return Err(Unread::BadLine(0, Reason::TooLong));
    }
    read_lines(form, text, mark_length(text), out)
}

fn as_text(form: Form, s: &[u8]) -> bool
    ensures { result ≡ as_text form s.now }
{
    match form {
        Form::Records => crate::is_text(s),
        Form::Claims => crate::is_text(s),
        Form::Log => true,
    }
}

// Reads a text, or takes records as they are, into the front of `out`.
pub fn read_either(form: Form, s: &[u8], out: &mut [u8]) -> Result<usize, Unread>
    ensures { (result ≡ into form (length out.old) (read_either form s.now))
        × (out.new ≡ leaves form (read_either form s.now) out.old) }
{
    if as_text(form, s) {
        return read_text(form, s, out);
    }
    let most = bytes_most(form);
    if out.len() < most {
        return Err(Unread::ShortBuffer);
    }
    let n = s.len().min(most);
    out[..n].copy_from_slice(&s[..n]);
    Ok(n)
}

// 1 where a line has a word, and 0 where it has none.
fn entries_on(l: &[u8]) -> usize
    ensures { result ≡ entries_on l.now }
{
    let w = next_word(l, 0);
    usize::from(w.from != w.to)
}

// The line of entry k, counted from 1, or 0 where there is none.
pub fn entry_line(text: &[u8], k: usize) -> usize
    ensures { result ≡ place_line text.now k }
{
    let mut at = mark_length(text);
    let mut line = 1;
    let mut left = k;
    while at < text.len() {
        let end = run_end(Sort::Inner, text, at);
        let n = entries_on(&text[at..end]);
        if left < n {
            return line;
        }
        left -= n;
        at = end + 1;
        line += 1;
    }
    0
}
