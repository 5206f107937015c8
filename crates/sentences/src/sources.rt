// What is read from a source, the bytes of a file in either form, and from the words of the arguments.
ghost use Rattle.std.specs.Prelude.{◌≡◌, ◌≤◌, length};
ghost use Rattle.text.specs.Entry.{six_bytes};
ghost use Rattle.text.specs.Text.{bytes_most};
ghost use Rattle.text.specs.Either.{read_either};
ghost use Rattle.sentences.specs.Sources.{Took};
ghost use Rattle.sentences.specs.Arguments as args;
ghost use Rattle.sentences.specs.Arguments.{words_of};

use crate::{Cause, Unread};
use records::Record;
use text::reading::Unread as TextUnread;
use text::{Form, Reason};

// The longest words.
const WORDS_BYTES: usize = 4095;

// Reads a source into the front of `out`, and says how many bytes of records, claims or a log it has.
pub fn read_source(form: Form, source: &[u8], out: &mut [u8]) -> Result<usize, Unread>
    requires { bytes_most form ≤ length out.old }
    ensures { Took (read_either form source.now) out.new result }
{
    match text::reading::read_either(form, source, out) {
        Ok(n) => Ok(n),
        Err(TextUnread::BadLine(line, reason)) => {
            let cause = Cause::Text(reason);
            Err(Unread { line, cause })
        }
        Err(TextUnread::ShortBuffer) => Ok(0),
    }
}

// The reason where there is no word.
fn absent(form: Form) -> Reason
    ensures { result ≡ args.absent form }
{
    match form {
        Form::Records | Form::Claims => Reason::NotKind,
        Form::Log => Reason::NotNumber,
    }
}

// Reads words as one line.
pub fn read_words(form: Form, words: &[u8]) -> Result<Record, Cause>
    ensures { result ≡ words_of form words.now }
{
    if WORDS_BYTES < words.len() {
        return Err(Cause::WordsTooLong);
    }
    match text::lines::read_line(form, words) {
        Ok(Some(r)) => Ok(r),
        Ok(None) => Err(Cause::Text(absent(form))),
        Err(reason) => Err(Cause::Text(reason)),
    }
}

// The bytes of a record or a claim.
pub fn six_bytes(r: Record) -> [u8; records::RECORD_BYTES]
    ensures { result ≡ six_bytes r }
{
    let a = r.a;
    let b = r.b;
    [
        r.kind,
        r.origin,
        numbers::low(a),
        numbers::low(a / numbers::BYTE_VALUES),
        numbers::low(b),
        numbers::low(b / numbers::BYTE_VALUES),
    ]
}
