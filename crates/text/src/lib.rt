// Text read into records, claims or the numbers of a log, and a book shown as text.
#![tactic(auto)]

ghost use Rattle.std.specs.Prelude.{◌≡◌};
ghost use Rattle.text.specs.Reason.{reason_number};
ghost use Rattle.text.specs.Either.{is_text};
ghost use Rattle.text.specs.Place.{line_in};

pub mod lines;
pub mod reading;
pub mod showing;
pub mod words;

// What a text says has one entry more than a list may have at most, so that too long a list is told.
pub const BOOK_ROOM: usize = 49158;

pub const CLAIMS_ROOM: usize = 24582;

pub const LOG_ROOM: usize = 65538;

// The lowest byte that begins a text.
const FIRST_OF_TEXT: u8 = b'\t';

// What the lines of a text are.
#[derive(Clone, Copy, Debug, PartialEq, Eq)]
pub enum Form {
    Records,
    Claims,
    Log,
}

// Why a text cannot be read.
#[derive(Clone, Copy, Debug, PartialEq, Eq)]
pub enum Reason {
    NotKind,
    NotNumber,
    NotChoice,
    WordTooMany,
    TooLong,
}

pub fn reason_number(reason: Reason) -> u8
    ensures { result ≡ reason_number reason }
{
    match reason {
        Reason::NotKind => 1,
        Reason::NotNumber => 2,
        Reason::NotChoice => 3,
        Reason::WordTooMany => 4,
        Reason::TooLong => 5,
    }
}

// Whether a book or a list of claims is text; if not, it is records.
#[tactic(auto, unfolding(crate::specs::Either::is_text))]
pub fn is_text(s: &[u8]) -> bool
    ensures { result ≡ is_text s.now }
{
    !s.is_empty() && FIRST_OF_TEXT <= s[0]
}

// The line of entry k of a source in either form, counted from 1, or 0 where there is none.
#[tactic(auto, unfolding(crate::specs::Place::line_in))]
pub fn line_in(source: &[u8], k: usize) -> usize
    ensures { result ≡ line_in source.now k }
{
    if is_text(source) {
        reading::entry_line(source, k)
    } else {
        0
    }
}
