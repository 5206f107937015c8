// What the system says of an error. std writes a number behind the system's words, which is left out.
use std::fmt;
use std::io::{Error, Write};

// The system's words are shorter.
const WORDS_ROOM: usize = 256;

// An error, by the system's words alone.
#[derive(Clone, Copy)]
pub struct Said<'a>(pub &'a Error);

impl fmt::Display for Said<'_> {
    fn fmt<W: fmt::Write>(&self, f: &mut fmt::Formatter<W>) -> fmt::Result {
        let mut room = [0u8; WORDS_ROOM];
        let mut rest = room.as_mut_slice();
        let _ = write!(rest, "{}", self.0);
        let n = WORDS_ROOM.saturating_sub(rest.len());
        let text = str::from_utf8(&room[..n]).unwrap_or("");
        f.write_str(
            text.split_once(" (os error ")
                .map_or(text, |(words, _)| words),
        )
    }
}
