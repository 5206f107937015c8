// The page of `replicates`: a line for each entry of the log.
ghost use Rattle.std.specs.Prelude.{◌*◌, ◌≤◌, length};
ghost use Rattle.replicates.specs.Log.{entry_count};
ghost use Rattle.replicates.specs.Call.{Determined};
ghost use Rattle.pages.specs.Put.{Put};
ghost use Rattle.pages.specs.Written.{Page};
ghost use Rattle.sentences.specs.Sources.{of_log};
ghost use Rattle.beside_pages.specs.LogText.{entry_line, entry_lines, none, measured_text, log_text};
ghost use Rattle.beside_pages.specs.Rooms.{LOG-PAGE-ROOM};
ghost use Rattle.text.specs.Rooms.{LOG-ROOM};

use replicates::{Replicated, Window};
use sentences::Whom;
use text::Form;

// The line of entry i.
fn put_entry(page: &mut [u8], at: usize, i: usize, piece: usize, apart: u8, flag: u8) -> usize
    ensures { Put page.old at (entry_line i piece apart flag) page.new result }
{
    let at = pages::put_number(page, at, i, b' ');
    let at = pages::put_number(page, at, piece, b' ');
    let at = pages::put_number(page, at, usize::from(apart), b' ');
    pages::put_entry(page, at, b"NO\nYES\n", usize::from(flag), b'\n')
}

// The lines of all entries, from the start of the page, where the bytes have two of each.
fn put_entries(page: &mut [u8], log: &[u8], bytes: &[u8]) -> usize
    requires { (2 * entry_count log.now ≤ length bytes.now) × (length log.now ≤ LOG-ROOM) }
    ensures put { Put page.old 0 (entry_lines log.now bytes.now (entry_count log.now)) page.new result }
    ensures log_len_bound { length (entry_lines log.now bytes.now (entry_count log.now)) ≤ LOG-PAGE-ROOM }
{
    let n = log.len() / replicates::ENTRY_BYTES;
    let mut end = 0;
    for i in 0..n {
        let low = replicates::ENTRY_BYTES * i;
        let piece = numbers::number_at(log, low);
        end = put_entry(page, end, i, piece, bytes[low], bytes[low + 1]);
    }
    end
}

// The call on a whole log, which no entries come before.
fn measure(book: &[u8], log: &[u8], bytes: &mut [u8]) -> Replicated
    ensures { Determined book.now none log.now bytes.old result bytes.new }
{
    let none = Window {
        pieces: [0u16; replicates::windows::WINDOW],
        count: 0,
    };
    let mut e = [0u64; matrices::WORDS];
    let mut d = [0u64; matrices::WORDS];
    let mut t = [0u64; matrices::WORDS];
    let mut u = [0u64; matrices::WORDS];
    replicates::replicates(book, none, log, bytes, &mut e, &mut d, &mut t, &mut u)
}

// The text of the call's outcome, from the start of the page. Answers where it ends.
fn put_log(book: &[u8], log: &[u8], source: &[u8], other: &[u8], page: &mut [u8]) -> usize
    requires { length log.now ≤ LOG-ROOM }
    ensures put { Put page.old 0 (measured_text book.now log.now source.now other.now) page.new result }
    ensures other_len_bound { length (measured_text book.now log.now source.now other.now) ≤ LOG-PAGE-ROOM }
{
    let mut bytes = [0u8; text::LOG_ROOM];
    let made = measure(book, log, &mut bytes);
    match made.outcome {
        Err(refused) => { sentences::put_refused(page, 0, refused, source, other) }
        Ok(_) => put_entries(page, log, &bytes),
    }
}

// The replicates in the log of a source.
fn write_entries(book: &[u8], source: &[u8], other: &[u8], page: &mut [u8]) -> Option<usize>
    ensures page { Page page.old (of_log other.now (λ log. measured_text book.now log source.now other.now)) page.new result }
    ensures other_len_bound { length (of_log other.now (λ log. measured_text book.now log source.now other.now)) ≤ LOG-PAGE-ROOM }
{
    let mut log = [0u8; text::LOG_ROOM];
    let read = sentences::sources::read_source(Form::Log, other, &mut log);
    match read {
        Err(unread) => sentences::write_unread_of(page, Whom::Log, unread),
        Ok(n) => {
            let end = put_log(book, &log[..n], source, other, page);
            pages::finish(page.len(), end)
        }
    }
}

// The replicates in a log: 655,380 bytes always serve.
pub fn write_log(source: &[u8], other: &[u8], page: &mut [u8]) -> Option<usize>
    ensures page { Page page.old (log_text source.now other.now) page.new result }
    ensures other_len_bound { length (log_text source.now other.now) ≤ LOG-PAGE-ROOM }
{
    let mut book = [0u8; text::BOOK_ROOM];
    let read = sentences::sources::read_source(Form::Records, source, &mut book);
    match read {
        Err(unread) => sentences::write_unread_of(page, Whom::Book, unread),
        Ok(n) => write_entries(&book[..n], source, other, page),
    }
}
