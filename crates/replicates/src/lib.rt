// Replicates in the measurement log: for each entry how many of the up to 31 before it are certainly APART from it, and whether every two of these are.
#![tactic(auto)]

ghost use Rattle.records.specs.Refused.{refused_at};
ghost use Rattle.outcomes.specs.Accepted.{accepted_with};
ghost use Rattle.std.specs.Prelude.{◌≡◌, length, ◌+◌, ◌*◌, ◌-◌, ◌<◌, ◌≤◌, Ok, Err};
ghost use Rattle.lists.specs.Front.{front};
ghost use Rattle.matrices.specs.Matrix.{bit_of};
ghost use Rattle.replicates.specs.Before.{bytes_from};
ghost use Rattle.replicates.specs.Looking.{Sequence};
ghost use Rattle.records.specs.Check.{book_check};
ghost use Rattle.records.specs.Refusal.{scan};
ghost use Rattle.replicates.specs.Log.{entry_count, entry_at, sequence, window_of};
ghost use Rattle.replicates.specs.Call.{bad_window, entry_finding, by_part, bytes_in, Determined};
ghost use Rattle.records.specs.Marked.{marked};
ghost use Rattle.records.specs.Facts.{facts};
ghost use Rattle.closure.specs.Apart.{Aparts};
ghost use Rattle.replicates.specs.Writing.{Free, Writable, Begun, Followed, Judged};
ghost use Rattle.replicates.specs.Sizes.{SEQUENCE, WINDOW};

use closure::LeaderSteps;
use matrices::{Matrix, RowNumbers};
use outcomes::Counts;
use records::{Refusal, Refused};

pub mod windows;

// A log has two bytes an entry.
pub const ENTRY_BYTES: usize = 2;

// How many entries a part of the log has at most.
pub const LOG_ENTRIES: usize = 32768;

// The up to 31 entries before a part of the log, oldest first, and how many they are; laid out as C does.
#[repr(C)]
#[derive(Clone, Copy)]
pub struct Window {
    pub pieces: [u16; windows::WINDOW],
    pub count: usize,
}

// What a part of the log comes to, and the window to hand to the next.
#[derive(Clone, Copy)]
pub struct Replicated {
    pub outcome: Result<Counts, Refused>,
    pub window: Window,
}

// The two bytes of each entry from number c on.
fn write_bytes(xs: &[u16], c: usize, a: &[u64], out: &mut [u8])
    requires { Sequence xs.now a.now × (c ≤ length xs.now) × (length xs.now < SEQUENCE) × (2 * length xs.now ≤ 2 * c + length out.old) }
    ensures { out.new ≡ front (bytes_from (bit_of a.now) xs.now c (length xs.now - c)) out.old }
{
    let mut start = windows::reach(xs, c, a);
    for q in c..xs.len() {
        let seen = windows::look(xs, q, a);
        start = start.max(seen.from);
        let at = ENTRY_BYTES * (q - c);
        out[at] = seen.apart;
        out[at + 1] = u8::from(start <= windows::oldest_of(q));
    }
}

// Entry i of a part of the log.
fn entry_at(log: &[u8], i: usize) -> u16
    requires { 2 * i + 2 ≤ length log.now }
    ensures { result ≡ entry_at log.now i }
{
    numbers::number_at(log, ENTRY_BYTES * i) as u16
}

// Row 21 of the window.
fn bad_window(n: usize, window: Window) -> bool
    ensures { result ≡ bad_window n window }
{
    let count = window.count;
    let pieces = window.pieces;
    if windows::WINDOW < count {
        return true;
    }
    for j in 0..count {
        if n <= usize::from(pieces[j]) {
            return true;
        }
    }
    false
}

// Row 21 of the entries, for a book with these counts.
fn check_entries(counts: Counts, log: &[u8]) -> Result<Counts, Refused>
    ensures { result ≡ scan refused_at (Ok counts) (entry_finding counts.pieces log.now) 0 (entry_count log.now) }
{
    for i in 0..log.len() / ENTRY_BYTES {
        if counts.pieces <= usize::from(entry_at(log, i)) {
            return Err(Refusal::ReplicatePiece.at(i));
        }
    }
    Ok(counts)
}

// Rows 20 and 21, for a book with these counts.
fn check_part(counts: Counts, window: Window, log: &[u8]) -> Result<Counts, Refused>
    ensures { result ≡ by_part window log.now (Ok counts) }
{
    if log.len() % ENTRY_BYTES != 0 || LOG_ENTRIES < log.len() / ENTRY_BYTES {
        return Err(Refusal::LogLength.at(0));
    }
    if bad_window(counts.pieces, window) {
        return Err(Refusal::ReplicatePiece.at(0));
    }
    check_entries(counts, log)
}

// Puts the window in front.
fn put_window(window: Window, xs: &mut [u16])
    requires { (window.count ≤ WINDOW) × (WINDOW ≤ length xs.old) }
    ensures { Begun window xs.new }
{
    let count = window.count;
    xs[..count].copy_from_slice(&window.pieces[..count]);
}

// Puts the entries of a part behind the first c places.
fn put_entries(log: &[u8], c: usize, xs: &mut [u16])
    requires { (c + entry_count log.now ≤ length xs.old) × (c ≤ WINDOW) }
    ensures { Followed log.now c xs.old xs.new }
{
    for i in 0..log.len() / ENTRY_BYTES {
        xs[c + i] = entry_at(log, i);
    }
}

// The last up to 31 entries.
fn last_window(xs: &[u16]) -> Window
    ensures { result ≡ window_of xs.now }
{
    let from = windows::oldest_of(xs.len());
    let count = xs.len() - from;
    let mut pieces = [0u16; windows::WINDOW];
    pieces[..count].copy_from_slice(&xs[from..]);
    Window { pieces, count }
}

// The rows of what is APART. t is scratch. Order and leaders come as arrays, so that their lengths are known.
fn find_aparts(
    book: &[u8],
    n: usize,
    voids: &[u64],
    e: &Matrix,
    order: &RowNumbers,
    lead: &RowNumbers,
    d: &Matrix,
    t: &mut Matrix,
    a: &mut Matrix,
)
    requires { Free book.now n voids.now e.now order.now lead.now d.now }
    ensures { Aparts (marked book.now) n (facts book.now) a.new }
{
    closure::apart::apart_rows(book, n, voids, LeaderSteps { e, order, lead }, d, t, a);
}

// The bytes of a part that fits, and the window behind it, from these rows.
fn write_part(
    book: &[u8],
    n: usize,
    a: &Matrix,
    window: Window,
    log: &[u8],
    out: &mut [u8],
) -> Window
    requires { Writable book.now n a.now window log.now (length out.old) }
    ensures { (result ≡ window_of (sequence window log.now)) × (out.new ≡ front (bytes_in book.now n window log.now) out.old) }
{
    let mut xs = [0u16; LOG_ENTRIES + windows::WINDOW];
    let count = window.count;
    put_window(window, &mut xs);
    put_entries(log, count, &mut xs);
    let end = count + log.len() / ENTRY_BYTES;
    let seq = &xs[..end];
    write_bytes(seq, count, a, out);
    last_window(seq)
}

// A refused part hands back the window that came.
fn refuse(refused: Refused, window: Window) -> Replicated
    ensures { result ≡ record { outcome = Err refused; window = window } }
{
    Replicated {
        outcome: Err(refused),
        window,
    }
}

// Row 14, rows 20 and 21, and the bytes, for a book that passes the rows before.
fn judge(
    book: &[u8],
    n: usize,
    window: Window,
    log: &[u8],
    out: &mut [u8],
    e: &mut Matrix,
    d: &mut Matrix,
    t: &mut Matrix,
    a: &mut Matrix,
) -> Replicated
    requires { (book_check book.now ≡ Ok n) × (2 * entry_count log.now ≤ length out.old) }
    ensures { Judged book.now n window log.now out.old result out.new }
{
    let mut voids = [0u64; matrices::ROW_WORDS];
    let mut order = [0u16; matrices::ROWS];
    let mut lead = [0u16; matrices::ROWS];
    let settled = contradiction::settle_counted(
        book, n, &mut voids, e, &mut order, &mut lead, d, t,
    );
    match settled {
        Err(clash) => refuse(Refused::from(clash), window),
        Ok(index) => {
            let fit = check_part(Counts::of(n, index), window, log);
            match fit {
                Err(why) => refuse(why, window),
                Ok(_) => {
                    find_aparts(book, n, &voids, e, &order, &lead, d, t, a);
                    Replicated {
                        outcome: fit,
                        window: write_part(book, n, a, window, log, out),
                    }
                }
            }
        }
    }
}

// For each entry of a part of the log two bytes: how many of the up to 31 entries before it are certainly APART from it, then 1 if every two of these
// and it are, else 0. The entries before the part are in the window; the window handed back is for the next part.
pub fn replicates(
    book: &[u8],
    window: Window,
    log: &[u8],
    out: &mut [u8],
    e: &mut Matrix,
    d: &mut Matrix,
    t: &mut Matrix,
    a: &mut Matrix,
) -> Replicated
    ensures { Determined book.now window log.now out.old result out.new }
{
    let count = log.len() / ENTRY_BYTES;
    if out.len() < ENTRY_BYTES * count {
        return refuse(Refusal::ShortBuffer.at(0), window);
    }
    match records::check_book(book) {
        Err(refused) => refuse(refused, window),
        Ok(n) => judge(book, n, window, log, out, e, d, t, a),
    }
}
