// The converter: a book of the former edition written without its TRAY records.
#![tactic(auto)]

ghost use Rattle.std.specs.Prelude.{◌≡◌, ◌<◌, ◌≤◌, length};
ghost use Rattle.lists.specs.Front.{front};
ghost use Rattle.convert.specs.Converted.{no_trays, converted};
ghost use Rattle.convert.specs.Conversion.{number, Determined};
ghost use Rattle.convert.specs.Same.{InForce, SameAnswers};
ghost use Rattle.convert.specs.Writing.{FormerBook, Judged, Room};

use contradiction::Clash;
use matrices::Matrix;
use records::{Refusal, Refused};

// Writes the records that are no TRAY records to the front of `out`, and says how many bytes they have.
fn drop_trays(book: &[u8], out: &mut [u8]) -> usize
    requires { length book.now ≤ length out.old }
    ensures { (result ≡ length (no_trays book.now)) × (out.new ≡ front (no_trays book.now) out.old) }
{
    let mut at: usize = 0;
    for i in 0..book.len() / records::RECORD_BYTES {
        let r = records::record_at(book, i);
        at = records::copy_where(r.kind != records::TRAY, book, i, out, at);
    }
    at
}

// Writes the new book of a book of n pieces. Where the records that stay do not name the last piece, one record more does: PART of it in piece 0.
fn write_book(book: &[u8], n: usize, out: &mut [u8]) -> usize
    requires { Room book.now n (length out.old) }
    ensures { (result ≡ length (converted book.now)) × (out.new ≡ front (converted book.now) out.old) }
{
    let at = drop_trays(book, out);
    if n <= records::piece_count(&out[..at]) {
        return at;
    }
    let last = [
        records::PART,
        0,
        ((n - 1) % numbers::BYTE_VALUES) as u8,
        ((n - 1) / numbers::BYTE_VALUES) as u8,
        0,
        0,
    ];
    records::copy_where(true, &last, 0, out, at)
}

// Row 14 of a book of the former edition, which has no marks.
fn settle(
    book: &[u8],
    n: usize,
    e: &mut Matrix,
    d: &mut Matrix,
    t: &mut Matrix,
) -> Result<(), Clash>
    requires { FormerBook book.now n }
    ensures { Judged book.now n result }
{
    let voids = [0u64; matrices::ROW_WORDS];
    let mut order = [0u16; matrices::ROWS];
    let mut lead = [0u16; matrices::ROWS];
    contradiction::settle_alone(book, n, &voids, e, &mut order, &mut lead, d, t)
}

// Converts a book of the former edition to the one in force, and says how many bytes were written.
pub fn convert(
    book: &[u8],
    out: &mut [u8],
    e: &mut Matrix,
    d: &mut Matrix,
    t: &mut Matrix,
) -> Result<usize, Refused>
    ensures determined { Determined book.now out.old result out.new }
    ensures accepted { number result ≡ 0 → InForce book.now (converted book.now) }
    ensures same { number result ≡ 0 → SameAnswers book.now (converted book.now) }
{
    if out.len() < book.len() {
        return Err(Refusal::ShortBuffer.at(0));
    }
    // no `?`: a must-fail edit changes the refusal here
    let n = match records::check_former(book) {
        Err(refused) => return Err(refused),
        Ok(n) => n,
    };
    settle(book, n, e, d, t)?;
    Ok(write_book(book, n, out))
}
