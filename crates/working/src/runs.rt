// Runs of records that a working book writes: with an addition behind them, or without a record.
ghost use Rattle.std.specs.Prelude.{◌≡◌, ◌++◌, ◌+◌, ◌≤◌, ◌<◌, length, take, drop};
ghost use Rattle.lists.specs.Front.{front};
ghost use Rattle.parentheses.specs.Padded.{padded};
ghost use Rattle.records.specs.Sizes.{BOOK-BYTES, RECORD-BYTES, RECORDS};
ghost use Rattle.working.specs.Standing.{extended, without, Stands};

// Writes two runs one behind the other, and nothing behind them.
fn put_runs(first: &[u8], second: &[u8], out: &mut [u8])
    requires { length first.now + length second.now ≤ length out.old }
    ensures { out.new ≡ front (first.now ++ second.now) out.old }
{
    numbers::copy_to(first, out, 0);
    numbers::copy_to(second, out, first.len());
}

// Writes two runs one behind the other, and zeros behind them.
pub fn write_runs(first: &[u8], second: &[u8], out: &mut [u8])
    requires { length first.now + length second.now ≤ length out.old }
    ensures { out.new ≡ padded 0 (length out.old) (first.now ++ second.now) }
{
    let at = first.len();
    let end = at + second.len();
    put_runs(first, second, out);
    out[end..].fill(0);
}

// Writes the bytes before `at` and those from `at` + 6 up to `end`, and zeros behind them.
pub fn write_without(area: &[u8], at: usize, end: usize, out: &mut [u8])
    requires { (at + RECORD-BYTES ≤ end) × ((end ≤ length area.now) × (end ≤ length out.old + RECORD-BYTES)) }
    ensures { out.new ≡ padded 0 (length out.old) (take at (take end area.now) ++ drop (at + RECORD-BYTES) (take end area.now)) }
{
    let next = at + records::RECORD_BYTES;
    write_runs(&area[..at], &area[next..end], out);
}

// Writes fewer than 8,192 standing records with an addition of 6 bytes behind them, and says where they end.
pub fn extend(
    area: &[u8],
    records: usize,
    addition: &[u8],
    run: &mut [u8; records::BOOK_BYTES],
) -> usize
    requires { (records < RECORDS) × ((BOOK-BYTES ≤ length area.now) × (length addition.now ≡ RECORD-BYTES)) }
    ensures { Stands (extended area.now records addition.now) run.new result }
{
    let end = records::RECORD_BYTES * records;
    put_runs(&area[..end], addition, run);
    end + records::RECORD_BYTES
}

// Writes the standing records without one of them, and says where they end.
pub fn remove(
    area: &[u8],
    records: usize,
    number: usize,
    run: &mut [u8; records::BOOK_BYTES],
) -> usize
    requires { (number < records) × ((records ≤ RECORDS) × (BOOK-BYTES ≤ length area.now)) }
    ensures { Stands (without area.now records number) run.new result }
{
    let at = records::RECORD_BYTES * number;
    let next = at + records::RECORD_BYTES;
    let end = records::RECORD_BYTES * records;
    put_runs(&area[..at], &area[next..end], run);
    end - records::RECORD_BYTES
}
