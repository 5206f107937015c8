// The six-byte format: records read from bytes, what rows 3 to 13 can say of them, and the run of the cutting sheets.
#![tactic(auto)]

ghost use Rattle.std.specs.Prelude.{◌≡◌, ◌+◌, ◌*◌, ◌≤◌, ◌<◌, length};
ghost use Rattle.lists.specs.Front.{front, placed};
ghost use Rattle.records.specs.Record.{record_at};
ghost use Rattle.records.specs.Kept.{bytes_at, bytes_where, sheets};
ghost use Rattle.records.specs.Refusal.{refusal_number};
ghost use Rattle.records.specs.declared.Refusal.TheVariants.{VoidForm, Order};
ghost use Rattle.records.specs.Pieces.{stated, largest, piece_count};
ghost use Rattle.records.specs.Sizes.{RECORD-BYTES};

pub use checks::{check_book, check_claims, check_former};

pub mod checks;

// A kind of fact and its opposite add up to this.
pub const OPPOSITES: u8 = 5;

// What a book has at most: pieces, records, bytes; and claims about it.
pub const PIECES: usize = 2048;

pub const LAST_PIECE: usize = 2047;

pub const RECORDS: usize = 8192;

pub const RECORD_BYTES: usize = 6;

pub const BOOK_BYTES: usize = 49152;

pub const CLAIMS: usize = 4096;

// The kinds of records. TRAY is the former edition's alone.
pub const PART: u8 = 1;

pub const APART: u8 = 2;

pub const MEETS: u8 = 3;

pub const NOTPART: u8 = 4;

pub const TRAY: u8 = 5;

pub const VOID: u8 = 6;

// A record, or a claim: its kind, its origin, and two 16-bit numbers. The origin is 0 for a cutting sheet and 1 for the scanner; that of a claim
// picks the facts, 0 for all and 1 for those of cutting sheets.
#[derive(Clone, Copy)]
pub struct Record {
    pub kind: u8,
    pub origin: u8,
    pub a: usize,
    pub b: usize,
}

// The rows of document 01's table by their numbers, then those that came later. Row 2 is gone: a book without records is piece 0 alone. Row 8, Order,
// is the former edition's.
#[derive(Clone, Copy, Debug, PartialEq, Eq)]
pub enum Refusal {
    ShortBuffer = 1,
    BookLength = 3,
    TooManyRecords = 4,
    Kind = 5,
    Origin = 6,
    PieceNumber = 7,
    Order = 8,
    Repeat = 9,
    ClaimsLength = 10,
    TooManyClaims = 11,
    ClaimFormat = 12,
    ClaimPiece = 13,
    Contradiction = 14,
    ShortSteps = 15,
    TooManyPieces = 16,
    ShortCatalog = 17,
    NotStanding = 18,
    VoidForm = 19,
    LogLength = 20,
    ReplicatePiece = 21,
}

// Why a book, claims or a call are refused, and the place: a record's or claim's number.
#[derive(Clone, Copy, Debug, PartialEq, Eq)]
pub struct Refused {
    pub refusal: Refusal,
    pub place: usize,
}

// An edition of the format. The former one is what the converter takes: it has TRAY records, and later changes leave it alone.
#[derive(Clone, Copy)]
pub enum Edition {
    Former,
    Current,
}

impl Refusal {
    // Refused for this, at a place.
    pub fn at(self, place: usize) -> Refused
        ensures { result ≡ record { refusal = self; place = place } }
    {
        Refused {
            refusal: self,
            place,
        }
    }
}

pub fn refusal_number(r: Refusal) -> u8
    ensures { result ≡ refusal_number r }
{
    r as u8
}

// The one reader of records. Claims have the same layout.
pub fn record_at(s: &[u8], i: usize) -> Record
    requires { RECORD-BYTES * i + RECORD-BYTES ≤ length s.now }
    ensures { result ≡ record_at s.now i }
{
    let at = RECORD_BYTES * i;
    let a = numbers::number_at(s, at + 2);
    let b = numbers::number_at(s, at + 4);
    Record {
        kind: s[at],
        origin: s[at + 1],
        a,
        b,
    }
}

// Kinds 1 to 4.
#[tactic(auto, unfolding(crate::specs::Pieces::stated))]
pub fn states_fact(r: Record) -> bool
    ensures { result ≡ stated r }
{
    crate::PART <= r.kind && r.kind <= crate::NOTPART
}

// The largest piece number that a record names: a in every kind, b in kinds 1 to 4.
#[tactic(auto, unfolding(crate::specs::Pieces::largest))]
pub fn largest_named(r: Record) -> usize
    ensures { result ≡ largest r }
{
    if states_fact(r) { r.a.max(r.b) } else { r.a }
}

// One more than the largest number that the records of a run name.
pub fn piece_count(run: &[u8]) -> usize
    ensures { result ≡ piece_count run.now }
{
    let n = run.len() / crate::RECORD_BYTES;
    let mut pieces: usize = 1;
    for i in 0..n {
        pieces = pieces.max(largest_named(record_at(run, i)) + 1);
    }
    pieces
}

// Copies the six bytes of record i to place `at`.
#[tactic(auto, unfolding(crate::specs::Kept::bytes_at))]
fn copy_record(s: &[u8], i: usize, out: &mut [u8], at: usize)
    requires { (RECORD-BYTES * i + RECORD-BYTES ≤ length s.now) × (at + RECORD-BYTES ≤ length out.old) }
    ensures { out.new ≡ placed at (bytes_at s.now i) out.old }
{
    let from = RECORD_BYTES * i;
    numbers::copy_to(&s[from..][..RECORD_BYTES], out, at);
}

// Copies record i to place `at`, if so told, and says where the next one goes.
pub fn copy_where(on: bool, s: &[u8], i: usize, out: &mut [u8], at: usize) -> usize
    requires { (RECORD-BYTES * i + RECORD-BYTES ≤ length s.now) × (at + RECORD-BYTES ≤ length out.old) }
    ensures { (out.new ≡ placed at (bytes_where on s.now i) out.old) × (result ≡ at + length (bytes_where on s.now i)) }
{
    if !on {
        return at;
    }
    copy_record(s, i, out, at);
    at + RECORD_BYTES
}

// Writes the records of cutting sheets to the front of `out`, and says how many bytes they have.
pub fn keep_sheets(s: &[u8], out: &mut [u8]) -> usize
    requires { length s.now ≤ length out.old }
    ensures { (result ≡ length (sheets s.now)) × (out.new ≡ front (sheets s.now) out.old) }
{
    let n = s.len() / crate::RECORD_BYTES;
    let mut at: usize = 0;
    for i in 0..n {
        let r = record_at(s, i);
        at = copy_where(r.origin == 0, s, i, out, at);
    }
    at
}
