// Rows 3 to 13: each record by itself and among those before it, and the claims.
ghost use Rattle.std.specs.Prelude.{◌≡◌, ◌+◌, ◌*◌, ◌≤◌, ◌<◌, length, Ok};
ghost use Rattle.records.specs.Refusal.{row};
ghost use Rattle.records.specs.declared.Refusal.TheVariants.{VoidForm, Order};
ghost use Rattle.records.specs.Rows.{admitted, bad_mark, rising};
ghost use Rattle.records.specs.Key.{key_at, slot_of, other_slot};
ghost use Rattle.records.specs.Met.{met, Marked, Noted, start};
ghost use Rattle.records.specs.Check.{form_finding, records_check, check_by, book_check, former_check, claim_at, claims_check};
ghost use Rattle.numbers.specs.Sizes.{BYTE-VALUES};
ghost use Rattle.records.specs.Sizes.{RECORD-BYTES, RECORDS};

use crate::{Edition, Record, Refusal, Refused};

// Two primes below the length of the filter, so that two keys rarely fall together in both.
const FIRST_PRIME: u64 = 257731;

const SECOND_PRIME: u64 = 246731;

const WORD_BITS: usize = 64;

// How many records are few: their keys and filter are shorter. A filter is words of 64 bits.
const FEW_RECORDS: usize = 256;

const SHORT_FILTER: usize = 256;

const LONG_FILTER: usize = 4096;

// Whether an edition has the kind of a record.
#[tactic(auto, unfolding(crate::specs::Rows::admitted))]
fn admits(edition: Edition, r: Record) -> bool
    ensures { result ≡ admitted edition r }
{
    crate::states_fact(r)
        || match edition {
            Edition::Former => r.kind == crate::TRAY,
            Edition::Current => r.kind == crate::VOID,
        }
}

// Row 19 of a record of kind 6.
fn check_mark(r: Record) -> Result<(), Refusal>
    ensures { result ≡ row (bad_mark r) VoidForm (Ok tt) }
{
    if r.a == 0 || r.b != 0 {
        return Err(Refusal::VoidForm);
    }
    Ok(())
}

// Row 8 of a record of the former edition.
fn check_order(r: Record) -> Result<(), Refusal>
    ensures { result ≡ row (rising r) Order (Ok tt) }
{
    if r.kind == crate::PART && r.a <= r.b {
        return Err(Refusal::Order);
    }
    Ok(())
}

// Rows 5 to 7, 19 and 8, which look at one record alone.
fn check_form(edition: Edition, r: Record) -> Result<(), Refusal>
    ensures { result ≡ form_finding edition r }
{
    if !admits(edition, r) {
        return Err(Refusal::Kind);
    }
    if 1 < r.origin {
        return Err(Refusal::Origin);
    }
    if crate::LAST_PIECE < crate::largest_named(r) {
        return Err(Refusal::PieceNumber);
    }
    if r.kind == crate::VOID {
        return check_mark(r);
    }
    match edition {
        Edition::Former => check_order(r),
        Edition::Current => Ok(()),
    }
}

// The six bytes of record i as one number, so that two records are compared at once.
fn key_at(s: &[u8], i: usize) -> u64
    requires { RECORD-BYTES * i + RECORD-BYTES ≤ length s.now }
    ensures { result ≡ key_at s.now (RECORD-BYTES * i) }
{
    let at = crate::RECORD_BYTES * i;
    u64::from_le_bytes([
        s[at],
        s[at + 1],
        s[at + 2],
        s[at + 3],
        s[at + 4],
        s[at + 5],
        0,
        0,
    ])
}

// The two bits of the filter that stand for a key. These primes spread ordinary books.
fn slot_of(key: u64) -> usize
    ensures { result ≡ slot_of key }
{
    (key % FIRST_PRIME) as usize
}

fn other_slot(key: u64) -> usize
    ensures { result ≡ other_slot key }
{
    (key % SECOND_PRIME) as usize
}

// Sets bit k, and says whether it was set before.
fn mark(seen: &mut [u64], k: usize) -> bool
    requires { k < 64 * length seen.old }
    ensures { (result ≡ met seen.old k) × Marked seen.old seen.new k }
{
    let w = k / WORD_BITS;
    let x = seen[w];
    seen[w] = x | (1 << (k % WORD_BITS));
    (x >> (k % WORD_BITS)) & 1 == 1
}

// Sets both bits of a key, and says whether both were set before: if not, the key is new. The mask keeps them within a short filter.
fn note(seen: &mut [u64], mask: usize, key: u64) -> bool
    requires { mask < 64 * length seen.old }
    ensures { Noted mask seen.old seen.new key result }
{
    let first = mark(seen, slot_of(key) & mask);
    let second = mark(seen, other_slot(key) & mask);
    first && second
}

// The first earlier record to compare record i with: none where its key is new.
fn first_suspect(marked: bool, i: usize) -> usize
    ensures { result ≡ start marked i }
{
    if marked { 0 } else { i }
}

// Rows 5 to 9: the first refusal, record by record, or the piece count. A record is compared with the earlier ones only
// where both bits of its key were set before. The list of keys and the filter are scratch.
fn check_records_by(
    edition: Edition,
    book: &[u8],
    n: usize,
    mask: usize,
    keys: &mut [u64],
    seen: &mut [u64],
) -> Result<usize, Refused>
    requires { (n ≤ RECORDS) × (RECORD-BYTES * n ≤ length book.now) × (n ≤ length keys.old) × (mask < 64 * length seen.old) }
    ensures { result ≡ records_check edition book.now n }
{
    let mut pieces: usize = 1;
    'records: {
        for i in 0..n {
            let record = crate::record_at(book, i);
            if let Err(refusal) = check_form(edition, record) {
                break 'records Err(refusal.at(i));
            }
            let key = key_at(book, i);
            keys[i] = key;
            for j in first_suspect(note(seen, mask, key), i)..i {
                if keys[j] == key {
                    break 'records Err(Refusal::Repeat.at(i));
                }
            }
            pieces = pieces.max(crate::largest_named(record) + 1);
        }
        Ok(pieces)
    }
}

// The same with a list for so many keys and a filter of so many words of its own.
fn check_within<const KEYS: usize, const WORDS: usize>(
    edition: Edition,
    book: &[u8],
    n: usize,
) -> Result<usize, Refused>
    requires { (n ≤ RECORDS) × (RECORD-BYTES * n ≤ length book.now) × (n ≤ KEYS) × (KEYS ≤ RECORDS) × (0 < WORDS) × (WORDS ≤ LONG_FILTER) }
    ensures { result ≡ records_check edition book.now n }
{
    let mut keys = [0u64; KEYS];
    let mut seen = [0u64; WORDS];
    check_records_by(
        edition,
        book,
        n,
        WORD_BITS * WORDS - 1,
        &mut keys,
        &mut seen,
    )
}

// Short ones for few records, since to clear long ones takes longer than to check them.
fn check_records(edition: Edition, book: &[u8], n: usize) -> Result<usize, Refused>
    requires { (n ≤ RECORDS) × (RECORD-BYTES * n ≤ length book.now) }
    ensures { result ≡ records_check edition book.now n }
{
    if n <= FEW_RECORDS {
        return check_within::<FEW_RECORDS, SHORT_FILTER>(edition, book, n);
    }
    check_within::<{ crate::RECORDS }, LONG_FILTER>(edition, book, n)
}

// Rows 3 to 9 of a book, by an edition.
fn check_by(edition: Edition, book: &[u8]) -> Result<usize, Refused>
    ensures { result ≡ check_by edition book.now }
{
    if book.len() % crate::RECORD_BYTES != 0 {
        return Err(Refusal::BookLength.at(0));
    }
    let n = book.len() / crate::RECORD_BYTES;
    if crate::RECORDS < n {
        return Err(Refusal::TooManyRecords.at(0));
    }
    check_records(edition, book, n)
}

// By the edition in force.
pub fn check_book(book: &[u8]) -> Result<usize, Refused>
    ensures { result ≡ book_check book.now }
{
    check_by(Edition::Current, book)
}

// By the edition that the converter takes.
pub fn check_former(book: &[u8]) -> Result<usize, Refused>
    ensures { result ≡ former_check book.now }
{
    check_by(Edition::Former, book)
}

// Claim i, by row 12.
#[tactic(auto, unfolding(crate::specs::Check::claim_at))]
pub fn claim_at(claims: &[u8], i: usize) -> Option<Record>
    requires { RECORD-BYTES * i + RECORD-BYTES ≤ length claims.now }
    ensures { result ≡ claim_at claims.now i }
{
    let claim = crate::record_at(claims, i);
    if crate::states_fact(claim) && claim.origin <= 1 {
        return Some(claim);
    }
    None
}

// Rows 10 to 13 of the claims on a book of so many pieces.
pub fn check_claims(claims: &[u8], pieces: usize) -> Result<(), Refused>
    ensures { result ≡ claims_check pieces claims.now }
{
    if claims.len() % crate::RECORD_BYTES != 0 {
        return Err(Refusal::ClaimsLength.at(0));
    }
    let n = claims.len() / crate::RECORD_BYTES;
    if crate::CLAIMS < n {
        return Err(Refusal::TooManyClaims.at(0));
    }
    for i in 0..n {
        let Some(claim) = claim_at(claims, i) else {
            return Err(Refusal::ClaimFormat.at(i));
        };
        if pieces <= crate::largest_named(claim) {
            return Err(Refusal::ClaimPiece.at(i));
        }
    }
    Ok(())
}
