// Square matrices of bits, 2,048 rows of 32 words, each function with its contract over `bit_of`.
ghost use Rattle.std.specs.Prelude.{◌≡◌, ◌+◌, ◌-◌, ◌*◌, ◌<◌, ◌≤◌, length, replicate, false};
ghost use Rattle.lists.specs.First.{first};
ghost use Rattle.matrices.specs.Matrix.{bit_of, common, Blank, Inserted, United, IsMatrix};
ghost use Rattle.matrices.specs.Sizes.{ROW-WORDS, ROWS, WORD-BITS};

use crate::{ROW_WORDS, ROWS, WORD_BITS};

// Whether bit i of row r is set, in any run of rows.
fn bit_at(rows: &[u64], r: usize, i: usize) -> bool
    requires { (r < ROWS) × (i < ROWS) × (r * ROW-WORDS + ROW-WORDS ≤ length rows.now) }
    ensures { result ≡ bit_of rows.now r i }
{
    (rows[r * ROW_WORDS + i / WORD_BITS] >> (i % WORD_BITS)) & 1 == 1
}

// Sets bit i of row r, in any run of rows.
fn set_bit(rows: &mut [u64], r: usize, i: usize)
    requires { (r < ROWS) × (i < ROWS) × (r * ROW-WORDS + ROW-WORDS ≤ length rows.old) }
    ensures { Inserted rows.old rows.new r i }
{
    rows[r * ROW_WORDS + i / WORD_BITS] |= 1 << (i % WORD_BITS);
}

// Whether bit i of row r is set.
pub fn test(m: &[u64], r: usize, i: usize) -> bool
    requires { (IsMatrix m.now) × (r < ROWS) × (i < ROWS) }
    ensures { result ≡ bit_of m.now r i }
{
    bit_at(m, r, i)
}

// Whether bit i of a row that stands alone is set.
pub fn has(row: &[u64], i: usize) -> bool
    requires { (length row.now ≡ ROW-WORDS) × (i < ROWS) }
    ensures { result ≡ bit_of row.now 0 i }
{
    bit_at(row, 0, i)
}

// Sets bit i of row r.
pub fn insert(m: &mut [u64], r: usize, i: usize)
    requires { (IsMatrix m.old) × (r < ROWS) × (i < ROWS) }
    ensures { Inserted m.old m.new r i }
{
    set_bit(m, r, i);
}

// Sets bit i of a row that stands alone.
pub fn put(row: &mut [u64], i: usize)
    requires { (length row.old ≡ ROW-WORDS) × (i < ROWS) }
    ensures { Inserted row.old row.new 0 i }
{
    set_bit(row, 0, i);
}

// Puts row s of src into row d of dst. Two words a turn, both read before either is written: such a pair is one vector. One word a turn
// takes half as long again.
pub fn union_row(dst: &mut [u64], d: usize, src: &[u64], s: usize)
    requires { (IsMatrix dst.old) × (IsMatrix src.now) × (d < ROWS) × (s < ROWS) }
    ensures { United dst.old dst.new d src.now s }
{
    let a = d * ROW_WORDS;
    let b = s * ROW_WORDS;
    for pair in 0..ROW_WORDS / 2 {
        let i = 2 * pair;
        let j = i + 1;
        let x = dst[a + i] | src[b + i];
        let y = dst[a + j] | src[b + j];
        dst[a + i] = x;
        dst[a + j] = y;
    }
}

// Puts row s of m into row d of m: a function of its own, since m cannot be lent twice.
pub fn union_within(m: &mut [u64], d: usize, s: usize)
    requires { (IsMatrix m.old) × (d < ROWS) × (s < ROWS) }
    ensures { United m.old m.new d m.old s }
{
    let a = d * ROW_WORDS;
    let b = s * ROW_WORDS;
    for i in 0..ROW_WORDS {
        m[a + i] |= m[b + i];
    }
}

// Whether row r of m and row s of n have a bit in common.
pub fn meet(m: &[u64], r: usize, n: &[u64], s: usize) -> bool
    requires { (IsMatrix m.now) × (IsMatrix n.now) × (r < ROWS) × (s < ROWS) }
    ensures { result ≡ common m.now r n.now s }
{
    let a = r * ROW_WORDS;
    let b = s * ROW_WORDS;
    for i in 0..ROW_WORDS {
        if m[a + i] & n[b + i] != 0 {
            return true;
        }
    }
    false
}

// Clears every bit.
pub fn clear(m: &mut [u64])
    ensures { m.new ≡ replicate (length m.old) 0 }
{
    m.fill(0);
}

// Clears the rows below n.
pub fn clear_rows(m: &mut [u64], n: usize)
    requires { (IsMatrix m.old) × (n ≤ ROWS) }
    ensures { Blank n m.new }
{
    clear(&mut m[..n * ROW_WORDS]);
}

// The first set bit of row r from word w on; 2,048 where there is none.
fn next_word(m: &[u64], r: usize, w: usize) -> usize
    requires { (IsMatrix m.now) × (r < ROWS) × (w ≤ ROW-WORDS) }
    ensures { result ≡ first (bit_of m.now r) (w * WORD-BITS) (ROWS - w * WORD-BITS) }
{
    let a = r * ROW_WORDS;
    for i in w..ROW_WORDS {
        let x = m[a + i];
        if x != 0 {
            return i * WORD_BITS + x.trailing_zeros() as usize;
        }
    }
    ROWS
}

// The first set bit of row r from column `from` on; 2,048 where there is none. Words that are 0 are passed over whole.
pub fn next_bit(m: &[u64], r: usize, from: usize) -> usize
    requires { (IsMatrix m.now) × (r < ROWS) × (from ≤ ROWS) }
    ensures { result ≡ first (bit_of m.now r) from (ROWS - from) }
{
    if ROWS <= from {
        return ROWS;
    }
    let x = m[r * ROW_WORDS + from / WORD_BITS] >> (from % WORD_BITS);
    if x != 0 {
        return from + x.trailing_zeros() as usize;
    }
    next_word(m, r, from / WORD_BITS + 1)
}
