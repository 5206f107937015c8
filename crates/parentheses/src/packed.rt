// Packed parentheses: their bits, ranks and matches; the count of ones, and the lowest excess of a byte by a table.
ghost use Rattle.std.specs.Prelude.{◌≡◌, ◌+◌, ◌-◌, ◌*◌, ◌^◌, ◌<◌, ◌≤◌, pos, ◌+ℤ◌, length};
ghost use Rattle.std.specs.List.{sum_by};
ghost use Rattle.lists.specs.Tab.{tab};
ghost use Rattle.parentheses.specs.Bits.{bits};
ghost use Rattle.parentheses.specs.Rank.{rank};
ghost use Rattle.parentheses.specs.Tables.{ones_of, lowest_of};
ghost use Rattle.parentheses.specs.Words.{ones_in};
ghost use Rattle.numbers.specs.Sizes.{BYTE-VALUES};

// How many bytes a word has.
const WORD_BYTES: usize = 8;

// How many bits of the eight bytes of w are 1.
fn ones_of(w: u64) -> usize
    ensures { (result ≡ ones_in 8 w) × (result ≤ 64) }
{
    w.count_ones() as usize
}

// How many bits of single bytes are 1.
fn ones_of_each(bytes: &[u8]) -> usize
    requires { length bytes.now < 8 }
    ensures { result ≡ sum_by (ones_in 8) bytes.now }
{
    bytes.iter().map(|&byte| ones_of(u64::from(byte))).sum()
}

// How many bits of the bytes from one up to before another are 1: the one count of ones, eight bytes at a time while there are eight.
pub fn ones_in(bytes: &[u8], from: usize, to: usize) -> usize
    requires { (from ≤ to) × (to ≤ length bytes.now) × (8 * to < 2 ^ 64) }
    ensures { (rank (bits bytes.now) (8 * from) + result ≡ rank (bits bytes.now) (8 * to)) × (result ≤ 8 * (to - from)) }
{
    let (words, rest) = bytes[from..to].as_chunks::<WORD_BYTES>();
    let mut ones = ones_of_each(rest);
    for word in words {
        ones += ones_of(u64::from_le_bytes(*word));
    }
    ones
}

// The lowest running excess of b, by the table: +1 for a 1, -1 for a 0, low bit first, after at least one bit.
fn lowest_of(table: &[i8; numbers::BYTE_VALUES], b: u8) -> i8
    requires { table.now ≡ tab lowest_of 0 BYTE-VALUES }
    ensures { result ≡ lowest_of b }
{
    table[usize::from(b)]
}

// Eight more than the lowest running excess of b, so that it is not negative.
pub fn margin_of(table: &[i8; numbers::BYTE_VALUES], b: u8) -> usize
    requires { table.now ≡ tab lowest_of 0 BYTE-VALUES }
    ensures { pos result ≡ lowest_of b +ℤ pos 8 }
{
    (lowest_of(table, b) + 8) as usize
}
