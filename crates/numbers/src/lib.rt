// Bytes and the numbers made of them: small steps that many crates take.
#![tactic(auto)]

ghost use Rattle.std.specs.Prelude.{◌≡◌, ◌+◌, ◌*◌, ◌%◌, ◌≤◌, ◌<◌, length, get_or};
ghost use Rattle.lists.specs.Front.{placed};
ghost use Rattle.numbers.specs.Sizes.{BYTE-VALUES, SHORT-VALUES};

// How many values a byte has.
pub const BYTE_VALUES: usize = 256;

// The low byte of a number.
pub fn low(n: usize) -> u8
    ensures { result ≡ n % BYTE-VALUES }
{
    (n % BYTE_VALUES) as u8
}

// The one reader of 16-bit numbers, low byte first.
pub fn number_at(s: &[u8], at: usize) -> usize
    requires { at + 2 ≤ length s.now }
    ensures { (result ≡ get_or s.now at 0 + BYTE-VALUES * get_or s.now (at + 1) 0) × (result < SHORT-VALUES) }
{
    usize::from(u16::from_le_bytes([s[at], s[at + 1]]))
}

// Copies bytes to place `at`.
#[tactic(auto, using(lists::proofs::Fronts::put_mid_placed))]
pub fn copy_to(from: &[u8], out: &mut [u8], at: usize)
    requires { at + length from.now ≤ length out.old }
    ensures { out.new ≡ placed at from.now out.old }
{
    out[at..at + from.len()].copy_from_slice(from);
}
