// Zeros, for texts and pages.
ghost use Rattle.std.specs.Prelude.{◌≡◌, length};

// A text, and one byte more, by which a longer one is known.
pub const TEXT_ROOM: usize = 524289;

// The longest page, that of `why` of a contradiction, and one byte more, by which a chain is known that is longer than any page.
pub const LONG_PAGE_ROOM: usize = 852943;

// Any other page.
pub const PAGE_ROOM: usize = 262144;

// The contract gives the length alone, which lending the array as a slice needs: so no proof above looks at the bytes.
pub fn zeros<const N: usize>() -> [u8; N]
    ensures { N ≡ length result }
{
    [0; N]
}
