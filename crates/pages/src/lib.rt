// Texts put on a page of bytes that the caller lends, one behind the other. Where one does not fit, the end lies behind the page from there on.
#![tactic(auto)]

ghost use Rattle.std.specs.Prelude.{[], ◌∷◌, ◌≡◌};
ghost use Rattle.pages.specs.Text.{field};
ghost use Rattle.pages.specs.Decimal.{decimal};
ghost use Rattle.pages.specs.Put.{Put};
ghost use Rattle.pages.specs.Written.{written_at};
ghost use Rattle.pages.specs.Entry.{entry};

// The digits of the largest number.
const DIGITS: usize = 20;

// The byte behind each line of a table.
const LINE_END: u8 = b'\n';

// How many bytes of a page are text, where all that was put ends at `end`; none where the text is longer than the page.
#[tactic(auto, unfolding(crate::specs::Written::written_at))]
pub fn finish(length: usize, end: usize) -> Option<usize>
    ensures { result ≡ written_at length end }
{
    (end <= length).then_some(end)
}

// Puts one byte at a position of the page, and answers the position behind it.
pub fn put_byte(page: &mut [u8], at: usize, x: u8) -> usize
    ensures { Put page.old at (x ∷ []) page.new result }
{
    if page.len() <= at {
        return page.len() + 1;
    }
    page[at] = x;
    at + 1
}

// A text, or as much of it as fits: a copy of the whole would put nothing where it does not, and would need `memmove` from outside.
pub fn put(page: &mut [u8], at: usize, text: &[u8]) -> usize
    ensures { Put page.old at text.now page.new result }
{
    let mut end = at;
    for &byte in text {
        end = put_byte(page, end, byte);
    }
    end
}

// A number and the byte behind it.
pub fn put_number(page: &mut [u8], at: usize, n: usize, last: u8) -> usize
    ensures { Put page.old at (field (decimal n) last) page.new result }
{
    let mut digits = [0u8; DIGITS];
    let k = io::decimal(n as u64, &mut digits);
    let end = put(page, at, &digits[..k]);
    put_byte(page, end, last)
}

// Line k of a table, without its end.
pub fn put_line(page: &mut [u8], at: usize, table: &[u8], k: usize) -> usize
    ensures { Put page.old at (entry k table.now) page.new result }
{
    let mut end = at;
    let mut left = k;
    for &x in table {
        if x == LINE_END {
            if left == 0 {
                return end;
            }
            left -= 1;
        } else if left == 0 {
            end = put_byte(page, end, x);
        }
    }
    end
}

// Line k of a table, and the byte behind it.
pub fn put_entry(page: &mut [u8], at: usize, table: &[u8], k: usize, last: u8) -> usize
    ensures { Put page.old at (field (entry k table.now) last) page.new result }
{
    let end = put_line(page, at, table, k);
    put_byte(page, end, last)
}
