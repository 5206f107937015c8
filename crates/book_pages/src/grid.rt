// The page of `grid`: the four grids of a book in one, a sign for each pair of pieces.
ghost use Rattle.std.specs.Prelude.{◌≡◌, ◌<◌, ◌≤◌, length};
ghost use Rattle.grids.specs.Grid.{bit_at};
ghost use Rattle.grids.specs.Closed.{holds};
ghost use Rattle.grids.specs.Gridded.{Gridded};
ghost use Rattle.pages.specs.Put.{Put};
ghost use Rattle.pages.specs.Written.{Page};
ghost use Rattle.book_pages.specs.Sign as by;
ghost use Rattle.book_pages.specs.GridText as text;
ghost use Rattle.book_pages.specs.GridText.{columns, heading, headings, signs, rows, grid_lines, sheet_text, grid_text};
ghost use Rattle.book_pages.specs.Rooms.{GRID-ROOM};
ghost use Rattle.grids.specs.Sizes.{SIDE};

use grids::GridAnswer;
use grids::rounds::{Grid, Grids};
use sentences::Whom;
use text::Form;

const TEN: usize = 10;

// Bit b of row a.
fn has(grid: &Grid, a: usize, b: usize) -> bool
    requires { (a < SIDE) × (b < SIDE) }
    ensures { result ≡ bit_at grid.now a b }
{
    (grid[a] >> b) & 1 == 1
}

// The sign of a and b, where neither is void.
#[tactic(auto, unfolding(crate::specs::Sign::between, crate::specs::Sign::sign_of))]
fn between(g: &Grids, a: usize, b: usize) -> u8
    requires { (a < SIDE) × (b < SIDE) }
    ensures { result ≡ by.between (holds g.now) a b }
{
    if has(&g.part, a, b) {
        if has(&g.part, b, a) {
            return b'=';
        }
        return b'<';
    }
    if has(&g.part, b, a) {
        return b'>';
    }
    if has(&g.apart, a, b) {
        return b'|';
    }
    if !has(&g.meets, a, b) {
        return b'.';
    }
    if has(&g.notpart, a, b) && has(&g.notpart, b, a) {
        return b'x';
    }
    b'o'
}

// The sign of a and b.
#[tactic(auto, unfolding(crate::specs::Sign::sign))]
fn sign(g: &Grids, a: usize, b: usize) -> u8
    requires { (a < SIDE) × (b < SIDE) }
    ensures { result ≡ by.sign (holds g.now) a b }
{
    if has(&g.apart, a, a) || has(&g.apart, b, b) {
        return b'v';
    }
    between(g, a, b)
}

// The signs of piece a and the n pieces.
fn put_signs(page: &mut [u8], at: usize, g: &Grids, a: usize, n: usize) -> usize
    requires { (a < SIDE) × (n ≤ SIDE) }
    ensures { Put page.old at (signs (holds g.now) a n) page.new result }
{
    let mut end = at;
    for b in 0..n {
        let x = sign(g, a, b);
        end = pages::put_byte(page, end, x);
    }
    end
}

// The tens of a number below 100, a space where it has none.
#[tactic(auto, unfolding(crate::specs::GridText::tens))]
fn tens(b: usize) -> u8
    ensures { result ≡ text.tens b }
{
    if b < TEN {
        b' '
    } else {
        b'0' + (b / TEN % TEN) as u8
    }
}

// The ones of a number.
#[tactic(auto, unfolding(crate::specs::GridText::ones))]
fn ones(b: usize) -> u8
    ensures { result ≡ text.ones b }
{
    b'0' + (b % TEN) as u8
}

// A digit of a number in the heading.
#[tactic(auto, unfolding(crate::specs::GridText::digit))]
fn digit(upper: bool, b: usize) -> u8
    ensures { result ≡ text.digit upper b }
{
    if upper { tens(b) } else { ones(b) }
}

// The digits of the n columns.
fn put_columns(page: &mut [u8], at: usize, upper: bool, n: usize) -> usize
    ensures { Put page.old at (columns upper n) page.new result }
{
    let mut end = at;
    for b in 0..n {
        let x = digit(upper, b);
        end = pages::put_byte(page, end, x);
    }
    end
}

// A line of the heading.
fn put_heading(page: &mut [u8], at: usize, upper: bool, n: usize) -> usize
    ensures { Put page.old at (heading upper n) page.new result }
{
    let at = pages::put(page, at, b"   ");
    let at = put_columns(page, at, upper, n);
    pages::put_byte(page, at, b'\n')
}

// The heading.
fn put_headings(page: &mut [u8], at: usize, n: usize) -> usize
    ensures { Put page.old at (headings n) page.new result }
{
    if n <= TEN {
        return put_heading(page, at, false, n);
    }
    let at = put_heading(page, at, true, n);
    put_heading(page, at, false, n)
}

// The lines of the n pieces.
fn put_rows(page: &mut [u8], at: usize, g: &Grids, n: usize) -> usize
    requires { n ≤ SIDE }
    ensures { Put page.old at (rows (holds g.now) n n) page.new result }
{
    let mut end = at;
    for a in 0..n {
        end = pages::put_byte(page, end, tens(a));
        end = pages::put_byte(page, end, ones(a));
        end = pages::put_byte(page, end, b' ');
        end = put_signs(page, end, g, a, n);
        end = pages::put_byte(page, end, b'\n');
    }
    end
}

// The grid of n pieces, from the start of the page.
fn put_lines(page: &mut [u8], g: &Grids, n: usize) -> usize
    requires { n ≤ SIDE }
    ensures { Put page.old 0 (grid_lines (holds g.now) n) page.new result }
{
    let at = pages::put(page, 0, b"PIECES ");
    let at = pages::put_number(page, at, n, b'\n');
    let at = put_headings(page, at, n);
    put_rows(page, at, g, n)
}

// The grid call, in matrices of its own.
fn grid_of(book: &[u8]) -> GridAnswer
    ensures { Gridded book.now result.outcome result.grids }
{
    let mut e = [0u64; matrices::WORDS];
    let mut d = [0u64; matrices::WORDS];
    let mut t = [0u64; matrices::WORDS];
    grids::grid(book, &mut e, &mut d, &mut t)
}

// The text of the book's grids, from the start of the page. Answers where it ends.
fn put_grid(book: &[u8], source: &[u8], page: &mut [u8]) -> usize
    ensures put { Put page.old 0 (sheet_text book.now source.now) page.new result }
    ensures source_len_bound { length (sheet_text book.now source.now) ≤ GRID-ROOM }
{
    let made = grid_of(book);
    let outcome = made.outcome;
    let g = made.grids;
    match outcome {
        Err(refused) => { sentences::put_refused_book(page, 0, refused, source) }
        Ok(counts) => put_lines(page, &g, counts.pieces),
    }
}

// The grids of the book on one page: 4,498 bytes always serve.
pub fn write_grid(source: &[u8], page: &mut [u8]) -> Option<usize>
    ensures page { Page page.old (grid_text source.now) page.new result }
    ensures source_len_bound { length (grid_text source.now) ≤ GRID-ROOM }
{
    let mut book = [0u8; text::BOOK_ROOM];
    let read = sentences::sources::read_source(Form::Records, source, &mut book);
    match read {
        Err(unread) => sentences::write_unread_of(page, Whom::Book, unread),
        Ok(n) => {
            let end = put_grid(&book[..n], source, page);
            pages::finish(page.len(), end)
        }
    }
}
