// The catalog of a piece: all pieces that certainly are PART of it, or MEET it, or are APART from it; and beside the index the stored facts, sorted
// by places.
#![tactic(auto)]

ghost use Rattle.std.specs.Prelude.{◌≡◌, ◌||◌, ◌<◌, ltb, length};
ghost use Rattle.records.specs.Check.{book_check};
ghost use Rattle.catalog.specs.Lent.{lent};
ghost use Rattle.catalog.specs.Call.{Determined};
ghost use Rattle.closure.specs.Void.{void_of};
ghost use Rattle.closure.specs.Counted.{MarksOf};
ghost use Rattle.contradiction.specs.Settleable.{Settleable};
ghost use Rattle.contradiction.specs.Settled.{row, Settles, Indexes};
ghost use Rattle.catalog.specs.Filling as filling;
ghost use Rattle.catalog.specs.Filling.{asked, Roomy, Asked, Filled, Ready, Judged};
ghost use Rattle.areas.specs.Sizes.{AREA-NUMBERS};
ghost use Rattle.matrices.specs.Sizes.{ROW-WORDS};
ghost use Rattle.records.specs.Sizes.{PIECES};

use contradiction::Clash;
use matrices::Matrix;
use records::{Refusal, Refused};

pub mod certain;

// The counts of pieces, nodes, shadows and listed pieces, and of the pairs of each area.
#[derive(Clone, Copy)]
pub struct Counts {
    pub pieces: usize,
    pub nodes: usize,
    pub shadows: usize,
    pub listed: usize,
    pub meets: usize,
    pub apart: usize,
    pub notpart: usize,
}

// The counts of listed pieces, and of the pairs of each area.
#[derive(Clone, Copy)]
pub struct Lengths {
    pub listed: usize,
    pub meets: usize,
    pub apart: usize,
    pub notpart: usize,
}

// The list and the areas of a book that is not contradictory: d and t are its first two matrices, m is scratch. Marks count in the list alone.
fn fill(
    book: &[u8],
    n: usize,
    kind: usize,
    g: usize,
    voids: &[u64],
    m: &mut Matrix,
    d: &Matrix,
    t: &Matrix,
    places: &[u16],
    list: &mut [u16],
    meets: &mut [u16],
    apart: &mut [u16],
    notpart: &mut [u16],
) -> Lengths
    requires { Asked n kind g × filling.Settled book.now n voids.now d.now t.now places.now × Roomy (length list.old) (length meets.old) (length apart.old) (length notpart.old) }
    ensures { Filled book.now kind g n list.old meets.old apart.old notpart.old result list.new meets.new apart.new notpart.new }
{
    let listed = certain::list_pieces(book, n, kind, g, voids, d, t, m, list);
    let in_meets = areas::fill_area(book, n, records::MEETS, places, m, meets);
    let in_apart = areas::fill_area(book, n, records::APART, places, m, apart);
    let in_notpart = areas::fill_area(book, n, records::NOTPART, places, m, notpart);
    Lengths {
        listed,
        meets: in_meets,
        apart: in_apart,
        notpart: in_notpart,
    }
}

// The marks of the book, then row 14 and the index; its steps are dropped.
fn settle(
    book: &[u8],
    n: usize,
    voids: &mut [u64],
    e: &mut Matrix,
    d: &mut Matrix,
    t: &mut Matrix,
    parens: &mut [u8],
    marks: &mut [u8],
    shadows: &mut [u16],
    places: &mut [u16],
) -> Result<index::Counts, Clash>
    requires { Settleable n book.now (length parens.old) (length marks.old) (length shadows.old) (length places.old) × (length voids.old ≡ ROW-WORDS) }
    ensures { MarksOf book.now voids.new × Settles (void_of voids.new) n book.now d.new t.new (row result) × Indexes n book.now parens.new marks.new shadows.new places.new result }
{
    let mut order = [0u16; matrices::ROWS];
    let mut lead = [0u16; matrices::ROWS];
    contradiction::settle(
        book, n, voids, e, &mut order, &mut lead, d, t, parens, marks, shadows, places,
    )
}

// Row 14 and the index, then the list and the areas.
fn judge(
    book: &[u8],
    n: usize,
    kind: usize,
    g: usize,
    parens: &mut [u8],
    marks: &mut [u8],
    shadows: &mut [u16],
    places: &mut [u16],
    list: &mut [u16],
    meets: &mut [u16],
    apart: &mut [u16],
    notpart: &mut [u16],
    e: &mut Matrix,
    d: &mut Matrix,
    t: &mut Matrix,
) -> Result<Counts, Refused>
    requires { Asked n kind g × Ready book.now n (lent parens.old marks.old shadows.old places.old list.old meets.old apart.old notpart.old) }
    ensures { Judged book.now kind g n (lent parens.old marks.old shadows.old places.old list.old meets.old apart.old notpart.old) result (lent parens.new marks.new shadows.new places.new list.new meets.new apart.new notpart.new) }
{
    let mut voids = [0u64; matrices::ROW_WORDS];
    let settled = settle(book, n, &mut voids, e, d, t, parens, marks, shadows, places);
    match settled {
        Err(clash) => {
            answers::clear_index(parens, marks, shadows, places);
            Err(Refusal::Contradiction.at(clash.place))
        }
        Ok(counts) => {
            let written = fill(
                book, n, kind, g, &voids, e, d, t, places, list, meets, apart, notpart,
            );
            Ok(Counts {
                pieces: n,
                nodes: counts.nodes,
                shadows: counts.shadows,
                listed: written.listed,
                meets: written.meets,
                apart: written.apart,
                notpart: written.notpart,
            })
        }
    }
}

// The rows of the book, then 12 and 13 for the kind and the piece that are asked for.
fn check_asked(book: &[u8], kind: usize, g: usize) -> Result<usize, Refused>
    ensures { result ≡ asked kind g (book_check book.now) }
{
    let n = records::check_book(book)?;
    if kind < 1 || certain::MEETS < kind {
        return Err(Refusal::ClaimFormat.at(0));
    }
    if n <= g {
        return Err(Refusal::ClaimPiece.at(0));
    }
    Ok(n)
}

// Row 17.
fn short(list: usize, meets: usize, apart: usize, notpart: usize) -> bool
    ensures { result ≡ (ltb list PIECES || (ltb meets AREA-NUMBERS || (ltb apart AREA-NUMBERS || ltb notpart AREA-NUMBERS))) }
{
    list < records::PIECES
        || meets < areas::AREA_NUMBERS
        || apart < areas::AREA_NUMBERS
        || notpart < areas::AREA_NUMBERS
}

// Lists the pieces x of which the claim of a kind 1 to 3 about x and g follows, writes the index, and beside it the stored facts as pairs of places.
pub fn write_catalog(
    book: &[u8],
    kind: usize,
    g: usize,
    parens: &mut [u8],
    marks: &mut [u8],
    shadows: &mut [u16],
    places: &mut [u16],
    list: &mut [u16],
    meets: &mut [u16],
    apart: &mut [u16],
    notpart: &mut [u16],
    e: &mut Matrix,
    d: &mut Matrix,
    t: &mut Matrix,
) -> Result<Counts, Refused>
    ensures { Determined book.now kind g (lent parens.old marks.old shadows.old places.old list.old meets.old apart.old notpart.old) result (lent parens.new marks.new shadows.new places.new list.new meets.new apart.new notpart.new) }
{
    if answers::short(parens.len(), marks.len(), shadows.len(), places.len(), 0, 0) {
        return Err(Refusal::ShortBuffer.at(0));
    }
    if short(list.len(), meets.len(), apart.len(), notpart.len()) {
        return Err(Refusal::ShortCatalog.at(0));
    }
    let n = check_asked(book, kind, g)?;
    judge(
        book,
        n,
        kind,
        g,
        &mut parens[..index::PARENTHESES_BYTES],
        &mut marks[..index::MARKS_BYTES],
        &mut shadows[..index::SHADOWS],
        &mut places[..index::PLACES],
        list,
        meets,
        apart,
        notpart,
        e,
        d,
        t,
    )
}
