// The catalog calls of include/piecebook.h.
ghost use Rattle.piecebook.specs.Catalogs.{Counted, Catalogs, Asked};
ghost use Rattle.std.specs.Prelude.{◌≡◌};
ghost use Rattle.catalog.specs.Lent.{lent};
ghost use Rattle.areas.specs.Subtree.{range_from, range_to};

use areas::subtree::Range;
use catalog::Counts;
use index::{DatasetId, TreeId};
use matrices::Matrix;
use records::Refused;

// A catalog's outcome as include/piecebook.h has it.
#[repr(C)]
#[derive(Clone, Copy)]
pub struct PiecebookCatalogResult {
    pub number: usize,
    pub place: usize,
    pub pieces: usize,
    pub nodes: usize,
    pub shadows: usize,
    pub listed: usize,
    pub meets: usize,
    pub apart: usize,
    pub notpart: usize,
}

pub fn counted_of(listing: Result<Counts, Refused>) -> PiecebookCatalogResult
    ensures { Counted listing result }
{
    match listing {
        Ok(counts) => PiecebookCatalogResult {
            number: 0,
            place: 0,
            pieces: counts.pieces,
            nodes: counts.nodes,
            shadows: counts.shadows,
            listed: counts.listed,
            meets: counts.meets,
            apart: counts.apart,
            notpart: counts.notpart,
        },
        Err(refused) => PiecebookCatalogResult {
            number: usize::from(records::refusal_number(refused.refusal)),
            place: refused.place,
            pieces: 0,
            nodes: 0,
            shadows: 0,
            listed: 0,
            meets: 0,
            apart: 0,
            notpart: 0,
        },
    }
}

// A range of places, ends included.
#[repr(C)]
#[derive(Clone, Copy)]
pub struct PiecebookRange {
    pub from: usize,
    pub to: usize,
}

#[unsafe(no_mangle)]
pub extern "C" fn piecebook_catalog_with(
    book: &[u8],
    kind: usize,
    piece: usize,
    parens: &mut [u8],
    marks: &mut [u8],
    shadows: &mut [u16],
    places: &mut [u16],
    list: &mut [u16],
    meets: &mut [u16],
    apart: &mut [u16],
    notpart: &mut [u16],
    e: &mut Matrix,
    d: &mut Matrix,
    t: &mut Matrix,
) -> PiecebookCatalogResult
    ensures { Catalogs book.now kind piece (lent parens.old marks.old shadows.old places.old list.old meets.old apart.old notpart.old) result (lent parens.new marks.new shadows.new places.new list.new meets.new apart.new notpart.new) }
{
    let listing = catalog::write_catalog(
        book, kind, piece, parens, marks, shadows, places, list, meets, apart, notpart, e, d, t,
    );
    counted_of(listing)
}

#[unsafe(no_mangle)]
pub extern "C" fn piecebook_fact_between(
    area: &[u16],
    count: usize,
    unordered: usize,
    row_from: usize,
    row_to: usize,
    column_from: usize,
    column_to: usize,
) -> usize
    ensures { Asked area.now count unordered row_from row_to column_from column_to result }
{
    let either = unordered != 0;
    let rows = Range {
        from: TreeId(row_from),
        to: TreeId(row_to),
    };
    let columns = Range {
        from: TreeId(column_from),
        to: TreeId(column_to),
    };
    let found = areas::fact_between(area, count, either, rows, columns);
    found as usize
}

#[unsafe(no_mangle)]
pub extern "C" fn piecebook_subtree(parens: &[u8], places: &[u16], piece: usize) -> PiecebookRange
    ensures { (result.from ≡ range_from parens.now places.now piece) × (result.to ≡ range_to parens.now places.now piece) }
{
    let range = areas::subtree::subtree_range(parens, places, DatasetId(piece));
    let first = range.from;
    let last = range.to;
    PiecebookRange {
        from: first.0,
        to: last.0,
    }
}
