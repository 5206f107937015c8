// The places of what stands at or below the node of a piece.
ghost use Rattle.std.specs.Prelude.{◌≡◌};
ghost use Rattle.areas.specs.Subtree.{end_of, range_from, range_to};

use index::{DatasetId, TreeId};

// A range of places, ends included.
#[derive(Clone, Copy)]
pub struct Range {
    pub from: TreeId,
    pub to: TreeId,
}

// The first place past the subtree of a piece's node; 0 where there is none.
fn end_of(parens: &[u8], places: &[u16], g: DatasetId) -> TreeId
    ensures { result.0 ≡ end_of parens.now places.now g.0 }
{
    if parens.len() < index::PARENTHESES_BYTES || places.len() <= g.0 {
        return TreeId(0);
    }
    let place = index::place_of(places, g);
    let end = parentheses::subtree_end(&parens[..index::PARENTHESES_BYTES], place.0);
    TreeId(end)
}

// The places of a piece's node and of all nodes and shadows below it; an empty range where the parts have no such node.
pub fn subtree_range(parens: &[u8], places: &[u16], g: DatasetId) -> Range
    ensures { (result.from.0 ≡ range_from parens.now places.now g.0) × (result.to.0 ≡ range_to parens.now places.now g.0) }
{
    let end = end_of(parens, places, g);
    if end.0 == 0 {
        return Range {
            from: TreeId(1),
            to: TreeId(0),
        };
    }
    let place = index::place_of(places, g);
    Range {
        from: place,
        to: TreeId(end.0 - 1),
    }
}
