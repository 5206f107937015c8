// D of an index: the row of each piece from the rows of its parts.
ghost use Rattle.std.specs.Prelude.{◌≡◌, ◌+◌, ◌<◌, ◌≤◌};
ghost use Rattle.containment.specs.Filling.{Setting, Leads, Seeded, Fillable, From, All, Filled, FilledTo, Ready};
ghost use Rattle.containment.specs.Contents.{Stored, Contents};
ghost use Rattle.matrices.specs.Led.{Led};
ghost use Rattle.matrices.specs.Matrix.{IsMatrix};
ghost use Rattle.index.specs.Sizes.{NODES};
ghost use Rattle.matrices.specs.Sizes.{ROWS};

use index::{DatasetId, TreeId};

// How many nodes a tree has that is cheaper with short tables.
const SMALL_TREE: usize = 512;

// Fills the row of a leader h, unless it is filled: h itself, and the row of the leader of each part that hangs from its node. `ends` has the
// first place past the subtree of each place, `turned` the leader of the pieces there. The pieces that follow h are there. A part that hangs as a
// shadow is the one that the shadow stands for, so containment calls itself through shadow targets. Levels rise from container to part, and a row
// that is filled is filled for good. From a child to the next q leaps over the subtree, as no range does.
fn fill(places: &[u16], ends: &[u16], turned: &[u16], rows: &mut [u64], h: DatasetId)
    requires { (IsMatrix rows.old) × Fillable places.now ends.now turned.now rows.old h.0 }
    ensures { (s : Setting places.now ends.now turned.now) → From s rows.old h.0 → h.0 < s.n → s.leader (s.number h.0) ≡ h.0 → Filled s rows.old rows.new h.0 }
{
    let x = h.0;
    if matrices::test(rows, x, x) {
        return;
    }
    matrices::insert(rows, x, x);
    let place = index::place_of(places, h);
    let mut q = TreeId(place.0 + 1);
    let end = TreeId(usize::from(ends[place.0]));
    while q.0 < end.0 {
        let t = DatasetId(usize::from(turned[q.0]));
        fill(places, ends, turned, rows, t);
        matrices::union_within(rows, x, t.0);
        q = TreeId(usize::from(ends[q.0]));
    }
}

// Puts each piece below n that follows another into that one's row, and clears every other bit of the rows below n.
fn seed(n: usize, lead: &[u16], rows: &mut [u64])
    requires { (n ≤ ROWS) × (IsMatrix rows.old) × Led n lead.now }
    ensures { Seeded n n lead.now rows.new }
{
    matrices::clear_rows(rows, n);
    for g in 0..n {
        let h = crate::leader_of(lead, DatasetId(g));
        if h.0 != g {
            matrices::insert(rows, h.0, g);
        }
    }
}

// Fills the row of the leader of each piece below n.
fn fill_all(n: usize, places: &[u16], ends: &[u16], turned: &[u16], lead: &[u16], rows: &mut [u64])
    requires { (IsMatrix rows.old) × Ready n places.now ends.now turned.now lead.now rows.old }
    ensures { (s : Setting places.now ends.now turned.now) → n ≡ s.n → Leads s lead.now → All s rows.old → FilledTo s rows.new n }
{
    for g in 0..n {
        let h = crate::leader_of(lead, DatasetId(g));
        fill(places, ends, turned, rows, h);
    }
}

// Fills the row of each piece below n with the pieces inside it, and clears its other bits. Pieces at one place have one row, which
// is filled once: that of their leader. So many paths to one piece cost no more than one. The two tables have N places each.
fn contents_in<const N: usize>(
    n: usize,
    nodes: usize,
    parens: &[u8],
    marks: &[u8],
    shadows: &[u16],
    places: &[u16],
    lead: &[u16],
    rows: &mut [u64],
)
    requires { (n ≤ ROWS) × (nodes ≤ N) × (N ≤ NODES) × (IsMatrix rows.old) × Stored n nodes parens.now marks.now shadows.now places.now lead.now }
    ensures { Contents n parens.now marks.now shadows.now places.now rows.new }
{
    let mut ends = [0u16; N];
    let mut turned = [0u16; N];
    let bytes = (nodes + 3) / 4;
    crate::subtree_ends(nodes, &parens[..bytes], &mut ends);
    crate::number_nodes(n, places, lead, &mut turned);
    crate::number_shadows(nodes, marks, shadows, &mut turned);
    seed(n, lead, rows);
    fill_all(n, places, &ends, &turned, lead, rows);
    matrices::share_rows(lead, n, rows);
}

// The same with short tables for a small tree, since to clear long ones takes longer than to fill its rows.
pub fn contents(
    n: usize,
    nodes: usize,
    parens: &[u8],
    marks: &[u8],
    shadows: &[u16],
    places: &[u16],
    lead: &[u16],
    rows: &mut [u64],
)
    requires { (n ≤ ROWS) × (nodes ≤ NODES) × (IsMatrix rows.old) × Stored n nodes parens.now marks.now shadows.now places.now lead.now }
    ensures { Contents n parens.now marks.now shadows.now places.now rows.new }
{
    if nodes <= SMALL_TREE {
        contents_in::<SMALL_TREE>(n, nodes, parens, marks, shadows, places, lead, rows);
    } else {
        contents_in::<{ index::NODES }>(n, nodes, parens, marks, shadows, places, lead, rows);
    }
}
