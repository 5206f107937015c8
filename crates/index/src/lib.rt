// The index of a book: pieces and places, the breadth-first search, the parent of each piece, and the places of pieces from those of their groups.
#![tactic(auto)]

ghost use Rattle.std.specs.Prelude.{◌≡◌, true, ℕ, ◌+◌, ◌-◌, ◌<◌, ◌≤◌, length, get_or};
ghost use Rattle.lists.specs.Tab.{tab};
ghost use Rattle.parentheses.specs.Padded.{padded};
ghost use Rattle.index.specs.Matrix.{pair_of};
ghost use Rattle.index.specs.Steps.{Marked, Held, Sized, fresh, unmet, Spread, Searched, Parented, Zero, Resolvable, Resolved};
ghost use Rattle.matrices.specs.Matrix.{IsMatrix};
ghost use Rattle.matrices.specs.Sizes.{ROWS};
ghost use Rattle.numbers.specs.Sizes.{SHORT-VALUES};

pub use building::{Counts, build};
use matrices::RowNumbers;

pub mod building;

// The lengths of the four parts of an index: bytes of parentheses and of marks, numbers of the shadow list and of the place list.
pub const PARENTHESES_BYTES: usize = 2560;

pub const MARKS_BYTES: usize = 1280;

pub const SHADOWS: usize = 8192;

pub const PLACES: usize = 2048;

// How many nodes and shadows an index has at most.
pub const NODES: usize = 10240;

// What stands for no piece in a list of pieces: an `Option<u16>` takes twice the memory.
pub const NONE: u16 = 2048;

// A piece's number.
#[derive(Clone, Copy)]
pub struct DatasetId(pub usize);

// The number of a group of pieces that are one, in the order of the groups' lowest members.
#[derive(Clone, Copy)]
pub struct GroupId(pub usize);

// A node's place in the tree, counted depth first.
#[derive(Clone, Copy)]
pub struct TreeId(pub usize);

// The place list converts a piece's number to its place, and nothing else does. Each kind of list has its own look-up: a common one would let any
// list convert any number.
pub fn place_of(places: &[u16], g: DatasetId) -> TreeId
    requires { g.0 < length places.now }
    ensures { result.0 ≡ get_or places.now g.0 0 }
{
    TreeId(usize::from(places[g.0]))
}

// The numbering of groups converts a piece's number to that of its group, and nothing else does.
fn group_of(number: &[u16], g: DatasetId) -> GroupId
    requires { g.0 < length number.now }
    ensures { result.0 ≡ get_or number.now g.0 0 }
{
    GroupId(usize::from(number[g.0]))
}

// The place of a group, by the list that the walk writes.
fn place_of_group(groups: &[u16], k: GroupId) -> TreeId
    requires { k.0 < length groups.now }
    ensures { (result.0 ≡ get_or groups.now k.0 0) × (result.0 < SHORT-VALUES) }
{
    TreeId(usize::from(groups[k.0]))
}

// Marks the parts of c.
fn mark_parts(edges: &[u64], c: usize, held: &mut RowNumbers)
    requires { (IsMatrix edges.now) × (c < ROWS) × (length held.old ≡ ROWS) }
    ensures { Marked edges.now c held.old held.new }
{
    let mut p = matrices::next_bit(edges, c, 0);
    while p < matrices::ROWS {
        held[p] = 1;
        p = matrices::next_bit(edges, c, p + 1);
    }
}

// Marks the pieces that are somebody's part.
pub fn mark_held(n: usize, edges: &[u64], held: &mut RowNumbers)
    requires { (n ≤ ROWS) × (IsMatrix edges.now) × (length held.old ≡ ROWS) × Zero held.old }
    ensures { Held n edges.now held.new }
{
    for c in 0..n {
        mark_parts(edges, c, held);
    }
}

// One round: the parts of c that are not met yet get c as their parent and go to the end of the queue, whose new end is returned.
fn spread(
    n: usize,
    c: usize,
    edges: &[u64],
    parent: &mut [u16],
    order: &mut [u16],
    tail: usize,
) -> usize
    requires { (IsMatrix edges.now) × (n ≤ ROWS) × (c < n) × (length parent.old ≡ ROWS) × (length order.old ≡ ROWS) × (tail + length (unmet n parent.old) ≤ ROWS) }
    ensures { Spread n (pair_of n edges.now) c parent.old order.old tail parent.new order.new result }
{
    let mut end = tail;
    let mut p = matrices::next_bit(edges, c, 0);
    while p < n {
        if parent[p] == NONE {
            parent[p] = c as u16;
            order[end] = p as u16;
            end += 1;
        }
        p = matrices::next_bit(edges, c, p + 1);
    }
    end
}

// Breadth first from k: each piece met gets as its parent the piece from which it is met. `NONE` stands at first everywhere. The queue grows while it
// is read, so the loop is no range.
pub fn search_from(k: usize, n: usize, edges: &[u64], parent: &mut [u16], order: &mut [u16])
    requires { (IsMatrix edges.now) × (n ≤ ROWS) × (k < n) × (length parent.old ≡ ROWS) × (length order.old ≡ ROWS) × ((q : ℕ) → q < n → fresh parent.old q ≡ true) }
    ensures { Searched n (pair_of n edges.now) k parent.new }
{
    parent[k] = k as u16;
    order[0] = k as u16;
    let mut head: usize = 0;
    let mut tail: usize = 1;
    while head < tail {
        let c = usize::from(order[head]);
        tail = spread(n, c, edges, parent, order, tail);
        head += 1;
    }
}

// The parent of each piece but 0, breadth first from 0.
pub fn find_parents(n: usize, edges: &[u64]) -> RowNumbers
    requires { Sized n edges.now ROWS ROWS }
    ensures { Parented n (pair_of n edges.now) result }
{
    let mut parent = [NONE; matrices::ROWS];
    let mut order = [0u16; matrices::ROWS];
    search_from(0, n, edges, &mut parent, &mut order);
    parent
}

// Each shadow's group gives way to its place.
pub fn resolve(shadows: &mut [u16], groups: &[u16], m: usize)
    requires { Resolvable shadows.old groups.now m }
    ensures { Resolved shadows.old groups.now m shadows.new }
{
    for j in 0..m {
        let k = GroupId(usize::from(shadows[j]));
        let t = place_of_group(groups, k);
        shadows[j] = t.0 as u16;
    }
}

// Gives each piece below n the place of its group.
pub fn place_members(n: usize, number: &[u16], groups: &[u16], places: &mut [u16])
    requires { (n ≤ length number.now) × (n ≤ length places.old) × ((g : ℕ) → g < n → get_or number.now g 0 < length groups.now) }
    ensures { places.new ≡ padded 0 (length places.old) (tab (λ g. get_or groups.now (get_or number.now g 0) 0) 0 n) }
{
    places.fill(0);
    for g in 0..n {
        let k = group_of(number, DatasetId(g));
        let t = place_of_group(groups, k);
        places[g] = t.0 as u16;
    }
}
