// An index read back: the piece at each place, the first place past its subtree, and D, the row of each piece from the rows of its parts.
#![tactic(auto)]

ghost use Rattle.std.specs.Prelude.{◌≡◌, true, false, not, ℕ, ◌+◌, ◌*◌, ◌<◌, ◌≤◌, length, get_or};
ghost use Rattle.containment.specs.Contents.{leads, Turnable, StandsFor};
ghost use Rattle.parentheses.specs.Rank.{rank};
ghost use Rattle.parentheses.specs.Ranked.{Ranked};
ghost use Rattle.parentheses.specs.Subtree.{after};
ghost use Rattle.parentheses.specs.Bits.{bits, bit_count};
ghost use Rattle.index.specs.Sizes.{PARENTHESES-BYTES};
ghost use Rattle.matrices.specs.Sizes.{ROWS};
ghost use Rattle.numbers.specs.Sizes.{SHORT-VALUES};

use index::{DatasetId, TreeId};
pub use within::contents;

pub mod within;

// How many ranks the bytes of any tree's parentheses have: one before each byte and one past the last.
const RANKS: usize = index::PARENTHESES_BYTES + 1;

// How many those of a tree have that is cheaper with a short list: of 128 bytes.
const SMALL_RANKS: usize = 129;

// The piece that stands for all pieces at the place of g.
pub fn leader_of(lead: &[u16], g: DatasetId) -> DatasetId
    requires { g.0 < length lead.now }
    ensures { result.0 ≡ get_or lead.now g.0 0 }
{
    DatasetId(usize::from(lead[g.0]))
}

// Of the place of each piece below n, the leader there: the place list turned round.
pub fn number_nodes(n: usize, places: &[u16], lead: &[u16], turned: &mut [u16])
    requires { (n ≤ ROWS) × Turnable n places.now lead.now (length turned.old) }
    ensures { (g : ℕ) → g < n → get_or turned.new (get_or places.now g 0) 0 ≡ get_or lead.now g 0 }
{
    for g in 0..n {
        let place = index::place_of(places, DatasetId(g));
        let leader = leader_of(lead, DatasetId(g));
        turned[place.0] = leader.0 as u16;
    }
}

// Of the place of each shadow, the leader at the place for which it stands.
pub fn number_shadows(nodes: usize, marks: &[u8], shadows: &[u16], turned: &mut [u16])
    requires { (nodes ≤ length turned.old) × (nodes ≤ bit_count marks.now) × StandsFor nodes (bits marks.now) shadows.now }
    ensures { (s : ℕ) → s < nodes → get_or turned.new s 0 ≡ get_or turned.old (leads (bits marks.now) shadows.now s) 0 }
{
    let mut j: usize = 0;
    for q in 0..nodes {
        if parentheses::get(marks, q) {
            let t = usize::from(shadows[j]);
            turned[q] = turned[t];
            j += 1;
        }
    }
}

// Whether the node that opens at p is a leaf, as every shadow is: no node opens next.
fn is_leaf(parens: &[u8], p: usize) -> bool
    requires { (p < bit_count parens.now) × (bit_count parens.now < SHORT-VALUES) }
    ensures { result ≡ not (get_or (bits parens.now) (p + 1) false) }
{
    let next = p + 1;
    next == parens.len() * parentheses::BYTE_BITS || !parentheses::get(parens, next)
}

// The first place past the subtree of the node at place q, which opens at p. From there to where it closes, every second bit opens.
fn end_of(parens: &[u8], ranks: &[u16], q: TreeId, p: usize) -> TreeId
    requires { (p < bit_count parens.now) × (bit_count parens.now < SHORT-VALUES) × (get_or (bits parens.now) p false ≡ true) × (rank (bits parens.now) p ≡ q.0) × Ranked parens.now ranks.now }
    ensures { result.0 ≡ after (bits parens.now) q.0 }
{
    let place = q.0;
    if is_leaf(parens, p) {
        return TreeId(place + 1);
    }
    let Some(close) = parentheses::find_close_by(parens, ranks, p) else {
        return TreeId(parentheses::ones_before(parens, parens.len() * parentheses::BYTE_BITS));
    };
    TreeId(place + (close - p + 1) / 2)
}

// Of each place, the first one past its subtree, by the ranks of the bytes.
fn ends_by(nodes: usize, parens: &[u8], ranks: &[u16], ends: &mut [u16])
    requires { (nodes ≤ length ends.old) × (bit_count parens.now < SHORT-VALUES) × (nodes ≤ rank (bits parens.now) (bit_count parens.now)) × Ranked parens.now ranks.now }
    ensures { (q : ℕ) → q < nodes → get_or ends.new q 0 ≡ after (bits parens.now) q }
{
    let mut q: usize = 0;
    let mut p: usize = 0;
    while q < nodes {
        if parentheses::get(parens, p) {
            ends[q] = end_of(parens, ranks, TreeId(q), p).0 as u16;
            q += 1;
        }
        p += 1;
    }
}

// The same with a list of N ranks, which are counted once for the searches of all nodes.
fn ends_in<const N: usize>(nodes: usize, parens: &[u8], ends: &mut [u16])
    requires { (nodes ≤ length ends.old) × (length parens.now < N) × (N ≤ RANKS) × (nodes ≤ rank (bits parens.now) (bit_count parens.now)) }
    ensures { (q : ℕ) → q < nodes → get_or ends.new q 0 ≡ after (bits parens.now) q }
{
    let mut ranks = [0u16; N];
    parentheses::rank_bytes(parens, &mut ranks);
    ends_by(nodes, parens, &ranks, ends);
}

// The same with a short list of ranks for few nodes.
pub fn subtree_ends(nodes: usize, parens: &[u8], ends: &mut [u16])
    requires { (nodes ≤ length ends.old) × (length parens.now ≤ PARENTHESES-BYTES) × (nodes ≤ rank (bits parens.now) (bit_count parens.now)) }
    ensures { (q : ℕ) → q < nodes → get_or ends.new q 0 ≡ after (bits parens.now) q }
{
    if parens.len() < SMALL_RANKS {
        ends_in::<SMALL_RANKS>(nodes, parens, ends);
    } else {
        ends_in::<RANKS>(nodes, parens, ends);
    }
}
