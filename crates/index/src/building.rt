// The index of a matrix of steps between groups: the walk of the tree that writes its parentheses, marks and shadows.
ghost use Rattle.std.specs.Prelude.{◌+◌, ◌-◌, ◌<◌, ◌≤◌, length};
ghost use Rattle.index.specs.Pairs.{joined};
ghost use Rattle.index.specs.Index.{Indexed};
ghost use Rattle.index.specs.Matrix.{pair_of, Buildable, Completed};
ghost use Rattle.index.specs.Steps.{Held, Joinable, Parented, Zero, Walkable, Walked};
ghost use Rattle.matrices.specs.Matrix.{IsMatrix};
ghost use Rattle.matrices.specs.Sizes.{ROWS};

use crate::{GroupId, TreeId};
use matrices::RowNumbers;

#[derive(Clone, Copy)]
pub struct Counts {
    pub nodes: usize,
    pub shadows: usize,
}

// Joins each group but 0 that is nobody's part to 0.
fn join(n: usize, edges: &mut [u64], held: &RowNumbers)
    requires { (n ≤ ROWS) × (0 < n) × (IsMatrix edges.old) × Held n edges.old held.now }
    ensures { Completed n edges.old edges.new }
{
    for p in 1..n {
        if held[p] == 0 {
            matrices::insert(edges, 0, p);
        }
    }
}

// The four parts, into parts that are zero, depth first. The shadow list has the number of each shadow's group yet, as the group's node
// may come later. Group 0 has place 0 already. It goes down and up the tree, so the loop is no range.
fn walk(
    n: usize,
    edges: &[u64],
    parent: &RowNumbers,
    parens: &mut [u8],
    marks: &mut [u8],
    shadows: &mut [u16],
    places: &mut [u16],
) -> Counts
    requires { Walkable n edges.now parent.now (length parens.old) (length marks.old) (length shadows.old) (length places.old) × Zero parens.old × Zero marks.old × Zero shadows.old × Zero places.old }
    ensures { Walked n (pair_of n edges.now) parens.new marks.new shadows.new places.new result.nodes result.shadows }
{
    parentheses::put(parens, 0);
    let mut c = GroupId(0);
    let mut from: usize = 1;
    let mut at: usize = 1;
    let mut k = TreeId(1);
    let mut m: usize = 0;
    loop {
        let p = matrices::next_bit(edges, c.0, from);
        if p < n {
            parentheses::put(parens, at);
            if usize::from(parent[p]) == c.0 {
                places[p] = k.0 as u16;
                at += 1;
                k = TreeId(k.0 + 1);
                c = GroupId(p);
                from = 1;
            } else {
                parentheses::put(marks, k.0);
                shadows[m] = p as u16;
                at += 2;
                k = TreeId(k.0 + 1);
                m += 1;
                from = p + 1;
            }
        } else {
            if c.0 == 0 {
                return Counts {
                    nodes: k.0,
                    shadows: m,
                };
            }
            at += 1;
            let done = c.0;
            from = done + 1;
            c = GroupId(usize::from(parent[done]));
        }
    }
}

// Puts the joins into row 0, and then finds the parents.
fn complete(n: usize, edges: &mut [u64]) -> RowNumbers
    requires { Joinable n edges.old }
    ensures { Completed n edges.old edges.new × Parented n (pair_of n edges.new) result }
{
    let mut held = [0u16; matrices::ROWS];
    crate::mark_held(n, edges, &mut held);
    join(n, edges, &held);
    crate::find_parents(n, edges)
}

// Writes the index of the n groups whose pairs are in `edges` into the four lent parts, and the joins into `edges`.
pub fn build(
    n: usize,
    edges: &mut [u64],
    parens: &mut [u8],
    marks: &mut [u8],
    shadows: &mut [u16],
    places: &mut [u16],
) -> Counts
    requires { Buildable n edges.old (length parens.old) (length marks.old) (length shadows.old) (length places.old) }
    ensures index { Indexed n (joined n (pair_of n edges.old)) parens.new marks.new shadows.new places.new result.nodes result.shadows }
    ensures joins { Completed n edges.old edges.new }
{
    let parent = complete(n, edges);
    parens.fill(0);
    marks.fill(0);
    shadows.fill(0);
    places.fill(0);
    let counts = walk(n, edges, &parent, parens, marks, shadows, places);
    let m = counts.shadows;
    crate::resolve(shadows, places, m);
    counts
}
