// Products of bit matrices, and rows joined along and against edges in the order of a list.
ghost use Rattle.std.specs.Prelude.{◌≡◌, ℕ, ◌+◌, ◌-◌, ◌<◌, ◌≤◌, Bool, false};
ghost use Rattle.matrices.specs.Flow.{Sorted, Pushed, Reached, Carried, along, against};
ghost use Rattle.matrices.specs.Led.{Led, Pooled, Shared};
ghost use Rattle.matrices.specs.Matrix.{bit_of, Gathered, Multiplied, IsMatrix};
ghost use Rattle.matrices.specs.Sizes.{ROWS};

use crate::{ROWS, relation};

// Row r of the product of a and b is put into row r of dst.
pub fn gather(dst: &mut [u64], a: &[u64], r: usize, b: &[u64])
    requires { (IsMatrix dst.old) × (IsMatrix a.now) × (IsMatrix b.now) × (r < ROWS) }
    ensures { Gathered dst.old dst.new a.now r b.now }
{
    let mut x = relation::next_bit(a, r, 0);
    while x < ROWS {
        relation::union_row(dst, r, b, x);
        x = relation::next_bit(a, r, x + 1);
    }
}

// The rows below n of the product of a and b are put into dst.
pub fn product(dst: &mut [u64], a: &[u64], b: &[u64], n: usize)
    requires { (IsMatrix dst.old) × (IsMatrix a.now) × (IsMatrix b.now) × (n ≤ ROWS) }
    ensures { Multiplied dst.old dst.new a.now b.now n }
{
    for r in 0..n {
        gather(dst, a, r, b);
    }
}

// Puts into row h of m the rows to which edges lead from h. As `gather`, but within one matrix, which cannot be lent twice.
fn pull(e: &[u64], h: usize, m: &mut [u64])
    requires { (IsMatrix e.now) × (IsMatrix m.old) × (h < ROWS) × (bit_of e.now h h ≡ false) }
    ensures { Gathered m.old m.new e.now h m.old }
{
    let mut p = relation::next_bit(e, h, 0);
    while p < ROWS {
        relation::union_within(m, h, p);
        p = relation::next_bit(e, h, p + 1);
    }
}

// Puts row h of m into the rows to which edges lead from h. As `pull` with the rows exchanged: one function for both would be no plainer.
fn push(e: &[u64], h: usize, m: &mut [u64])
    requires { (IsMatrix e.now) × (IsMatrix m.old) × (h < ROWS) × (bit_of e.now h h ≡ false) }
    ensures { Pushed e.now m.old m.new h }
{
    let mut p = relation::next_bit(e, h, 0);
    while p < ROWS {
        relation::union_within(m, p, h);
        p = relation::next_bit(e, h, p + 1);
    }
}

// Each row below n becomes the union of the rows that it reaches along the edges. Edges lead to rows that come before in `order`, so
// each is whole when it is used.
pub fn join_along(e: &[u64], order: &[u16], n: usize, m: &mut [u64])
    requires { (IsMatrix e.now) × (IsMatrix m.old) × (n ≤ ROWS) × Sorted e.now n order.now }
    ensures { (r : ℕ → ℕ → Bool) → Reached (along e.now) n r → Carried r n m.old m.new }
{
    for i in 0..n {
        let h = usize::from(order[i]);
        pull(e, h, m);
    }
}

// Each row below n becomes the union of the rows that it reaches against the edges.
pub fn join_against(e: &[u64], order: &[u16], n: usize, m: &mut [u64])
    requires { (IsMatrix e.now) × (IsMatrix m.old) × (n ≤ ROWS) × Sorted e.now n order.now }
    ensures { (r : ℕ → ℕ → Bool) → Reached (against e.now) n r → Carried r n m.old m.new }
{
    for i in (0..n).rev() {
        let h = usize::from(order[i]);
        push(e, h, m);
    }
}

// Puts each row below n that follows another into its leader's.
pub fn pool_rows(lead: &[u16], n: usize, m: &mut [u64])
    requires { (IsMatrix m.old) × (n ≤ ROWS) × Led n lead.now }
    ensures { Pooled n lead.now m.old m.new }
{
    for g in 0..n {
        let h = usize::from(lead[g]);
        if h != g {
            relation::union_within(m, h, g);
        }
    }
}

// Puts the leader's row into each row below n that follows it. As `pool_rows` with the rows exchanged: one function for both would be no
// plainer.
pub fn share_rows(lead: &[u16], n: usize, m: &mut [u64])
    requires { (IsMatrix m.old) × (n ≤ ROWS) × Led n lead.now }
    ensures { Shared n lead.now m.old m.new }
{
    for g in 0..n {
        let h = usize::from(lead[g]);
        if h != g {
            relation::union_within(m, g, h);
        }
    }
}
