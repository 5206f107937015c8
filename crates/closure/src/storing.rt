// The stored facts, the steps of containment and the marks as bit matrices, and what the matrices of the closure are.
ghost use Rattle.std.specs.Prelude.{◌≡◌, Bool, true, not, ◌&&◌, ◌||◌, ℕ, ◌<◌, ◌≤◌, eqb, ltb, length, get_or};
ghost use Rattle.rules.specs.Follows.{storing};
ghost use Rattle.records.specs.Facts.{facts};
ghost use Rattle.closure.specs.Void.{void_of};
ghost use Rattle.closure.specs.Stored.{stored_bit, edge_bit, stepping, step_bit};
ghost use Rattle.closure.specs.Closed.{Grown, Holds};
ghost use Rattle.closure.specs.Bounded.{Bounded};
ghost use Rattle.closure.specs.Tells.{Tells};
ghost use Rattle.matrices.specs.Led.{Led};
ghost use Rattle.matrices.specs.Matrix.{IsMatrix};
ghost use Rattle.matrices.specs.Sizes.{ROW-WORDS};
ghost use Rattle.records.specs.Sizes.{NOTPART, PART, PIECES};

use records::Record;

// Sets bit i of row r, if so told.
pub fn insert_where(on: bool, m: &mut [u64], r: usize, i: usize)
    requires { (IsMatrix m.old) × (r < PIECES) × (i < PIECES) }
    ensures { Grown m.old m.new (λ x y. on && (eqb r x && eqb i y)) }
{
    if on {
        matrices::insert(m, r, i);
    }
}

// Sets the bits of one record of that kind.
fn store_record(m: &mut [u64], r: Record, kind: u8, straight: bool, swapped: bool)
    requires { (IsMatrix m.old) × (r.kind ≡ kind → (r.a < PIECES) × (r.b < PIECES)) }
    ensures { Grown m.old m.new (λ x y. eqb r.kind kind && ((straight && (eqb r.a x && eqb r.b y)) || (swapped && (eqb r.a y && eqb r.b x)))) }
{
    if r.kind == kind {
        insert_where(straight, m, r.a, r.b);
        insert_where(swapped, m, r.b, r.a);
    }
}

// The stored facts of one kind as a matrix: bit b of row a where `straight`, bit a of row b where `swapped`.
pub fn store(run: &[u8], n: usize, kind: u8, straight: bool, swapped: bool, m: &mut [u64])
    requires { (IsMatrix m.old) × (PART ≤ kind) × (kind ≤ NOTPART) × Bounded n (facts run.now) }
    ensures { Holds n m.new (stored_bit (facts run.now) kind straight swapped) }
{
    matrices::clear_rows(m, n);
    for i in 0..run.len() / records::RECORD_BYTES {
        store_record(m, records::record_at(run, i), kind, straight, swapped);
    }
}

// Sets those of the first n bits of the diagonal at which `on` is true.
fn diagonal_where<F: Fn(usize) -> bool>(n: usize, m: &mut [u64], on: F)
    requires { (IsMatrix m.old) × (n ≤ PIECES) × ((i : ℕ) → i < n → F.pre on i) }
    ensures { (test : ℕ → Bool) → Tells n (F.post on) test → Grown m.old m.new (λ x y. eqb x y && (ltb x n && test x)) }
{
    for i in 0..n {
        insert_where(on(i), m, i, i);
    }
}

// Sets the first n bits of the diagonal.
pub fn diagonal(n: usize, m: &mut [u64])
    requires { (IsMatrix m.old) × (n ≤ PIECES) }
    ensures { Grown m.old m.new (λ x y. eqb x y && ltb x n) }
{
    diagonal_where(n, m, |_| true);
}

// The same, but for the pieces that are marked.
pub fn diagonal_unmarked(n: usize, voids: &[u64], m: &mut [u64])
    requires { (length voids.now ≡ ROW-WORDS) × (IsMatrix m.old) × (n ≤ PIECES) }
    ensures { Grown m.old m.new (λ x y. eqb x y && (ltb x n && not (void_of voids.now x))) }
{
    diagonal_where(n, m, |i| !matrices::has(voids, i));
}

// Each piece but 0 at which `on` is true as a part of piece 0.
fn crown_where<F: Fn(usize) -> bool>(n: usize, e: &mut [u64], on: F)
    requires { (IsMatrix e.old) × (n ≤ PIECES) × (0 < n) × ((p : ℕ) → p < n → F.pre on p) }
    ensures { (test : ℕ → Bool) → Tells n (F.post on) test → Grown e.old e.new (λ x y. eqb x 0 && (ltb 0 y && (ltb y n && test y))) }
{
    for p in 1..n {
        insert_where(on(p), e, 0, p);
    }
}

// Every piece but 0 as a part of piece 0.
fn crown(n: usize, e: &mut [u64])
    requires { (IsMatrix e.old) × (n ≤ PIECES) × (0 < n) }
    ensures { Grown e.old e.new (λ x y. eqb x 0 && (ltb 0 y && ltb y n)) }
{
    crown_where(n, e, |_| true);
}

// The steps of containment.
pub fn edges(run: &[u8], n: usize, e: &mut [u64])
    requires { Bounded n (facts run.now) × (IsMatrix e.old) }
    ensures { Holds n e.new (edge_bit n (facts run.now)) }
{
    store(run, n, records::PART, false, true, e);
    crown(n, e);
}

// Sets the step that a record makes between the leaders of its pieces, where they differ.
fn step_record(r: Record, lead: &[u16], e: &mut [u64])
    requires { (IsMatrix e.old) × (r.kind ≡ PART → (r.a < length lead.now) × (r.b < length lead.now) × (get_or lead.now r.a 0 < PIECES) × (get_or lead.now r.b 0 < PIECES)) }
    ensures { Grown e.old e.new (λ x y. eqb r.kind PART && stepping lead.now x y r.a r.b) }
{
    if r.kind == records::PART {
        let p = usize::from(lead[r.a]);
        let c = usize::from(lead[r.b]);
        insert_where(p != c, e, c, p);
    }
}

// The stored PARTs, container to part, between pieces that go by different names: their leaders, or the numbers of their groups. The loop is that of
// `store`: to pass what a record sets as a closure is longer than the loop.
pub fn step_stored(run: &[u8], lead: &[u16], n: usize, e: &mut [u64])
    requires { Bounded n (facts run.now) × (n ≤ length lead.now) × ((g : ℕ) → g < n → get_or lead.now g 0 < n) × (IsMatrix e.old) }
    ensures { Holds n e.new (λ x y. storing (facts run.now) PART (stepping lead.now x y)) }
{
    matrices::clear_rows(e, n);
    for i in 0..run.len() / records::RECORD_BYTES {
        step_record(records::record_at(run, i), lead, e);
    }
}

// Every leader but 0 as a part of piece 0.
fn crown_leaders(lead: &[u16], n: usize, e: &mut [u64])
    requires { (IsMatrix e.old) × (n ≤ PIECES) × (0 < n) × (n ≤ length lead.now) }
    ensures { Grown e.old e.new (λ x y. eqb x 0 && (ltb 0 y && (ltb y n && eqb (get_or lead.now y 0) y))) }
{
    crown_where(n, e, |p| usize::from(lead[p]) == p);
}

// The steps between leaders, along which rows are joined: the same as a product with D or U, at the cost of a row for each step.
pub fn steps(run: &[u8], lead: &[u16], n: usize, e: &mut [u64])
    requires { Bounded n (facts run.now) × Led n lead.now × (IsMatrix e.old) }
    ensures { Holds n e.new (step_bit n (facts run.now) lead.now) }
{
    step_stored(run, lead, n, e);
    crown_leaders(lead, n, e);
}
