// The closure of a run: the stored facts joined along containment, as bit matrices from which every claim is answered.
#![tactic(auto)]

ghost use Rattle.std.specs.Prelude.{true, List, ◌≤◌};
ghost use Rattle.rules.specs.Fact.{Fact};
ghost use Rattle.rules.specs.Follows.{storing};
ghost use Rattle.records.specs.Facts.{facts};
ghost use Rattle.closure.specs.Void.{void_of, Voids};
ghost use Rattle.closure.specs.Stored.{meet_bit};
ghost use Rattle.closure.specs.Closed.{Holds, part_bit, whole_bit, toward_bit, away_bit, out_bit};
ghost use Rattle.closure.specs.Bounded.{Bounded};
ghost use Rattle.matrices.specs.Flow.{Carried};
ghost use Rattle.closure.specs.LeaderSteps.{Ordered, SteppedBy};
ghost use Rattle.matrices.specs.Matrix.{IsMatrix};
ghost use Rattle.records.specs.Sizes.{PIECES};

pub use storing::{edges, step_stored, steps};

pub mod apart;
pub mod marking;
pub mod storing;

// The steps between leaders, an order of the pieces in which the part comes first of two leaders, and the leader of each piece.
#[derive(Clone, Copy)]
pub struct LeaderSteps<'a> {
    pub e: &'a [u64],
    pub order: &'a [u16],
    pub lead: &'a [u16],
}

// M: the stored MEETS, and each piece that is not marked with itself.
fn meets(run: &[u8], n: usize, voids: &[u64], m: &mut [u64])
    requires { Bounded n (facts run.now) × Voids voids.now × (IsMatrix m.old) }
    ensures { Holds n m.new (meet_bit (void_of voids.now) n (facts run.now)) }
{
    storing::store(run, n, records::MEETS, true, true, m);
    storing::diagonal_unmarked(n, voids, m);
}

// Each row below n becomes the union of the rows of its parts: followers' rows are joined at their leaders.
fn join_parts(n: usize, steps: LeaderSteps, m: &mut [u64])
    requires { (IsMatrix m.old) × (n ≤ PIECES) × Ordered n steps }
    ensures { (fs : List Fact) → Bounded n fs → SteppedBy n fs steps.entry → Carried (part_bit n fs) n m.old m.new }
{
    matrices::pool_rows(steps.lead, n, m);
    matrices::join_along(steps.e, steps.order, n, m);
    matrices::share_rows(steps.lead, n, m);
}

// Each row below n becomes the union of the rows of what it is part of. One function for both would take the join as a closure, and be longer.
fn join_wholes(n: usize, steps: LeaderSteps, m: &mut [u64])
    requires { (IsMatrix m.old) × (n ≤ PIECES) × Ordered n steps }
    ensures { (fs : List Fact) → Bounded n fs → SteppedBy n fs steps.entry → Carried (whole_bit n fs) n m.old m.new }
{
    matrices::pool_rows(steps.lead, n, m);
    matrices::join_against(steps.e, steps.order, n, m);
    matrices::share_rows(steps.lead, n, m);
}

// D: the parts of each piece below n, from the steps alone.
pub fn part_rows(n: usize, steps: LeaderSteps, d: &mut [u64])
    requires { (IsMatrix d.old) × (n ≤ PIECES) × Ordered n steps }
    ensures { (fs : List Fact) → Bounded n fs → SteppedBy n fs steps.entry → Holds n d.new (part_bit n fs) }
{
    matrices::clear_rows(d, n);
    storing::diagonal(n, d);
    join_parts(n, steps, d);
}

// T = D·M.
pub fn meeting(run: &[u8], n: usize, voids: &[u64], steps: LeaderSteps, t: &mut [u64])
    requires { Bounded n (facts run.now) × Voids voids.now × SteppedBy n (facts run.now) steps × (IsMatrix t.old) }
    ensures { Holds n t.new (toward_bit (void_of voids.now) n (facts run.now)) }
{
    meets(run, n, voids, t);
    join_parts(n, steps, t);
}

// P = U·A.
fn parting(run: &[u8], n: usize, steps: LeaderSteps, p: &mut [u64])
    requires { Bounded n (facts run.now) × SteppedBy n (facts run.now) steps × (IsMatrix p.old) }
    ensures { Holds n p.new (away_bit n (facts run.now)) }
{
    storing::store(run, n, records::APART, true, true, p);
    join_wholes(n, steps, p);
}

// Q = D·N ∪ T·P, as D·(N ∪ M·P): M has few bits. m is scratch.
fn outing(
    run: &[u8],
    n: usize,
    voids: &[u64],
    steps: LeaderSteps,
    p: &[u64],
    m: &mut [u64],
    q: &mut [u64],
)
    requires { Bounded n (facts run.now) × Voids voids.now × SteppedBy n (facts run.now) steps × Holds n p.now (away_bit n (facts run.now)) × (IsMatrix m.old) × (IsMatrix q.old) }
    ensures { Holds n q.new (out_bit (void_of voids.now) n (facts run.now)) }
{
    meets(run, n, voids, m);
    storing::store(run, n, records::NOTPART, true, false, q);
    matrices::product(q, m, p, n);
    join_parts(n, steps, q);
}

// U, P and Q.
pub fn complete(
    run: &[u8],
    n: usize,
    voids: &[u64],
    steps: LeaderSteps,
    u: &mut [u64],
    p: &mut [u64],
    q: &mut [u64],
)
    requires { Bounded n (facts run.now) × Voids voids.now × SteppedBy n (facts run.now) steps × (IsMatrix u.old) × (IsMatrix p.old) × (IsMatrix q.old) }
    ensures { Holds n u.new (whole_bit n (facts run.now)) × Holds n p.new (away_bit n (facts run.now)) × Holds n q.new (out_bit (void_of voids.now) n (facts run.now)) }
{
    parting(run, n, steps, p);
    outing(run, n, voids, steps, p, u, q);
    matrices::clear_rows(u, n);
    storing::diagonal(n, u);
    join_wholes(n, steps, u);
}
