// Which two pieces are certainly APART, one bit for each pair.
ghost use Rattle.std.specs.Prelude.{◌≡◌, false, ◌≤◌, length};
ghost use Rattle.rules.specs.Follows.{clash};
ghost use Rattle.records.specs.Facts.{facts};
ghost use Rattle.closure.specs.Void.{void_of, Voids};
ghost use Rattle.closure.specs.Bounded.{Bounded};
ghost use Rattle.closure.specs.LeaderSteps.{SteppedBy};
ghost use Rattle.closure.specs.Closed.{Grown, Holds, part_bit};
ghost use Rattle.closure.specs.Apart.{marked_apart, apart_bit, Aparts};
ghost use Rattle.matrices.specs.Matrix.{IsMatrix};
ghost use Rattle.matrices.specs.Sizes.{ROW-WORDS};
ghost use Rattle.records.specs.Sizes.{PIECES};

use crate::{LeaderSteps, storing};

// Each marked piece as apart from piece 0, in both orders.
fn part_marked(n: usize, voids: &[u64], m: &mut [u64])
    requires { (length voids.now ≡ ROW-WORDS) × (IsMatrix m.old) × (n ≤ PIECES) }
    ensures { Grown m.old m.new (marked_apart (void_of voids.now) n) }
{
    for i in 0..n {
        let on = matrices::has(voids, i);
        storing::insert_where(on, m, 0, i);
        storing::insert_where(on, m, i, 0);
    }
}

// A: the stored APARTs, and the marks as such.
fn apart_told(run: &[u8], n: usize, voids: &[u64], m: &mut [u64])
    requires { Bounded n (facts run.now) × Voids voids.now × (IsMatrix m.old) }
    ensures { Holds n m.new (apart_bit (void_of voids.now) n (facts run.now)) }
{
    storing::store(run, n, records::APART, true, true, m);
    part_marked(n, voids, m);
}

// U·A·D in a, of a run that is not contradictory: every APART that follows. A has few bits, so A·D is a row for each of them. m is scratch.
pub fn apart_rows(
    run: &[u8],
    n: usize,
    voids: &[u64],
    steps: LeaderSteps,
    d: &[u64],
    m: &mut [u64],
    a: &mut [u64],
)
    requires { Bounded n (facts run.now) × Voids voids.now × SteppedBy n (facts run.now) steps × Holds n d.now (part_bit n (facts run.now)) × (IsMatrix m.old) × (IsMatrix a.old) × (clash (void_of voids.now) n (facts run.now) ≡ false) }
    ensures { Aparts (void_of voids.now) n (facts run.now) a.new }
{
    apart_told(run, n, voids, m);
    matrices::clear_rows(a, n);
    matrices::product(a, m, d, n);
    crate::join_wholes(n, steps, a);
}
