// The groups and the index of a run; its first two matrices, D and T, without an index, and whether it is contradictory.
ghost use Rattle.std.specs.Prelude.{◌≡◌, ◌/◌, length};
ghost use Rattle.rules.specs.Follows.{clash};
ghost use Rattle.records.specs.Facts.{facts};
ghost use Rattle.groups.specs.Index.{BookIndex};
ghost use Rattle.groups.specs.Grouped.{Grouped};
ghost use Rattle.closure.specs.Void.{void_of, Voids};
ghost use Rattle.closure.specs.Bounded.{Bounded};
ghost use Rattle.contradiction.specs.Roomy.{Roomy};
ghost use Rattle.closure.specs.Stepped.{Stepped};
ghost use Rattle.records.specs.PartIn.{part_in};
ghost use Rattle.contradiction.specs.Numbered.{Numbered};
ghost use Rattle.contradiction.specs.Opened.{Opened};
ghost use Rattle.records.specs.Sizes.{RECORD-BYTES};

use closure::LeaderSteps;
use matrices::{Matrix, RowNumbers};

// The groups of the run's pieces: the number of each piece's, its leader, and an order of the pieces. e is scratch.
pub fn grouped(
    run: &[u8],
    n: usize,
    e: &mut Matrix,
    number: &mut RowNumbers,
    lead: &mut RowNumbers,
    order: &mut RowNumbers,
) -> usize
    requires { Bounded n (facts run.now) }
    ensures { Grouped n (part_in (facts run.now)) number.new lead.new order.new result }
{
    closure::edges(run, n, e);
    groups::group(n, e, number, lead, order)
}

// The index of the run's PARTs in the lent parts: the tree of its groups, in which each piece has the place of its group. x is scratch.
pub fn index_of(
    run: &[u8],
    n: usize,
    count: usize,
    number: &RowNumbers,
    x: &mut Matrix,
    parens: &mut [u8],
    marks: &mut [u8],
    shadows: &mut [u16],
    places: &mut [u16],
) -> index::Counts
    requires { Bounded n (facts run.now) × Numbered n (facts run.now) number.now count × Roomy n (length run.now / RECORD-BYTES) (length parens.old) (length marks.old) (length shadows.old) (length places.old) }
    ensures { BookIndex n (part_in (facts run.now)) parens.new marks.new shadows.new places.new result.nodes result.shadows }
{
    let mut groups = [0u16; matrices::ROWS];
    closure::step_stored(run, number, n, x);
    let counts = index::build(count, x, parens, marks, shadows, &mut groups);
    index::place_members(n, number, &groups, places);
    counts
}

// The groups, the steps, D and T of the run, and whether it is contradictory. There is no index: D is made from the steps.
pub fn begin_alone(
    run: &[u8],
    n: usize,
    voids: &[u64],
    e: &mut Matrix,
    order: &mut RowNumbers,
    lead: &mut RowNumbers,
    d: &mut Matrix,
    t: &mut Matrix,
) -> bool
    requires { Bounded n (facts run.now) × Voids voids.now }
    ensures { Opened (void_of voids.now) n (facts run.now) d.new t.new result × Stepped n (facts run.now) e.new order.new lead.new }
{
    let mut number = [0u16; matrices::ROWS];
    grouped(run, n, e, &mut number, lead, order);
    closure::steps(run, lead, n, e);
    let steps = LeaderSteps { e, order, lead };
    closure::part_rows(n, steps, d);
    closure::meeting(run, n, voids, steps, t);
    verdicts::clashes(run, voids, d, t)
}

// Whether a run is contradictory. The matrices are scratch.
pub fn contradicts(
    run: &[u8],
    n: usize,
    voids: &[u64],
    e: &mut Matrix,
    d: &mut Matrix,
    t: &mut Matrix,
) -> bool
    requires { Bounded n (facts run.now) × Voids voids.now }
    ensures { result ≡ clash (void_of voids.now) n (facts run.now) }
{
    let mut order = [0u16; matrices::ROWS];
    let mut lead = [0u16; matrices::ROWS];
    begin_alone(run, n, voids, e, &mut order, &mut lead, d, t)
}
