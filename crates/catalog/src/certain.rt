// The list of a catalog: the pieces that certainly are PART of a piece, or MEET it, or are APART from it.
ghost use Rattle.std.specs.Prelude.{◌≡◌, false, ◌&&◌, ◌/◌, ◌<◌, ◌≤◌, length};
ghost use Rattle.lists.specs.Front.{front};
ghost use Rattle.matrices.specs.Matrix.{bit_of, IsMatrix};
ghost use Rattle.rules.specs.Fact.{AllWithin, fact_of};
ghost use Rattle.rules.specs.Follows.{follows, clash};
ghost use Rattle.records.specs.Facts.{facts};
ghost use Rattle.closure.specs.Void.{void_of, Voids};
ghost use Rattle.closure.specs.Bounded.{Bounded};
ghost use Rattle.closure.specs.Closed.{Holds, part_bit, toward_bit};
ghost use Rattle.lists.specs.Passing.{passing};
ghost use Rattle.catalog.specs.Tells.{parting, Parted, Widened, told};
ghost use Rattle.matrices.specs.Sizes.{ROW-WORDS};
ghost use Rattle.records.specs.Sizes.{APART, MEETS, PART, PIECES, RECORD-BYTES};

use records::Record;

// Kinds that a list is asked for: the numbers that a caller from C gives.
const PART: usize = 1;

const APART: usize = 2;

pub const MEETS: usize = 3;

// Adds what is in a to row 0, if so told.
fn join_where(on: bool, m: &mut [u64], d: &[u64], a: usize)
    requires { (IsMatrix m.old) × (IsMatrix d.now) × (a < PIECES) }
    ensures { Widened m.old m.new (λ x. on && bit_of d.now a x) }
{
    if on {
        matrices::union_row(m, 0, d, a);
    }
}

// Adds to row 0 what a record makes APART from g: where g is in the one piece of an APART, all that is in the other.
fn part_record(r: Record, g: usize, d: &[u64], m: &mut [u64])
    requires { (IsMatrix m.old) × (IsMatrix d.now) × (g < PIECES) × (r.kind ≡ APART → (r.a < PIECES) × (r.b < PIECES)) }
    ensures { Widened m.old m.new (parting d.now g r) }
{
    if r.kind != records::APART {
        return;
    }
    join_where(matrices::test(d, r.b, g), m, d, r.a);
    join_where(matrices::test(d, r.a, g), m, d, r.b);
}

// Row 0: what the records of a run make APART from g. D is enough for it, one row for each APART that g is in.
fn part_from(run: &[u8], g: usize, d: &[u64], m: &mut [u64])
    requires { (IsMatrix m.old) × (IsMatrix d.now) × (g < PIECES) × AllWithin PIECES (facts run.now) }
    ensures { Parted d.now run.now g (length run.now / RECORD-BYTES) m.new }
{
    matrices::clear_rows(m, 1);
    for i in 0..run.len() / records::RECORD_BYTES {
        let r = records::record_at(run, i);
        part_record(r, g, d, m);
    }
}

// Whether the claim of a kind 1 to 3 about x and g follows: by the marks, or else by the stored facts.
fn is_certain(
    kind: usize,
    x: usize,
    g: usize,
    voids: &[u64],
    d: &[u64],
    t: &[u64],
    m: &[u64],
) -> bool
    requires { (kind ≤ MEETS) × (x < PIECES) × (g < PIECES) × (length voids.now ≡ ROW-WORDS) × (IsMatrix d.now) × (IsMatrix t.now) × (IsMatrix m.now) }
    ensures { result ≡ told (void_of voids.now) d.now t.now m.now kind g x }
{
    if verdicts::marks_tell(kind as u8, x, g, voids) {
        return true;
    }
    match kind {
        PART => matrices::test(d, g, x),
        APART => matrices::test(m, 0, x),
        _ => matrices::meet(t, x, d, g),
    }
}

// Lists the pieces below n of which the claim follows, and says how many.
fn list_certain(
    kind: usize,
    g: usize,
    n: usize,
    voids: &[u64],
    d: &[u64],
    t: &[u64],
    m: &[u64],
    list: &mut [u16],
) -> usize
    requires { (kind ≤ MEETS) × (g < PIECES) × (n ≤ PIECES) × (n ≤ length list.old) × (length voids.now ≡ ROW-WORDS) × (IsMatrix d.now) × (IsMatrix t.now) × (IsMatrix m.now) }
    ensures { (list.new ≡ front (passing (told (void_of voids.now) d.now t.now m.now kind g) n) list.old) × (result ≡ length (passing (told (void_of voids.now) d.now t.now m.now kind g) n)) }
{
    let mut count: usize = 0;
    for x in 0..n {
        if is_certain(kind, x, g, voids, d, t, m) {
            list[count] = x as u16;
            count += 1;
        }
    }
    count
}

// The same, from D and T of the facts of a run that the marks do not contradict. m is scratch, and only APART needs it.
pub fn list_pieces(
    run: &[u8],
    n: usize,
    kind: usize,
    g: usize,
    voids: &[u64],
    d: &[u64],
    t: &[u64],
    m: &mut [u64],
    list: &mut [u16],
) -> usize
    requires { Bounded n (facts run.now) × (PART ≤ kind) × (kind ≤ MEETS) × (g < n) × (n ≤ length list.old) × Holds n d.now (part_bit n (facts run.now)) × Holds n t.now (toward_bit (void_of voids.now) n (facts run.now)) × (IsMatrix m.old) × Voids voids.now × (false ≡ clash (void_of voids.now) n (facts run.now)) }
    ensures { (list.new ≡ front (passing (λ x. follows (void_of voids.now) n (facts run.now) (fact_of kind x g)) n) list.old) × (result ≡ length (passing (λ x. follows (void_of voids.now) n (facts run.now) (fact_of kind x g)) n)) }
{
    if kind == APART {
        part_from(run, g, d, m);
    }
    list_certain(kind, g, n, voids, d, t, m, list)
}
