// Four grids of bits, and the rounds that close them under the rules.
ghost use Rattle.std.specs.Prelude.{◌≡◌, true, false, ◌&&◌, ℕ, ◌<◌};
ghost use Rattle.matrices.specs.Matrix.{bit};
ghost use Rattle.grids.specs.Grid.{bit_at, Gathered, Multiplied, Swept, TurnedOnto, Turned, Mirrored};
ghost use Rattle.grids.specs.Closed.{holds, Closed, Grown, Rounded};
ghost use Rattle.grids.specs.Sizes.{SIDE};

// How many pieces a grid has room for: a row is one word.
pub const SIDE: usize = 64;

pub type Grid = [u64; SIDE];

// Bit b of row a of a grid is the claim of its kind about pieces a and b.
#[derive(Clone, Copy, PartialEq, Eq)]
pub struct Grids {
    pub part: Grid,
    pub apart: Grid,
    pub meets: Grid,
    pub notpart: Grid,
}

// The row where bit h of x is set; else no bit.
pub fn chosen(x: u64, h: usize, row: u64) -> u64
    requires { h < SIDE }
    ensures { (k : ℕ) → bit result k ≡ (bit x h && bit row k) }
{
    if (x >> h) & 1 == 1 {
        return row;
    }
    0
}

// The row y with each row h of z put in whose bit is set in x.
fn gather(y: u64, x: u64, z: &Grid) -> u64
    ensures { Gathered y x z.now result }
{
    let mut r = y;
    for h in 0..SIDE {
        r |= chosen(x, h, z[h]);
    }
    r
}

// Column i of x as a row.
fn column(x: &Grid, i: usize) -> u64
    requires { i < SIDE }
    ensures { (k : ℕ) → k < SIDE → bit result k ≡ bit_at x.now k i }
{
    let mut r: u64 = 0;
    for g in 0..SIDE {
        r |= chosen(x[g], i, 1 << g);
    }
    r
}

// y with the product of x and z put in.
fn product(y: Grid, x: Grid, z: Grid) -> Grid
    ensures { Multiplied y x z result }
{
    let mut r = y;
    for g in 0..SIDE {
        r[g] = gather(y[g], x[g], &z);
    }
    r
}

// x with the product of x and itself put in; a row takes in the rows before it as they are by then, so that books whose
// containers have lower numbers are closed in one sweep.
fn swept(x: Grid) -> Grid
    ensures { Swept x result }
{
    let mut r = x;
    for g in 0..SIDE {
        let row = r[g];
        r[g] = gather(row, row, &r);
    }
    r
}

// y with the transpose of x put in.
fn turned_onto(y: Grid, x: Grid) -> Grid
    ensures { TurnedOnto y x result }
{
    let mut r = y;
    for g in 0..SIDE {
        r[g] = y[g] | column(&x, g);
    }
    r
}

// The transpose of x.
fn turned(x: Grid) -> Grid
    ensures { Turned x result }
{
    turned_onto([0; SIDE], x)
}

// x with its transpose put in.
fn mirrored(x: Grid) -> Grid
    ensures { Mirrored x result }
{
    turned_onto(x, x)
}

// Every rule applied once.
fn round(g: Grids) -> Grids
    ensures { Rounded g result }
{
    // (a)
    let p = swept(g.part);
    let t = turned(p);
    // (b), and (c'): unordered kinds in both orders
    let a = mirrored(product(g.apart, p, g.apart));
    let m = mirrored(product(g.meets, g.meets, p));
    // (d'), (b'), (a')
    let parted = product(g.notpart, m, a);
    let shrunk = product(parted, parted, t);
    let n = product(shrunk, t, shrunk);
    Grids {
        part: p,
        apart: a,
        meets: m,
        notpart: n,
    }
}

// Rounds until one adds no bit.
pub fn close(g: Grids) -> Grids
    ensures { Grown g result × Closed (holds result) }
{
    let mut last = g;
    loop {
        let next = round(last);
        if next == last {
            return last;
        }
        last = next;
    }
}
