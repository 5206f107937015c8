// The window before an entry of a log: what is read of it, and how far it reaches.
ghost use Rattle.std.specs.Prelude.{◌≡◌, length, ◌+◌, ◌-◌, ◌<◌, ◌≤◌};
ghost use Rattle.matrices.specs.Matrix.{bit_of};
ghost use Rattle.replicates.specs.Before.{oldest};
ghost use Rattle.replicates.specs.Looking.{Sequence, seeing, Looked, Reach};
ghost use Rattle.replicates.specs.Sizes.{SEQUENCE};

// How many entries before one are looked at.
pub const WINDOW: usize = 31;

// How many of the entries looked at are apart, and the number from which on all are.
#[derive(Clone, Copy)]
pub struct Seen {
    pub apart: u8,
    pub from: usize,
}

// The number of the oldest of the up to 31 entries before entry q.
pub fn oldest_of(q: usize) -> usize
    ensures { result ≡ oldest q }
{
    q.saturating_sub(WINDOW)
}

// One entry more, number j, that is apart or not.
fn see(seen: Seen, j: usize, apart: bool) -> Seen
    requires { (seen.apart < 255) × (j < SEQUENCE) }
    ensures { result ≡ seeing seen j apart }
{
    if apart {
        Seen {
            apart: seen.apart + 1,
            ..seen
        }
    } else {
        Seen {
            from: j + 1,
            ..seen
        }
    }
}

// Entry q against the up to 31 entries before it.
pub fn look(xs: &[u16], q: usize, a: &[u64]) -> Seen
    requires { Sequence xs.now a.now × (q < length xs.now) × (q < SEQUENCE) }
    ensures { Looked (bit_of a.now) xs.now q result }
{
    let oldest = oldest_of(q);
    let piece = usize::from(xs[q]);
    let mut seen = Seen {
        apart: 0,
        from: oldest,
    };
    for j in oldest..q {
        seen = see(seen, j, matrices::test(a, usize::from(xs[j]), piece));
    }
    seen
}

// From where on every two of the first c entries are apart, as far back as anyone looks.
pub fn reach(xs: &[u16], c: usize, a: &[u64]) -> usize
    requires { Sequence xs.now a.now × (c ≤ length xs.now) × (length xs.now < SEQUENCE) }
    ensures { Reach (bit_of a.now) xs.now c result }
{
    let mut start: usize = 0;
    for q in 0..c {
        start = start.max(look(xs, q, a).from);
    }
    start
}
