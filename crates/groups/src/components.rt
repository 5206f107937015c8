// The strongly connected components of a matrix of steps: a component is closed after all that it leads to.
ghost use Rattle.std.specs.Prelude.{◌≡◌, Bool, ℕ, ◌+◌, ◌-◌, ◌<◌, ◌≤◌, length, get_or};
ghost use Rattle.matrices.specs.Matrix.{bit_of};
ghost use Rattle.groups.specs.Search.{state_of, pushed, WayOf, GoodOf, VisitedOf, Leading, Callable, Cut, Numbered, Inside, Room, Searchable, Searched};
ghost use Rattle.matrices.specs.Sizes.{ROWS};
ghost use Rattle.numbers.specs.Sizes.{SHORT-VALUES};

use matrices::RowNumbers;

// The path of the search: where each piece is on it and the number of its group, once it has one; the pieces on the path, and where its groups
// begin; how long it is, how many groups it has, and how many have ended.
#[derive(Drop)]
struct Path {
    pos: RowNumbers,
    done: RowNumbers,
    pieces: RowNumbers,
    bounds: RowNumbers,
    len: usize,
    top: usize,
    count: usize,
}

// Gives the pieces of the path from `at` on the number `count`.
fn close(pieces: &RowNumbers, done: &mut RowNumbers, at: usize, len: usize, count: usize)
    requires { (len ≤ ROWS) × (at ≤ len) × (count < SHORT-VALUES) × (length done.old ≡ ROWS) × Inside pieces.now at len ROWS }
    ensures { Numbered pieces.now done.old done.new at len count }
{
    for i in at..len {
        done[usize::from(pieces[i])] = count as u16;
    }
}

impl Path {
    // How many bounds are left, if those after p go.
    fn cut(&self, p: usize) -> usize
        requires { self.now.top ≤ ROWS }
        ensures { Cut self.now.bounds self.now.top p result }
    {
        for t in (0..self.top).rev() {
            if usize::from(self.bounds[t]) <= p {
                return t + 1;
            }
        }
        0
    }

    // Puts v at the end of the path, as a group of its own.
    fn push(&mut self, v: usize)
        requires { (v < ROWS) × (self.old.len < ROWS) × (self.old.top < ROWS) }
        ensures { self.new ≡ pushed self.old v }
    {
        self.pos[v] = self.len as u16;
        self.pieces[self.len] = v as u16;
        self.bounds[self.top] = self.len as u16;
        self.len += 1;
        self.top += 1;
    }

    // All that v leads to and that is new is put on the path and looked at; a part on the path makes one group of all from its own on; and the group
    // that begins with v, if one still does, ends.
    fn visit(&mut self, n: usize, e: &[u64], v: usize)
        requires { Callable n e.now self.old v }
        ensures { Room self.new × ((gray : ℕ → Bool) → GoodOf n e.now (state_of self.old) gray → Leading n e.now (state_of self.old) v → VisitedOf n e.now (state_of self.old) (state_of self.new) v gray) }
    {
        let at = self.len;
        self.push(v);
        let mut w = matrices::next_bit(e, v, 0);
        while w < n {
            if self.pos[w] == index::NONE {
                self.visit(n, e, w);
            } else if self.done[w] == index::NONE {
                self.top = self.cut(usize::from(self.pos[w]));
            }
            w = matrices::next_bit(e, v, w + 1);
        }
        if usize::from(self.bounds[self.top - 1]) == at {
            close(&self.pieces, &mut self.done, at, self.len, self.count);
            self.len = at;
            self.top -= 1;
            self.count += 1;
        }
    }
}

// The number of each piece's group, in an order in which parts come before what contains them. Row 0 of the matrix has every other piece.
pub fn search(n: usize, e: &[u64]) -> RowNumbers
    requires { Searchable n e.now ROWS }
    ensures { Searched n ROWS (bit_of e.now) (WayOf n e.now) (λ x. get_or result x 0) }
{
    let mut path = Path {
        pos: [index::NONE; matrices::ROWS],
        done: [index::NONE; matrices::ROWS],
        pieces: [0; matrices::ROWS],
        bounds: [0; matrices::ROWS],
        len: 0,
        top: 0,
        count: 0,
    };
    path.visit(n, e, 0);
    path.done
}
