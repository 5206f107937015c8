// What a call comes to; what it leaves in lent buffers and what follows for the users is in specs/, the theorems in proofs/. Code makes the counts alone.
#![tactic(auto)]

ghost use Rattle.std.specs.Prelude.{◌≡◌};

// The counts of an accepted book: its pieces, and the nodes and shadows of its index.
#[derive(Clone, Copy, Debug, PartialEq, Eq)]
pub struct Counts {
    pub pieces: usize,
    pub nodes: usize,
    pub shadows: usize,
}

impl Counts {
    // The counts of a book of n pieces with this index.
    pub fn of(pieces: usize, index: index::Counts) -> Counts
        ensures { result ≡ record { pieces = pieces; nodes = index.nodes; shadows = index.shadows } }
    {
        Counts {
            pieces,
            nodes: index.nodes,
            shadows: index.shadows,
        }
    }
}
