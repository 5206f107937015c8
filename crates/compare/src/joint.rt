// Two books together: their records in one run, and the three bytes of a claim from both answers.
ghost use Rattle.std.specs.Prelude.{◌≡◌, ◌*◌, ◌≤◌, length, get_or};
ghost use Rattle.lists.specs.Front.{front};
ghost use Rattle.compare.specs.Agreement.{agreement, threes};
ghost use Rattle.compare.specs.Together.{Joins};

// The byte of an answer OPEN, and those of two answers beside each other.
const OPEN: u8 = 3;

const SAME: u8 = 1;

const ONE_OPEN: u8 = 2;

const OPPOSED: u8 = 3;

// A comparison has three bytes a claim.
pub const COMPARED_BYTES: usize = 3;

// The records of two books.
pub const JOINT_BYTES: usize = 98304;

// 1 for the same answer, 2 where one alone is open, 3 for opposite ones.
#[tactic(auto, unfolding(crate::specs::Agreement::agreement))]
fn agreement_of(x: u8, y: u8) -> u8
    ensures { result ≡ agreement x y }
{
    if x == y {
        SAME
    } else if x == OPEN || y == OPEN {
        ONE_OPEN
    } else {
        OPPOSED
    }
}

// Three bytes for each claim.
pub fn write_answers(ours: &[u8], theirs: &[u8], out: &mut [u8])
    requires { (length theirs.now ≡ length ours.now) × (3 * length ours.now ≤ length out.old) }
    ensures { out.new ≡ front (threes (λ i. get_or ours.now i 0) (λ i. get_or theirs.now i 0) (length ours.now)) out.old }
{
    for i in 0..ours.len() {
        let x = ours[i];
        let y = theirs[i];
        let at = COMPARED_BYTES * i;
        out[at] = x;
        out[at + 1] = y;
        out[at + 2] = agreement_of(x, y);
    }
}

// The second book behind the first, where both are as short as a book is, and how many bytes they have. A shared record stands twice, which says no more
// than once.
pub fn join(first: &[u8], second: &[u8], run: &mut [u8; JOINT_BYTES]) -> usize
    ensures { Joins first.now second.now run.new result }
{
    if records::BOOK_BYTES < first.len() || records::BOOK_BYTES < second.len() {
        return 0;
    }
    let at = first.len();
    numbers::copy_to(first, run, 0);
    numbers::copy_to(second, run, at);
    at + second.len()
}
