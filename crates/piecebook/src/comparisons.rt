// The call of include/piecebook.h on two books.
ghost use Rattle.compare.specs.Call.{outcome};
ghost use Rattle.piecebook.specs.Compares.{Reported, Compares};
ghost use Rattle.std.specs.Prelude.{length};
ghost use Rattle.compare.specs.Demands.{Demanded};

use compare::RefusedOf;
use matrices::Matrix;

// A comparison's outcome as include/piecebook.h has it.
#[repr(C)]
#[derive(Clone, Copy)]
pub struct PiecebookComparison {
    pub number: usize,
    pub place: usize,
    pub book: usize,
    pub together: usize,
}

pub fn reported_of(comparison: Result<bool, RefusedOf>) -> PiecebookComparison
    ensures { Reported comparison result }
{
    match comparison {
        Ok(consistent) => PiecebookComparison {
            number: 0,
            place: 0,
            book: 0,
            together: usize::from(consistent),
        },
        Err(refused) => PiecebookComparison {
            number: usize::from(records::refusal_number(refused.refusal)),
            place: refused.place,
            book: refused.book,
            together: 0,
        },
    }
}

#[unsafe(no_mangle)]
pub extern "C" fn piecebook_compare_with(
    first: &[u8],
    second: &[u8],
    claims: &[u8],
    out: &mut [u8],
    e: &mut Matrix,
    d: &mut Matrix,
    t: &mut Matrix,
    u: &mut Matrix,
    p: &mut Matrix,
    q: &mut Matrix,
) -> PiecebookComparison
    ensures determined { Compares first.now second.now claims.now out.old result out.new }
    ensures demanded { Demanded first.now second.now claims.now (length out.old) out.new (outcome first.now second.now claims.now (length out.old)) }
{
    let comparison = compare::compare(first, second, claims, out, e, d, t, u, p, q);
    reported_of(comparison)
}
