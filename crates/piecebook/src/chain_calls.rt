// The chain calls of include/piecebook.h.
ghost use Rattle.std.specs.Prelude.{◌≡◌};
ghost use Rattle.piecebook.specs.Chains.{Replied, Chained};
ghost use Rattle.piecebook.specs.Clashes as clashes;
ghost use Rattle.lists.specs.Tally.{num};
ghost use Rattle.chain_check.specs.Call.{passes};
ghost use Rattle.clash.specs.Clash as clashing;
ghost use Rattle.piecebook.specs.Clashes.{Clashed};

use matrices::Matrix;
use records::Refused;
use verdicts::Answer;

// What the writer comes to, as include/piecebook.h has it.
#[repr(C)]
#[derive(Clone, Copy)]
pub struct PiecebookChainResult {
    pub number: usize,
    pub place: usize,
    pub answer: usize,
    pub steps: usize,
}

pub fn chained(reply: Result<Answer, Refused>, steps: usize) -> PiecebookChainResult
    ensures { Replied reply steps result }
{
    match reply {
        Ok(answer) => PiecebookChainResult {
            number: 0,
            place: 0,
            answer: usize::from(u8::from(answer)),
            steps,
        },
        Err(refused) => PiecebookChainResult {
            number: usize::from(records::refusal_number(refused.refusal)),
            place: refused.place,
            answer: 0,
            steps,
        },
    }
}

// What the writer of the chain behind a contradiction comes to, as include/piecebook.h has it.
#[repr(C)]
#[derive(Clone, Copy)]
pub struct PiecebookClashResult {
    pub number: usize,
    pub place: usize,
    pub steps: usize,
}

pub fn clashed(reply: Result<(), Refused>, steps: usize) -> PiecebookClashResult
    ensures { clashes.Replied reply steps result }
{
    match reply {
        Ok(()) => PiecebookClashResult {
            number: 0,
            place: 0,
            steps,
        },
        Err(refused) => PiecebookClashResult {
            number: usize::from(records::refusal_number(refused.refusal)),
            place: refused.place,
            steps,
        },
    }
}

#[unsafe(no_mangle)]
pub extern "C" fn piecebook_chain_with(
    book: &[u8],
    claim: &[u8],
    steps: &mut [u8],
    e: &mut Matrix,
    d: &mut Matrix,
    t: &mut Matrix,
) -> PiecebookChainResult
    ensures { Chained book.now claim.now steps.old result steps.new }
{
    let written = chain_writing::write_chain(book, claim, steps, e, d, t);
    let reply = written.reply;
    chained(reply, written.steps)
}

#[unsafe(no_mangle)]
pub extern "C" fn piecebook_chain_check_with(
    book: &[u8],
    claim: &[u8],
    steps: &[u8],
    e: &mut Matrix,
    d: &mut Matrix,
    t: &mut Matrix,
) -> usize
    ensures { result ≡ num (passes book.now claim.now steps.now) }
{
    usize::from(chain_check::check_chain(book, claim, steps, e, d, t))
}

#[unsafe(no_mangle)]
pub extern "C" fn piecebook_clash_with(
    book: &[u8],
    steps: &mut [u8],
    e: &mut Matrix,
    d: &mut Matrix,
    t: &mut Matrix,
) -> PiecebookClashResult
    ensures { Clashed book.now steps.old result steps.new }
{
    let written = clash::write_clash(book, steps, e, d, t);
    let reply = written.reply;
    clashed(reply, written.steps)
}

#[unsafe(no_mangle)]
pub extern "C" fn piecebook_clash_check_with(
    book: &[u8],
    steps: &[u8],
    e: &mut Matrix,
    d: &mut Matrix,
    t: &mut Matrix,
) -> usize
    ensures { result ≡ num (clashing.passes book.now steps.now) }
{
    usize::from(clash::check_clash(book, steps, e, d, t))
}
