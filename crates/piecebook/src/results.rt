// The structs of include/piecebook.h that outcomes become.
ghost use Rattle.piecebook.specs.Exported.{Reported};
ghost use Rattle.piecebook.specs.Converts.{Told};

use outcomes::Counts;
use records::Refused;

// The outcome as include/piecebook.h has it.
#[repr(C)]
#[derive(Clone, Copy)]
pub struct PiecebookResult {
    pub number: usize,
    pub place: usize,
    pub pieces: usize,
    pub nodes: usize,
    pub shadows: usize,
}

pub fn result_of(outcome: Result<Counts, Refused>) -> PiecebookResult
    ensures { Reported outcome result }
{
    match outcome {
        Ok(counts) => PiecebookResult {
            number: 0,
            place: 0,
            pieces: counts.pieces,
            nodes: counts.nodes,
            shadows: counts.shadows,
        },
        Err(refused) => PiecebookResult {
            number: usize::from(records::refusal_number(refused.refusal)),
            place: refused.place,
            pieces: 0,
            nodes: 0,
            shadows: 0,
        },
    }
}

// A conversion as include/piecebook.h has it.
#[repr(C)]
#[derive(Clone, Copy)]
pub struct PiecebookConverted {
    pub number: usize,
    pub place: usize,
    pub length: usize,
}

pub fn converted_of(conversion: Result<usize, Refused>) -> PiecebookConverted
    ensures { Told conversion result }
{
    match conversion {
        Ok(length) => PiecebookConverted {
            number: 0,
            place: 0,
            length,
        },
        Err(refused) => PiecebookConverted {
            number: usize::from(records::refusal_number(refused.refusal)),
            place: refused.place,
            length: 0,
        },
    }
}
