// The pages of chains: the one behind an answer, the one behind a contradiction, and whether a page of the first sort passes. The lines of a chain are
// written (`lines`); a page of them is read back (`reading`), and held against the text of what was read (`comparing`).
#![tactic(auto)]

pub use contradicted::write_contradiction;
pub use verdict::write_verdict;
pub use why::write_why;

pub mod comparing;
pub mod contradicted;
pub mod lines;
pub mod reading;
pub mod verdict;
pub mod verified;
pub mod why;
