// What the benchmarks of functions below the calls link: thin wrappers, a module for each crate.
#![tactic(auto)]

pub mod parentheses_c;
pub mod records_c;
pub mod relation_c;
