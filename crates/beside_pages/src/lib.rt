// The pages of a book beside something else: the log of measurements, or a second book.
#![tactic(auto)]

pub mod comparison;
pub mod log;
