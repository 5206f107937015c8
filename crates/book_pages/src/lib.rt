// The pages of the calls about a book: its answers, its lists, its grids, its text; and words that cannot be read.
#![tactic(auto)]

pub mod grid;
pub mod listing;
pub mod session;
pub mod show;
pub mod words;
