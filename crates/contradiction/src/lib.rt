// Whether a book is contradictory, and the place of refusal 14.
#![tactic(auto)]

pub use first_matrices::contradicts;
pub use row_14::{Clash, settle, settle_alone, settle_book, settle_counted, settle_run};

pub mod first_matrices;
pub mod row_14;
