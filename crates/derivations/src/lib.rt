// The steps behind a fact that follows: the way from part to container, what is searched for, and the steps of each kind of fact, written one behind
// the other.
#![tactic(auto)]

pub mod hops;
pub mod kinds;
pub mod search;
pub mod showing;
pub mod writing;
