// A chain's steps as bytes, and whether each follows from the records and the steps before it.
#![tactic(auto)]

pub use chain_steps::check_steps;
pub use steps::{Step, cites, lets, put_step, shows, step_at};

pub mod chain_steps;
pub mod steps;

// How many steps a chain has at most.
pub const STEPS: usize = 16400;

pub const STEP_BYTES: usize = 10;

// A chain has at most 16,400 steps.
pub const CHAIN_BYTES: usize = 164000;

// The rules that a step may rest on, by their letters; STORED is a record's own fact.
pub const STORED: u8 = 0;

pub const RULE_A: u8 = 1;

pub const RULE_B: u8 = 2;

pub const RULE_C: u8 = 3;

pub const RULE_F: u8 = 4;

pub const RULE_A_PRIME: u8 = 5;

pub const RULE_B_PRIME: u8 = 6;

pub const RULE_C_PRIME: u8 = 7;

pub const RULE_D_PRIME: u8 = 8;

pub const RULE_E_PRIME: u8 = 9;

pub const RULE_D: u8 = 10;

pub const RULE_E: u8 = 11;
