// Square matrices of bits: rows and bits, products, and rows joined along edges.
#![tactic(auto)]

pub use joins::{join_against, join_along, pool_rows, product, share_rows};
pub use relation::{
    clear, clear_rows, has, insert, meet, next_bit, put, test, union_row, union_within,
};

pub mod joins;
pub mod relation;

// A matrix has a row and a column for each piece that a book may name. A row is 32 words of 64 bits.
pub const ROWS: usize = 2048;

pub const WORD_BITS: usize = 64;

pub const ROW_WORDS: usize = 32;

pub const WORDS: usize = 65536;

pub type Matrix = [u64; WORDS];

// A number for each row.
pub type RowNumbers = [u16; ROWS];
