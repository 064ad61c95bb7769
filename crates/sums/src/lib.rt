// Sums of rows: the product of a message and a list of rows, modulo 2, for one word and for many.
#![tactic(auto)]

pub mod sums; // the sum that a message selects, of one word and of each of a list
pub mod tables; // the sums of some rows by message, in a table

pub use crate::sums::{row_sum, row_sums};
pub use crate::tables::fill_sums;
