// The reduced row echelon form of any generator matrix: document 01, part 1, and the causes 1 to 4 that it tells.
#![tactic(auto)]

pub mod acceptance; // causes 1 to 4
pub mod reduction; // part 1: the reduced row echelon form

pub use crate::acceptance::accept;
pub use crate::reduction::{reduce, reduced_rows};
