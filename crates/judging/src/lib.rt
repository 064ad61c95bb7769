// Causes 1 to 8 of a batch: what is asked of the matrix, the reading and the lists, and what the matrix tells on the way.
#![tactic(auto)]

pub mod causes; // causes 1 to 5 and 1 to 8
pub mod matrix; // causes 1 to 4, with what is taken from the matrix

pub use crate::causes::{Batch, code_cause, known_past_8};
pub use crate::matrix::Known;
