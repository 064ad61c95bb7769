// The minimum distance alone, and the smallest codeword of a weight, by rising number of rows.
#![tactic(auto)]

pub mod distance; // the minimum distance of a matrix
pub mod search; // the least of the sums of so many rows
pub mod smallest; // the smallest codeword of a weight

pub use crate::distance::{Distance, distance_of};
pub use crate::smallest::smallest_weighing;
