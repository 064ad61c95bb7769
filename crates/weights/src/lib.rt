// Weights, minimum distance and Describe: document 01, part 3, over the linear algebra.
#![tactic(auto)]

pub mod description; // Describe
pub mod dual; // the weight counts by way of the check rows
pub mod weights; // weight counts, minimum distance and lightest codeword of an accepted matrix

pub use crate::description::{Description, describe};
pub use crate::weights::{Weights, weights_of};
