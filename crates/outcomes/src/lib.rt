// How one word ends: document 01, part 5.
#![tactic(auto)]

pub mod ending; // the reading and the outcome

pub use crate::ending::{Correction, Outcome, Reading, outcome_of};
