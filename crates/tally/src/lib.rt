// How the words of a batch ended, added up: document 02, No. 1.
#![tactic(auto)]

pub mod tally; // the tally by the counts that Decode leaves

pub use crate::tally::{FAR, Tally, tally_of};
