// Parity-check rows and syndromes: document 01, part 2.
#![tactic(auto)]

pub mod batch; // the syndromes of many words
pub mod check; // check rows, their columns, the syndrome of a word

pub use crate::batch::syndromes;
pub use crate::check::{code_of, columns, parity_checks, syndrome};
