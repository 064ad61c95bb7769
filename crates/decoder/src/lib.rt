// Decode: document 01, part 5 and causes 1 to 9, over the leaders and the outcomes.
#![tactic(auto)]

pub mod batch; // Decode over a batch of words

pub use crate::batch::{Lent, decode, decode_measured};
