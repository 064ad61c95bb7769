// The printed lines: document 01, "The code sheet", and document 02, No. 1.
#![tactic(auto)]

pub mod print; // the lines of a batch, or the one line of a refusal

pub use crate::print::{MAX_OUTPUT, put_batch, put_refusal};
