// Coset leaders: document 01, part 4.
#![tactic(auto)]

pub mod build; // the words tried one after the other
pub mod leaders; // the leaders by check rows, and of a matrix

pub use crate::leaders::{Leaders, fill_leaders, leaders_of};
