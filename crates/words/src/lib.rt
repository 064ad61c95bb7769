// Words, and what of a matrix and of a list of words can be told without elimination.
#![tactic(auto)]

pub mod limits; // the only numbers that bound a code or a call
pub mod lists; // causes 6 to 8
pub mod shape; // causes 1 to 3
pub mod word; // words: sum, weight, distance, places
