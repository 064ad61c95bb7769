// How an operation ends: the causes of document 01 with their numbers, as the error of a Result.
#![tactic(auto)]

pub mod answer; // one case for each cause

pub use crate::answer::Refusal;
