// How a call tells its answer to a program in another language, and how that passes a reading.
#![tactic(auto)]

pub mod reading; // the reading as a number and a radius
pub mod told; // an answer as a number and a value

pub use crate::reading::reading_of;
pub use crate::told::tell;
