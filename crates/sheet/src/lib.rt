// The reader of the code sheet: document 01, "The code sheet". It relies on the reading alone, and not on the decoder.
#![tactic(auto)]

pub mod answer; // what a sheet says, and causes 12 and 13
pub mod field; // one field
pub mod reader; // the sheet: bytes to a sheet or a refusal

pub use crate::answer::{Fault, Sheet, Span};
pub use crate::reader::{MAX_SHEET, read};
