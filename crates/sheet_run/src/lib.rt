// The run: a code sheet is read, decoded and printed; document 01, "The code sheet".
#![tactic(auto)]

pub mod load; // the words of four bytes in a sheet
pub mod runner; // the whole run: sheet bytes to output bytes

pub use crate::runner::run;
