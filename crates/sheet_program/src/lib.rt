// What the programs over the run share: standard input to standard output.
#![tactic(auto)]

pub mod standard; // reading, the run, writing
