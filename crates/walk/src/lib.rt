// One walk over all codewords of a few rows, in blocks: how many there are of each weight, and the lightest.
#![tactic(auto)]

pub mod walk; // blocks of codewords, and the walk over them

pub use crate::walk::{
    BLOCK, Lightest, Walk, block_rows, block_weights, least_of, smallest_of, walk_all,
};
