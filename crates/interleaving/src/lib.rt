// Interleaving against bursts: document 02, No. 5, over Decode.
#![tactic(auto)]

pub mod causes; // causes 16 and 17
pub mod decoding; // Decode within a radius after sorting back
pub mod sending; // words to interleaved bits
pub mod sorting; // bits back to words

pub use crate::decoding::decode;
pub use crate::sending::interleave;
pub use crate::sorting::deinterleave;
