// The extended Golay code (24,12): document 01, parts 6 and 8, one word at a time.
#![tactic(auto)]

pub mod decoding; // within radius 3
pub mod encoding; // a message to its codeword
pub mod places; // a word outside its places is refused
pub mod read_back; // a codeword to its message
pub mod nearby; // the row of P near a word, twelve tests side by side
pub mod rows; // P, its row sums and the syndrome

pub use crate::decoding::decode;
pub use crate::encoding::encode;
pub use crate::read_back::message;
