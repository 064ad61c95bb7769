// The operations Encode and Message on lists.
#![tactic(auto)]

pub mod encoding; // Encode
pub mod read_back; // Message

pub use crate::encoding::encode;
pub use crate::read_back::message;
