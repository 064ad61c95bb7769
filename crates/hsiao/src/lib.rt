// The (72,64) code, a Hsiao code: 8 check bits, 64 data bits, columns of odd weight; document 01, part 7. And the codes of 16 and 32 data
// bits beside it; document 02, No. 3.
#![tactic(auto)]

pub mod columns; // the table of the data columns
pub mod decoding; // Decode at radius 1
pub mod encoding; // Encode
pub mod ending; // how one word ends
pub mod read_back; // Message: the data of a codeword
pub mod syndromes; // syndromes
pub mod widths; // the codes of 16, 32 and 64 data bits, by this number
pub mod word; // words

pub use crate::decoding::decode;
pub use crate::encoding::encode;
pub use crate::read_back::message;
pub use crate::syndromes::syndrome;
pub use crate::word::Word;
