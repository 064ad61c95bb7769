// The fixed codes for programs in C and other languages; bindings/relaymarten.h declares the calls, each a symbol of its
// own.
#![tactic(auto)]

pub mod golay_words; // the extended Golay code
pub mod hsiao_words; // the (72,64) code
pub mod width_words; // the codes of 16, 32 and 64 data bits
