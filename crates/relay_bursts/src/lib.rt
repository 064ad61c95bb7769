// Interleaving for programs in C and other languages; bindings/relaymarten.h declares the calls, so that n, k and rows, and the lent lists, are
// parameters of their own.
#![tactic(auto)]

pub mod interleaved_words; // words to bits and back, and Decode within a radius
