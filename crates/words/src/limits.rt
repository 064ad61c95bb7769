// The limits of document 01, those of n and k as 02, No. 7, has them, for the code; specs/Limits.antt has them for the contracts.
// A number of places is a u32, as in C, and an index a usize: between the two there is no `From`, so that `as` stays.
// Nothing is allocated: lists of rows, check rows and weights are arrays of these lengths, with 0 where a code has fewer.
pub const MIN_PLACES: u32 = 2;

pub const MAX_PLACES: u32 = 32;

pub const MAX_ROWS: usize = 20;

pub const MAX_CHECKS: usize = 12;

pub const MAX_WORDS: usize = 512;

// The most words that are sent interleaved.
pub const MAX_DEPTH: usize = 16;

// The places of a machine word.
pub const WIDTH: usize = 32;

// The weights that such a word can have, 0 to 32.
pub const WEIGHT_SLOTS: usize = 33;
