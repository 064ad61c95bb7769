// Operations 33 and 34: every message, and every error pattern of a weight, of the extended Golay code.
use crate::print::{item, mix};
use crate::records::Entry;
use golay::{decode, encode, message};
use outcomes::Correction;
use words::word::{sum, weight};

// Whether the word received is answered so.
fn answered(received: u32, word: u32, count: u8) -> bool {
    decode(received).is_ok_and(|c| c == Correction { word, count })
}

// The codeword of u, or 0 where u is no message.
fn codeword_of(u: u32) -> u32 {
    encode(u).unwrap_or(0)
}

// Whether the codeword of u is clean and u comes back from it.
fn back(u: u32) -> bool {
    let codeword = codeword_of(u);
    answered(codeword, codeword, 0) && message(codeword).is_ok_and(|m| m == u)
}

// How many messages come back, and the digest of all codewords.
pub(crate) fn messages(rt: &impl Print) {
    item(rt, (0..4096).filter(|u| back(*u)).count());
    item(rt, (0..4096).fold(1, |h, u| mix(h, codeword_of(u))));
}

// Whether the codeword changed by a pattern of weight t is answered as demand 3 has it.
fn right(codeword: u32, pattern: u32, t: u32) -> bool {
    let w = sum(codeword, pattern);
    if t <= 3 {
        answered(w, codeword, u8::of(t))
    } else {
        answered(w, w, 255)
    }
}

// How many of the patterns of t places, changed in the codeword of u, are.
pub(crate) fn patterns(rt: &impl Print, u: u32, t: u32) {
    let codeword = codeword_of(u);
    let right = (0..16777216).filter(|e| weight(*e) == t && right(codeword, *e, t));
    item(rt, right.count());
}
