// Operations 30 to 34, of the extended Golay code.
use crate::golay_patterns::{messages, patterns};
use crate::print::{answer, item};
use golay::{decode, encode, message};
use outcomes::Correction;

// The codeword of a message, after its answer.
fn encoded(rt: &impl Print, u: u32) {
    item(rt, answer(rt, encode(u), 0));
}

// The word and its count, after the answer.
fn decoded(rt: &impl Print, w: u32) {
    let c = answer(rt, decode(w), Correction { word: 0, count: 0 });
    item(rt, c.word);
    item(rt, c.count);
}

// The message of a word, after the answer.
fn read(rt: &impl Print, w: u32) {
    item(rt, answer(rt, message(w), 0));
}

pub(crate) fn call(rt: &impl Print, operation: u8, w: u32, t: u32) {
    match operation {
        30 => encoded(rt, w),
        31 => decoded(rt, w),
        32 => read(rt, w),
        33 => messages(rt),
        _ => patterns(rt, w, t),
    }
}
