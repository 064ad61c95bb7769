// Operations 40 to 43, of the (72,64) code: data in two numbers, the high one first, and beside it a check byte or a count.
use crate::hsiao_changes::{Calls, changes, with_count};
use crate::print::{answer, item};
use crate::records::{Entry, Record};
use hsiao::{Word, decode, encode, message, syndrome};

// The data of a record.
pub(crate) fn data_of(record: &Record) -> u64 {
    u64::from(record.n) << 32 | u64::from(record.k)
}

// The word of these data and the lowest byte of x.
pub(crate) fn word_of(data: u64, x: u32) -> Word {
    let check = u8::of(x);
    Word { check, data }
}

// Prints a word as its check byte and its data.
pub(crate) fn word(rt: &impl Print, w: Word) {
    item(rt, w.check);
    item(rt, w.data);
}

// The syndrome, the word with its count, and the data read back from the word as received.
fn decoded(rt: &impl Print, w: Word) {
    let c = decode(w);
    item(rt, syndrome(w));
    word(rt, c.word);
    item(rt, c.count);
    item(rt, answer(rt, message(w), 0));
}

pub(crate) fn call(rt: &impl Print, operation: u8, record: &Record) {
    let data = data_of(record);
    match operation {
        40 => item(rt, encode(data)),
        41 => decoded(rt, word_of(data, record.x)),
        43 => changes(rt, Calls::Own, data),
        _ => with_count(rt, Calls::Own, data, record.x),
    }
}
