// Operations 50 to 53, of the codes of 16, 32 and 64 data bits: data in two numbers, the high one first, the width, and as the entry of a
// list a check or a count, which is printed first.
use crate::hsiao_calls::{data_of, word, word_of};
use crate::hsiao_changes::{Calls, NOTHING, changes, with_count};
use crate::print::{answer, item};
use crate::records::Record;
use hsiao::Word;
use hsiao::widths::{decode, encode, message};

// The check bits of the data, after the answer.
fn encoded(rt: &impl Print, width: u32, data: u64) {
    item(rt, answer(rt, encode(width, data), 0));
}

// The answer with the word and its count, and what is read back from the word as received.
fn decoded(rt: &impl Print, width: u32, w: Word) {
    let c = answer(rt, decode(width, w), NOTHING);
    word(rt, c.word);
    item(rt, c.count);
    item(rt, answer(rt, message(width, w), 0));
}

pub(crate) fn call(rt: &impl Print, operation: u8, record: &Record) {
    let data = data_of(record);
    let width = record.x;
    // From operation 52 on the width 0 names the (72,64) code's own calls.
    let calls = if width == 0 {
        Calls::Own
    } else {
        Calls::Width(width)
    };
    let x = record.rows.first().copied().unwrap_or(0);
    item(rt, x);
    match operation {
        50 => encoded(rt, width, data),
        51 => decoded(rt, width, word_of(data, x)),
        53 => changes(rt, calls, data),
        _ => with_count(rt, calls, data, x),
    }
}
