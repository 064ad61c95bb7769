// Operations 60 to 63, on a matrix and interleaved words: the words to be sent or the received bits follow the matrix in the record, then the
// number of slots of each lent list.
use crate::bursts;
use crate::lent::{UNUSED, UNUSED_COUNT, with_list, with_lists};
use crate::records::{Record, SLOTS, lent, lent_bytes, list, number};
use interleaving::{decode, deinterleave, interleave};

// Interleave.
fn sent(rt: &(impl Input + Print), record: &Record) {
    let mut buffer = [0u32; SLOTS];
    let words = list(rt, &mut buffer);
    with_list(
        rt,
        lent_bytes(rt, &mut [UNUSED_COUNT; SLOTS]),
        UNUSED_COUNT,
        |bits| interleave(&record.matrix(), words, bits),
    );
}

// Deinterleave, at the depth x.
fn sorted(rt: &(impl Input + Print), record: &Record) {
    let depth = record.x as usize;
    let mut buffer = [0u8; SLOTS];
    let bits = list(rt, &mut buffer);
    with_list(
        rt,
        lent(rt, &mut [UNUSED; SLOTS]),
        UNUSED,
        |out| deinterleave(&record.matrix(), depth, bits, out),
    );
}

// Decode within the radius x; the depth stands before the bits.
fn decoded(rt: &(impl Input + Print), record: &Record) {
    let depth = number(rt) as usize;
    let mut buffer = [0u8; SLOTS];
    let bits = list(rt, &mut buffer);
    with_lists(
        rt,
        |lists| decode(&record.matrix(), record.x, depth, bits, lists),
    );
}

pub(crate) fn call(rt: &(impl Input + Print), operation: u8, record: &Record) {
    match operation {
        60 => sent(rt, record),
        61 => sorted(rt, record),
        62 => decoded(rt, record),
        _ => bursts::call(rt, record),
    }
}
