// Operations 20 to 24, on a matrix, a batch of words and lent lists: the words follow the matrix in the record, then the number of slots of
// each list.
use crate::lent::{UNUSED, with_list, with_lists};
use crate::records::{Record, SLOTS, lent, list};
use decoder::decode;
use encoder::{encode, message};
use judging::Batch;
use outcomes::Reading;
use words::shape::Matrix;

// Decode.
fn decoded(rt: &(impl Input + Print), batch: &Batch) {
    with_lists(rt, |lists| decode(batch, lists));
}

// Decode on lists that an earlier Decode left: its rows were the words, its words the rows.
fn decoded_again(rt: &(impl Input + Print), batch: &Batch) {
    let matrix = Matrix {
        rows: batch.words,
        ..batch.matrix
    };
    let earlier = Batch {
        matrix,
        words: batch.matrix.rows,
        ..*batch
    };
    with_lists(rt, |lists| {
        let _ = decode(&earlier, lists);
        decode(batch, lists)
    });
}

pub(crate) fn call(rt: &(impl Input + Print), operation: u8, record: &Record) {
    let matrix = record.matrix();
    let mut buffer = [0u32; SLOTS];
    let words = list(rt, &mut buffer);
    let nearest = Batch {
        matrix,
        reading: Reading::Nearest,
        words,
    };
    let within = Batch {
        reading: Reading::Within(record.x),
        ..nearest
    };
    match operation {
        20 => with_list(
            rt,
            lent(rt, &mut [UNUSED; SLOTS]),
            UNUSED,
            |out| encode(&matrix, words, out),
        ),
        21 => with_list(
            rt,
            lent(rt, &mut [UNUSED; SLOTS]),
            UNUSED,
            |out| message(&matrix, words, out),
        ),
        23 => decoded(rt, &within),
        24 => decoded_again(rt, &nearest),
        _ => decoded(rt, &nearest),
    }
}
