// Operations 10 to 16, on a matrix and a word x. What a refused call does not give is printed as 0.
use crate::lent::{ENTRIES, UNUSED_ENTRY};
use crate::print::{answer, item, items, list};
use crate::records::{Record, lent};
use leaders::{Leaders, leaders_of};
use linear::{accept, reduced_rows};
use parity::{parity_checks, syndrome};
use sums::row_sum;
use weights::{Description, Weights, describe, weights_of};
use words::limits::{MAX_CHECKS, MAX_ROWS, WEIGHT_SLOTS};

// The reduced rows, after the answer.
fn reduced(rt: &impl Print, record: &Record) {
    let rows = answer(rt, reduced_rows(&record.matrix()), [0; MAX_ROWS]);
    items(rt, ", rows", &rows);
}

// The syndrome of the word, and the check rows.
fn checked(rt: &impl Print, record: &Record) {
    let checks = answer(rt, parity_checks(&record.matrix()), [0; MAX_CHECKS]);
    item(rt, syndrome(&checks, record.x));
    items(rt, ", checks", &checks);
}

// The weights of no code.
fn no_weights() -> Weights {
    Weights {
        dmin: 0,
        counts: [0; WEIGHT_SLOTS],
        lightest: 0,
    }
}

// The minimum distance, the lightest codeword and the counts.
fn weighed(rt: &impl Print, record: &Record) {
    let w = answer(rt, weights_of(&record.matrix()), no_weights());
    item(rt, w.dmin);
    item(rt, w.lightest);
    items(rt, ", weights", &w.counts);
}

// The minimum distance, the lightest codeword and the lists.
fn described(rt: &impl Print, record: &Record) {
    let none = Description {
        rows: [0; MAX_ROWS],
        checks: [0; MAX_CHECKS],
        weights: no_weights(),
    };
    let d = answer(rt, describe(&record.matrix()), none);
    item(rt, d.weights.dmin);
    item(rt, d.weights.lightest);
    items(rt, ", rows", &d.rows);
    items(rt, ", checks", &d.checks);
    items(rt, ", weights", &d.weights.counts);
}

// The number of words tried, the check rows and the list, whose number of slots follows the matrix in the record.
fn leading(rt: &(impl Input + Print), record: &Record) {
    let mut work = [UNUSED_ENTRY; ENTRIES];
    let work = lent(rt, &mut work);
    let none = Leaders {
        checks: [0; MAX_CHECKS],
        tried: 0,
    };
    let l = answer(rt, leaders_of(&record.matrix(), work), none);
    item(rt, l.tried);
    items(rt, ", checks", &l.checks);
    list(rt, work, UNUSED_ENTRY);
}

pub(crate) fn call(rt: &(impl Input + Print), operation: u8, record: &Record) {
    match operation {
        10 => answer(rt, accept(&record.matrix()), ()),
        11 => reduced(rt, record),
        12 => checked(rt, record),
        13 => item(rt, row_sum(record.rows, record.x)),
        14 => weighed(rt, record),
        16 => leading(rt, record),
        _ => described(rt, record),
    }
}
