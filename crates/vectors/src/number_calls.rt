// Operations 1 to 8, on two words or numbers.
use crate::print::item;
use words::shape::in_range;
use words::word::{distance, fits, parity, place, selected, sum, weight};

pub(crate) fn call(rt: &impl Print, operation: u8, a: u32, b: u32) {
    match operation {
        1 => item(rt, sum(a, b)),
        2 => item(rt, weight(a)),
        3 => item(rt, distance(a, b)),
        4 => item(rt, parity(a, b)),
        5 => item(rt, place(a, b)),
        6 => item(rt, selected(a, b)),
        7 => item(rt, u32::from(fits(a, b))),
        _ => item(rt, u32::from(in_range(a, b))),
    }
}
