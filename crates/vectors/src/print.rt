// What a line is made of: text, numbers in decimal, answers, lists. What is printed is seen in what the program writes: a failed write shows
// there as missing.
use crate::records::Entry;
use answers::Refusal;
use std::fmt::Display;

// A text.
pub(crate) fn text(rt: &impl Print, t: &[u8]) {
    let _ = rt.write_all(t);
}

// A blank and the number.
pub(crate) fn item(rt: &impl Print, x: impl Display + Copy) {
    let _ = print!(rt; " {x}");
}

// "done", or "refused", the number and the value beside it; answers what a call gave, or `none` where it is refused.
pub(crate) fn answer<T: Drop>(rt: &impl Print, answered: Result<T, Refusal>, none: T) -> T {
    match answered {
        Ok(given) => {
            let _ = print!(rt; " done");
            given
        }
        Err(r) => {
            let _ = print!(rt; " refused {} {}", r.number(), r.value());
            none
        }
    }
}

// A name, and every entry of the list.
pub(crate) fn items<T: Entry>(rt: &impl Print, name: &str, xs: &[T]) {
    let _ = print!(rt; "{name}");
    for x in xs {
        item(rt, *x);
    }
}

// The digest of one number more.
pub(crate) fn mix(h: u32, x: u32) -> u32 {
    h.wrapping_mul(31).wrapping_add(x)
}

// How many slots keep the mark, and the digest, a number that depends on every slot and on their order: h * 31 + slot modulo 2^32, from
// 1 on.
fn summary<T: Entry>(rt: &impl Print, xs: &[T], mark: T) {
    let kept = xs.iter().filter(|x| **x == mark).count();
    let digest = xs.iter().fold(1, |h, x| mix(h, (*x).into()));
    let _ = print!(rt; ", kept {kept} {digest}");
}

// A list lent with this mark in every slot: its slots, or of more than 40 the summary.
pub(crate) fn list<T: Entry>(rt: &impl Print, xs: &[T], mark: T) {
    if xs.len() <= 40 {
        items(rt, ",", xs);
    } else {
        summary(rt, xs, mark);
    }
}
