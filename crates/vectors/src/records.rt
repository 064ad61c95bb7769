// What a record is made of: 16 bytes of text that are printed, line breaks among them, an operation of one byte, numbers of four bytes,
// high byte first, and lists, each after its length. Operation 0 has the text alone.
use crate::{
    batch_calls, golay_calls, hsiao_calls, interleaved_calls, matrix_calls, number_calls,
    width_calls,
};
use std::fmt::Display;
use streams::read_full;
use words::shape::Matrix;

// The most entries of a list.
pub(crate) const SLOTS: usize = 600;

// The three numbers of a record and its list: mostly a matrix and a number or word beside it.
#[derive(Clone, Copy)]
pub(crate) struct Record<'a> {
    pub(crate) n: u32,
    pub(crate) k: u32,
    pub(crate) x: u32,
    pub(crate) rows: &'a [u32],
}

impl<'a> Record<'a> {
    // The matrix of n, k and the rows.
    pub(crate) fn matrix(&self) -> Matrix<'a> {
        Matrix {
            n: self.n,
            k: self.k,
            rows: self.rows,
        }
    }
}

// The next number of four bytes, high byte first.
pub(crate) fn number(rt: &impl Input) -> u32 {
    let mut bytes = [0u8; 4];
    read_full(&mut rt.reader(), &mut bytes);
    u32::from_be_bytes(bytes)
}

// An entry of a list: it stands in the input as a number, whose lowest byte a small one takes.
pub(crate) trait Entry: Copy + PartialEq + Display + Into<u32> {
    fn of(number: u32) -> Self;
}

impl Entry for u8 {
    fn of(number: u32) -> u8 {
        number.to_le_bytes()[0]
    }
}

impl Entry for u32 {
    fn of(number: u32) -> u32 {
        number
    }
}

// So many slots at the start of the list; none where it has fewer.
pub(crate) fn start<T>(list: &mut [T], size: usize) -> &mut [T] {
    let within = if size <= list.len() { size } else { 0 };
    &mut list[..within]
}

// As many as the next number says.
pub(crate) fn lent<'a, T>(rt: &impl Input, list: &'a mut [T]) -> &'a mut [T] {
    start(list, number(rt) as usize)
}

// As many bytes as the next number says, for bits or counts; all of them where the list has fewer.
pub(crate) fn lent_bytes<'a>(rt: &impl Input, list: &'a mut [u8]) -> &'a mut [u8] {
    let within = list.len().min(number(rt) as usize);
    &mut list[..within]
}

// A list after its length, at the start of the buffer; none where the buffer is shorter.
pub(crate) fn list<'a, T: Entry>(rt: &impl Input, buffer: &'a mut [T]) -> &'a [T] {
    let list = lent(rt, buffer);
    for slot in list.iter_mut() {
        *slot = T::of(number(rt));
    }
    list
}

// The operations by their tens. Each number is matched once, beside its call: a name for it would stand between the two and say the same.
fn dispatch(rt: &(impl Input + Print), operation: u8, record: &Record) {
    match operation / 10 {
        0 => number_calls::call(rt, operation, record.n, record.k),
        1 => matrix_calls::call(rt, operation, record),
        2 => batch_calls::call(rt, operation, record),
        3 => golay_calls::call(rt, operation, record.n, record.k),
        4 => hsiao_calls::call(rt, operation, record),
        5 => width_calls::call(rt, operation, record),
        _ => interleaved_calls::call(rt, operation, record),
    }
}

// Three numbers and a list, and what follows for the operation.
fn call(rt: &(impl Input + Print), operation: u8) {
    let n = number(rt);
    let k = number(rt);
    let x = number(rt);
    let mut buffer = [0u32; SLOTS];
    let rows = list(rt, &mut buffer);
    dispatch(rt, operation, &Record { n, k, x, rows });
}

// The text that begins the next record, if there is one.
pub(crate) fn title(rt: &impl Input) -> Option<[u8; 16]> {
    let mut text = [0u8; 16];
    let got = read_full(&mut rt.reader(), &mut text);
    (got != 0).then_some(text)
}

// The operation after the text.
pub(crate) fn print_call(rt: &(impl Input + Print)) {
    let mut operation = [0u8; 1];
    read_full(&mut rt.reader(), &mut operation);
    if operation[0] != 0 {
        call(rt, operation[0]);
    }
}
