// Lists that are lent to a call, with a mark in every slot, and printed after it. How many slots are lent stands in the record.
use crate::print::{answer, list};
use crate::records::{Entry, SLOTS, lent, lent_bytes};
use answers::Refusal;
use decoder::Lent;

// The most entries of a working list.
pub(crate) const ENTRIES: usize = 4200;

// The mark of words and codewords, of bits and counts, of a working list.
pub(crate) const UNUSED: u32 = 777;

pub(crate) const UNUSED_COUNT: u8 = 77;

pub(crate) const UNUSED_ENTRY: u32 = 7777;

// The answer of a call on one list, with this mark in its slots, and the list.
pub(crate) fn with_list<T: Entry, F: FnOnce(&mut [T]) -> Result<(), Refusal>>(
    rt: &impl Print,
    out: &mut [T],
    mark: T,
    call: F,
)
    requires { F.IsAlwaysCallable call }
{
    answer(rt, call(out), ());
    list(rt, out, mark);
}

// The answer of a Decode on its three lists, and the lists.
pub(crate) fn with_lists<F: FnOnce(&mut Lent) -> Result<(), Refusal>>(
    rt: &(impl Input + Print),
    call: F,
)
    requires { F.IsAlwaysCallable call }
{
    let mut words = [UNUSED; SLOTS];
    let mut counts = [UNUSED_COUNT; SLOTS];
    let mut work = [UNUSED_ENTRY; ENTRIES];
    let mut lists = Lent {
        codewords: lent(rt, &mut words),
        counts: lent_bytes(rt, &mut counts),
        work: lent(rt, &mut work),
    };
    answer(rt, call(&mut lists), ());
    list(rt, lists.codewords, UNUSED);
    list(rt, lists.counts, UNUSED_COUNT);
    list(rt, lists.work, UNUSED_ENTRY);
}
