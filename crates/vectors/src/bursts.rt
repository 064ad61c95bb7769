// Operation 63: bursts on the interleaved bits of codewords. In each window of depth times radius bits every pattern, or only the one of all
// ones, is changed, and the bits are decoded.
use crate::lent::{ENTRIES, UNUSED, UNUSED_COUNT, UNUSED_ENTRY};
use crate::print::item;
use crate::records::{Record, SLOTS, list, number, start};
use decoder::Lent;
use interleaving::{decode, interleave};
use words::shape::Matrix;
use words::word::place;

// The number of the window's first bit, and a word with a one for each changed bit of the window.
#[derive(Clone, Copy)]
struct Burst {
    first: u32,
    pattern: u32,
}

impl Burst {
    // Whether bit number b is changed.
    fn hits(self, b: u32) -> bool {
        place(self.pattern, b.wrapping_sub(self.first)) == 1
    }
}

// How many bursts there were, and how many were mended.
#[derive(Drop)]
struct Tally {
    cases: u32,
    mended: u32,
}

impl Tally {
    // One burst more. The bool picks no step: it is what the decoding showed, and is counted as 0 or 1.
    fn add(&mut self, mended: bool) {
        self.cases = self.cases.wrapping_add(1);
        self.mended = self.mended.wrapping_add(u32::from(mended));
    }
}

// The code with its radius, the codewords sent, how many, and their bits. The number of words stands beside them as the depth, in the u32 of
// the bit numbers: taken from the list it would be converted at each of its three uses.
#[derive(Clone, Copy)]
struct Sent<'a> {
    matrix: Matrix<'a>,
    radius: u32,
    words: &'a [u32],
    depth: u32,
    bits: &'a [u8],
}

impl Sent<'_> {
    // How many places of word i are changed: place j travels as bit number depth * j + i.
    fn hits(&self, burst: Burst, i: u32) -> usize {
        let bit = |j| self.depth.wrapping_mul(j).wrapping_add(i);
        (0..self.matrix.n).filter(|j| burst.hits(bit(*j))).count()
    }

    // The bits as they arrive.
    fn arrive(&self, burst: Burst, list: &mut [u8]) {
        for ((b, slot), bit) in (0u32..).zip(list.iter_mut()).zip(self.bits) {
            *slot = *bit ^ u8::from(burst.hits(b));
        }
    }

    // Whether each answer is the word sent, and its count the number of the word's changed places.
    fn comes_back(&self, burst: Burst, words: &[u32], counts: &[u8]) -> bool {
        let answers = words.iter().zip(counts);
        (0u32..).zip(self.words).zip(answers).all(|((i, sent), (word, count))| {
            *word == *sent && usize::from(*count) == self.hits(burst, i)
        })
    }

    // Whether the burst is mended.
    fn mends(&self, burst: Burst) -> bool {
        let mut buffer = [0u8; SLOTS];
        let mut words = [UNUSED; SLOTS];
        let mut counts = [UNUSED_COUNT; SLOTS];
        let mut work = [UNUSED_ENTRY; ENTRIES];
        let bits = start(&mut buffer, self.bits.len());
        self.arrive(burst, bits);
        let mut lists = Lent {
            codewords: &mut words,
            counts: &mut counts,
            work: &mut work,
        };
        let _ = decode(
            &self.matrix,
            self.radius,
            self.words.len(),
            bits,
            &mut lists,
        );
        self.comes_back(burst, &words, &counts)
    }

    // Adds the patterns of one window, from the lowest on below the limit.
    fn window(&self, tally: &mut Tally, first: u32, lowest: u32, limit: u32) {
        for pattern in lowest..limit {
            tally.add(self.mends(Burst { first, pattern }));
        }
    }

    // Every pattern, or only the one of all ones, in each window. A flag, as the record has it: it picks where the patterns begin, and no step.
    fn tally(&self, every: bool) -> Tally {
        let width = self.depth.wrapping_mul(self.radius);
        let windows = self
            .depth
            .wrapping_mul(self.matrix.n)
            .wrapping_sub(width)
            .wrapping_add(1);
        let limit = 1u32.wrapping_shl(width);
        let lowest = if every { 0 } else { limit.wrapping_sub(1) };
        let mut tally = Tally {
            cases: 0,
            mended: 0,
        };
        for first in 0..windows {
            self.window(&mut tally, first, lowest, limit);
        }
        tally
    }
}

// The words follow the matrix in the record, then 1 for every pattern, 0 for all ones.
pub(crate) fn call(rt: &(impl Input + Print), record: &Record) {
    let matrix = record.matrix();
    let radius = record.x;
    let mut buffer = [0u32; SLOTS];
    let words = list(rt, &mut buffer);
    let every = number(rt) == 1;
    let depth = u32::try_from(words.len()).unwrap_or(0);
    let mut buffer = [UNUSED_COUNT; SLOTS];
    let bits = start(&mut buffer, depth.wrapping_mul(matrix.n) as usize);
    let _ = interleave(&matrix, words, bits);
    let sent = Sent {
        matrix,
        radius,
        words,
        depth,
        bits,
    };
    let tally = sent.tally(every);
    item(rt, tally.cases);
    item(rt, tally.mended);
}
