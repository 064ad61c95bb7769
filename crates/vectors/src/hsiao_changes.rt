// Operations 42, 43, 52 and 53: every check beside the same data, and a codeword changed in one, two or three places, of the (72,64) code
// by its own calls and of the codes of 16, 32 and 64 data bits by their width.
use crate::print::item;
use crate::records::Entry;
use hsiao::{Word, decode, encode, widths};
use outcomes::Correction;

// What a refused decode gives.
pub(crate) const NOTHING: Correction<Word> = Correction {
    word: Word { check: 0, data: 0 },
    count: 0,
};

// The calls of a code: those of the (72,64) code, or those by a width. The width stays the number of the record, which the calls of
// hsiao::widths take: an enum would be made from it here and turned back at each call.
#[derive(Clone, Copy)]
pub(crate) enum Calls {
    Own,
    Width(u32),
}

impl Calls {
    // The number of check places.
    fn checks(self) -> u32 {
        match self {
            Calls::Width(16) => 6,
            Calls::Width(32) => 7,
            _ => 8,
        }
    }

    // The number of all places; the check places come first.
    fn places(self) -> u32 {
        match self {
            Calls::Width(16) => 22,
            Calls::Width(32) => 39,
            _ => 72,
        }
    }

    // The codeword of the data.
    fn encode(self, data: u64) -> Word {
        let check = match self {
            Calls::Own => encode(data),
            Calls::Width(width) => widths::encode(width, data).unwrap_or(0),
        };
        Word { check, data }
    }

    // The word and its count.
    fn decode(self, received: Word) -> Correction<Word> {
        match self {
            Calls::Own => decode(received),
            Calls::Width(width) => widths::decode(width, received).unwrap_or(NOTHING),
        }
    }

    // The word with place p changed.
    fn changed(self, w: Word, p: u32) -> Word {
        match p.checked_sub(self.checks()) {
            None => Word {
                check: w.check ^ 1u8.wrapping_shl(p),
                data: w.data,
            },
            Some(p) => Word {
                check: w.check,
                data: w.data ^ 1u64.wrapping_shl(p),
            },
        }
    }

    // Whether the word received is answered so.
    fn answers(self, received: Word, answer: Word, count: u8) -> bool {
        self.decode(received)
            == Correction {
                word: answer,
                count,
            }
    }

    // Whether the word with place p changed is far, and answered unchanged.
    fn is_far(self, w: Word, p: u32) -> bool {
        let received = self.changed(w, p);
        self.answers(received, received, 255)
    }

    // How many places can be changed so that the codeword comes back with count 1.
    fn returned(self, w: Word) -> usize {
        (0..self.places())
            .filter(|p| self.answers(self.changed(w, *p), w, 1))
            .count()
    }

    // How many places from `first` on can be changed so that the word is far.
    fn far(self, w: Word, first: u32) -> usize {
        (first..self.places())
            .filter(|p| self.is_far(w, *p))
            .count()
    }

    // The same for pairs of places from `first` on.
    fn far_pairs(self, w: Word, first: u32) -> usize {
        (first..self.places())
            .map(|p| self.far(self.changed(w, p), p + 1))
            .fold(0, usize::wrapping_add)
    }
}

// Whether the codeword is clean, how many single changes come back, how many pairs are far, and how many triples with place 0.
pub(crate) fn changes(rt: &impl Print, calls: Calls, data: u64) {
    let w = calls.encode(data);
    item(rt, u8::from(calls.answers(w, w, 0)));
    item(rt, calls.returned(w));
    item(rt, calls.far_pairs(w, 0));
    item(rt, calls.far_pairs(calls.changed(w, 0), 1));
}

// How many checks beside the data give this count.
pub(crate) fn with_count(rt: &impl Print, calls: Calls, data: u64, count: u32) {
    let found = |check| calls
        .decode(Word {
            check: u8::of(check),
            data,
        })
        .count;
    let checks = 0..1u32.wrapping_shl(calls.checks());
    item(
        rt,
        checks
            .filter(|check| u32::from(found(*check)) == count)
            .count(),
    );
}
