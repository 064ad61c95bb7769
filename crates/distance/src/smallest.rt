// The smallest codeword of a weight, without a walk over all codewords: a sum of t reduced rows weighs at least t, so that a codeword of
// weight w is a sum of at most w of them.
ghost use Rattle.std.specs.Prelude.{◌≡◌, min};
ghost use Rattle.distance.specs.Inner.LeastSum.{of_weight};
ghost use Rattle.distance.specs.SmallestSum.{SmallestSum};

use crate::search::least_sum;
use words::word::weight;

// The smaller of best and, where it weighs w, a word. Only a smaller word is weighed.
fn smaller(best: u32, word: u32, w: u32) -> u32
    ensures { result ≡ min best (of_weight w word) }
{
    if word < best && weight(word) == w {
        word
    } else {
        best
    }
}

// The smallest of the sums of at most w rows that weigh w, and no word where none does.
pub fn smallest_weighing(rows: &[u32], w: u32) -> u32
    ensures { SmallestSum rows.now w result }
{
    let keep = move |best: u32, word: u32| smaller(best, word, w);
    // No word is larger. A number, as `SmallestSum` says: with an Option each sum would be tested for it.
    let mut best = u32::MAX;
    for t in 1..=rows.len().min(w as usize) {
        best = least_sum(rows, t, 0, &keep, best);
    }
    best
}
