// The syndromes of a batch: one check row after the other, the last first, over all words.
ghost use Rattle.std.specs.Prelude.{◌≡◌, map, ◌≤◌, length, take};
ghost use Rattle.coding.specs.Lists.{tabulate};
ghost use Rattle.coding.specs.Check.{syndrome};
ghost use Rattle.words.specs.Limits.{width};
ghost use Rattle.parity.specs.Syndromes.{SyndromesOf};
ghost use Rattle.parity.specs.Inner.Joined.{joined_by};

use words::limits::MAX_CHECKS;
use words::word::parity;

// Each list entry is moved up by one place, and the parity of its word by the check row is its place 0.
// By index: after a zip with `iter_mut` a proof knows nothing of the elements.
fn join_row(row: u32, words: &[u32], list: &mut [u32])
    requires { length words.now ≡ length list.old }
    ensures { list.new ≡ tabulate (joined_by row words.now list.old) (length list.old) }
{
    for (v, s) in list.iter_mut().enumerate() {
        *s = (*s << 1) ^ parity(words[v], row);
    }
}

// The syndrome of each word.
fn join_rows(checks: &[u32], words: &[u32], list: &mut [u32])
    requires { (length checks.now ≤ width) × (length words.now ≡ length list.old) }
    ensures { list.new ≡ map (syndrome checks.now) words.now }
{
    list.fill(0);
    for row in checks.iter().rev() {
        join_row(*row, words, list);
    }
}

// Slot i becomes the syndrome of word i by the first c check rows, as far as there are slots; the later ones keep their values. The array's type
// bounds the rows, where a slice would have to demand it, so that c stands beside it.
pub fn syndromes(checks: &[u32; MAX_CHECKS], c: usize, words: &[u32], out: &mut [u32])
    ensures { SyndromesOf (take c checks.now) words.now out.old out.new }
{
    let r = c.min(MAX_CHECKS);
    let m = words.len().min(out.len());
    join_rows(&checks[..r], &words[..m], &mut out[..m]);
}
