// The sum of rows that a message selects: the product of the message and the rows, modulo 2.
ghost use Rattle.std.specs.Prelude.{◌≡◌, map, ◌++◌, length, take, drop};
ghost use Rattle.coding.specs.Matrix.{encode};

use crate::tables::sums_by_tables;
use words::limits::WIDTH;
use words::word::selected;

// From so many words on tables are worth their making.
const MANY: usize = 16;

// The sum of the rows that the places of the message select.
pub fn row_sum(rows: &[u32], message: u32) -> u32
    ensures { result ≡ encode rows.now message }
{
    let mut sum = 0;
    let mut m = message;
    for &row in rows {
        sum ^= selected(row, m);
        m >>= 1;
    }
    sum
}

// Slot i becomes the row sum of word i, as far as there are slots; the later ones keep their values.
// By index: after a zip with `iter_mut` a proof knows nothing of the elements.
pub fn row_sums(rows: &[u32], words: &[u32], out: &mut [u32])
    ensures { out.new
        ≡ map (encode rows.now) (take (length out.old) words.now)
        ++ drop (length words.now) out.old }
{
    let m = words.len().min(out.len());
    if MANY <= m && rows.len() <= WIDTH {
        sums_by_tables(rows, &words[..m], &mut out[..m]);
        return;
    }
    for (i, &word) in words[..m].iter().enumerate() {
        out[i] = row_sum(rows, word);
    }
}
