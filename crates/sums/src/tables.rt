// The sums of some rows by message, in a table; and the row sums of many words from such tables, eight rows at a time.
ghost use Rattle.std.specs.Prelude.{◌≡◌, map, ◌+◌, ◌/◌, ◌%◌, ◌^◌, ◌<◌, ◌≤◌, length, get_or};
ghost use Rattle.coding.specs.Lists.{tabulate};
ghost use Rattle.coding.specs.Word.{◌⊕◌};
ghost use Rattle.coding.specs.Matrix.{encode};
ghost use Rattle.words.specs.Limits.{width};
ghost use Rattle.sums.specs.Inner.Doubled.{Doubled};

// The rows of a table, and its sums.
const TABLE_ROWS: usize = 8;

const TABLE: usize = 256;

// So many entries from half on become those from 0 on, each with the row added. By index, since one list is read and written.
fn double(table: &mut [u32], half: usize, count: usize, row: u32)
    requires { (count ≤ half) × (half + count ≤ length table.old) }
    ensures { Doubled table.old half count row table.new }
{
    for j in 0..count {
        table[half + j] = table[j] ^ row;
    }
}

// Entry j becomes the row sum of message j: with each row the sums are twice as many.
pub fn fill_sums(rows: &[u32], table: &mut [u32])
    ensures { table.new ≡ tabulate (encode rows.now) (length table.old) }
{
    if table.is_empty() {
        return;
    }
    table[0] = 0;
    let mut half = 1;
    let mut left = rows.iter();
    // The filled part doubles, which no range or list has as its steps.
    while half < table.len() {
        let count = half.min(table.len() - half);
        let row = left.next().copied().unwrap_or(0);
        double(table, half, count, row);
        half += count;
    }
}

// To each sum is added the entry for eight places of its word, from `place` on.
// By index: after a zip with `iter_mut` a proof knows nothing of the elements.
fn add_from(table: &[u32; TABLE], place: usize, words: &[u32], sums: &mut [u32])
    requires { (place < width) × (length words.now ≡ length sums.old) }
    ensures { sums.new
        ≡ tabulate (λ v. get_or sums.old v 0 ⊕ get_or table.now (get_or words.now v 0 / 2 ^ place % 256) 0)
        (length sums.old) }
{
    for (v, sum) in sums.iter_mut().enumerate() {
        *sum ^= table[((words[v] >> place) & 255) as usize];
    }
}

// The row sum of each word.
pub(crate) fn sums_by_tables(rows: &[u32], words: &[u32], sums: &mut [u32])
    requires { (length rows.now ≤ width) × (length words.now ≡ length sums.old) }
    ensures { sums.new ≡ map (encode rows.now) words.now }
{
    sums.fill(0);
    let mut table = [0u32; TABLE];
    for (g, group) in rows.chunks(TABLE_ROWS).enumerate() {
        fill_sums(group, &mut table);
        add_from(&table, g * TABLE_ROWS, words, sums);
    }
}
