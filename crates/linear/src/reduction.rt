// Part 1: the reduced row echelon form.
ghost use Rattle.std.specs.Prelude.{◌≡◌, ◌<◌, ◌≤◌, ◌^◌, length, set};
ghost use Rattle.coding.specs.Matrix.{Inside};
ghost use Rattle.coding.specs.Lists.{padded};
ghost use Rattle.coding.specs.Inner.Beside.{wipes};
ghost use Rattle.coding.specs.Reduce.{rows_of};
ghost use Rattle.words.specs.Limits.{max_rows, width};
ghost use Rattle.linear.specs.Inner.Eliminated.{Eliminated};
ghost use Rattle.linear.specs.Reduction.{ReductionOf};
ghost use Rattle.linear.specs.ReducedRows.{ReducedRowsOf};

use answers::Refusal;
use words::limits::{MAX_ROWS, WIDTH};
use words::shape::Matrix;
use words::word::selected;

// Reduced rows listed by place: entry p is the row whose pivot is p, or 0. Beside each stands a message that has it as its codeword; these are
// two lists, since callers take each as a list of words.
#[derive(Drop)]
pub(crate) struct Elimination {
    pub(crate) rank: usize,
    pub(crate) table: [u32; WIDTH],
    pub(crate) messages: [u32; WIDTH],
}

// Adds x to the entries beside the rows that have a one at place q, and puts x at q.
fn put(rows: &[u32; WIDTH], entries: &mut [u32; WIDTH], q: usize, x: u32)
    requires { q < width }
    ensures { entries.new ≡ set (wipes q rows.now entries.old x) q x }
{
    for (p, entry) in entries.iter_mut().enumerate() {
        *entry ^= selected(x, rows[p] >> q);
    }
    entries[q] = x;
}

// Gauss-Jordan elimination over rows and places: each row is cleared at the pivots of the rows before it, and the search ends
// at the first row that cancels to zero.
pub(crate) fn eliminate(rows: &[u32]) -> Elimination
    requires rows_len_bound { length rows.now ≤ width }
    requires inside { Inside width rows.now }
    ensures { Eliminated rows.now result }
{
    let mut table = [0u32; WIDTH];
    let mut messages = [0u32; WIDTH];
    let mut rank = 0;
    for (i, &row) in rows.iter().enumerate() {
        let mut x = row;
        let mut m = 1u32 << i;
        for p in 0..WIDTH {
            let digit = x >> p;
            x ^= selected(table[p], digit);
            m ^= selected(messages[p], digit);
        }
        if x == 0 {
            break;
        }
        let q = x.trailing_zeros() as usize;
        let before = table;
        put(&before, &mut table, q, x);
        put(&before, &mut messages, q, m);
        rank = i + 1;
    }
    Elimination {
        rank,
        table,
        messages,
    }
}

// Of an accepted matrix its k reduced rows, 0 after them, and by pivot these rows and their messages, 0 at every other entry.
#[derive(Drop)]
pub struct Reduction {
    pub rows: [u32; MAX_ROWS],
    pub table: [u32; WIDTH],
    pub messages: [u32; WIDTH],
}

// The rows of a table by place, without the places that are no pivot.
fn compact(table: &[u32]) -> [u32; MAX_ROWS]
    requires { length (rows_of table.now) ≤ max_rows }
    ensures { result ≡ padded max_rows (rows_of table.now) }
{
    let mut rows = [0u32; MAX_ROWS];
    for (j, &row) in table.iter().filter(|row| **row != 0).enumerate() {
        rows[j] = row;
    }
    rows
}

// Causes 1 to 4, and the elimination that tells the fourth.
pub fn reduce(matrix: &Matrix) -> Result<Reduction, Refusal>
    ensures { ReductionOf matrix.now.n matrix.now.k matrix.now.rows.now result }
{
    matrix.shape_cause()?;
    let e = eliminate(matrix.rows);
    if e.rank != matrix.rows.len() {
        return Err(Refusal::Dependent(e.rank));
    }
    Ok(Reduction {
        rows: compact(&e.table),
        table: e.table,
        messages: e.messages,
    })
}

// The reduced row echelon form of an accepted matrix: its k rows, and 0 after them.
pub fn reduced_rows(matrix: &Matrix) -> Result<[u32; MAX_ROWS], Refusal>
    ensures { ReducedRowsOf matrix.now.n matrix.now.k matrix.now.rows.now result }
{
    Ok(reduce(matrix)?.rows)
}
