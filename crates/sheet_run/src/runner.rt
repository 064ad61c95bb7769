// The run: the bytes of a sheet to the bytes printed.
ghost use Rattle.std.specs.Prelude.{IsSome, ◌↔◌, ◌+◌, ◌*◌, ◌≤◌, length};
ghost use Rattle.std.specs.Option.{unwrap_or};
ghost use Rattle.sheet_run.specs.Output.{batch_output, printed};
ghost use Rattle.sheet_run.specs.Run.{Ran};
ghost use Rattle.lines.specs.Put.{max_output, Put};

use crate::load::load;
use decoder::{Lent, decode_measured};
use judging::Batch;
use lines::{MAX_OUTPUT, put_batch, put_refusal};
use sheet::{Sheet, read};
use words::limits::MAX_WORDS;
use words::shape::Matrix;

// More rows and words than any sheet is accepted with: a longer list is refused under the same cause.
const ROWS_READ: usize = 33;

const WORDS_READ: usize = 513;

// A working entry for each syndrome.
const LEADERS: usize = 4096;

// A batch is decoded and printed.
fn run_batch(batch: &Batch, out: &mut [u8]) -> Option<usize>
    ensures { Put (max_output ≤ length out.old) out.old
        (batch_output batch.now.matrix.n batch.now.matrix.k batch.now.matrix.rows.now batch.now.reading batch.now.words.now) out.new result }
{
    let mut lent = Lent {
        codewords: &mut [0; MAX_WORDS],
        counts: &mut [0; MAX_WORDS],
        work: &mut [0; LEADERS],
    };
    match decode_measured(batch, &mut lent) {
        Ok(dmin) => {
            let Matrix { n, k, .. } = batch.matrix;
            let count = batch.words.len();
            let Lent {
                codewords,
                counts,
                ..
            } = lent;
            put_batch(out, n, k, dmin, &codewords[..count], &counts[..count])
        }
        Err(c) => put_refusal(out, c.number(), c.value()),
    }
}

// Rows and words are copied from the bytes, as many as a batch may have and one more.
fn run_sheet(bytes: &[u8], s: Sheet, out: &mut [u8]) -> Option<usize>
    requires { (s.rows.at + 4 * s.rows.count ≤ length bytes.now) × (s.words.at + 4 * s.words.count ≤ length bytes.now) }
    ensures { Put (max_output ≤ length out.old) out.old (printed bytes.now (Ok s)) out.new result }
{
    let mut rows = [0; ROWS_READ];
    let mut words = [0; WORDS_READ];
    let batch = Batch {
        matrix: Matrix {
            n: s.n,
            k: s.k,
            rows: load(bytes, s.rows, &mut rows),
        },
        reading: s.reading,
        words: load(bytes, s.words, &mut words),
    };
    run_batch(&batch, out)
}

// The output for a sheet, into the first slots of a list that holds the longest; answers its length. A shorter list is left as it was.
pub fn run(sheet: &[u8], out: &mut [u8]) -> Option<usize>
    ensures ran { Ran sheet.now out.old (unwrap_or result 0) out.new }
    ensures room { IsSome result ↔ max_output ≤ length out.old }
{
    if out.len() < MAX_OUTPUT {
        return None;
    }
    match read(sheet) {
        Ok(s) => run_sheet(sheet, s, out),
        Err(f) => put_refusal(out, f.number(), f.value()),
    }
}
