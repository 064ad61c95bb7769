// Message: codewords are read back to the messages of the matrix as given.
ghost use Rattle.std.specs.Prelude.{◌≡◌, map, ◌≤◌, length, take};
ghost use Rattle.coding.specs.Check.{syndrome};
ghost use Rattle.words.specs.Limits.{max_words};
ghost use Rattle.words.specs.Shape.{some_outside};
ghost use Rattle.encoder.specs.MessagesRead.{MessagesRead};

use answers::Refusal;
use parity::{code_of, syndromes};
use sums::row_sums;
use words::limits::{MAX_CHECKS, MAX_WORDS};
use words::lists::list_cause;
use words::shape::{Matrix, first_outside};

// The first word whose syndrome by the first c check rows is not 0, if there is one. The syndromes stand in a list of their own.
// c stands beside the array as in `parity::syndromes`. Never in line: its list is not on the stack while the matrix is reduced.
#[inline(never)]
fn first_other(checks: &[u32; MAX_CHECKS], c: usize, words: &[u32]) -> Option<usize>
    requires { length words.now ≤ max_words }
    ensures { result ≡ some_outside 0 (map (syndrome (take c checks.now)) words.now) }
{
    let mut list = [0u32; MAX_WORDS];
    syndromes(checks, c, words, &mut list);
    first_outside(&list[..words.len()], 0)
}

// Writes the message of each codeword.
pub fn message(matrix: &Matrix, words: &[u32], out: &mut [u32]) -> Result<(), Refusal>
    ensures { MessagesRead matrix.now.n matrix.now.k matrix.now.rows.now words.now out.old result out.new }
{
    let code = code_of(matrix)?;
    list_cause(words, matrix.n, out.len())?;
    if let Some(i) = first_other(&code.checks, matrix.check_count(), words) {
        return Err(Refusal::NoCodeword(i));
    }
    row_sums(&code.messages, words, out);
    Ok(())
}
