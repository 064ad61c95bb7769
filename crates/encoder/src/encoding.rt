// Encode: the message times the matrix, modulo 2.
ghost use Rattle.encoder.specs.Encoded.{Encoded};

use answers::Refusal;
use linear::accept;
use sums::row_sums;
use words::lists::list_cause;
use words::shape::Matrix;

// Writes the codeword of each message of k places.
pub fn encode(matrix: &Matrix, messages: &[u32], out: &mut [u32]) -> Result<(), Refusal>
    ensures { Encoded matrix.now.n matrix.now.k matrix.now.rows.now messages.now out.old result out.new }
{
    accept(matrix)?;
    list_cause(messages, matrix.k, out.len())?;
    row_sums(matrix.rows, messages, out);
    Ok(())
}
