// Describe: what a matrix's code is, by value.
ghost use Rattle.weights.specs.Description.{DescriptionOf};

use crate::dual::walk_code;
use crate::weights::Weights;
use answers::Refusal;
use parity::code_of;
use walk::Walk;
use words::limits::{MAX_CHECKS, MAX_ROWS};
use words::shape::Matrix;

// Of an accepted matrix its reduced rows and its check rows, each with 0 after them, and its weights.
#[derive(Drop)]
pub struct Description {
    pub rows: [u32; MAX_ROWS],
    pub checks: [u32; MAX_CHECKS],
    pub weights: Weights,
}

// One elimination, and one walk over the codewords or, where they are many, over the sums of the check rows.
pub fn describe(matrix: &Matrix) -> Result<Description, Refusal>
    ensures { DescriptionOf matrix.now.n matrix.now.k matrix.now.rows.now result }
{
    let c = code_of(matrix)?;
    let Walk { counts, lightest } = walk_code(
        matrix,
        &c.rows[..matrix.k as usize],
        &c.checks[..matrix.check_count()],
    );
    // Some codeword of an accepted matrix is not 0.
    let lightest = lightest.unwrap();
    Ok(Description {
        rows: c.rows,
        checks: c.checks,
        weights: Weights {
            dmin: lightest.weight,
            counts,
            lightest: lightest.word,
        },
    })
}
