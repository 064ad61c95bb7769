// Causes 1 to 4: which matrices are accepted.
ghost use Rattle.linear.specs.Judged.{Judged};

use crate::reduction::reduce;
use answers::Refusal;
use words::shape::Matrix;

// Causes 1 to 4: the first that refuses the matrix, or Ok where it is accepted.
pub fn accept(matrix: &Matrix) -> Result<(), Refusal>
    ensures { Judged matrix.now.n matrix.now.k matrix.now.rows.now result }
{
    reduce(matrix)?;
    Ok(())
}
