// Causes 1 to 4, and what is taken from the matrix: one elimination, and the minimum distance only where it is asked for.
ghost use Rattle.words.specs.Accepted.{matrix_answer};
ghost use Rattle.words.specs.Widest.{EveryRow};
ghost use Rattle.judging.specs.Known.{KnownPast};

use answers::Refusal;
use distance::{Distance, distance_of};
use parity::parity_checks;
use words::limits::MAX_CHECKS;
use words::shape::Matrix;

// What the matrix told past some causes: the check rows and, where it was asked for, the minimum distance.
#[derive(Drop)]
pub struct Known {
    pub checks: [u32; MAX_CHECKS],
    pub dmin: Option<u32>,
}

// Causes 1 to 4, and past them what the matrix told.
// Whether it is measured is a bool, no closure: the callers differ in nothing else.
pub(crate) fn known_past_4(matrix: &Matrix, measure: bool) -> Result<Known, Refusal>
    ensures known { KnownPast measure matrix.now.n matrix.now.rows.now (matrix_answer matrix.now.n matrix.now.k matrix.now.rows.now) result }
    ensures every_row { EveryRow matrix.now.n (matrix_answer matrix.now.n matrix.now.k matrix.now.rows.now) }
{
    if measure {
        let Distance { checks, dmin } = distance_of(matrix)?;
        return Ok(Known {
            checks,
            dmin: Some(dmin),
        });
    }
    Ok(Known {
        checks: parity_checks(matrix)?,
        dmin: None,
    })
}
