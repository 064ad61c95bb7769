// The minimum distance alone, without a walk over all codewords: the sums of the reduced rows by rising number of rows. Each row that is
// added keeps its own pivot, so that a sum of t rows weighs at least t, and the search ends as soon as t reaches the least weight met.
ghost use Rattle.std.specs.Prelude.{◌≡◌};
ghost use Rattle.coding.specs.Weight.{dmin};
ghost use Rattle.distance.specs.Distance.{DistanceOf};
ghost use Rattle.distance.specs.Inner.LeastSum.{ReducedMatrix};

use crate::search::least_sum;
use answers::Refusal;
use parity::code_of;
use walk::walk_all;
use words::limits::{MAX_CHECKS, WEIGHT_SLOTS};
use words::shape::Matrix;
use words::word::weight;

// With so few rows the walk over all codewords takes less than the sums of four rows and more.
const WALKED_ROWS: usize = 12;

const SUMMED_ROWS: usize = 3;

// The minimum distance of reduced rows. Never in line: the lists of the walk are not on the stack while the matrix is reduced.
#[inline(never)]
fn least_weight(rows: &[u32]) -> u32
    requires { ReducedMatrix rows.now }
    ensures { result ≡ dmin rows.now }
{
    let lighter = |least: u32, word: u32| least.min(weight(word));
    // Heavier than any word.
    let mut best = WEIGHT_SLOTS as u32;
    for t in 1..=rows.len() {
        if best as usize <= t {
            return best;
        }
        if SUMMED_ROWS < t && rows.len() <= WALKED_ROWS {
            return walk_all(rows).lightest.map_or(best, |l| l.weight);
        }
        best = least_sum(rows, t, 0, &lighter, best);
    }
    best
}

// Of an accepted matrix its check rows and its minimum distance.
#[derive(Drop)]
pub struct Distance {
    pub checks: [u32; MAX_CHECKS],
    pub dmin: u32,
}

// One elimination and the search.
pub fn distance_of(matrix: &Matrix) -> Result<Distance, Refusal>
    ensures { DistanceOf matrix.now.n matrix.now.k matrix.now.rows.now result }
{
    let c = code_of(matrix)?;
    Ok(Distance {
        checks: c.checks,
        dmin: least_weight(&c.rows[..matrix.k as usize]),
    })
}
