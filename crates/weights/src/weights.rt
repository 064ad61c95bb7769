// Part 3 alone: weight counts, minimum distance and the lightest codeword.
ghost use Rattle.weights.specs.Description.{WeightsOf};

use crate::description::describe;
use answers::Refusal;
use words::limits::WEIGHT_SLOTS;
use words::shape::Matrix;

// The minimum distance of an accepted matrix, how many codewords it has of each weight (0 past n), and its lightest codeword, the smallest of
// those of weight dmin.
#[derive(Drop)]
pub struct Weights {
    pub dmin: u32,
    pub counts: [u32; WEIGHT_SLOTS],
    pub lightest: u32,
}

// Part 3 of an accepted matrix.
pub fn weights_of(matrix: &Matrix) -> Result<Weights, Refusal>
    ensures { WeightsOf matrix.now.n matrix.now.k matrix.now.rows.now result }
{
    Ok(describe(matrix)?.weights)
}
