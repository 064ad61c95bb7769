// Decode within a radius after sorting back.
ghost use Rattle.decoder.specs.Given.{lists_of, SameLists};
ghost use Rattle.interleaving.specs.Decoded.{DecodedInterleaved};

use crate::causes::bits_cause;
use crate::sorting::sort_words;
use answers::Refusal;
use decoder::Lent;
use judging::{Batch, code_cause};
use outcomes::Reading;
use words::limits::{MAX_DEPTH, MAX_PLACES};
use words::shape::Matrix;

// Decodes the words that the bits say, within the radius. The codewords are walked once: by Decode, or, where the bits are refused, for
// causes 1 to 5, which come first. Words of more places than any code has are refused before bits are read by them.
pub fn decode(
    matrix: &Matrix,
    radius: u32,
    depth: usize,
    bits: &[u8],
    lent: &mut Lent,
) -> Result<(), Refusal>
    ensures decoded { DecodedInterleaved
        (record { n = matrix.now.n; k = matrix.now.k; rows = matrix.now.rows.now; radius = radius; depth = depth; bits = bits.now })
        (lists_of lent.old)
        result
        (lists_of lent.new) }
    ensures same_lists { SameLists lent.old lent.new }
{
    if MAX_PLACES < matrix.n {
        return Err(Refusal::OutOfRange);
    }
    let reading = Reading::Within(radius);
    if let Err(refused) = bits_cause(matrix.n, depth, bits) {
        code_cause(matrix, reading)?;
        return Err(refused);
    }
    let mut words = [0u32; MAX_DEPTH];
    sort_words(bits, depth, matrix.n, &mut words);
    let batch = Batch {
        matrix: *matrix,
        reading,
        words: &words[..depth],
    };
    decoder::decode(&batch, lent)
}
