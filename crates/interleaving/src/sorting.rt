// Deinterleave: the received bits are sorted back, place j of word i being bit number L * j + i.
ghost use Rattle.std.specs.Prelude.{◌≡◌, ◌++◌, ◌*◌, ◌%◌, ◌^◌, ◌≤◌, ◌<◌, length, drop};
ghost use Rattle.coding.specs.Word.{◌⊕◌};
ghost use Rattle.coding.specs.Matrix.{Inside};
ghost use Rattle.coding.specs.Interleaving.{sorted_word, sorted_words};
ghost use Rattle.words.specs.Limits.{width, max_depth};
ghost use Rattle.interleaving.specs.Deinterleaved.{Deinterleaved};

use crate::causes::bits_cause;
use answers::Refusal;
use linear::accept;
use words::lists::room_cause;
use words::shape::Matrix;

// The word with each place one higher, and the bit as its lowest.
fn with_lowest(w: u32, bit: u8) -> u32
    ensures { result ≡ (w * 2 ^ 1) % 2 ^ 32 ⊕ bit }
{
    (w << 1) ^ u32::from(bit)
}

// That n is a width stands in each contract: a type for it would be made for one call.
// Word i, its places read from the highest to the lowest, two a turn. A `for` over the places, or over pairs of
// them, takes more than the 8 instructions a bit that docs/BENCHMARKS.md allows where n is 7.
fn sorted_word(bits: &[u8], depth: usize, n: u32, i: usize) -> u32
    requires { (length bits.now ≡ depth * n) × Inside 1 bits.now × (n ≤ width) × (i < depth) × (depth ≤ max_depth) }
    ensures { result ≡ sorted_word n depth bits.now i }
{
    let mut w: u32 = 0;
    let mut b = depth * n as usize + i;
    while 2 * depth <= b {
        w = with_lowest(w, bits[b - depth]);
        b -= 2 * depth;
        w = with_lowest(w, bits[b]);
    }
    if depth <= b {
        return with_lowest(w, bits[b - depth]);
    }
    w
}

// Slot i becomes word i; the later slots keep their values. The depth is known of the bits, so that nothing is tested here.
pub(crate) fn sort_words(bits: &[u8], depth: usize, n: u32, out: &mut [u32])
    requires { (length bits.now ≡ depth * n) × Inside 1 bits.now × (n ≤ width) × (depth ≤ length out.old) × (depth ≤ max_depth) }
    ensures { out.new ≡ sorted_words n depth bits.now ++ drop depth out.old }
{
    for (i, word) in out[..depth].iter_mut().enumerate() {
        *word = sorted_word(bits, depth, n, i);
    }
}

// Writes the words that the bits say. Depth and n stand beside the bits, since each may be wrong and is refused by its own cause.
pub fn deinterleave(
    matrix: &Matrix,
    depth: usize,
    bits: &[u8],
    out: &mut [u32],
) -> Result<(), Refusal>
    ensures { Deinterleaved matrix.now.n matrix.now.k matrix.now.rows.now depth bits.now out.old result out.new }
{
    accept(matrix)?;
    bits_cause(matrix.n, depth, bits)?;
    room_cause(depth, out.len())?;
    sort_words(bits, depth, matrix.n, out);
    Ok(())
}
