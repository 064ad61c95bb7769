// Causes 16 and 17: the depth and the list of bits.
ghost use Rattle.std.specs.Prelude.{◌≡◌};
ghost use Rattle.interleaving.specs.Causes.{only_bits, length_answer, bits_answer};

use answers::Refusal;
use words::limits::MAX_DEPTH;

// Cause 16, and 17 for a list of another length than depth times n.
pub(crate) fn length_cause(n: u32, depth: usize, length: usize) -> Result<(), Refusal>
    ensures { result ≡ length_answer n depth length }
{
    if depth < 1 {
        return Err(Refusal::NoDepth);
    }
    if MAX_DEPTH < depth {
        return Err(Refusal::NoDepth);
    }
    if length != depth * n as usize {
        return Err(Refusal::NoBits);
    }
    Ok(())
}

// Whether no byte is above 1; the bytes are joined, so that no test is made for each. One function for these and for the words of
// `words::shape` would need a trait with the laws of `|` in place of two lines.
fn only_bits(bits: &[u8]) -> bool
    ensures { result ≡ only_bits bits.now }
{
    bits.iter().fold(0, |all, b| all | b) < 2
}

// Causes 16 and 17 of received bits. The depth is given beside them, since cause 17 holds it against their number.
pub(crate) fn bits_cause(n: u32, depth: usize, bits: &[u8]) -> Result<(), Refusal>
    ensures { result ≡ bits_answer n depth bits.now }
{
    length_cause(n, depth, bits.len())?;
    if only_bits(bits) {
        return Ok(());
    }
    Err(Refusal::NoBits)
}
