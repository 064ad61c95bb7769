// Interleaving against bursts, with any generator matrix.
ghost use Rattle.std.specs.Prelude.{length};
ghost use Rattle.interleaving.specs.Causes.{interleave_answer, deinterleave_answer, interleaved_answer};
ghost use Rattle.interleaving.specs.Interleaved.{Interleaved};
ghost use Rattle.interleaving.specs.Deinterleaved.{Deinterleaved};
ghost use Rattle.interleaving.specs.Decoded.{DecodedInterleaved};
ghost use Rattle.telling.specs.Told.{Told};

use decoder::Lent;
use interleaving::{decode, deinterleave, interleave};
use telling::tell;
use words::shape::Matrix;

// Writes the words as interleaved bits, one byte a bit.
#[unsafe(no_mangle)]
pub extern "C" fn relay_interleave(
    n: u32,
    k: u32,
    rows: &[u32],
    words: &[u32],
    bits: &mut [u8],
    value: &mut usize,
) -> u32
    ensures { Told
        (λ a. Interleaved n k rows.now words.now bits.old a bits.new)
        (interleave_answer n k rows.now words.now (length bits.old))
        result
        value.new }
{
    let matrix = Matrix { n, k, rows };
    let r = interleave(&matrix, words, bits);
    tell(r, (), value).0
}

// Writes the words that the bits say.
#[unsafe(no_mangle)]
pub extern "C" fn relay_deinterleave(
    n: u32,
    k: u32,
    rows: &[u32],
    depth: usize,
    bits: &[u8],
    out: &mut [u32],
    value: &mut usize,
) -> u32
    ensures { Told
        (λ a. Deinterleaved n k rows.now depth bits.now out.old a out.new)
        (deinterleave_answer n k rows.now depth bits.now (length out.old))
        result
        value.new }
{
    let matrix = Matrix { n, k, rows };
    let r = deinterleave(&matrix, depth, bits, out);
    tell(r, (), value).0
}

// Decodes the words that the bits say, within the radius; the working list becomes the leaders.
#[unsafe(no_mangle)]
pub extern "C" fn relay_decode_interleaved(
    n: u32,
    k: u32,
    rows: &[u32],
    radius: u32,
    depth: usize,
    bits: &[u8],
    out: &mut [u32],
    counts: &mut [u8],
    work: &mut [u32],
    value: &mut usize,
) -> u32
    ensures { Told
        (λ a. DecodedInterleaved
        (record { n = n; k = k; rows = rows.now; radius = radius; depth = depth; bits = bits.now })
        (record { codewords = out.old; counts = counts.old; work = work.old })
        a
        (record { codewords = out.new; counts = counts.new; work = work.new }))
        (interleaved_answer n k rows.now radius depth bits.now
        (length out.old) (length counts.old) (length work.old))
        result
        value.new }
{
    let matrix = Matrix { n, k, rows };
    let mut lent = Lent {
        codewords: out,
        counts,
        work,
    };
    let r = decode(&matrix, radius, depth, bits, &mut lent);
    tell(r, (), value).0
}
