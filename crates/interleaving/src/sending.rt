// Interleave: place j of word i becomes bit number L * j + i, L being the number of words.
ghost use Rattle.std.specs.Prelude.{◌≡◌, ◌+◌, ◌*◌, ◌≤◌, ◌<◌, length};
ghost use Rattle.coding.specs.Lists.{tabulate};
ghost use Rattle.coding.specs.Interleaving.{sent_bit};
ghost use Rattle.words.specs.Limits.{width};
ghost use Rattle.interleaving.specs.Interleaved.{Interleaved};
ghost use Rattle.interleaving.specs.Inner.Sent.{Sent};

use crate::causes::length_cause;
use answers::Refusal;
use linear::accept;
use words::lists::inside_cause;
use words::shape::Matrix;

// That n is a width stands in each contract: a type for it would be made for one call.
// Writes the places of word i, lowest first, as the bits i, L + i, 2 L + i and so on.
fn send_word(n: u32, words: &[u32], i: usize, bits: &mut [u8])
    requires i_in_bounds { (i < length words.now) × (length bits.old ≡ length words.now * n) × (n ≤ width) }
    requires sent { Sent words.now (length bits.old) i i bits.old }
    ensures { Sent words.now (length bits.old) (i + 1) (i + 1) bits.new }
{
    let word = words[i];
    for j in 0..n {
        bits[words.len() * j as usize + i] = ((word >> j) & 1) as u8;
    }
}

// Writes every bit.
fn send_words(n: u32, words: &[u32], bits: &mut [u8])
    requires { (0 < length words.now) × (length bits.old ≡ length words.now * n) × (n ≤ width) }
    ensures { bits.new ≡ tabulate (sent_bit words.now) (length bits.old) }
{
    for i in 0..words.len() {
        send_word(n, words, i, bits);
    }
}

// Writes the words, each of n places, as interleaved bits, one byte a bit.
pub fn interleave(matrix: &Matrix, words: &[u32], bits: &mut [u8]) -> Result<(), Refusal>
    ensures { Interleaved matrix.now.n matrix.now.k matrix.now.rows.now words.now bits.old result bits.new }
{
    accept(matrix)?;
    length_cause(matrix.n, words.len(), bits.len())?;
    inside_cause(words, matrix.n)?;
    send_words(matrix.n, words, bits);
    Ok(())
}
