// Document 02, No. 3: the codes of 16, 32 and 64 data bits, (22,16), (39,32) and (72,64), by this number, their width. The columns of the
// shorter codes are the first ones of the table: they are the (72,64) code shortened, and have its sum of columns, syndrome and scan. The width
// is C's number, matched once in each call.
ghost use Rattle.std.specs.Prelude.{◌≡◌, true};
ghost use Rattle.answers.specs.Refusal.{done, answered};
ghost use Rattle.hsiao.specs.Widths.Code.{checks_of};
ghost use Rattle.hsiao.specs.Widths.Causes.{width_answer, word_answer};
ghost use Rattle.hsiao.specs.Widths.Encoded.{Encoded};
ghost use Rattle.hsiao.specs.Widths.Decoded.{Decoded};
ghost use Rattle.hsiao.specs.Widths.MessageRead.{MessageRead};

use crate::encoding::column_sum;
use crate::ending::outcome_at;
use crate::syndromes::syndrome;
use crate::word::Word;
use answers::Refusal;
use outcomes::Correction;

// The number of check bits; a number that is no width is refused.
fn checks_of(width: u32) -> Result<u32, Refusal>
    ensures { result ≡ answered (width_answer width true done) (checks_of width) }
{
    match width {
        16 => Ok(6),
        32 => Ok(7),
        64 => Ok(8),
        _ => Err(Refusal::NoWidth),
    }
}

// Causes 14 and 15: a number that is no width, then a word with a one beyond its check bits and data bits.
fn word_cause(width: u32, w: Word) -> Result<(), Refusal>
    ensures { result ≡ word_answer width w done }
{
    let checks = checks_of(width)?;
    let check_beyond = w.check.checked_shr(checks).unwrap_or(0);
    let data_beyond = w.data.checked_shr(width).unwrap_or(0);
    if check_beyond != 0 || data_beyond != 0 {
        return Err(Refusal::BeyondWidth);
    }
    Ok(())
}

// Each width has calls of its own, so that the compiler cuts tests and sum to it: a width at run time costs a quarter more, or two fifths.

// The check bits that make the data a codeword.
fn encoded<const WIDTH: u32>(bits: u64) -> Result<u8, Refusal>
    ensures { Encoded WIDTH bits result }
{
    let data = Word {
        check: 0,
        data: bits,
    };
    word_cause(WIDTH, data)?;
    Ok(column_sum(bits))
}

// Syndrome 0 is clean, a column of the width mends its place, any other is far.
fn decoded<const WIDTH: u32>(received: Word) -> Result<Correction<Word>, Refusal>
    ensures { Decoded WIDTH received result }
{
    word_cause(WIDTH, received)?;
    let s = syndrome(received);
    Ok(outcome_at(WIDTH, received, s).correction(received))
}

// The data of a codeword.
fn read<const WIDTH: u32>(w: Word) -> Result<u64, Refusal>
    ensures { MessageRead WIDTH w result }
{
    word_cause(WIDTH, w)?;
    crate::message(w)
}

// Encode. A width other than 16, 32 or 64 is refused, then data beyond it.
pub fn encode(width: u32, bits: u64) -> Result<u8, Refusal>
    ensures { Encoded width bits result }
{
    match width {
        16 => encoded::<16>(bits),
        32 => encoded::<32>(bits),
        64 => encoded::<64>(bits),
        _ => Err(Refusal::NoWidth),
    }
}

// Decode at radius 1. A width other than 16, 32 or 64 is refused, then a word beyond it.
pub fn decode(width: u32, received: Word) -> Result<Correction<Word>, Refusal>
    ensures { Decoded width received result }
{
    match width {
        16 => decoded::<16>(received),
        32 => decoded::<32>(received),
        64 => decoded::<64>(received),
        _ => Err(Refusal::NoWidth),
    }
}

// Message. A width other than 16, 32 or 64 is refused, then a word beyond it, then one that is no codeword.
pub fn message(width: u32, w: Word) -> Result<u64, Refusal>
    ensures { MessageRead width w result }
{
    match width {
        16 => read::<16>(w),
        32 => read::<32>(w),
        64 => read::<64>(w),
        _ => Err(Refusal::NoWidth),
    }
}
