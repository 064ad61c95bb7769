// The (72,64) code, one word at a time, given as its check byte and its data. On a refusal 0 is written.
ghost use Rattle.hsiao.specs.Encoded.{Encoded};
ghost use Rattle.hsiao.specs.Decoded.{Decoded};
ghost use Rattle.hsiao.specs.MessageRead.{message_answer, MessageRead};
ghost use Rattle.telling.specs.Told.{Told, Wrote};

use hsiao::{Word, decode, encode, message};
use telling::tell;

// The check byte of the data; no data is refused.
#[unsafe(no_mangle)]
pub extern "C" fn relay_hsiao_encode(bits: u64) -> u8
    ensures { Encoded bits result }
{
    encode(bits)
}

// Corrects the word in place, at radius 1, and returns the count; a far word is left as it was, with count 255. No word is refused.
#[unsafe(no_mangle)]
pub extern "C" fn relay_hsiao_decode(check: &mut u8, bits: &mut u64) -> u8
    ensures { Decoded
        (record { check = check.old; «data» = bits.old })
        (record { word = record { check = check.new; «data» = bits.new }; count = result }) }
{
    let w = Word {
        check: *check,
        data: *bits,
    };
    let c = decode(w);
    *check = c.word.check;
    *bits = c.word.data;
    c.count
}

// Writes the data of a codeword.
#[unsafe(no_mangle)]
pub extern "C" fn relay_hsiao_message(check: u8, bits: u64, out: &mut u64, value: &mut usize) -> u32
    ensures { Told
        (Wrote (MessageRead (record { check = check; «data» = bits })) 0 out.new)
        (message_answer (record { check = check; «data» = bits }))
        result
        value.new }
{
    let w = Word { check, data: bits };
    let (number, data) = tell(message(w), 0, value);
    *out = data;
    number
}
