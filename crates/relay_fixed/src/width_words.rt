// The codes of 16, 32 and 64 data bits, one word at a time, by the width, given as its check bits and its data. On a refusal 0 is written.
ghost use Rattle.answers.specs.Refusal.{done};
ghost use Rattle.hsiao.specs.Widths.Causes.{data_answer, word_answer};
ghost use Rattle.hsiao.specs.Widths.Encoded.{Encoded};
ghost use Rattle.hsiao.specs.Widths.Decoded.{Decoded};
ghost use Rattle.hsiao.specs.Widths.MessageRead.{message_answer, MessageRead};
ghost use Rattle.telling.specs.Told.{Told, Wrote};

use hsiao::Word;
use outcomes::Correction;
use telling::tell;

// Writes the check bits of the data.
#[unsafe(no_mangle)]
pub extern "C" fn relay_hsiao_width_encode(
    width: u32,
    bits: u64,
    check: &mut u8,
    value: &mut usize,
) -> u32
    ensures { Told (Wrote (Encoded width bits) 0 check.new) (data_answer width bits) result value.new }
{
    let (number, checks) = tell(hsiao::widths::encode(width, bits), 0, value);
    *check = checks;
    number
}

// Writes the codeword within one place of the word, and the count; a far word is written unchanged with count 255.
#[unsafe(no_mangle)]
pub extern "C" fn relay_hsiao_width_decode(
    width: u32,
    check: u8,
    bits: u64,
    out_check: &mut u8,
    out_bits: &mut u64,
    count: &mut u8,
    value: &mut usize,
) -> u32
    ensures { Told
        (Wrote
        (Decoded width (record { check = check; «data» = bits }))
        (record { word = record { check = 0; «data» = 0 }; count = 0 })
        (record { word = record { check = out_check.new; «data» = out_bits.new }; count = count.new }))
        (word_answer width (record { check = check; «data» = bits }) done)
        result
        value.new }
{
    let w = Word { check, data: bits };
    let none = Correction {
        word: Word { check: 0, data: 0 },
        count: 0,
    };
    let (number, c) = tell(hsiao::widths::decode(width, w), none, value);
    *out_check = c.word.check;
    *out_bits = c.word.data;
    *count = c.count;
    number
}

// Writes the data of a codeword.
#[unsafe(no_mangle)]
pub extern "C" fn relay_hsiao_width_message(
    width: u32,
    check: u8,
    bits: u64,
    out: &mut u64,
    value: &mut usize,
) -> u32
    ensures { Told
        (Wrote (MessageRead width (record { check = check; «data» = bits })) 0 out.new)
        (message_answer width (record { check = check; «data» = bits }))
        result
        value.new }
{
    let w = Word { check, data: bits };
    let (number, data) = tell(hsiao::widths::message(width, w), 0, value);
    *out = data;
    number
}
