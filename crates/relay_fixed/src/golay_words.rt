// The extended Golay code (24,12), one word at a time. On a refusal 0 is written.
ghost use Rattle.golay.specs.Encoded.{encode_answer, Encoded};
ghost use Rattle.golay.specs.Decoded.{decode_answer, Decoded};
ghost use Rattle.golay.specs.MessageRead.{message_answer, MessageRead};
ghost use Rattle.telling.specs.Told.{Told, Wrote};

use golay::{decode, encode};
use outcomes::Correction;
use telling::tell;

// Writes the codeword of a message of 12 places.
#[unsafe(no_mangle)]
pub extern "C" fn relay_golay_encode(message: u32, word: &mut u32, value: &mut usize) -> u32
    ensures { Told (Wrote (Encoded message) 0 word.new) (encode_answer message) result value.new }
{
    let (number, codeword) = tell(encode(message), 0, value);
    *word = codeword;
    number
}

// Writes the codeword within three places of a word of 24, and its distance; a far word is answered unchanged with count 255.
#[unsafe(no_mangle)]
pub extern "C" fn relay_golay_decode(
    received: u32,
    word: &mut u32,
    count: &mut u8,
    value: &mut usize,
) -> u32
    ensures { Told
        (Wrote (Decoded received) (record { word = 0; count = 0 }) (record { word = word.new; count = count.new }))
        (decode_answer received)
        result
        value.new }
{
    let none = Correction { word: 0, count: 0 };
    let (number, c) = tell(decode(received), none, value);
    *word = c.word;
    *count = c.count;
    number
}

// Writes the message of a codeword.
#[unsafe(no_mangle)]
pub extern "C" fn relay_golay_message(codeword: u32, message: &mut u32, value: &mut usize) -> u32
    ensures { Told (Wrote (MessageRead codeword) 0 message.new) (message_answer codeword) result value.new }
{
    let (number, read) = tell(golay::message(codeword), 0, value);
    *message = read;
    number
}
