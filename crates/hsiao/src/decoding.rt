// Decode at radius 1, one word at a time. No word is refused.
ghost use Rattle.hsiao.specs.Decoded.{Decoded};

use crate::ending::outcome_of;
use crate::word::Word;
use outcomes::Correction;

// Syndrome 0 is clean, a column mends its place, any other is far: such a word is answered unchanged with count 255.
pub fn decode(w: Word) -> Correction<Word>
    ensures { Decoded w result }
{
    outcome_of(w).correction(w)
}
