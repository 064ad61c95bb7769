// The syndrome of a word.
ghost use Rattle.hsiao.specs.Table.{HasSyndrome};

use crate::encoding::column_sum;
use crate::word::Word;

// The sum of the columns of the places that hold a 1, check bits included; 0 exactly for codewords.
pub fn syndrome(w: Word) -> u8
    ensures { HasSyndrome w result }
{
    w.check ^ column_sum(w.data)
}
