// Message: the data bits of a codeword.
ghost use Rattle.hsiao.specs.MessageRead.{MessageRead};

use crate::syndromes::syndrome;
use crate::word::Word;
use answers::Refusal;

// The data of a codeword; any other word is refused.
pub fn message(w: Word) -> Result<u64, Refusal>
    ensures { MessageRead w result }
{
    if syndrome(w) != 0 {
        return Err(Refusal::NoCodeword(0));
    }
    Ok(w.data)
}
