// Message: a codeword is read back to its message, places 12 to 23.
ghost use Rattle.golay.specs.MessageRead.{MessageRead};

use crate::places::inside;
use crate::rows::syndrome;
use answers::Refusal;

// The message of a codeword; any other word is refused.
pub fn message(word: u32) -> Result<u32, Refusal>
    ensures { MessageRead word result }
{
    inside(word, 24)?;
    if syndrome(word) != 0 {
        return Err(Refusal::NoCodeword(0));
    }
    Ok(word >> 12)
}
