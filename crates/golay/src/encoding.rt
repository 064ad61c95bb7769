// Encode: the check places of a message, then the message.
ghost use Rattle.golay.specs.Encoded.{Encoded};

use crate::places::inside;
use crate::rows::check_sum;
use answers::Refusal;

// The codeword of a message of 12 places; a one outside them is refused.
pub fn encode(message: u32) -> Result<u32, Refusal>
    ensures { Encoded message result }
{
    inside(message, 12)?;
    Ok((message << 12) ^ check_sum(message))
}
