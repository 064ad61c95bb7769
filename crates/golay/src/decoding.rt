// Decode at radius 3, by the steps of document 000: an error pattern of at most three places has at most one of them among the message
// places or at most one among the check places, and P times P is the identity.
ghost use Rattle.std.specs.Prelude.{◌≡◌, ◌^◌, ◌<◌};
ghost use Rattle.golay.specs.Inner.Steps.{FewInMessage, ErrorPattern};
ghost use Rattle.golay.specs.Decoded.{golay_outcome, Decoded};

use crate::nearby::near_row;
use crate::places::inside;
use crate::rows::{CHECK_ROWS, check_sum, syndrome};
use answers::Refusal;
use outcomes::{Correction, Outcome};
use words::word::{sum, weight};

pub const RADIUS: u32 = 3;

// A syndrome has twelve places: a type for that would be made and taken apart around each of these four calls.
// An error pattern with the syndrome s, at most three places and at most one of them among the message places. A call of it would cost a
// third of the decode.
#[inline(always)]
fn few_in_message(s: u32) -> Option<u32>
    requires { s < 2 ^ 12 }
    ensures { FewInMessage s result }
{
    if weight(s) <= RADIUS {
        return Some(s);
    }
    let i = near_row(s);
    let row = CHECK_ROWS.get(i as usize)?;
    Some((1u32 << (12 + i)) ^ sum(s, *row))
}

// An error pattern with the syndrome s and at most three places. With s times P it is found with its halves exchanged.
fn error_pattern(s: u32) -> Option<u32>
    requires { s < 2 ^ 12 }
    ensures { ErrorPattern s result }
{
    if let Some(e) = few_in_message(s) {
        return Some(e);
    }
    let e = few_in_message(check_sum(s))?;
    Some(((e & 4095) << 12) ^ (e >> 12))
}

// How a received word ends. A syndrome of at most three places is itself the pattern, and its weight is at hand. A pattern has at least
// one place, since s is not 0.
fn outcome(received: u32) -> Outcome<u32>
    requires { received < 2 ^ 24 }
    ensures { result ≡ golay_outcome received }
{
    let s = syndrome(received);
    if s == 0 {
        return Outcome::Clean(received);
    }
    let d = weight(s);
    if d <= RADIUS {
        return Outcome::Mended(sum(received, s), d as u8);
    }
    match error_pattern(s) {
        Some(e) => Outcome::Mended(sum(received, e), weight(e) as u8),
        None => Outcome::Far,
    }
}

// The codeword within three places of a word of 24, or the word unchanged with count 255; a one outside them is refused.
pub fn decode(received: u32) -> Result<Correction<u32>, Refusal>
    ensures { Decoded received result }
{
    inside(received, 24)?;
    Ok(outcome(received).correction(received))
}
