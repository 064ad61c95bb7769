// Causes 6 to 8: the list of words of a call and the room for its results.
ghost use Rattle.std.specs.Prelude.{◌≡◌};
ghost use Rattle.coding.specs.Matrix.{Inside};
ghost use Rattle.words.specs.Limits.{width};
ghost use Rattle.words.specs.Lists.{many_answer, inside_answer, room_answer, list_answer};

use crate::limits::MAX_WORDS;
use crate::shape::first_outside;
use answers::Refusal;

// Cause 6: more than 512 words.
fn many_cause(words: &[u32]) -> Result<(), Refusal>
    ensures { result ≡ many_answer words.now }
{
    if MAX_WORDS < words.len() {
        return Err(Refusal::TooManyWords);
    }
    Ok(())
}

// Cause 7: a word with a one outside so many places.
// As cause 3, but for the refusal: to take that as a closure is longer than the match.
pub fn inside_cause(words: &[u32], places: u32) -> Result<(), Refusal>
    ensures { result ≡ inside_answer words.now places }
{
    match first_outside(words, places) {
        Some(i) => Err(Refusal::WordOutside(i)),
        None => Ok(()),
    }
}

// Cause 8: fewer slots than results.
pub fn room_cause(results: usize, slots: usize) -> Result<(), Refusal>
    ensures { result ≡ room_answer results slots }
{
    if slots < results {
        return Err(Refusal::ShortOutput);
    }
    Ok(())
}

// Causes 6 to 8, for words of so many places and an output list of so many slots. Every word is a number of 32 bits.
pub fn list_cause(words: &[u32], places: u32, slots: usize) -> Result<(), Refusal>
    ensures answer { result ≡ list_answer words.now places slots }
    ensures words { Inside width words.now }
{
    many_cause(words)?;
    inside_cause(words, places)?;
    room_cause(words.len(), slots)
}
