// Cause 7 of one word.
ghost use Rattle.std.specs.Prelude.{◌≡◌, ◌^◌, ltb};
ghost use Rattle.answers.specs.Refusal.{done, unless};
ghost use Rattle.answers.specs.declared.answer.Refusal.TheVariants.{WordOutside};

use answers::Refusal;
use words::word::fits;

// Refuses a word with a one outside so many places.
pub(crate) fn inside(word: u32, places: u32) -> Result<(), Refusal>
    ensures { result ≡ unless (ltb word (2 ^ places)) (WordOutside 0) done }
{
    if !fits(word, places) {
        return Err(Refusal::WordOutside(0));
    }
    Ok(())
}
