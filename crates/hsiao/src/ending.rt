// Part 5: how one word ends.
ghost use Rattle.std.specs.Prelude.{◌≡◌, take};
ghost use Rattle.hsiao.specs.Table.{columns};
ghost use Rattle.hsiao.specs.Outcome.{outcome_at, outcome_of};

use crate::columns::data_place;
use crate::syndromes::syndrome;
use crate::word::Word;
use outcomes::Outcome;

// The outcome by the syndrome s and the columns of the first `places` data places: 0 is clean, a column mends its place, any other is
// far.
pub(crate) fn outcome_at(places: u32, w: Word, s: u8) -> Outcome<Word>
    ensures { result ≡ outcome_at 8 (take places columns) w s }
{
    if s == 0 {
        return Outcome::Clean(w);
    }
    if s & (s - 1) == 0 {
        let mended = Word {
            check: w.check ^ s,
            data: w.data,
        };
        return Outcome::Mended(mended, 1);
    }
    let Some(i) = data_place(places, s) else {
        return Outcome::Far;
    };
    let mended = Word {
        check: w.check,
        data: w.data ^ (1u64 << i),
    };
    Outcome::Mended(mended, 1)
}

// The outcome of a word of the (72,64) code, by its syndrome.
pub fn outcome_of(w: Word) -> Outcome<Word>
    ensures { result ≡ outcome_of w }
{
    let s = syndrome(w);
    outcome_at(64, w, s)
}
