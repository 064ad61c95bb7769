// How the words of a batch ended, added up: document 02, No. 1.
ghost use Rattle.std.specs.Prelude.{◌≡◌, ◌≤◌, length, take};
ghost use Rattle.words.specs.Limits.{max_words};
ghost use Rattle.tally.specs.Tally.{adds};
ghost use Rattle.tally.specs.Slots.{slot_outcome, slot_tally};

use words::limits::MAX_WORDS;

// The count of a far word: in the list of counts, which C lends, an entry is a byte and no Option.
pub const FAR: u8 = 255;

// How many words ended clean, mended and far, and how many places were mended.
#[derive(Drop)]
pub struct Tally {
    pub clean: u32,
    pub mended: u32,
    pub far: u32,
    pub places: u32,
}

// The places that a word adds: none where it is far.
fn places_in(count: u8) -> u32
    ensures { result ≡ (adds (slot_outcome count)).places }
{
    if count == FAR { 0 } else { u32::from(count) }
}

// The tally of so many words, by the counts that Decode leaves. Those that are neither clean nor far are mended.
// Apart from the cut, since a public function demands nothing.
fn tally_few(counts: &[u8]) -> Tally
    requires { length counts.now ≤ max_words }
    ensures { result ≡ slot_tally counts.now }
{
    let mut clean: u32 = 0;
    let mut far: u32 = 0;
    let mut places: u32 = 0;
    for &count in counts {
        clean += u32::from(count == 0);
        far += u32::from(count == FAR);
        places += places_in(count);
    }
    Tally {
        clean,
        mended: counts.len() as u32 - clean - far,
        far,
        places,
    }
}

// The tally of a batch, of as many words as a call takes.
pub fn tally_of(counts: &[u8]) -> Tally
    ensures { result ≡ slot_tally (take max_words counts.now) }
{
    tally_few(&counts[..MAX_WORDS.min(counts.len())])
}
