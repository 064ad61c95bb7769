// Part 5: how one word ends.
ghost use Rattle.std.specs.Prelude.{◌≡◌};
ghost use Rattle.outcomes.specs.Outcome.{outcome_of, word_in, count_in, corrected};

use words::word::{sum, weight};

// How a batch is read: complete decoding, or bounded-distance decoding within a radius. An enum and no Option, as document 01 names the form.
#[derive(Clone, Copy)]
pub enum Reading {
    Nearest,
    Within(u32),
}

// Clean: no error; mended: corrected in so many places; far: a decoding failure.
#[derive(Clone, Copy)]
pub enum Outcome<W> {
    Clean(W),
    Mended(W, u8),
    Far,
}

// What a word is answered by: a word, and its count.
#[derive(Clone, Copy, PartialEq, Eq)]
pub struct Correction<W> {
    pub word: W,
    pub count: u8,
}

impl<W: Copy> Outcome<W> {
    // The word of an outcome; a far word is answered unchanged.
    pub fn word(self, received: W) -> W
        ensures { result ≡ word_in self received }
    {
        match self {
            Outcome::Clean(c) => c,
            Outcome::Mended(c, _) => c,
            Outcome::Far => received,
        }
    }

    // The count of an outcome; 255 means far, as the lent list of counts, which is C's, has it.
    pub fn count(self) -> u8
        ensures { result ≡ count_in self }
    {
        match self {
            Outcome::Clean(_) => 0,
            Outcome::Mended(_, n) => n,
            Outcome::Far => 255,
        }
    }

    // Both, as the word received is answered.
    pub fn correction(self, received: W) -> Correction<W>
        ensures { result ≡ corrected self received }
    {
        Correction {
            word: self.word(received),
            count: self.count(),
        }
    }
}

// The received word with the leader of its syndrome.
pub fn outcome_of(reading: Reading, received: u32, leader: u32) -> Outcome<u32>
    ensures { result ≡ outcome_of reading received leader }
{
    let d = weight(leader);
    if d == 0 {
        return Outcome::Clean(received);
    }
    match reading {
        Reading::Within(radius) if radius < d => Outcome::Far,
        _ => Outcome::Mended(sum(received, leader), d as u8),
    }
}
