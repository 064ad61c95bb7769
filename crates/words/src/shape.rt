// Causes 1 to 3: the shape of a matrix.
ghost use Rattle.std.specs.Prelude.{◌≡◌, ◌-◌, IsTrue, fold, bit_or};
ghost use Rattle.coding.specs.Matrix.{Inside};
ghost use Rattle.words.specs.Limits.{in_range, width};
ghost use Rattle.words.specs.Shape.{some_outside, shape_answer};

use crate::limits::{MAX_CHECKS, MAX_PLACES, MAX_ROWS, MIN_PLACES};
use crate::word::fits;
use answers::Refusal;

// Whether n, k and n - k are within the limits.
pub fn in_range(n: u32, k: u32) -> bool
    ensures { result ≡ in_range n k }
{
    MIN_PLACES <= n
        && n <= MAX_PLACES
        && 1 <= k
        && k <= MAX_ROWS as u32
        && k + 1 <= n
        && n <= k + MAX_CHECKS as u32
}

// The words joined: a one wherever one of them has one.
fn joined(words: &[u32]) -> u32
    ensures { result ≡ fold bit_or 0 words.now }
{
    words.iter().fold(0, |all, w| all | *w)
}

// Whether every word has n places; they are joined, so that no test is made for each.
fn all_inside(words: &[u32], n: u32) -> bool
    ensures { IsTrue result → Inside n words.now }
{
    fits(joined(words), n)
}

// The first word with a one at place n or beyond, if there is one.
pub fn first_outside(words: &[u32], n: u32) -> Option<usize>
    ensures { result ≡ some_outside n words.now }
{
    if all_inside(words, n) {
        return None;
    }
    words.iter().position(|w| !fits(*w, n))
}

// Causes 1 to 3 of these numbers and rows. Every row is a number of 32 bits, which a proof knows of a slice and not of one in a struct: so the
// rows stand alone.
fn shape_cause(n: u32, k: u32, rows: &[u32]) -> Result<(), Refusal>
    ensures answer { result ≡ shape_answer n k rows.now }
    ensures words { Inside width rows.now }
{
    if !in_range(n, k) {
        return Err(Refusal::OutOfRange);
    }
    if rows.len() != k as usize {
        return Err(Refusal::RowCount);
    }
    match first_outside(rows, n) {
        Some(i) => Err(Refusal::RowOutside(i)),
        None => Ok(()),
    }
}

// A generator matrix as it is given: numbers n and k, and its rows, each a word of n places.
#[derive(Clone, Copy)]
pub struct Matrix<'a> {
    pub n: u32,
    pub k: u32,
    pub rows: &'a [u32],
}

impl<'a> Matrix<'a> {
    // Causes 1 to 3. Every row is a number of 32 bits.
    pub fn shape_cause(&self) -> Result<(), Refusal>
        ensures answer { result ≡ shape_answer self.now.n self.now.k self.now.rows.now }
        ensures words { Inside width self.now.rows.now }
    {
        shape_cause(self.n, self.k, self.rows)
    }

    // How many check rows there are: n - k, and 0 where k is larger.
    pub fn check_count(&self) -> usize
        ensures { result ≡ self.now.n - self.now.k }
    {
        self.n.saturating_sub(self.k) as usize
    }
}
