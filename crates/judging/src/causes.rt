// Causes 1 to 5, and 1 to 8. Cause 9 is told by the room for the leaders.
ghost use Rattle.std.specs.Prelude.{◌≡◌, ℕ, ◌≤◌, min};
ghost use Rattle.answers.specs.Refusal.{and_then};
ghost use Rattle.words.specs.Lists.{list_answer};
ghost use Rattle.words.specs.Widest.{EveryRow, EveryWord};
ghost use Rattle.outcomes.specs.declared.ending.Reading.TheVariants.{Within};
ghost use Rattle.judging.specs.Causes.{radius_answer, code_answer, CodeJudged};
ghost use Rattle.judging.specs.Known.{asked, KnownPast};

use crate::matrix::{Known, known_past_4};
use answers::Refusal;
use distance::{Distance, distance_of};
use outcomes::Reading;
use words::lists::list_cause;
use words::shape::Matrix;

// What a batch is: the matrix, how it is read, and the received words.
#[derive(Clone, Copy)]
pub struct Batch<'a> {
    pub matrix: Matrix<'a>,
    pub reading: Reading,
    pub words: &'a [u32],
}

// Cause 5, by the minimum distance d. Half of d - 1 is compared, so that no radius overflows.
fn radius_cause(radius: u32, d: u32) -> Result<(), Refusal>
    requires { 1 ≤ d }
    ensures { result ≡ radius_answer (Within radius) d }
{
    if (d - 1) / 2 < radius {
        return Err(Refusal::RadiusTooLarge);
    }
    Ok(())
}

// Causes 1 to 5, and past them what the matrix told. Within a radius its minimum distance is always asked for:
// the reading, a value, decides too, so that `measure` is one.
fn known_past_5(measure: bool, matrix: &Matrix, reading: Reading) -> Result<Known, Refusal>
    ensures known { KnownPast (asked reading measure) matrix.now.n matrix.now.rows.now
        (code_answer matrix.now.n matrix.now.k matrix.now.rows.now reading) result }
    ensures every_row { EveryRow matrix.now.n (code_answer matrix.now.n matrix.now.k matrix.now.rows.now reading) }
{
    let Reading::Within(radius) = reading else {
        return known_past_4(matrix, measure);
    };
    let Distance { checks, dmin } = distance_of(matrix)?;
    radius_cause(radius, dmin)?;
    Ok(Known {
        checks,
        dmin: Some(dmin),
    })
}

// Causes 1 to 5: what Decode asks of the matrix and of the reading.
pub fn code_cause(matrix: &Matrix, reading: Reading) -> Result<(), Refusal>
    ensures { CodeJudged matrix.now.n matrix.now.k matrix.now.rows.now reading result }
{
    known_past_5(false, matrix, reading)?;
    Ok(())
}

// Causes 1 to 8, for lists of so many slots and bytes, and past them what the matrix told.
pub fn known_past_8(
    measure: bool,
    batch: &Batch,
    slots: usize,
    bytes: usize,
) -> Result<Known, Refusal>
    ensures known { KnownPast (asked batch.now.reading measure) batch.now.matrix.n batch.now.matrix.rows.now
        (and_then (code_answer batch.now.matrix.n batch.now.matrix.k batch.now.matrix.rows.now batch.now.reading)
        (list_answer batch.now.words.now batch.now.matrix.n (min slots bytes))) result }
    ensures every_word { EveryWord batch.now.matrix.n
        (and_then (code_answer batch.now.matrix.n batch.now.matrix.k batch.now.matrix.rows.now batch.now.reading)
        (list_answer batch.now.words.now batch.now.matrix.n (min slots bytes))) }
{
    let known = known_past_5(measure, &batch.matrix, batch.reading)?;
    list_cause(batch.words, batch.matrix.n, slots.min(bytes))?;
    Ok(known)
}
