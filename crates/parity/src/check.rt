// Part 2: parity-check rows and syndromes.
ghost use Rattle.std.specs.Prelude.{◌≡◌, map, ℕ, ◌^◌, ◌<◌, ◌≤◌, length, take};
ghost use Rattle.coding.specs.Lists.{padded, tabulate};
ghost use Rattle.coding.specs.Reduce.{frees_from};
ghost use Rattle.coding.specs.Check.{column, check, places};
ghost use Rattle.words.specs.Limits.{max_checks, width};
ghost use Rattle.parity.specs.CheckColumns.{columns_of};
ghost use Rattle.parity.specs.ParityChecks.{CodeOf, ParityChecksOf};
ghost use Rattle.parity.specs.Syndromes.{SyndromeOf};

use crate::batch::syndromes;
use answers::Refusal;
use linear::reduce;
use linear::reduction::Reduction;
use words::limits::{MAX_CHECKS, MAX_ROWS, WIDTH};
use words::shape::Matrix;
use words::word::{parity, place};

// The digits of the entries joined into a word, that of the first as the lowest place.
fn joined<F: Fn(u32) -> u32>(list: &[u32], digit: F) -> u32
    requires few { length list.now ≤ width }
    requires callable { F.IsAlwaysCallable digit }
    ensures { (d : ℕ → ℕ) → ((x y : ℕ) → F.post digit x y → y ≡ d x) → ((x : ℕ) → d x < 2) → result ≡ places d list.now }
{
    list.iter().rev().fold(0, |word, x| (word << 1) ^ digit(*x))
}

// Bit j is the parity of the word's places where check row j has a 1; a row that is 0 has parity 0.
pub fn syndrome(checks: &[u32; MAX_CHECKS], w: u32) -> u32
    ensures { SyndromeOf checks.now w result }
{
    joined(checks, |h| parity(w, h))
}

// Place q of each row.
fn column(rows: &[u32; WIDTH], q: u32) -> u32
    ensures { result ≡ column rows.now q }
{
    joined(rows, |r| place(r, q))
}

// Entry p is the word with a one at place p alone.
fn single_places() -> [u32; WIDTH]
    ensures { result ≡ tabulate (λ p. 2 ^ p) width }
{
    std::array::from_fn(|p| 1u32 << p)
}

// The columns of the first c check rows, of n places: entry p is the syndrome by these of the word with a one at place p alone.
// c stands beside the array for the reason of `syndromes`.
pub fn columns(checks: &[u32; MAX_CHECKS], n: usize, c: usize) -> [u32; WIDTH]
    ensures { result ≡ columns_of n (take c checks.now) }
{
    let end = n.min(WIDTH);
    let single = single_places();
    let mut columns = [0u32; WIDTH];
    syndromes(checks, c, &single, &mut columns[..end]);
    columns
}

// The check rows of the places below n that are no pivot, in rising order.
fn check_rows(table: &[u32; WIDTH], n: usize) -> [u32; MAX_CHECKS]
    requires { (n ≤ width) × (length (frees_from 0 (take n table.now)) ≤ max_checks) }
    ensures { result ≡ padded max_checks (map (check table.now) (frees_from 0 (take n table.now))) }
{
    let mut checks = [0u32; MAX_CHECKS];
    for (j, q) in (0..n).filter(|q| table[*q] == 0).enumerate() {
        checks[j] = (1u32 << q) ^ column(table, q as u32);
    }
    checks
}

// What parts 1 and 2 give for an accepted matrix: its reduced rows, its check rows, and beside each pivot a message that has the reduced row of
// that pivot as its codeword; 0 at every other entry.
#[derive(Drop)]
pub struct Code {
    pub rows: [u32; MAX_ROWS],
    pub checks: [u32; MAX_CHECKS],
    pub messages: [u32; WIDTH],
}

// Parts 1 and 2 from one elimination.
pub fn code_of(matrix: &Matrix) -> Result<Code, Refusal>
    ensures { CodeOf matrix.now.n matrix.now.k matrix.now.rows.now result }
{
    let Reduction {
        rows,
        table,
        messages,
    } = reduce(matrix)?;
    Ok(Code {
        rows,
        checks: check_rows(&table, matrix.n as usize),
        messages,
    })
}

// The parity-check rows of an accepted matrix: its n - k check rows, and 0 after them.
pub fn parity_checks(matrix: &Matrix) -> Result<[u32; MAX_CHECKS], Refusal>
    ensures { ParityChecksOf matrix.now.n matrix.now.k matrix.now.rows.now result }
{
    Ok(code_of(matrix)?.checks)
}
