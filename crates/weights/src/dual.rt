// The weight counts of a code from those of the sums of its check rows, by the MacWilliams identity: where a code has fewer check rows than
// rows, these sums are fewer than its codewords.
ghost use Rattle.std.specs.Prelude.{◌≡◌, List, ℕ, suc, ◌+◌, ◌-◌, ◌*◌, ◌/◌, ◌<◌, ◌≤◌, ◌^◌, length, get_or};
ghost use Rattle.coding.specs.Check.{checks};
ghost use Rattle.coding.specs.Weight.{weight_count};
ghost use Rattle.words.specs.Limits.{weight_slots, width};
ghost use Rattle.words.specs.Accepted.{Accepted};
ghost use Rattle.walk.specs.Walked.{Walked};
ghost use Rattle.weights.specs.Inner.Overlap.{earlier, part_sum, slots, Small, ChecksOf, CodeParts};

use distance::smallest_weighing;
use walk::{Lightest, Walk, least_of, walk_all};
use words::limits::WEIGHT_SLOTS;
use words::shape::Matrix;

// With so few rows the walk over all codewords takes less than the way by the check rows.
const FEW_ROWS: usize = 13;

// How many words of each weight share an even and an odd number of places with the words of a list, all together.
#[derive(Drop)]
struct Overlaps {
    even: [u64; WEIGHT_SLOTS],
    odd: [u64; WEIGHT_SLOTS],
}

// The entry before entry j, 0 before the first.
fn before(b: &[u64; WEIGHT_SLOTS], j: usize) -> u64
    requires { j < weight_slots }
    ensures { result ≡ earlier (λ i. get_or b.now i 0) j }
{
    if j == 0 { 0 } else { b[j - 1] }
}

// The entries of a, each with the entry before it of b added. This and the two below differ in their closure alone: to say of one function
// what a closure gives for each entry would take more lines than they have.
fn shifted(a: &[u64; WEIGHT_SLOTS], b: &[u64; WEIGHT_SLOTS]) -> [u64; WEIGHT_SLOTS]
    requires { Small a.now × Small b.now }
    ensures { result ≡ slots (λ j. get_or a.now j 0 + earlier (λ i. get_or b.now i 0) j) }
{
    std::array::from_fn(|j| a[j] + before(b, j))
}

// The entries of a, each with the entry of b so many times.
fn added(a: &[u64; WEIGHT_SLOTS], times: u64, b: &[u64; WEIGHT_SLOTS]) -> [u64; WEIGHT_SLOTS]
    requires { Small a.now × (times ≤ 4096) × ((j : ℕ) → get_or b.now j 0 ≤ 2 ^ 33) }
    ensures { result ≡ slots (λ j. get_or a.now j 0 + times * get_or b.now j 0) }
{
    std::array::from_fn(|j| a[j] + times * b[j])
}

// The overlaps with words of n places, so many of each weight: from the largest weight down, one place after the other.
// That n is a width stands in each contract: a type for it would be made for one call.
fn overlap_counts(n: usize, counts: &[u32; WEIGHT_SLOTS]) -> Overlaps
    requires { (n ≤ width) × ((i : ℕ) → get_or counts.now i 0 ≤ 4096) }
    ensures { (result.even ≡ slots (part_sum 0 n (λ i. get_or counts.now i 0) (suc n)))
        × (result.odd ≡ slots (part_sum 1 n (λ i. get_or counts.now i 0) (suc n))) }
{
    let mut even = [0u64; WEIGHT_SLOTS];
    let mut odd = [0u64; WEIGHT_SLOTS];
    let mut all = [0u64; WEIGHT_SLOTS];
    all[0] = 1;
    for count in counts[..=n].iter().rev() {
        let kept = shifted(&even, &odd);
        odd = shifted(&odd, &even);
        even = added(&kept, u64::from(*count), &all);
        all = shifted(&all, &all);
    }
    Overlaps { even, odd }
}

// The differences of the entries, without their low places.
fn quotients(even: &[u64; WEIGHT_SLOTS], odd: &[u64; WEIGHT_SLOTS], low: u32) -> [u32; WEIGHT_SLOTS]
    requires low { low < width }
    requires fits { (j : ℕ) → j < weight_slots → (get_or odd.now j 0 ≤ get_or even.now j 0)
        × ((get_or even.now j 0 - get_or odd.now j 0) / 2 ^ low < 2 ^ 32) }
    ensures { result ≡ slots (λ j. (get_or even.now j 0 - get_or odd.now j 0) / 2 ^ low) }
{
    std::array::from_fn(|j| ((even[j] - odd[j]) >> low) as u32)
}

// The weight counts of the code of these check rows.
pub(crate) fn counts_by_checks(n: u32, hs: &[u32]) -> [u32; WEIGHT_SLOTS]
    requires { ChecksOf n hs.now }
    ensures { (k : ℕ) (rows : List ℕ) → Accepted n k rows → hs.now ≡ checks n rows
        → result ≡ slots (weight_count n rows) }
{
    let walk = walk_all(hs);
    let o = overlap_counts(n as usize, &walk.counts);
    quotients(&o.even, &o.odd, hs.len() as u32)
}

// What the walk over all codewords of the rows finds, but for few rows without it: the counts by way of the check rows, the lightest codeword
// by way of the reduced rows.
pub(crate) fn walk_code(matrix: &Matrix, reduced: &[u32], hs: &[u32]) -> Walk
    requires { CodeParts matrix.now.n matrix.now.rows.now reduced.now hs.now }
    ensures { Walked matrix.now.rows.now (2 ^ length matrix.now.rows.now) result }
{
    if matrix.rows.len() <= FEW_ROWS {
        return walk_all(matrix.rows);
    }
    let counts = counts_by_checks(matrix.n, hs);
    let lightest = least_of(&counts).map(|weight| Lightest {
        weight,
        word: smallest_weighing(reduced, weight),
    });
    Walk { counts, lightest }
}
