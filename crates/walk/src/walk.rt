// One walk over all codewords. The codewords of the first rows, at most 256, are kept as a block; each sum of the other rows is added
// to the whole block, so that a codeword costs one sum.
ghost use Rattle.std.specs.Prelude.{◌≡◌, map, ◌++◌, ℕ, ◌+◌, ◌<◌, ◌≤◌, ◌^◌, min, length, get_or, take, drop};
ghost use Rattle.coding.specs.Word.{distance};
ghost use Rattle.words.specs.Limits.{max_rows, weight_slots, width};
ghost use Rattle.walk.specs.Walked.{some_least, SmallestOf, Walked};
ghost use Rattle.walk.specs.Inner.Block.{Tallied, Kept, BlockWalked};

use sums::{fill_sums, row_sum};
use words::limits::{MAX_ROWS, WEIGHT_SLOTS};
use words::word::distance;

// The rows of a block, and its codewords.
const BLOCK_ROWS: usize = 8;

pub const BLOCK: usize = 256;

// The smallest of the codewords of the least weight but 0.
#[derive(Clone, Copy)]
pub struct Lightest {
    pub weight: u32,
    pub word: u32,
}

// What a walk has found: how many codewords of each weight, and the lightest, where one of them is not 0.
#[derive(Drop)]
pub struct Walk {
    pub counts: [u32; WEIGHT_SLOTS],
    pub lightest: Option<Lightest>,
}

// Slot j becomes the weight of the block's codeword j with base added, as far as there are slots; the later ones keep their values.
// By index: after a zip with `iter_mut` a proof knows nothing of the elements.
pub fn block_weights(block: &[u32], base: u32, weights: &mut [u32])
    ensures { weights.new
        ≡ map (λ b. distance b base) (take (length weights.old) block.now)
        ++ drop (length block.now) weights.old }
{
    let m = block.len().min(weights.len());
    for (j, &word) in block[..m].iter().enumerate() {
        weights[j] = distance(word, base);
    }
}

// Counts each weight once more for each word that has it.
fn tally(weights: &[u32], counts: &mut [u32; WEIGHT_SLOTS])
    requires light { (i : ℕ) → i < length weights.now → get_or weights.now i 0 < weight_slots }
    requires room { (j : ℕ) → get_or counts.old j 0 + length weights.now < 2 ^ 32 }
    ensures { Tallied weights.now counts.old counts.new }
{
    for &w in weights {
        counts[w as usize] += 1;
    }
}

// The least weight but 0 that has been counted.
pub fn least_of(counts: &[u32]) -> Option<u32>
    ensures { result ≡ some_least counts.now }
{
    for j in 1..WEIGHT_SLOTS {
        if counts.get(j).copied().unwrap_or(0) != 0 {
            return Some(j as u32);
        }
    }
    None
}

// The smallest of the block's words of weight w, each with base added, as far as weights are given; u32::MAX where none has it, since
// with an Option the walk over the perfect (23,12) code takes a third more.
pub fn smallest_of(block: &[u32], base: u32, weights: &[u32], w: u32) -> u32
    ensures { SmallestOf block.now base weights.now w
        (min (length block.now) (length weights.now)) result }
{
    let mut best = u32::MAX;
    for (&x, &v) in block.iter().zip(weights) {
        if v == w {
            best = best.min(x ^ base);
        }
    }
    best
}

// The codeword to hold, where one was held and another, no heavier one is found: this, or of the same weight the smaller.
fn kept(held: Option<Lightest>, found: Lightest) -> Lightest
    ensures { Kept held found result }
{
    match held {
        Some(h) if h.weight == found.weight => Lightest {
            weight: h.weight,
            word: h.word.min(found.word),
        },
        _ => found,
    }
}

// The walk goes on over the block with base added; the second list is room for its weights. Block, base and weights are no struct: each call
// has another base, and the weights alone are written.
fn walk_block(block: &[u32], base: u32, weights: &mut [u32], walk: Walk) -> Walk
    requires weights_len { length weights.old ≡ length block.now }
    requires room { (j : ℕ) → get_or walk.counts j 0 + length block.now < 2 ^ 32 }
    ensures { BlockWalked block.now base walk result × (length weights.new ≡ length weights.old) }
{
    block_weights(block, base, weights);
    let Walk {
        counts: before,
        lightest,
    } = walk;
    let mut counts = before;
    tally(weights, &mut counts);
    let lightest = match least_of(&counts) {
        Some(weight) if before[weight as usize] < counts[weight as usize] => {
            let word = smallest_of(block, base, weights, weight);
            Some(kept(lightest, Lightest { weight, word }))
        }
        _ => lightest,
    };
    Walk { counts, lightest }
}

// The walk over all sums of the first rows and the others, block by block.
fn walk_blocks(front: &[u32], others: &[u32], block: &mut [u32], weights: &mut [u32]) -> Walk
    requires block_len { (length block.old ≡ 2 ^ length front.now) × (length block.old ≤ 256) × (length weights.old ≡ length block.old) }
    requires others_len_bound { length front.now + length others.now < width }
    ensures { Walked (front.now ++ others.now) (2 ^ (length front.now + length others.now)) result }
{
    fill_sums(front, block);
    let end = 1u32 << others.len();
    let mut walk = Walk {
        counts: [0u32; WEIGHT_SLOTS],
        lightest: None,
    };
    for h in 0..end {
        let base = row_sum(others, h);
        walk = walk_block(block, base, weights, walk);
    }
    walk
}

// How many of k rows make the block.
pub fn block_rows(k: usize) -> usize
    ensures { result ≡ min k 8 }
{
    k.min(BLOCK_ROWS)
}

// The walk over all codewords of so few rows. Apart from the cut, since a public function demands nothing.
fn walk_few(rows: &[u32]) -> Walk
    requires { length rows.now < width }
    ensures { Walked rows.now (2 ^ length rows.now) result }
{
    let mut block = [0u32; BLOCK];
    let mut weights = [0u32; BLOCK];
    let b = block_rows(rows.len());
    let size = 1usize << b;
    walk_blocks(
        &rows[..b],
        &rows[b..],
        &mut block[..size],
        &mut weights[..size],
    )
}

// The walk over all codewords of the rows, of as many as a matrix may have.
pub fn walk_all(rows: &[u32]) -> Walk
    ensures { Walked (take max_rows rows.now) (2 ^ length (take max_rows rows.now)) result }
{
    walk_few(&rows[..rows.len().min(MAX_ROWS)])
}
