// The least value, by a measure, of the sums of so many rows.
ghost use Rattle.std.specs.Prelude.{◌≡◌, ℕ, ◌≤◌, min, length};
ghost use Rattle.distance.specs.Inner.LeastSum.{LeastSum};

// The least of best and of the values of all sums of t of the rows, each with base added. keep gives the lesser of a value and of the value
// of a word.
#[cycle(sums)]
pub(crate) fn least_sum<F: Fn(u32, u32) -> u32>(
    rows: &[u32],
    t: usize,
    base: u32,
    keep: &F,
    best: u32,
) -> u32
    requires number { (1 ≤ t) × (t ≤ length rows.now) }
    requires callable { F.IsAlwaysCallable keep.now }
    ensures { (f : ℕ → ℕ) → ((b x y : ℕ) → F.post keep.now b x y → y ≡ min b (f x))
        → LeastSum f rows.now (length rows.now) t base best result }
{
    // The end of the recursion.
    if t == 1 {
        return rows.iter().fold(best, |least, row| keep(least, row ^ base));
    }
    least_by_last(rows, t, base, keep, best)
}

// The same of two rows and more: the last row of a sum is each in turn, and the others are of those before it. It is kept apart, so that the
// sums of single rows need no call.
#[cycle(sums)]
#[inline(never)]
fn least_by_last<F: Fn(u32, u32) -> u32>(
    rows: &[u32],
    t: usize,
    base: u32,
    keep: &F,
    best: u32,
) -> u32
    requires number { (2 ≤ t) × (t ≤ length rows.now) }
    requires callable { F.IsAlwaysCallable keep.now }
    ensures { (f : ℕ → ℕ) → ((b x y : ℕ) → F.post keep.now b x y → y ≡ min b (f x))
        → LeastSum f rows.now (length rows.now) t base best result }
{
    let mut least = best;
    for p in t - 1..rows.len() {
        least = least_sum(&rows[..p], t - 1, base ^ rows[p], keep, least);
    }
    least
}
