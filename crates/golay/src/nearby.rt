// The row of P within distance 2 of a word. The twelve tests are done side by side in one 64-bit word: lane i, five bits wide, belongs
// to row i.
ghost use Rattle.std.specs.Prelude.{◌≡◌, ◌^◌, ◌<◌, leb, get_or};
ghost use Rattle.std.specs.Int.Bits.{bit_and};
ghost use Rattle.coding.specs.Lists.{first};
ghost use Rattle.coding.specs.Word.{◌⊕◌, weight};
ghost use Rattle.golay_code.specs.Golay.{golay_checks};
ghost use Rattle.golay.specs.Inner.Lanes.{lanes};

// Entry j: in each lane, place j of the row.
const PLACE_LANES: [u64; 12] = [
    0x80210042100001,
    0x84010802108000,
    0x80200840108400,
    0x80010042008420,
    0x80000802100421,
    0x84000040108021,
    0x84200002008401,
    0x84210000100420,
    0x80210800008021,
    0x84010840000401,
    0x84200842000020,
    0x4210842108421,
];

// A one in each lane.
const ONE_LANES: u64 = 0x84210842108421;

// In lane i, 16 less half of the weight of row i, rounded down.
const ROW_LANES: u64 = 0x5B5AD6B5AD6B5AD;

// The highest bit of each lane.
const HIGH_LANES: u64 = 0x842108421084210;

// In lane i, the number of places that s and row i have in common. No `row_sum`: the lanes are added, not summed modulo 2.
// That s is a syndrome stands in the contract, as in `decoding`.
fn overlaps(s: u32) -> u64
    requires { s < 2 ^ 12 }
    ensures { result ≡ lanes (λ p. weight (bit_and s p)) golay_checks }
{
    let mut sum = 0;
    let mut m = u64::from(s);
    for &lanes in &PLACE_LANES {
        sum += lanes * (m & 1);
        m >>= 1;
    }
    sum
}

// The first row within distance 2 of s, or 12 where there is none: lane i reaches 16 exactly there. 12 is what the count of zeros gives
// without a test; the Option comes where the row is read.
pub(crate) fn near_row(s: u32) -> u32
    requires { s < 2 ^ 12 }
    ensures { result ≡ first (λ i. leb (weight (s ⊕ get_or golay_checks i 0)) 2) 12 }
{
    let half = u64::from(s.count_ones() / 2);
    let reached = overlaps(s) + (ROW_LANES - half * ONE_LANES);
    (reached & HIGH_LANES).trailing_zeros() / 5
}
