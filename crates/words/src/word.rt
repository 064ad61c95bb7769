// Words: the number whose bit i is place i. Every function is total.
ghost use Rattle.std.specs.Prelude.{◌≡◌, ◌%◌, ◌^◌, ltb};
ghost use Rattle.coding.specs.Word.{◌⊕◌, bit, weight, distance, parity};
ghost use Rattle.coding.specs.Matrix.{sel};

// The sum, place by place, modulo 2.
pub fn sum(a: u32, b: u32) -> u32
    ensures { result ≡ a ⊕ b }
{
    a ^ b
}

// The number of ones.
pub fn weight(w: u32) -> u32
    ensures { result ≡ weight w }
{
    u32::count_ones(w)
}

// The weight of the sum.
pub fn distance(a: u32, b: u32) -> u32
    ensures { result ≡ distance a b }
{
    u32::count_ones(a ^ b)
}

// The parity of the places of w where h has a one.
pub fn parity(w: u32, h: u32) -> u32
    ensures { result ≡ parity w h }
{
    u32::count_ones(w & h) & 1
}

// Place i of w.
pub fn place(w: u32, i: u32) -> u32
    ensures { result ≡ bit w i }
{
    if i < 32 { (w >> i) & 1 } else { 0 }
}

// Whether w has no one at place n or beyond.
pub fn fits(w: u32, n: u32) -> bool
    ensures { result ≡ ltb w (2 ^ n) }
{
    if n < 32 { (w >> n) == 0 } else { true }
}

// The row where the lowest place of m is 1, else the zero word. That digit makes the mask: 2^32 - 1 has a one at each place of a word,
// 2^32 at none.
pub fn selected(row: u32, m: u32) -> u32
    ensures { result ≡ sel (m % 2) row }
{
    (u64::from(row) & (4294967296 - u64::from(m & 1))) as u32
}
