// Encode: the check byte of 64 data bits.
ghost use Rattle.std.specs.Prelude.{◌≡◌, fold, reverse, bit_and};
ghost use Rattle.std.specs.Int.{rotate_left, w64};
ghost use Rattle.coding.specs.Word.{◌⊕◌};
ghost use Rattle.coding.specs.Matrix.{encode};
ghost use Rattle.hsiao.specs.Table.{columns};
ghost use Rattle.hsiao.specs.Encoded.{Encoded};

// The columns by diagonals: of entry k, place i is the digit (i + k) % 8 of column i.
const DIAGONALS: [u64; 8] = [
    0xFFC0B080504F201F,
    0xFF6048402BA81385,
    0xFF3025E7D61C0A03,
    0xFF1BF3140966E760,
    0xFF0E08BE04D381D0,
    0x0005046B023158B0,
    0x00FE8219BD00B44C,
    0x00815F00E0804C2A,
];

// What the masks select, the last one first, each time moved on by one place, the last place becoming the first.
fn turned(masks: &[u64; 8], bits: u64) -> u64
    ensures { result ≡ fold (λ s m. rotate_left w64 s 1 ⊕ bit_and bits m) 0 (reverse masks.now) }
{
    masks
        .iter()
        .rev()
        .fold(0, |s, mask| s.rotate_left(1) ^ (bits & mask))
}

// The sum of the columns of the places that hold a 1. Digit (i + k) % 8 of column i is wanted at that place of the sum: the places
// that entry k selects are moved on by k, around the end, and the eight bytes are added up.
pub(crate) fn column_sum(bits: u64) -> u8
    ensures { result ≡ encode columns bits }
{
    let s = turned(&DIAGONALS, bits);
    let four = s ^ (s >> 32);
    let two = four ^ (four >> 16);
    let one = two ^ (two >> 8);
    (one & 255) as u8
}

// The check byte that makes the data a codeword.
pub fn encode(bits: u64) -> u8
    ensures { Encoded bits result }
{
    column_sum(bits)
}
