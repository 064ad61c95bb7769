// Part 6: the check part P of the generator matrix, and sums of its rows.
ghost use Rattle.std.specs.Prelude.{◌≡◌, ◌^◌, ◌<◌};
ghost use Rattle.coding.specs.Matrix.{encode};
ghost use Rattle.coding.specs.Inner.SystematicSyndrome.{systematic_syndrome};
ghost use Rattle.golay_code.specs.Golay.{golay_checks};

use sums::row_sum;

// Rows 0 to 10 are rotations of row 0's first 11 digits with a 1, row 11 is eleven ones and a 0; place 0 is the lowest bit.
pub(crate) const CHECK_ROWS: [u32; 12] = [
    0xB71, 0xDB8, 0xADC, 0x96E, 0x8B7, 0xC5B, 0xE2D, 0xF16, 0xB8B, 0xDC5, 0xEE2, 0x7FF,
];

// The check places of a message: the sum of the rows of P that it selects.
pub(crate) fn check_sum(message: u32) -> u32
    ensures { result ≡ encode golay_checks message }
{
    row_sum(&CHECK_ROWS, message)
}

// The syndrome of a word: its check places, plus those of its message places.
pub(crate) fn syndrome(word: u32) -> u32
    ensures { result ≡ systematic_syndrome 12 golay_checks word }
{
    (word ^ check_sum(word >> 12)) & 4095
}
