// The columns of the data places, and the data place of a column.
ghost use Rattle.std.specs.Prelude.{◌≡◌, take};
ghost use Rattle.hsiao.specs.Table.{columns};
ghost use Rattle.hsiao.specs.Inner.Number.{column_number, some_place};

// The 56 bytes of weight 3 in rising order, then eight of weight 5.
const COLUMNS: [u8; 64] = [
    0x07, 0x0B, 0x0D, 0x0E, 0x13, 0x15, 0x16, 0x19, 0x1A, 0x1C, 0x23, 0x25, 0x26, 0x29, 0x2A, 0x2C,
    0x31, 0x32, 0x34, 0x38, 0x43, 0x45, 0x46, 0x49, 0x4A, 0x4C, 0x51, 0x52, 0x54, 0x58, 0x61, 0x62,
    0x64, 0x68, 0x70, 0x83, 0x85, 0x86, 0x89, 0x8A, 0x8C, 0x91, 0x92, 0x94, 0x98, 0xA1, 0xA2, 0xA4,
    0xA8, 0xB0, 0xC1, 0xC2, 0xC4, 0xC8, 0xD0, 0xE0, 0x1F, 0x3E, 0x7C, 0xF8, 0xF1, 0xE3, 0xC7, 0x8F,
];

// One more than the data place whose column is s, or 0 where no column is s. Each entry adds its number where it is s, so that the
// compiler compares sixteen at a time.
fn numbered(table: &[u8; 64], s: u8) -> u8
    requires { table.now ≡ columns }
    ensures { result ≡ column_number columns s }
{
    let mut n: u8 = 0;
    for (i, column) in table.iter().enumerate() {
        if *column == s {
            n += i as u8 + 1;
        }
    }
    n
}

// The data place, among the first `places`, whose column is s.
pub(crate) fn data_place(places: u32, s: u8) -> Option<u8>
    ensures { result ≡ some_place (take places columns) s }
{
    let n = numbered(&COLUMNS, s);
    if n == 0 || places < u32::from(n) {
        return None;
    }
    Some(n - 1)
}
