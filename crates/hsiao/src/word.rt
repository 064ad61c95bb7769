// Words of 72 places.

// Places 0 to 7 are the check byte, places 8 to 71 the data bits 0 to 63.
#[derive(Clone, Copy, PartialEq, Eq)]
pub struct Word {
    pub check: u8,
    pub data: u64,
}
