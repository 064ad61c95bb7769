// What a sheet says, or why it cannot be read: cause 12 or 13 of document 01 with its position.
ghost use Rattle.std.specs.Prelude.{◌≡◌};
ghost use Rattle.sheet.specs.Fault.{number_of, value_of};

use outcomes::Reading;

// So many words of four bytes each in the bytes of a sheet, from a position on: a slice would be one of bytes.
#[derive(Clone, Copy)]
pub struct Span {
    pub at: usize,
    pub count: usize,
}

// What a sheet says. Rows and words stay in its bytes.
#[derive(Clone, Copy)]
pub struct Sheet {
    pub n: u32,
    pub k: u32,
    pub rows: Span,
    pub reading: Reading,
    pub words: Span,
}

// Layout: cut, too long or a wrong field length. Tag: unknown, not rising or missing. Each holds the byte position.
#[derive(Clone, Copy)]
pub enum Fault {
    Layout(usize),
    Tag(usize),
}

impl Fault {
    // The number of the cause.
    pub fn number(self) -> u32
        ensures { result ≡ number_of self }
    {
        match self {
            Fault::Layout(_) => 12,
            Fault::Tag(_) => 13,
        }
    }

    // The value returned beside it.
    pub fn value(self) -> usize
        ensures { result ≡ value_of self }
    {
        match self {
            Fault::Layout(at) => at,
            Fault::Tag(at) => at,
        }
    }
}
