// How an operation ends: document 01, "Causes and numbers".
ghost use Rattle.std.specs.Prelude.{◌≡◌};
ghost use Rattle.answers.specs.Refusal.{number_of, value_of};

// The error of every operation, one case for each cause; what a case holds is the value returned beside its number.
#[derive(Clone, Copy)]
pub enum Refusal {
    OutOfRange,
    RowCount,
    RowOutside(usize),
    Dependent(usize),
    RadiusTooLarge,
    TooManyWords,
    WordOutside(usize),
    ShortOutput,
    ShortWork,
    NoCodeword(usize),
    NoWidth,
    BeyondWidth,
    NoDepth,
    NoBits,
}

impl Refusal {
    // The number of the cause. By hand, as document 01 numbers them.
    pub fn number(self) -> u32
        ensures { result ≡ number_of self }
    {
        match self {
            Refusal::OutOfRange => 1,
            Refusal::RowCount => 2,
            Refusal::RowOutside(_) => 3,
            Refusal::Dependent(_) => 4,
            Refusal::RadiusTooLarge => 5,
            Refusal::TooManyWords => 6,
            Refusal::WordOutside(_) => 7,
            Refusal::ShortOutput => 8,
            Refusal::ShortWork => 9,
            Refusal::NoCodeword(_) => 10,
            Refusal::NoWidth => 14,
            Refusal::BeyondWidth => 15,
            Refusal::NoDepth => 16,
            Refusal::NoBits => 17,
        }
    }

    // The value returned beside it.
    pub fn value(self) -> usize
        ensures { result ≡ value_of self }
    {
        match self {
            Refusal::RowOutside(i) => i,
            Refusal::Dependent(i) => i,
            Refusal::WordOutside(i) => i,
            Refusal::NoCodeword(i) => i,
            _ => 0,
        }
    }
}
