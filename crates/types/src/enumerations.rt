// Enumerations of IEC 61850-7-2.
ghost use Rattle.std.specs.Prelude.{◌≡◌, ◌%◌, ◌<◌};
ghost use Rattle.types.specs.Quality.{validity_of, validity_number, is_good};

// Validity of a value, numbered 0 to 3 in this order.
#[derive(Clone, Copy, PartialEq, Eq)]
pub enum Validity {
    Good = 0,
    Invalid = 1,
    Reserved = 2,
    Questionable = 3,
}

impl Validity {
    // The validity that the low two bits of a word give.
    pub fn from_sv(word: u32) -> Validity
        ensures { result ≡ validity_of (word % 4) }
    {
        match word % 4 {
            0 => Validity::Good,
            1 => Validity::Invalid,
            2 => Validity::Reserved,
            _ => Validity::Questionable,
        }
    }

    // Its number.
    pub fn to_sv(self) -> u32
        ensures value { result ≡ validity_number self }
        ensures upper_bound { result < 4 }
    {
        self as u32
    }

    // Whether it is good.
    pub fn is_good(self) -> bool
        ensures { result ≡ is_good self }
    {
        self == Validity::Good
    }
}
