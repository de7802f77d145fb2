//! How samples stand in a record.
ghost use Rattle.std.specs.Prelude.{◌≡◌};
ghost use Rattle.mseed_steim.specs.Encoding.{code_of, encoding_of};

/// How samples stand in a record (SEED manual, chapter 8, blockette 1000, field 3).
#[derive(Clone, Copy, Debug, PartialEq, Eq)]
pub enum Encoding {
    /// Integers of 16 bits, code 1.
    Int16,
    /// Integers of 32 bits, code 3.
    Int32,
    /// Steim-1, code 10.
    Steim1,
    /// Steim-2, code 11.
    Steim2,
}

impl Encoding {
    /// Returns the encoding with this code of blockette 1000; `None` for a code other than 1, 3, 10 and 11.
    pub fn of(code: u8) -> Option<Encoding>
        ensures { result ≡ encoding_of code }
    {
        match code {
            1 => Some(Encoding::Int16),
            3 => Some(Encoding::Int32),
            10 => Some(Encoding::Steim1),
            11 => Some(Encoding::Steim2),
            _ => None,
        }
    }

    /// Returns its code in blockette 1000.
    pub fn code(self) -> u8
        ensures { result ≡ code_of self }
    {
        match self {
            Encoding::Int16 => 1,
            Encoding::Int32 => 3,
            Encoding::Steim1 => 10,
            Encoding::Steim2 => 11,
        }
    }
}
