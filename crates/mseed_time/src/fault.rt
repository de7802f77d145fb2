//! Why a BTIME is refused, or an instant has none.
ghost use Rattle.std.specs.Prelude.{◌≡◌};

/// The first field of a BTIME that is out of its range, in the order of the fields (SEED Reference Manual 2.4,
/// chapter 3).
#[derive(Clone, Copy, Debug, PartialEq, Eq)]
pub enum TimeFault {
    /// Not 1900 to 2100.
    Year,
    /// Not 1 to 365, or to 366 in a leap year.
    Day,
    /// Above 23.
    Hour,
    /// Above 59.
    Minute,
    /// Above 60, the leap second.
    Second,
    /// Above 9999 ten-thousandths.
    Fraction,
}

impl TimeFault {
    ghost use Rattle.mseed_time.specs.Text.{fault_word};

    /// Returns the field's name as it is printed: `year`, `day`, `hour`, `minute`, `second` or `fraction`.
    pub fn word(self) -> &'static str
        ensures { result.now ≡ fault_word self }
    {
        match self {
            TimeFault::Year => "year",
            TimeFault::Day => "day",
            TimeFault::Hour => "hour",
            TimeFault::Minute => "minute",
            TimeFault::Second => "second",
            TimeFault::Fraction => "fraction",
        }
    }
}

/// The instant lies in no year from 1900 to 2100, once it is rounded to a ten-thousandth of a second.
#[derive(Clone, Copy, Debug, PartialEq, Eq)]
pub struct OutOfRange;
