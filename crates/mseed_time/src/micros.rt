//! Instants.
ghost use Rattle.std.specs.Prelude.{◌≡◌, ◌↔◌, ◌<◌, pos, ◌+ℤ◌, IsSome, IfSome};
ghost use Rattle.mseed_time.specs.Btime.{IsInstant};

use std::marker::Model;

/// An instant: whole microseconds from 1970-01-01T00:00:00, negative before then, from the year 1800 to the year 2199.
/// Each day has 86,400 seconds: a leap second isn't counted.
#[derive(Clone, Copy, Debug, PartialEq, Eq, PartialOrd, Ord)]
pub struct Micros {
    micros: i64,
}

impl Model for Micros {
    ghost use Rattle.std.specs.Prelude.{ℤ};
    ghost use Rattle.mseed_time.specs.Btime.{IsInstant};

    ghost Value = { ℤ };

    ghost view = { λ m. m.micros };

    ghost invariant = { λ m. IsInstant m.micros };

    ghost inverse = { λ t. record { micros = t } };
}

impl Micros {
    /// The first instant, 1800-01-01T00:00:00, in microseconds from 1970-01-01T00:00:00.
    pub const MIN: i64 = -5_364_662_400_000_000;

    /// The last instant, 2199-12-31T23:59:59.999999, in microseconds from 1970-01-01T00:00:00.
    pub const MAX: i64 = 7_258_118_399_999_999;

    /// Returns the instant `micros` microseconds from 1970-01-01T00:00:00; `None` exactly where it lies outside of the
    /// years 1800 to 2199.
    pub fn new(micros: i64) -> Option<Micros>
        ensures some { IsSome result ↔ IsInstant micros }
        ensures value { IfSome result (λ t. t ≡ micros) }
    {
        if micros < Micros::MIN || micros > Micros::MAX {
            return None;
        }
        Some(Micros { micros })
    }

    /// Returns the microseconds from 1970-01-01T00:00:00 to the instant, negative before then.
    pub fn get(self) -> i64
        ensures value { result ≡ self }
        ensures range { IsInstant result }
    {
        self.micros
    }

    /// Returns the microseconds from the first instant, 1800-01-01T00:00:00.
    pub(crate) fn since_first(self) -> u64
        ensures value { self +ℤ pos 5_364_662_400_000_000 ≡ pos result }
        ensures bound { result < 12_622_780_800_000_000 }
    {
        (self.micros - Micros::MIN) as u64
    }

    /// Returns the instant `micros` microseconds from 1970-01-01T00:00:00, where it is known to lie in the years
    /// 1800 to 2199.
    pub(crate) fn within(micros: i64) -> Micros
        requires { IsInstant micros }
        ensures { result ≡ micros }
    {
        Micros { micros }
    }
}
