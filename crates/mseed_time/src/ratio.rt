//! Sample rates as ratios.
ghost use Rattle.std.specs.Prelude.{◌≡◌, ◌↔◌, ◌≤◌, ◌<◌, ◌^◌, IsTrue, IsSome, IfSome};
ghost use Rattle.mseed_time.specs.Rate.{IsRatio, SameRate};

use std::marker::Model;

/// A sample rate: `num` samples in `den` seconds, each in 1..=2^30, not reduced. Two of them are equal by `==`
/// where both numbers are; whether they are the same number of samples a second is what [`Ratio::same_as`] says.
///
/// Each factor and multiplier of a header give one ([`Rate::ratio`](crate::Rate::ratio)); they can't be read from it.
#[derive(Clone, Copy, Debug, PartialEq, Eq)]
pub struct Ratio {
    num: u32,
    den: u32,
}

impl Model for Ratio {
    ghost use Rattle.mseed_time.specs.Rate.{Ratio as Pair, IsRatio};

    ghost Value = { Pair };

    ghost view = { λ r. record { num = r.num; den = r.den } };

    ghost invariant = { λ r. IsRatio (record { num = r.num; den = r.den }) };

    ghost inverse = { λ p. record { num = p.num; den = p.den } };
}

impl Ratio {
    /// The largest number of samples, and of seconds.
    pub const MAX: u32 = 1 << 30;

    /// Returns the rate of `num` samples in `den` seconds; `None` exactly where one of them isn't in 1..=2^30.
    pub fn new(num: u32, den: u32) -> Option<Ratio>
        ensures some { IsSome result ↔ IsRatio (record { num = num; den = den }) }
        ensures value { IfSome result (λ r. r ≡ record { num = num; den = den }) }
    {
        if num == 0 || num > Ratio::MAX || den == 0 || den > Ratio::MAX {
            return None;
        }
        Some(Ratio { num, den })
    }

    /// Returns the rate of `num` samples in `den` seconds, where both are known to be in 1..=2^30.
    pub(crate) fn within(num: u32, den: u32) -> Ratio
        requires { IsRatio (record { num = num; den = den }) }
        ensures { result ≡ record { num = num; den = den } }
    {
        Ratio { num, den }
    }

    /// Returns how many samples there are in [`Ratio::den`] seconds: 1 to 2^30.
    pub fn num(self) -> u32
        ensures value { result ≡ self.num }
        ensures some { 0 < result }
        ensures bound { result ≤ Ratio.MAX }
    {
        self.num
    }

    /// Returns in how many seconds there are [`Ratio::num`] samples: 1 to 2^30.
    pub fn den(self) -> u32
        ensures value { result ≡ self.den }
        ensures some { 0 < result }
        ensures bound { result ≤ Ratio.MAX }
    {
        self.den
    }

    /// Returns whether both are the same number of samples a second, reduced or not.
    pub fn same_as(self, other: Ratio) -> bool
        ensures { IsTrue result ↔ SameRate self other }
    {
        u64::from(self.num) * u64::from(other.den) == u64::from(other.num) * u64::from(self.den)
    }
}
