//! Sample rates.
ghost use Rattle.std.specs.Prelude.{◌≡◌, ◌≢◌, ◌↔◌, ◌≤◌, ◌<◌, ◌^◌, pos, IsTrue, IsOk, IfOk, IsSome, Some};
ghost use Rattle.mseed_time.specs.Rate.{rate_of, SameRate, positive_part_of, negative_part_of};

use crate::ratio::Ratio;

/// A factor or a multiplier of zero gives no rate.
#[derive(Clone, Copy, Debug, PartialEq, Eq)]
pub struct NoRate;

/// A sample rate, as its factor and its multiplier stand in the header (SEED Reference Manual 2.4, chapter 8, fields 10
/// and 11), neither of them 0. Two rates are equal by `==` where these are; whether they are the same number of samples
/// a second is what [`Rate::same_as`] says.
#[derive(Clone, Copy, Debug, PartialEq, Eq)]
pub struct Rate {
    /// Samples a second where it is positive, seconds a sample where it is negative.
    pub factor: i16,
    /// What the rate is multiplied by where it is positive, divided by where it is negative.
    pub multiplier: i16,
    /// The factor is not 0.
    pub ghost factor_counts: { factor ≢ pos 0 },
    /// The multiplier is not 0.
    pub ghost multiplier_counts: { multiplier ≢ pos 0 },
}

impl Rate {
    ghost use Rattle.mseed_time.specs.Ratios.{ratio_of};

    /// Returns the rate of a factor and a multiplier (SEED Reference Manual 2.4, chapter 8, fields 10 and 11), in
    /// samples a second: their product, where a negative one of them divides by its absolute value in place of
    /// multiplying.
    ///
    /// # Errors
    ///
    /// `NoRate` exactly where the factor or the multiplier is 0.
    pub fn of(factor: i16, multiplier: i16) -> Result<Rate, NoRate>
        ensures ok { IsOk result ↔ IsSome (rate_of factor multiplier) }
        ensures value { IfOk result (λ r. Some (ratio_of r) ≡ rate_of factor multiplier) }
        ensures factor { IfOk result (λ r. r.factor ≡ factor) }
        ensures multiplier { IfOk result (λ r. r.multiplier ≡ multiplier) }
    {
        if factor == 0 || multiplier == 0 {
            return Err(NoRate);
        }
        Ok(Rate { factor, multiplier })
    }

    /// Returns the factor and the multiplier, as they stand in the header.
    pub fn pair(self) -> (i16, i16)
        ensures factor { result.0 ≡ self.factor }
        ensures multiplier { result.1 ≡ self.multiplier }
    {
        (self.factor, self.multiplier)
    }

    /// Returns the rate as [`Rate::num`] samples in [`Rate::den`] seconds, not reduced.
    pub fn ratio(self) -> Ratio
        ensures { result ≡ ratio_of self }
    {
        Ratio::within(self.num(), self.den())
    }

    /// Returns how many samples there are in [`Rate::den`] seconds: 1 to 2^30. The two aren't reduced.
    pub fn num(self) -> u32
        ensures value { result ≡ (ratio_of self).num }
        ensures some { 0 < result }
        ensures bound { result ≤ Ratio.MAX }
    {
        positive_part(self.factor) * positive_part(self.multiplier)
    }

    /// Returns in how many seconds there are [`Rate::num`] samples: 1 to 2^30.
    pub fn den(self) -> u32
        ensures value { result ≡ (ratio_of self).den }
        ensures some { 0 < result }
        ensures bound { result ≤ Ratio.MAX }
    {
        negative_part(self.factor) * negative_part(self.multiplier)
    }

    /// Returns whether both are the same number of samples a second, reduced or not.
    pub fn same_as(self, other: Rate) -> bool
        ensures { IsTrue result ↔ SameRate (ratio_of self) (ratio_of other) }
    {
        self.ratio().same_as(other.ratio())
    }
}

/// Returns the number where it is positive, else 1.
fn positive_part(number: i16) -> u32
    ensures { result ≡ positive_part_of number }
{
    if number > 0 {
        u32::from(number.unsigned_abs())
    } else {
        1
    }
}

/// Returns the absolute value of the number where it is negative, else 1.
fn negative_part(number: i16) -> u32
    ensures { result ≡ negative_part_of number }
{
    if number < 0 {
        u32::from(number.unsigned_abs())
    } else {
        1
    }
}
