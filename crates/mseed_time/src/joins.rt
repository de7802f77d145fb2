//! Whether a record begins where the one before it ends.
ghost use Rattle.std.specs.Prelude.{◌≡◌, ◌↔◌, ◌≤◌, ◌*◌, ◌^◌, pos, neg_ℤ, ◌+ℤ◌, ◌-ℤ◌, ◌*ℤ◌, ◌≤ℤ◌};
ghost use Rattle.mseed_time.specs.Join.{Joins, drift_of, join_of, step_of};

use crate::micros::Micros;
use crate::outcome::{Join, LeapStep};
use crate::ratio::Ratio;

/// Microseconds in a second.
const SECOND: i64 = 1_000_000;

/// Returns whether a record that begins at `next` meets the end of one that begins at `start` and has `count` samples
/// at this rate: a record ends one sample period after its last sample. `Meets` where it begins within half a sample
/// period of that end, the half included; else `Late` or `Early`, by how many microseconds, rounded down. A leap second
/// that happened during the record before counts at that record's end: the clock shows `next` a second too early after
/// `Plus`, and a second too late after `Minus`.
pub fn join(start: Micros, count: u32, rate: Ratio, step: Option<LeapStep>, next: Micros) -> Join
    ensures value { result ≡ join_of start count rate step next }
    ensures meets { (result ≡ Join.Meets) ↔ Joins start count rate step next }
{
    let miss = drift(start, u64::from(count), rate, step_micros(step), next);
    let distance = miss.unsigned_abs();
    if 2 * distance <= u128::from(u64::from(rate.den()) * 1_000_000) {
        Join::Meets
    } else if miss < 0 {
        Join::Early(distance / u128::from(rate.num()))
    } else {
        Join::Late(distance / u128::from(rate.num()))
    }
}

/// Returns by how much `next` misses the instant of the sample after `count` others, of which the first is at `start`,
/// where leap seconds added `added` microseconds: in microseconds times the rate's `num`, so that it is a whole number;
/// positive where `next` is late, negative where it is early. `count` is at most 2^60, and `added` in -2^61..=2^61.
pub fn drift(start: Micros, count: u64, rate: Ratio, added: i64, next: Micros) -> i128
    requires few { count ≤ 2 ^ 60 }
    requires low { neg_ℤ (pos (2 ^ 61)) ≤ℤ added }
    requires high { added ≤ℤ pos (2 ^ 61) }
    ensures value { result ≡ drift_of start count rate added next }
    ensures low { neg_ℤ (pos (2 ^ 112)) ≤ℤ result }
    ensures high { result ≤ℤ pos (2 ^ 112) }
{
    scaled(passed(start, added, next), rate.num()) - due(count, rate.den())
}

/// Returns the microseconds from one start to the next, where leap seconds added `added`; negative where the next is
/// earlier.
fn passed(start: Micros, added: i64, next: Micros) -> i64
    requires low { neg_ℤ (pos (2 ^ 61)) ≤ℤ added }
    requires high { added ≤ℤ pos (2 ^ 61) }
    ensures { result ≡ next -ℤ start +ℤ added }
{
    next.get() - start.get() + added
}

/// Returns the microseconds that `count` samples take, times the rate's `num`.
fn due(count: u64, den: u32) -> i128
    requires few { count ≤ 2 ^ 60 }
    requires bound { den ≤ Ratio.MAX }
    ensures value { result ≡ pos (count * den * 10 ^ 6) }
    ensures low { pos 0 ≤ℤ result }
    ensures high { result ≤ℤ pos (2 ^ 110) }
{
    (u128::from(count) * u128::from(den) * 1_000_000) as i128
}

/// Returns the microseconds that passed, times the rate's `num`.
fn scaled(passed: i64, num: u32) -> i128
    ensures value { result ≡ passed *ℤ pos num }
    ensures low { neg_ℤ (pos (2 ^ 95)) ≤ℤ result }
    ensures high { result ≤ℤ pos (2 ^ 95) }
{
    i128::from(passed) * i128::from(num)
}

/// Returns the microseconds that a leap second between two readings of the clock adds to the time between them: 10^6
/// for `Plus`, -10^6 for `Minus`, 0 for none.
pub fn step_micros(step: Option<LeapStep>) -> i64
    ensures value { result ≡ step_of step }
    ensures low { neg_ℤ SECOND ≤ℤ result }
    ensures high { result ≤ℤ SECOND }
{
    match step {
        None => 0,
        Some(LeapStep::Plus) => SECOND,
        Some(LeapStep::Minus) => -SECOND,
    }
}
