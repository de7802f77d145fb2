//! Whether a record begins where a stretch has its next sample.
ghost use Rattle.std.specs.Prelude.{◌↔◌, ◌≤◌, ◌^◌, pos, neg_ℤ, ◌≤ℤ◌, IsTrue};
ghost use Rattle.mseed_repack.specs.Stretches.{IsOnTime};

use mseed_time::{Micros, Ratio, drift};

/// Returns whether a record that begins at `next` begins within a quarter of a sample period of the instant of the
/// sample after `count` others, of which the first is at `start`, where leap seconds added `added` microseconds.
pub(crate) fn is_on_time(start: Micros, count: u64, rate: Ratio, added: i64, next: Micros) -> bool
    requires few { count ≤ 2 ^ 60 }
    requires low { neg_ℤ (pos (2 ^ 61)) ≤ℤ added }
    requires high { added ≤ℤ pos (2 ^ 61) }
    ensures { IsTrue result ↔ IsOnTime start count rate added next }
{
    let distance = drift(start, count, rate, added, next).unsigned_abs();
    4 * distance <= u128::from(u64::from(rate.den()) * 1_000_000)
}
