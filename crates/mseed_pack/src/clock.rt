//! What the clock reads at a sample.
ghost use Rattle.std.specs.Prelude.{◌≡◌, ◌↔◌, ◌*◌, ◌^◌, ◌≤◌, nat_abs, pos, ◌+ℤ◌, ◌-ℤ◌, IfSome, None};
ghost use Rattle.mseed_time.specs.Btime.{IsInstant};
ghost use Rattle.mseed_time.specs.Naming.{IsOutside, Names};
ghost use Rattle.mseed_time.specs.Parts.{parts_of};
ghost use Rattle.mseed_time.specs.Ratios.{ratio_of};
ghost use Rattle.mseed_pack.specs.Clock.{periods};

use crate::span::Span;
use mseed_time::{Btime, Micros, Rate};

/// Microseconds in a second.
pub(crate) const SECOND: u128 = 1_000_000;

/// The time that is written for the sample at an index of a span: a BTIME, and the microseconds of blockette 1001.
pub(crate) fn time_at(start: Micros, rate: Rate, span: Span, index: usize) -> Option<(Btime, i8)>
    requires { nat_abs span.added ≤ 10 ^ 6 * 2 ^ 64 }
    ensures none { (result ≡ None) ↔ IsOutside (start +ℤ pos (periods (ratio_of rate) index) -ℤ span.added) }
    ensures names { IfSome result (λ time. Names (start +ℤ pos (periods (ratio_of rate) index) -ℤ span.added)
        (parts_of time.0) time.1) }
{
    let instant = instant_at(start, rate, span, index);
    time_of(instant)
}

/// The instant of that sample, where it is known to lie in the years 1800 to 2199.
pub(crate) fn moment_at(start: Micros, rate: Rate, span: Span, index: usize) -> Micros
    requires bound { nat_abs span.added ≤ 10 ^ 6 * 2 ^ 64 }
    requires known { IsInstant (start +ℤ pos (periods (ratio_of rate) index) -ℤ span.added) }
    ensures { result ≡ start +ℤ pos (periods (ratio_of rate) index) -ℤ span.added }
{
    let instant = instant_at(start, rate, span, index);
    match Micros::new(instant as i64) {
        Some(moment) => moment,
        None => unreachable!(),
    }
}

/// The instant of that sample.
fn instant_at(start: Micros, rate: Rate, span: Span, index: usize) -> i128
    requires { nat_abs span.added ≤ 10 ^ 6 * 2 ^ 64 }
    ensures { result ≡ start +ℤ pos (periods (ratio_of rate) index) -ℤ span.added }
{
    let elapsed = elapsed_at(rate, index);
    i128::from(start.get()) + elapsed as i128 - span.added
}

/// The whole microseconds in `index` sample periods.
fn elapsed_at(rate: Rate, index: usize) -> u128
    ensures value { result ≡ periods (ratio_of rate) index }
    ensures bound { result ≤ 2 ^ 115 }
{
    let micros = index as u128 * u128::from(rate.den()) * SECOND;
    // Mostly 64 bits hold it, and one division of the processor's does.
    match u64::try_from(micros) {
        Ok(few) => u128::from(few / u64::from(rate.num())),
        Err(_) => micros / u128::from(rate.num()),
    }
}

/// The time that is written for an instant.
fn time_of(instant: i128) -> Option<(Btime, i8)>
    ensures none { (result ≡ None) ↔ IsOutside instant }
    ensures names { IfSome result (λ time. Names instant (parts_of time.0) time.1) }
{
    let Ok(micros) = i64::try_from(instant) else {
        return None;
    };
    let Some(micros) = Micros::new(micros) else {
        return None;
    };
    match Btime::of_micros(micros) {
        Ok(time) => Some(time),
        Err(_) => None,
    }
}
