//! Times, read from text.
ghost use Rattle.std.specs.Prelude.{◌≡◌};
ghost use Rattle.std.specs.Result.{result_ok};
ghost use Rattle.mseed_select.specs.Word.{instant_at, time_of, without_zone};
ghost use Rattle.mseed_select.specs.private.Ranges.{IsClock, IsDate};

use crate::clocks::{Clock, clock_at, clock_of};
use crate::dates::{Date, date_of};
use crate::fault::BadTime;
use crate::parts::{Parts, parts_of};
use mseed_time::{Btime, Micros};

/// Reads a time (UTC): `2024-05-14` or `2024-135`, alone or with `T03`, `T03:20` or `T03:20:00`, which may have a point
/// and one to six digits after the seconds; `Z` may end it. Its year is 1900 to 2100; second 60 is the first second of
/// the next minute. What is left out is 0.
///
/// # Errors
///
/// `BadTime` exactly where the text is no such time.
pub fn read_time(word: &[u8]) -> Result<Micros, BadTime>
    ensures { result_ok result ≡ time_of word.now }
{
    time_of(word).ok_or(BadTime)
}

/// Returns the time that a text gives; `None` where it gives none.
fn time_of(word: &[u8]) -> Option<Micros>
    ensures { result ≡ time_of word.now }
{
    match parts_of(without_zone(word), b'T') {
        Parts::One(date) => {
            let date = date_of(date)?;
            Some(instant_at(date, clock_at(0, 0)))
        }
        Parts::Two(date, clock) => {
            let date = date_of(date)?;
            let clock = clock_of(clock)?;
            Some(instant_at(date, clock))
        }
        Parts::Three(..) | Parts::More => None,
    }
}

/// Returns a text without the `Z` that may end it.
fn without_zone(word: &[u8]) -> &[u8]
    ensures { result.now ≡ without_zone word.now }
{
    match word {
        [front @ .., b'Z'] => front,
        _ => word,
    }
}

/// Returns the instant of a time of day on a date.
fn instant_at(date: Date, clock: Clock) -> Micros
    requires date { IsDate date }
    requires clock { IsClock clock }
    ensures { result ≡ instant_at date clock }
{
    let time = Btime {
        year: date.year,
        day: date.day,
        hour: clock.hour,
        minute: clock.minute,
        second: clock.second,
        fraction: (clock.micros / 100) as u16,
    };
    time.micros(0, true, (clock.micros % 100) as i8)
}
