//! Times of day, read from text.
ghost use Rattle.std.specs.Prelude.{◌≡◌, ◌==◌, ◌≤◌, IfSome};
ghost use Rattle.std.specs.List.{slice_split};
ghost use Rattle.mseed_select.specs.Word.{clock_by_seconds, clock_of, number_in};
ghost use Rattle.mseed_select.specs.private.Ranges.{IsClock};

use crate::numbers::{fraction_of, number_in};
use crate::parts::{Parts, first_part, parts_of};

/// A time of day.
#[derive(Clone, Copy)]
pub(crate) struct Clock {
    /// 0 to 23.
    pub(crate) hour: u8,
    /// 0 to 59.
    pub(crate) minute: u8,
    /// 0 to 60. Second 60, a leap second, counts as the first second of the next minute.
    pub(crate) second: u8,
    /// The microseconds of the second, 0 to 999,999.
    pub(crate) micros: u32,
}

/// Returns the time of day that a text gives, its hour, minute and second, of which what is left out is 0; `None` where
/// it gives none.
pub(crate) fn clock_of(text: &[u8]) -> Option<Clock>
    ensures value { result ≡ clock_of text.now }
    ensures range { IfSome result (λ c. IsClock c) }
{
    let (hour, rest) = first_part(text, b':');
    let hour = number_in(hour, 2, 0, 23)? as u8;
    let Some(rest) = rest else {
        return Some(clock_at(hour, 0));
    };
    match parts_of(rest, b':') {
        Parts::One(minute) => {
            let minute = number_in(minute, 2, 0, 59)? as u8;
            Some(clock_at(hour, minute))
        }
        Parts::Two(minute, second) => clock_by_seconds(hour, minute, second),
        Parts::Three(..) | Parts::More => None,
    }
}

/// Returns the first microsecond of a minute.
pub(crate) fn clock_at(hour: u8, minute: u8) -> Clock
    ensures { result ≡ record { hour = hour; minute = minute; second = 0; micros = 0 } }
{
    Clock {
        hour,
        minute,
        second: 0,
        micros: 0,
    }
}

/// Returns the time of day at a minute and a second, which may have a point and one to six digits; `None` where one of
/// them is no such text.
fn clock_by_seconds(hour: u8, minute: &[u8], second: &[u8]) -> Option<Clock>
    requires { hour ≤ 23 }
    ensures value { result ≡ clock_by_seconds hour (number_in 2 0 59 minute.now)
        (slice_split (λ c. c == 46) second.now) }
    ensures range { IfSome result (λ c. IsClock c) }
{
    let minute = number_in(minute, 2, 0, 59)? as u8;
    match parts_of(second, b'.') {
        Parts::One(second) => {
            let second = number_in(second, 2, 0, 60)? as u8;
            Some(Clock {
                hour,
                minute,
                second,
                micros: 0,
            })
        }
        Parts::Two(second, fraction) => {
            let second = number_in(second, 2, 0, 60)? as u8;
            let micros = fraction_of(fraction)?;
            Some(Clock {
                hour,
                minute,
                second,
                micros,
            })
        }
        Parts::Three(..) | Parts::More => None,
    }
}
