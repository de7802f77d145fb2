//! Instants as text.
ghost use Rattle.std.specs.Prelude.{◌≡◌, ◌+◌, ◌<◌};
ghost use Rattle.mseed_time.specs.Calendar.{year_of, months_over, day_of_month};
ghost use Rattle.mseed_time.specs.Text.{padded_decimal, time_text};

use crate::micros::Micros;
use jiff_core::civil::Date;

/// Microseconds in a day.
const DAY: u64 = 86_400_000_000;

/// The two digits of each number below 100, one number after another.
static DIGITS: [u8; 200] = *b"\
    00010203040506070809101112131415161718192021222324\
    25262728293031323334353637383940414243444546474849\
    50515253545556575859606162636465666768697071727374\
    75767778798081828384858687888990919293949596979899";

/// The days from the calendar's first day to 1800-01-01.
const FIRST_OF_1800: u32 = 4_309_496;

/// Returns an instant as 26 bytes of text, such as `2024-01-01T00:00:00.000000` (UTC, in the form of ISO 8601): the
/// date, `T`, and the time of day with its microseconds.
#[tactic(auto, unfolding(crate::specs::Text::time_text))]
pub fn show_time(instant: Micros) -> [u8; 26]
    ensures { result ≡ time_text instant }
{
    let since = instant.since_first();
    let (year, month, day) = civil_date(since / DAY);
    let clock = since % DAY;
    let (seconds, micros) = ((clock / 1_000_000) as u32, (clock % 1_000_000) as u32);
    let (century, year) = (two_digits(year / 100), two_digits(year % 100));
    let (month, day) = (two_digits(month), two_digits(day));
    let (hour, minute, second) = (
        two_digits(seconds / 3600),
        two_digits(seconds / 60 % 60),
        two_digits(seconds % 60),
    );
    let (high, middle, low) = (
        two_digits(micros / 10_000),
        two_digits(micros / 100 % 100),
        two_digits(micros % 100),
    );
    [
        century[0], century[1], year[0], year[1], b'-', month[0], month[1], b'-', day[0], day[1],
        b'T', hour[0], hour[1], b':', minute[0], minute[1], b':', second[0], second[1], b'.',
        high[0], high[1], middle[0], middle[1], low[0], low[1],
    ]
}

/// Returns the year, the month and the day of the month, both from 1, of the day that is `day` days after 1800-01-01.
fn civil_date(day: u64) -> (u32, u32, u32)
    requires { day < 146_097 }
    ensures year { result.0 ≡ year_of day }
    ensures four { result.0 < 10000 }
    ensures month { result.1 ≡ months_over day + 1 }
    ensures day_of_month { result.2 ≡ day_of_month day }
    ensures two { (result.1 < 100) × (result.2 < 100) }
{
    let date = Date::from_days_since_min(day as u32 + FIRST_OF_1800);
    (
        u32::from(date.year.unsigned_abs()),
        u32::from(date.month),
        u32::from(date.day),
    )
}

/// Returns the two decimal digits of a number below 100, in ASCII.
#[inline(always)]
pub fn two_digits(number: u32) -> [u8; 2]
    requires { number < 100 }
    ensures { result ≡ padded_decimal 2 number }
{
    let at = 2 * number as usize;
    [DIGITS[at], DIGITS[at + 1]]
}
