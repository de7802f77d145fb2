//! Dates, read from text.
ghost use Rattle.std.specs.Prelude.{◌≡◌, IfSome};
ghost use Rattle.mseed_select.specs.Word.{date_of};
ghost use Rattle.mseed_select.specs.private.Ranges.{IsDate};

use crate::numbers::number_in;
use crate::parts::{Parts, first_part, parts_of};
use jiff_core::civil;
use mseed_time::day_in_year;

/// A date.
#[derive(Clone, Copy)]
pub(crate) struct Date {
    /// 1900 to 2100.
    pub(crate) year: u16,
    /// The day of the year: 1 January is 1.
    pub(crate) day: u16,
}

/// Returns the date that a text gives: its year, and the month and the day in it, or the day of the year; `None` where
/// it gives none.
pub(crate) fn date_of(text: &[u8]) -> Option<Date>
    ensures value { result ≡ date_of text.now }
    ensures range { IfSome result (λ d. IsDate d) }
{
    let (year, rest) = first_part(text, b'-');
    let year = number_in(year, 4, 1900, 2100)? as u16;
    match parts_of(rest?, b'-') {
        Parts::One(day) => {
            let last = civil::days_in_year(year as i16);
            let day = number_in(day, 3, 1, u32::from(last))? as u16;
            Some(Date { year, day })
        }
        Parts::Two(month, day) => {
            let month = number_in(month, 2, 0, 99)? as u8;
            let day = number_in(day, 2, 0, 99)? as u8;
            let day = day_in_year(year, month, day)?;
            Some(Date { year, day })
        }
        Parts::Three(..) | Parts::More => None,
    }
}
