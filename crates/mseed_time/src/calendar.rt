//! Dates by their month.
ghost use Rattle.std.specs.Prelude.{◌≡◌, ◌≤◌, IfSome};
ghost use Rattle.mseed_time.specs.Btime.{days_in_year};
ghost use Rattle.mseed_time.specs.Calendar.{day_in_year};

use jiff_core::civil::Date;

/// Returns the day of the year, 1 January being 1, of a day of a month; `None` exactly where the year has no such day.
pub fn day_in_year(year: u16, month: u8, day: u8) -> Option<u16>
    requires { year ≤ 9999 }
    ensures value { result ≡ day_in_year year month day }
    ensures range { IfSome result (λ n. (1 ≤ n) × (n ≤ days_in_year year)) }
{
    if month > 12 || day > 31 {
        return None;
    }
    match Date::new(year as i16, month as i8, day as i8) {
        Ok(date) => Some(date.day_of_year()),
        Err(_) => None,
    }
}
