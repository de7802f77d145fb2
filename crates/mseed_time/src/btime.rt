//! BTIME, the 10 bytes of a time in a header (SEED Reference Manual 2.4, chapter 3).
ghost use Rattle.std.specs.Prelude.{◌≡◌, ◌<◌, ◌≤◌, ◌*◌, pos, neg_ℤ, ◌+ℤ◌, ◌≤ℤ◌};
ghost use Rattle.mseed_time.specs.Btime.{IsTime, day_of, days_in_year, shift_of};

use crate::fault::{OutOfRange, TimeFault};
use crate::micros::Micros;
use crate::order::Order;
use jiff_core::civil;

/// The microseconds from 1900-01-01T00:00:00 to 1970-01-01T00:00:00.
const BEFORE_1970: i64 = 2_208_988_800_000_000;

/// The microseconds from 1800-01-01T00:00:00, the first instant, to 1900-01-01T00:00:00.
const START_OF_1900: u64 = 3_155_673_600_000_000;

/// The microseconds from the first instant to 2101-01-01T00:00:00.
const START_OF_2101: u64 = 9_498_643_200_000_000;

/// Half a ten-thousandth of a second, in microseconds.
const HALF_TICK: u64 = 50;

/// A valid BTIME (SEED Reference Manual 2.4, chapter 3): each field is in its range.
#[derive(Clone, Copy, Debug, PartialEq, Eq)]
pub struct Btime {
    /// 1900 to 2100.
    pub year: u16,
    /// The day of the year: 1 January is 1.
    pub day: u16,
    /// 0 to 23.
    pub hour: u8,
    /// 0 to 59.
    pub minute: u8,
    /// 0 to 60. Second 60, a leap second, counts as the first second of the next minute.
    pub second: u8,
    /// Ten-thousandths of a second, 0 to 9999.
    pub fraction: u16,
    /// Each field is in its range.
    pub ghost valid: { IsTime (record {
      year = year;
      day = day;
      hour = hour;
      minute = minute;
      second = second;
      fraction = fraction;
    }) },
}

impl Btime {
    ghost use Rattle.std.specs.Prelude.{◌↔◌, false, IfOk, IsErr, slice_index, None};
    ghost use Rattle.mseed_time.specs.Naming.{Names, IsOnlyName, IsOutside, HasNoName};
    ghost use Rattle.std.specs.Result.{result_err};
    ghost use Rattle.mseed_time.specs.Btime.{parts_at, first_fault, instant_of, microsecond_of};
    ghost use Rattle.mseed_time.specs.Parts.{parts_of};

    /// Reads the 10 bytes of a BTIME, with its 16-bit numbers in this byte order: year, day of the year, hour, minute,
    /// second, an unused byte, and ten-thousandths of a second (SEED Reference Manual 2.4, chapter 3).
    ///
    /// # Errors
    ///
    /// The first field, in the order of [`TimeFault`], that is out of its range: year 1900 to 2100, day 1 to the
    /// year's last, hour 0 to 23, minute 0 to 59, second 0 to 60, ten-thousandths 0 to 9999.
    pub fn read(bytes: &[u8; 10], order: Order) -> Result<Btime, TimeFault>
        ensures fields { IfOk result (λ b. parts_of b ≡ parts_at order 0 bytes.now) }
        ensures fault { result_err result ≡ first_fault (parts_at order 0 bytes.now) }
    {
        let year = order.u16_at(bytes, 0);
        if year < 1900 || year > 2100 {
            return Err(TimeFault::Year);
        }
        let day = order.u16_at(bytes, 2);
        if day < 1 || (day > 365 && day > civil::days_in_year(year as i16)) {
            return Err(TimeFault::Day);
        }
        let hour = bytes[4];
        if hour > 23 {
            return Err(TimeFault::Hour);
        }
        let minute = bytes[5];
        if minute > 59 {
            return Err(TimeFault::Minute);
        }
        let second = bytes[6];
        if second > 60 {
            return Err(TimeFault::Second);
        }
        let fraction = order.u16_at(bytes, 8);
        if fraction > 9999 {
            return Err(TimeFault::Fraction);
        }
        Ok(Btime {
            year,
            day,
            hour,
            minute,
            second,
            fraction,
        })
    }

    /// Returns the instant of a record's first sample, whose header has this time: `correction`, in ten-thousandths of
    /// a second, is added unless it was applied already (activity bit 1), and so are the microseconds of blockette 1001
    /// (SEED Reference Manual 2.4, chapter 8). Second 60 counts as the first second of the next minute.
    pub fn micros(&self, correction: i32, is_applied: bool, microseconds: i8) -> Micros
        ensures { result ≡ instant_of (parts_of self.now) correction is_applied microseconds }
    {
        let whole = self.whole() + shift(correction, is_applied);
        Micros::within(whole + i64::from(microseconds))
    }

    /// Returns the 10 bytes of the time as a BTIME, with its 16-bit numbers in this byte order and 0 in the unused byte
    /// (SEED Reference Manual 2.4, chapter 3). [`Btime::read`] reads the same time from them.
    pub fn write(&self, order: Order) -> [u8; 10]
        ensures fields { parts_at order 0 result ≡ parts_of self.now }
        ensures unused { slice_index result 7 ≡ 0 }
        ensures reads_back { first_fault (parts_at order 0 result) ≡ None }
    {
        let mut bytes = [0, 0, 0, 0, self.hour, self.minute, self.second, 0, 0, 0];
        order.put_u16(&mut bytes, 0, self.year);
        order.put_u16(&mut bytes, 2, self.day);
        order.put_u16(&mut bytes, 8, self.fraction);
        bytes
    }

    /// Returns the time that is nearest to an instant, the later one of two that are equally near, and the microseconds
    /// from it to the instant, -50 to 49, as blockette 1001 has them (SEED Reference Manual 2.4, chapter 8). The time's
    /// second is never 60, and no other such pair gives the instant.
    ///
    /// # Errors
    ///
    /// `OutOfRange` exactly where the instant, once it is rounded to a ten-thousandth of a second, lies in no
    /// year from 1900 to 2100.
    pub fn of_micros(instant: Micros) -> Result<(Btime, i8), OutOfRange>
        ensures value { IfOk result (λ a. instant_of (parts_of a.0) (pos 0) false a.1 ≡ instant) }
        ensures names { IfOk result (λ a. Names instant (parts_of a.0) a.1) }
        ensures unique { IfOk result (λ a. IsOnlyName instant (parts_of a.0) a.1) }
        ensures out_of_range { IsErr result ↔ IsOutside instant }
        ensures no_name { IsErr result ↔ HasNoName instant }
    {
        let since_1800 = instant.since_first() + HALF_TICK;
        if since_1800 < START_OF_1900 || since_1800 >= START_OF_2101 {
            return Err(OutOfRange);
        }
        let (ticks, microseconds) = ticks_of(since_1800 - START_OF_1900);
        Ok((Btime::of_ticks(ticks), microseconds))
    }

    /// Returns the time that is `ticks` ten-thousandths of a second after 1900-01-01T00:00:00.
    fn of_ticks(ticks: u64) -> Btime
        requires { ticks < 63_429_696_000_000 }
        ensures value { microsecond_of (parts_of result) +ℤ BEFORE_1970 ≡ pos (100 * ticks) }
        ensures second { result.second ≤ 59 }
    {
        let (seconds, fraction) = (ticks / 10_000, ticks % 10_000);
        let (minutes, second) = (seconds / 60, seconds % 60);
        let (hours, minute) = (minutes / 60, minutes % 60);
        let (days, hour) = (hours / 24, hours % 24);
        let (year, day) = year_and_day(days as u32);
        Btime {
            year,
            day,
            hour: hour as u8,
            minute: minute as u8,
            second: second as u8,
            fraction: fraction as u16,
        }
    }

    /// Returns the microseconds from 1970-01-01T00:00:00 to the time, negative before then.
    fn whole(&self) -> i64
        ensures value { result ≡ microsecond_of (parts_of self.now) }
        ensures low { neg_ℤ BEFORE_1970 ≤ℤ result }
        ensures high { result ≤ℤ pos 5_000_000_000_000_000 }
    {
        self.since_1900() as i64 - BEFORE_1970
    }

    /// Returns the microseconds from 1900-01-01T00:00:00 to the time.
    fn since_1900(&self) -> u64
        ensures value { microsecond_of (parts_of self.now) +ℤ BEFORE_1970 ≡ pos result }
        ensures bound { result < 6_400_000_000_000_000 }
    {
        let days = u64::from(days_since_1900(self.year) + u32::from(self.day) - 1);
        let minutes = (days * 24 + u64::from(self.hour)) * 60 + u64::from(self.minute);
        let seconds = minutes * 60 + u64::from(self.second);
        seconds * 1_000_000 + u64::from(self.fraction) * 100
    }
}

/// Returns the number of days from 1900-01-01 to the first day of a year.
fn days_since_1900(year: u16) -> u32
    requires low { 1900 ≤ year }
    requires high { year ≤ 2100 }
    ensures { day_of year 1 +ℤ pos 25_567 ≡ pos result }
{
    // From 1901 to 2099 each fourth year is a leap year, and 1900 is none.
    (1461 * (u32::from(year) - 1900)).saturating_sub(1) / 4
}

/// Returns the year and the day of the year, 1 January being 1, of the day that is `days` days after 1900-01-01.
fn year_and_day(days: u32) -> (u16, u16)
    requires { days < 73_414 }
    ensures low { 1900 ≤ result.0 }
    ensures high { result.0 ≤ 2100 }
    ensures first { 1 ≤ result.1 }
    ensures last { result.1 ≤ days_in_year result.0 }
    ensures value { day_of result.0 result.1 +ℤ pos 25_567 ≡ pos days }
{
    // From 1901 to 2099 each fourth year is a leap year, and 1900 is none.
    let year = (1900 + 4 * (days + 1) / 1461) as u16;
    let day = days - days_since_1900(year) + 1;
    (year, day as u16)
}

/// Returns how many whole ten-thousandths of a second these microseconds are, and the microseconds that are left, less
/// half of one: -50 to 49.
fn ticks_of(microseconds: u64) -> (u64, i8)
    requires { microseconds < 6_342_969_600_000_000 }
    ensures ticks { result.0 < 63_429_696_000_000 }
    ensures low { neg_ℤ (pos HALF_TICK) ≤ℤ result.1 }
    ensures high { result.1 ≤ℤ pos 49 }
    ensures value { pos (100 * result.0) +ℤ result.1 +ℤ pos HALF_TICK ≡ pos microseconds }
{
    (microseconds / 100, (microseconds % 100) as i8 - 50)
}

/// Returns the microseconds that a time correction, in ten-thousandths of a second, adds to a start: 0 where it was
/// applied already.
fn shift(correction: i32, is_applied: bool) -> i64
    ensures value { result ≡ shift_of correction is_applied }
    ensures low { neg_ℤ (pos 214_748_364_800) ≤ℤ result }
    ensures high { result ≤ℤ pos 214_748_364_800 }
{
    if is_applied {
        0
    } else {
        i64::from(correction) * 100
    }
}
