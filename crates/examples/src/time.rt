//! Calls of `mseed_time`.
ghost use Rattle.std.specs.Prelude.{◌≡◌, ◌↔◌, ℤ, pos, IfOk, IsTrue, None};
ghost use Rattle.std.specs.Result.{result_err};
ghost use Rattle.mseed_time.specs.Btime.{Parts, first_fault, parts_at};
ghost use Rattle.mseed_time.specs.declared.order.Order.{Order};
ghost use Rattle.mseed_time.specs.Join.{Joins, miss_of};
ghost use Rattle.mseed_time.specs.Naming.{Names};
ghost use Rattle.mseed_time.specs.Ratios.{ratio_of};
ghost use Rattle.mseed_time.specs.Text.{time_text};

use mseed_time::{
    Btime, Join, LeapStep, Micros, NoRate, Order, OutOfRange, Rate, Ratio, TimeFault, day_in_year,
    drift, join, one_name, show_time, step_micros, two_digits,
};

/// The instant that is `millis` milliseconds from 1970-01-01T00:00:00.
pub fn of_millis(millis: i64) -> Option<Micros> {
    Micros::new(millis.checked_mul(1_000)?)
}

/// The whole seconds from 1970-01-01T00:00:00 to an instant, and the microseconds after them.
pub fn seconds_and_rest(instant: Micros) -> (i64, i64) {
    let micros = instant.get();
    (micros.div_euclid(1_000_000), micros.rem_euclid(1_000_000))
}

/// The instant of a BTIME to which nothing is added.
pub fn read_time(bytes: &[u8; 10]) -> Result<Micros, TimeFault>
    ensures { result_err result ≡ first_fault (parts_at Order.Big 0 bytes.now) }
{
    let time = Btime::read(bytes, Order::Big)?;
    Ok(time.micros(0, true, 0))
}

/// An instant as a BTIME, and the microseconds for blockette 1001.
pub fn write_time(instant: Micros) -> Result<([u8; 10], i8), OutOfRange> {
    let (time, microseconds) = Btime::of_micros(instant)?;
    Ok((time.write(Order::Big), microseconds))
}

/// The field for which a BTIME is refused.
pub fn refused_for(bytes: &[u8; 10]) -> Option<&'static str> {
    match Btime::read(bytes, Order::Big) {
        Ok(_) => None,
        Err(fault) => Some(fault.word()),
    }
}

/// The text of an instant, such as `2024-01-01T00:00:00.000000`.
pub fn text_of(instant: Micros) -> [u8; 26]
    ensures { result ≡ time_text instant }
{
    show_time(instant)
}

/// An hour and a minute as a clock shows them, such as 03:20; none past 99.
pub fn clock_of(hour: u32, minute: u32) -> Option<[u8; 5]> {
    if hour > 99 || minute > 99 {
        return None;
    }
    let (hours, minutes) = (two_digits(hour), two_digits(minute));
    Some([hours[0], hours[1], b':', minutes[0], minutes[1]])
}

/// The day of the year of a date, such as 135 of 2024-05-14; `None` of no date of the years up to 9999.
pub fn day_of_date(year: u16, month: u8, day: u8) -> Option<u16> {
    if year > 9_999 {
        return None;
    }
    day_in_year(year, month, day)
}

/// Turns a number of 16 bits into the other byte order.
pub fn swap_bytes(bytes: &mut [u8; 2]) {
    let number = Order::Big.u16_at(bytes, 0);
    Order::Little.put_u16(bytes, 0, number);
}

/// One sample in `seconds` seconds; the header writes it as a negative factor.
pub fn every(seconds: i16) -> Result<Rate, NoRate>
    ensures { IfOk result (λ r. r.multiplier ≡ pos 1) }
{
    Rate::of(seconds.saturating_neg(), 1)
}

/// The samples of an hour, the last part of one left out.
pub fn samples_in_an_hour(rate: Rate) -> u64 {
    3_600 * u64::from(rate.num()) / u64::from(rate.den())
}

/// Whether two rates are one, and are written as one.
pub fn are_written_alike(one: Rate, other: Rate) -> bool {
    one.same_as(other) && one.pair() == other.pair()
}

/// Whether a rate is that of `num` samples in `den` seconds.
pub fn is_rate_of(rate: Rate, num: u32, den: u32) -> bool {
    match Ratio::new(num, den) {
        Some(ratio) => rate.ratio().same_as(ratio),
        None => false,
    }
}

/// The samples of a day, the last part of one left out.
pub fn samples_in_a_day(ratio: Ratio) -> u64 {
    86_400 * u64::from(ratio.num()) / u64::from(ratio.den())
}

/// Whether a record of 100 samples ends where the next one begins; no leap second happened during it.
pub fn is_followed(start: Micros, rate: Rate, next: Micros) -> bool
    ensures { IsTrue result ↔ Joins start 100 (ratio_of rate) None next }
{
    join(start, 100, rate.ratio(), None, next) == Join::Meets
}

/// The microseconds that are missing after a record at whose end a leap second was inserted.
pub fn missing_after(start: Micros, count: u32, rate: Rate, next: Micros) -> u128 {
    match join(start, count, rate.ratio(), Some(LeapStep::Plus), next) {
        Join::Late(micros) => micros,
        Join::Meets | Join::Early(_) => 0,
    }
}

/// By how much a record misses the end of one of 100 samples, in microseconds times the rate's numerator; this leap
/// second happened between them.
pub fn missed_by(start: Micros, rate: Ratio, step: Option<LeapStep>, next: Micros) -> i128
    ensures { result ≡ miss_of start 100 rate step next }
{
    drift(start, 100, rate, step_micros(step), next)
}

/// The time of an instant, and that it has one name at most, which a proof above may need.
pub fn name_of(instant: Micros) -> Result<(Btime, i8), OutOfRange>
    ensures { (t s : Parts) (u v : ℤ) → Names instant t u → Names instant s v → (t ≡ s) × (u ≡ v) }
{
    one_name();
    Btime::of_micros(instant)
}
