//! Times, rates and joins.

use crate::records::put;
use mseed_time::{
    Btime, Join, LeapStep, Micros, NoRate, Order, OutOfRange, Rate, Ratio, TimeFault, join,
    show_time,
};
use std::process::Abort;

const SECOND: i64 = 1_000_000;

/// 2024-01-01T00:00:00.
const NEW_YEAR: i64 = 1_704_067_200_000_000;

/// 2017-01-01T00:00:00, after a leap second.
const AFTER_LEAP: i64 = 1_483_228_800_000_000;

/// Whether these bytes are read as this instant, and written again.
fn reads(bytes: &[u8; 10], order: Order, instant: i64) -> bool {
    match Btime::read(bytes, order) {
        Ok(time) => time.micros(0, false, 0).get() == instant && time.write(order) == *bytes,
        Err(_) => false,
    }
}

/// A BTIME in an order, and its instant.
static TIMES: [([u8; 10], Order, i64); 7] = [
    (
        [0x07, 0xe8, 0x00, 0x3c, 23, 59, 59, 0, 0x27, 0x0f],
        Order::Big,
        1_709_251_199_999_900,
    ),
    (
        [0xe8, 0x07, 0x3c, 0x00, 23, 59, 59, 0, 0x0f, 0x27],
        Order::Little,
        1_709_251_199_999_900,
    ),
    // 31 December of a leap year.
    (
        [0x07, 0xe8, 0x01, 0x6e, 0, 0, 0, 0, 0, 0],
        Order::Big,
        1_735_603_200_000_000,
    ),
    // Day 256 of 2056, which reads as day 1 in the other order.
    (
        [8, 8, 1, 0, 0, 0, 0, 0, 0, 0],
        Order::Big,
        2_735_942_400_000_000,
    ),
    (
        [8, 8, 1, 0, 0, 0, 0, 0, 0, 0],
        Order::Little,
        2_713_910_400_000_000,
    ),
    // A leap second, and the second that it is counted as.
    (
        [0x07, 0xe0, 0x01, 0x6e, 23, 59, 60, 0, 0x13, 0x88],
        Order::Big,
        AFTER_LEAP + 500_000,
    ),
    (
        [0x07, 0xe1, 0x00, 0x01, 0, 0, 0, 0, 0x13, 0x88],
        Order::Big,
        AFTER_LEAP + 500_000,
    ),
];

#[test]
fn reads_times(rt: HostRuntime) {
    for (bytes, order, instant) in &TIMES {
        assert!(rt; reads(bytes, *order, *instant), "{instant}");
    }
}

/// Fields, and the first of them that is refused.
static REFUSED: [([u8; 10], TimeFault); 11] = [
    ([0x07, 0x6b, 0, 1, 0, 0, 0, 0, 0, 0], TimeFault::Year),
    ([0x08, 0x35, 0, 1, 0, 0, 0, 0, 0, 0], TimeFault::Year),
    ([0x07, 0xe8, 0, 0, 0, 0, 0, 0, 0, 0], TimeFault::Day),
    ([0x07, 0xe7, 0x01, 0x6e, 0, 0, 0, 0, 0, 0], TimeFault::Day),
    ([0x07, 0xe8, 0x01, 0x6f, 0, 0, 0, 0, 0, 0], TimeFault::Day),
    ([0x07, 0xe8, 0, 1, 24, 0, 0, 0, 0, 0], TimeFault::Hour),
    ([0x07, 0xe8, 0, 1, 23, 60, 0, 0, 0, 0], TimeFault::Minute),
    ([0x07, 0xe8, 0, 1, 23, 59, 61, 0, 0, 0], TimeFault::Second),
    (
        [0x07, 0xe8, 0, 1, 23, 59, 60, 0, 0x27, 0x10],
        TimeFault::Fraction,
    ),
    // The first of several.
    ([0xff; 10], TimeFault::Year),
    (
        [0x07, 0xe8, 0, 1, 24, 60, 61, 0, 0xff, 0xff],
        TimeFault::Hour,
    ),
];

#[test]
fn refuses_fields(rt: HostRuntime) {
    for (row, (bytes, fault)) in REFUSED.iter().enumerate() {
        assert!(rt; Btime::read(bytes, Order::Big) == Err(*fault), "row {row}");
    }
}

/// The first instant of 2024.
fn new_year(rt: &impl Abort) -> Btime {
    Btime::read(&[0x07, 0xe8, 0, 1, 0, 0, 0, 0, 0, 0], Order::Big).expect(rt, "a time")
}

#[test]
fn clears_the_unused_byte(rt: HostRuntime) {
    let read = Btime::read(&[0x07, 0xe8, 0, 1, 0, 0, 0, 0xff, 0, 1], Order::Big);
    let time = read.expect(&rt, "a time");
    assert!(rt; time.write(Order::Big) == [0x07, 0xe8, 0, 1, 0, 0, 0, 0, 0, 1]);
    assert!(rt; time.write(Order::Little) == [0xe8, 0x07, 1, 0, 0, 0, 0, 0, 1, 0]);
}

/// Corrections, whether they were applied, microseconds, and what they make of the first instant of 2024.
static CORRECTED: [(i32, bool, i8, i64); 6] = [
    (0, false, 0, NEW_YEAR),
    (5000, false, 0, 1_704_067_200_500_000),
    (5000, true, 0, NEW_YEAR),
    (-5000, false, 99, 1_704_067_199_500_099),
    (0, false, -50, 1_704_067_199_999_950),
    (i32::MIN, false, -128, 1_703_852_451_635_072),
];

#[test]
fn corrects_times(rt: HostRuntime) {
    let time = new_year(&rt);
    for (correction, is_applied, microseconds, instant) in &CORRECTED {
        let corrected = time.micros(*correction, *is_applied, *microseconds);
        assert!(rt; corrected.get() == *instant, "{instant}");
    }
}

/// What is read of the beginning of a day.
fn read_day(year: u16, day: u16) -> Result<Btime, TimeFault> {
    let mut bytes = [0; 10];
    put(&mut bytes, 0, &year.to_be_bytes());
    put(&mut bytes, 2, &day.to_be_bytes());
    Btime::read(&bytes, Order::Big)
}

/// Whether a time is this instant, and named by it.
fn is_at(time: Btime, instant: i64) -> bool {
    let start = time.micros(0, false, 0);
    start.get() == instant && Btime::of_micros(start) == Ok((time, 0))
}

/// Whether a day begins at this instant.
fn begins_at(year: u16, day: u16, instant: i64) -> bool {
    match read_day(year, day) {
        Ok(time) => is_at(time, instant),
        Err(_) => false,
    }
}

/// How many days a year has.
fn days_in(year: u16) -> u16 {
    let is_leap = year == 2000 || (year % 4 == 0 && year % 100 != 0);
    if is_leap { 366 } else { 365 }
}

#[test]
fn counts_each_day(rt: HostRuntime) {
    let mut instant: i64 = -2_208_988_800_000_000;
    for year in 1900..2101u16 {
        let end = days_in(year).saturating_add(1);
        for day in 1..end {
            assert!(rt; begins_at(year, day, instant), "day {day} of {year}");
            instant = instant.wrapping_add(86_400_000_000);
        }
        assert!(rt; read_day(year, end) == Err(TimeFault::Day), "{year}");
    }
    assert!(rt; instant == 4_133_980_800_000_000);
}

/// An instant; its year, day, hour, minute, second and fraction; and the microseconds from there.
type Named = (i64, u16, u16, [u8; 3], u16, i8);

static NAMED: [Named; 20] = [
    (-2_208_988_800_000_050, 1900, 1, [0, 0, 0], 0, -50),
    (-2_208_988_800_000_000, 1900, 1, [0, 0, 0], 0, 0),
    (-2_208_988_799_999_951, 1900, 1, [0, 0, 0], 0, 49),
    (-2_208_988_799_999_950, 1900, 1, [0, 0, 0], 1, -50),
    (-2_203_891_200_000_051, 1900, 59, [23, 59, 59], 9999, 49),
    (-2_203_891_200_000_050, 1900, 60, [0, 0, 0], 0, -50),
    (-2_177_496_000_000_000, 1900, 365, [12, 0, 0], 0, 0),
    (-1, 1970, 1, [0, 0, 0], 0, -1),
    (0, 1970, 1, [0, 0, 0], 0, 0),
    (951_782_400_000_000, 2000, 60, [0, 0, 0], 0, 0),
    (978_307_199_999_949, 2000, 366, [23, 59, 59], 9999, 49),
    (978_307_199_999_950, 2001, 1, [0, 0, 0], 0, -50),
    (AFTER_LEAP - 100, 2016, 366, [23, 59, 59], 9999, 0),
    (AFTER_LEAP, 2017, 1, [0, 0, 0], 0, 0),
    (1_704_067_199_999_949, 2023, 365, [23, 59, 59], 9999, 49),
    (1_704_067_199_999_950, 2024, 1, [0, 0, 0], 0, -50),
    (1_735_606_923_456_789, 2024, 366, [1, 2, 3], 4568, -11),
    (4_107_542_399_999_949, 2100, 59, [23, 59, 59], 9999, 49),
    (4_107_542_399_999_950, 2100, 60, [0, 0, 0], 0, -50),
    (4_133_980_799_999_949, 2100, 365, [23, 59, 59], 9999, 49),
];

/// Whether a time has these fields.
fn has_fields(time: &Btime, (_, year, day, clock, fraction, _): &Named) -> bool {
    time.year == *year
        && time.day == *day
        && [time.hour, time.minute, time.second] == *clock
        && time.fraction == *fraction
}

/// Whether the instant of a row has its time, and is the instant of that.
fn is_named(row: &Named) -> bool {
    let Some(instant) = Micros::new(row.0) else {
        return false;
    };
    match Btime::of_micros(instant) {
        Ok((time, rest)) => {
            has_fields(&time, row) && rest == row.5 && time.micros(0, false, rest) == instant
        }
        Err(_) => false,
    }
}

/// Whether an instant has no time.
fn is_out_of_range(micros: i64) -> bool {
    match Micros::new(micros) {
        Some(instant) => Btime::of_micros(instant) == Err(OutOfRange),
        None => false,
    }
}

#[test]
fn spells_instants(rt: HostRuntime) {
    for row in &NAMED {
        assert!(rt; is_named(row), "{}", row.0);
    }
    for micros in [
        Micros::MIN,
        -2_208_988_800_000_051,
        4_133_980_799_999_950,
        4_133_980_800_000_000,
        Micros::MAX,
    ] {
        assert!(rt; is_out_of_range(micros), "{micros}");
    }
}

#[test]
fn has_the_instants_of_four_centuries(rt: HostRuntime) {
    for micros in [-5_364_662_400_000_000, 7_258_118_399_999_999] {
        assert!(rt; Micros::new(micros).is_some(), "{micros}");
    }
    for micros in [
        i64::MIN,
        -5_364_662_400_000_001,
        7_258_118_400_000_000,
        i64::MAX,
    ] {
        assert!(rt; Micros::new(micros).is_none(), "{micros}");
    }
}

/// A factor and a multiplier, and the rate's fraction.
static RATES: [(i16, i16, u32, u32); 6] = [
    (20, 1, 20, 1),
    (1, -10, 1, 10),
    (-10, 1, 1, 10),
    (-2, -5, 1, 10),
    (2, -20, 2, 20),
    (-32768, -32768, 1, 1_073_741_824),
];

/// Whether a rate has a row's parts, and is a tenth where that is its fraction.
fn has_parts(
    rate: Rate,
    (factor, multiplier, num, den): &(i16, i16, u32, u32),
    tenth: Rate,
) -> bool {
    rate.num() == *num
        && rate.den() == *den
        && rate.pair() == (*factor, *multiplier)
        && rate.same_as(tenth) == (*den == 10 || *den == 20)
}

#[test]
fn has_rates(rt: HostRuntime) {
    let tenth = Rate::of(-10, 1).expect(&rt, "a rate");
    for row in &RATES {
        let rate = Rate::of(row.0, row.1).expect(&rt, "a rate");
        assert!(rt; has_parts(rate, row, tenth), "{} {}", row.0, row.1);
    }
    assert!(rt; Rate::of(0, 1) == Err(NoRate));
    assert!(rt; Rate::of(1, 0) == Err(NoRate));
}

/// The ratio of a rate.
fn ratio(rt: &impl Abort, factor: i16, multiplier: i16) -> Ratio {
    Rate::of(factor, multiplier).expect(rt, "a rate").ratio()
}

/// Two numbers, and whether they are a ratio.
static RATIOS: [(u32, u32, bool); 6] = [
    (1 << 30, 1 << 30, true),
    ((1 << 30) + 1, 1, false),
    (1, (1 << 30) + 1, false),
    (0, 1, false),
    (1, 0, false),
    (1, 1, true),
];

#[test]
fn has_ratios(rt: HostRuntime) {
    let tenth = Ratio::new(1, 10).expect(&rt, "a ratio");
    assert!(rt; ratio(&rt, -2, -5) == tenth);
    let unreduced = ratio(&rt, 2, -20);
    assert!(rt; unreduced.num() == 2 && unreduced.den() == 20);
    assert!(rt; unreduced.same_as(tenth) && unreduced != tenth);
    for (num, den, is_ratio) in &RATIOS {
        let found = Ratio::new(*num, *den);
        assert!(rt; found.is_some() == *is_ratio, "{num}/{den}");
    }
}

/// How many samples a record has that begins ten seconds before 2017; the factor and the multiplier of its rate; its
/// leap second; when the next one begins, by the microseconds from that start; and how it follows.
type Follow = (u32, (i16, i16), Option<LeapStep>, i32, Join);

static FOLLOWS: [Follow; 14] = [
    // 1 Hz over the leap second at the end of 2016.
    (10, (1, 1), PLUS, 10_000_000, Join::Late(1_000_000)),
    (10, (1, 1), PLUS, 11_000_000, Join::Late(2_000_000)),
    (10, (1, 1), None, 10_000_000, Join::Meets),
    (10, (1, 1), None, 11_000_000, Join::Late(1_000_000)),
    (11, (1, 1), PLUS, 10_000_000, Join::Meets),
    (11, (1, 1), None, 10_000_000, Join::Early(1_000_000)),
    (9, (1, 1), MINUS, 10_000_000, Join::Meets),
    // Half a period, and a microsecond more.
    (100, (20, 1), None, 5_025_000, Join::Meets),
    (100, (20, 1), None, 5_025_001, Join::Late(25_001)),
    (100, (20, 1), None, 4_975_000, Join::Meets),
    (100, (20, 1), None, 4_974_999, Join::Early(25_001)),
    // Thirds of a microsecond.
    (1, (3, 1), None, 1_000_000, Join::Late(666_666)),
    (1, (3, 1), None, -1_000_000, Join::Early(1_333_333)),
    (0, (-10, 1), None, 5_000_000, Join::Meets),
];

const PLUS: Option<LeapStep> = Some(LeapStep::Plus);

const MINUS: Option<LeapStep> = Some(LeapStep::Minus);

/// How the next record of a row follows.
fn follow((count, (factor, multiplier), step, after, _): &Follow) -> Option<Join> {
    let start = Micros::new(AFTER_LEAP - 10 * SECOND)?;
    let next = Micros::new(AFTER_LEAP - 10 * SECOND + i64::from(*after))?;
    let rate = Rate::of(*factor, *multiplier).ok()?.ratio();
    Some(join(start, *count, rate, *step, next))
}

#[test]
fn joins_records(rt: HostRuntime) {
    for (row, wanted) in FOLLOWS.iter().enumerate() {
        assert!(rt; follow(wanted) == Some(wanted.4), "row {row}");
    }
}

#[test]
fn joins_at_the_limits(rt: HostRuntime) {
    let first = Micros::new(Micros::MIN).expect(&rt, "an instant");
    let last = Micros::new(Micros::MAX).expect(&rt, "an instant");
    let slow = ratio(&rt, -32768, -32768);
    let fast = ratio(&rt, 32767, 32767);
    let early = Join::Early(70_355_047_655_040_000_001);
    assert!(rt; join(first, 65_535, slow, None, last) == early);
    assert!(rt; join(first, 0, fast, None, last) == Join::Late(12_622_780_799_999_999));
    assert!(rt; join(last, 0, fast, None, first) == Join::Early(12_622_780_799_999_999));
}

static SHOWN: [(i64, [u8; 26]); 13] = [
    (NEW_YEAR, *b"2024-01-01T00:00:00.000000"),
    (-1, *b"1969-12-31T23:59:59.999999"),
    (Micros::MIN, *b"1800-01-01T00:00:00.000000"),
    (Micros::MAX, *b"2199-12-31T23:59:59.999999"),
    (1_709_210_096_789_012, *b"2024-02-29T12:34:56.789012"),
    (1_735_689_599_999_999, *b"2024-12-31T23:59:59.999999"),
    (1_703_980_800_000_000, *b"2023-12-31T00:00:00.000000"),
    (-2_203_891_200_000_001, *b"1900-02-28T23:59:59.999999"),
    (4_107_542_399_999_999, *b"2100-02-28T23:59:59.999999"),
    (951_782_400_000_000, *b"2000-02-29T00:00:00.000000"),
    (-5_359_564_800_000_001, *b"1800-02-28T23:59:59.999999"),
    (1_677_628_800_000_000, *b"2023-03-01T00:00:00.000000"),
    (1_728_461_226_000_005, *b"2024-10-09T08:07:06.000005"),
];

#[test]
fn shows_instants(rt: HostRuntime) {
    for (micros, text) in &SHOWN {
        let instant = Micros::new(*micros).expect(&rt, "an instant");
        assert!(rt; show_time(instant) == *text, "{micros}");
    }
}
