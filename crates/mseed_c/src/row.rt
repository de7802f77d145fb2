//! What a row says of a record.
ghost use Rattle.std.specs.Prelude.{◌≡◌, ◌≢◌, pos, Some};
ghost use Rattle.mseed_time.specs.Btime.{first_fault};
ghost use Rattle.mseed_record.specs.Header.{time_at};
ghost use Rattle.mseed_record.specs.View.{start_of, leap_of};
ghost use Rattle.mseed_record.specs.Viewing.{view_of};
ghost use Rattle.mseed_c.specs.Rows.{Describes, HasRate, leap_number, time_number};

use mseed_record::{Leap, RecordView};
use mseed_time::TimeFault;

/// One record of an archive.
#[repr(C)]
#[derive(Clone, Copy)]
pub struct Row {
    /// Where it begins, in bytes from the beginning of the archive.
    pub offset: usize,
    /// Its length in bytes.
    pub length: usize,
    /// The index of its first sample among those of all rows.
    pub first: usize,
    /// How many samples it has, as its header says.
    pub samples: usize,
    /// The instant of its first sample, in microseconds from 1970-01-01T00:00:00; 0 where `time` isn't 0.
    pub start: i64,
    /// Its sample rate: a number of samples ..
    pub num: u32,
    /// .. in this number of seconds, not reduced; both are 0 where it has none.
    pub den: u32,
    /// 0, also where it has no samples; or the code of why its samples can't be read, 32 to 39: then none were.
    pub code: u32,
    /// The factor of its rate; 0 where it has none (SEED Reference Manual 2.4, chapter 8, field 10).
    pub factor: i16,
    /// The multiplier of its rate; 0 where it has none (chapter 8, field 11).
    pub multiplier: i16,
    /// How its samples are encoded, by blockette 1000.
    pub encoding: u8,
    /// Its quality indicator: `D`, `R`, `Q` or `M`.
    pub quality: u8,
    /// 0, or which field of its start is the first that is out of its range, from 1, the year, to 6, the fraction.
    pub time: u8,
    /// Its leap seconds: 0 for none, 1 for a positive one, 2 for a negative one, 3 for both flags.
    pub leap: u8,
    /// The network, station, location and channel, 2, 5, 2 and 3 bytes, as they stand in the header.
    pub key: [u8; 12],
}

/// A record's rate, as a row has it.
#[derive(Clone, Copy)]
pub(crate) struct RowRate {
    pub(crate) num: u32,
    pub(crate) den: u32,
    pub(crate) factor: i16,
    pub(crate) multiplier: i16,
}

/// Returns a record's rate, as a row has it; all fields are 0 where it has none.
#[inline(always)]
fn rate(view: &RecordView<'_>) -> RowRate
    ensures { HasRate result (view_of view.now) }
{
    match view.rate() {
        Ok(rate) => {
            let (factor, multiplier) = rate.pair();
            RowRate {
                num: rate.num(),
                den: rate.den(),
                factor,
                multiplier,
            }
        }
        Err(_) => RowRate {
            num: 0,
            den: 0,
            factor: 0,
            multiplier: 0,
        },
    }
}

/// Returns a record's start in microseconds from 1970-01-01T00:00:00, and 0; or 0, and the number of the first field of
/// it that is out of its range.
#[inline(always)]
fn start(view: &RecordView<'_>) -> (i64, u8)
    ensures time { result.1 ≡ time_number (first_fault (time_at (view_of view.now).order (view_of view.now).bytes)) }
    ensures start { result.1 ≡ 0 → result.0 ≡ start_of (view_of view.now) }
    ensures none { result.1 ≢ 0 → result.0 ≡ pos 0 }
{
    match view.start() {
        Ok(start) => (start.get(), 0),
        Err(fault) => (0, time_number(fault)),
    }
}

/// Returns the number of a field of a BTIME, from 1, the year, to 6, the fraction.
#[inline(always)]
fn time_number(fault: TimeFault) -> u8
    ensures value { result ≡ time_number (Some fault) }
    ensures some { result ≢ 0 }
{
    match fault {
        TimeFault::Year => 1,
        TimeFault::Day => 2,
        TimeFault::Hour => 3,
        TimeFault::Minute => 4,
        TimeFault::Second => 5,
        TimeFault::Fraction => 6,
    }
}

/// Returns the number of a record's leap seconds: 0 for none, 1 positive, 2 negative, 3 for both flags.
#[inline(always)]
fn leap_number(leap: Leap) -> u8
    ensures { result ≡ leap_number leap }
{
    match leap {
        Leap::None => 0,
        Leap::Positive => 1,
        Leap::Negative => 2,
        Leap::Both => 3,
    }
}

/// Returns the row of a record that begins at this offset (in bytes), whose first sample has this index, and whose
/// samples were read with this code.
#[inline(always)]
pub(crate) fn row_of(view: &RecordView<'_>, offset: usize, first: usize, code: u32) -> Row
    ensures describes { Describes result (view_of view.now) }
    ensures offset { result.offset ≡ offset }
    ensures first { result.first ≡ first }
    ensures code { result.code ≡ code }
{
    let rate = rate(view);
    let (start, time) = start(view);
    let codes = view.codes();
    Row {
        offset,
        length: view.bytes().len(),
        first,
        samples: usize::from(view.samples()),
        start,
        num: rate.num,
        den: rate.den,
        code,
        factor: rate.factor,
        multiplier: rate.multiplier,
        encoding: view.encoding(),
        quality: view.quality(),
        time,
        leap: leap_number(view.leap()),
        key: *codes.key(),
    }
}
