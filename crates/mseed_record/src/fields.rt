//! The fields of a header that is written.
ghost use Rattle.std.specs.Prelude.{◌<◌};

use crate::codes::Codes;
use mseed_time::{Btime, Rate};

/// The fields of a header that is written (SEED manual, chapter 8, fixed section and blockettes 1000 and 1001).
#[derive(Clone, Copy, Debug, PartialEq, Eq)]
pub struct Fields {
    /// The sequence number of the record, 0 to 999,999 (SEED manual, chapter 8, field 1).
    pub sequence: u32,
    /// The codes of the channel.
    pub codes: Codes,
    /// The time of the first sample, to a ten-thousandth of a second.
    pub start: Btime,
    /// How many microseconds the instant of the first sample is after that time, for blockette 1001.
    pub usec: i8,
    /// The number of samples.
    pub samples: u16,
    /// The sample rate, by its factor and multiplier.
    pub rate: Rate,
    /// The code of the payload's encoding, for blockette 1000.
    pub encoding: u8,
    /// The power of two that is the record's length, for blockette 1000.
    pub exponent: u8,
    /// How many frames hold data, for blockette 1001.
    pub frames: u8,
    /// The activity flags (SEED manual, chapter 8, field 12).
    pub activity: u8,
    /// The sequence number has six digits.
    pub ghost numbered: { sequence < 1_000_000 },
}
