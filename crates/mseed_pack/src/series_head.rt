//! A series without its samples.

use mseed_record::Codes;
use mseed_time::{LeapStep, Micros, Rate};

/// A series but for its samples: how it begins, and how long it is.
#[derive(Clone, Copy, Debug)]
pub struct SeriesHead<'a> {
    /// The channel.
    pub codes: Codes,
    /// The instant of the first sample.
    pub start: Micros,
    /// The sample rate.
    pub rate: Rate,
    /// How many samples it has.
    pub count: usize,
    /// The first sample, in counts; 0 where there is none.
    pub first: i32,
    /// The leap seconds: each with the number of samples before it. Whoever makes a head may write any here; the calls
    /// that take one want these numbers to rise strictly, from 1 to at most the number of samples.
    pub steps: &'a [(u64, LeapStep)],
}
