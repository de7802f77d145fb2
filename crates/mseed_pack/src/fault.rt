//! Why a series isn't packed.

use mseed_time::{Micros, Rate};
use thiserror::Error;

/// Why a series wasn't packed: the first reason that applies, in this order.
#[derive(Clone, Copy, Debug, PartialEq, Eq, Error)]
pub enum PackFault {
    /// It has no samples.
    #[error("the series has no samples")]
    Empty,
    /// It has more than 500,000 samples a second: its rate.
    #[error("the sample rate is over 500,000 Hz")]
    RateTooHigh(Rate),
    /// The first sample whose instant, once it is rounded to a ten-thousandth of a second, lies in no year from 1900 to
    /// 2100.
    #[error("sample {index} lies in no year from 1900 to 2100")]
    TimeOutOfRange {
        /// How many samples stand before it.
        index: usize,
        /// Its instant, in whole microseconds, rounded down.
        instant: Micros,
    },
    /// The first sample that the encoding doesn't hold.
    #[error("sample {index} is {sample}, too large for the encoding")]
    SampleTooLarge {
        /// How many samples stand before it.
        index: usize,
        /// The sample, in counts.
        sample: i32,
    },
    /// The first sample whose difference from the one before it the encoding doesn't hold.
    #[error("the difference before sample {index} is {difference}, too large for the encoding")]
    DifferenceTooLarge {
        /// How many samples stand before it.
        index: usize,
        /// How much greater it is than the one before it, in counts; negative where it is less.
        difference: i64,
    },
    /// The sink failed, once it had taken this number of bytes.
    #[error("the output failed after {0} bytes")]
    Write(u128),
}
