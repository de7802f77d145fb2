//! A series where it lies.

use crate::series_head::SeriesHead;
use mseed_audit::Series;
use mseed_record::Codes;
use mseed_time::{LeapStep, Micros, Rate};
use std::alloc::Allocator;

/// A series, borrowed from the lists that hold it.
#[derive(Clone, Copy, Debug)]
pub struct SeriesView<'a> {
    /// The channel.
    pub codes: Codes,
    /// The instant of the first sample.
    pub start: Micros,
    /// The sample rate.
    pub rate: Rate,
    /// The samples, in counts, one sample period apart.
    pub samples: &'a [i32],
    /// The leap seconds: each with the number of samples before it. Whoever makes a view may write any here; the calls
    /// that take one want these numbers to rise strictly, from 1 to at most the number of samples.
    pub steps: &'a [(u64, LeapStep)],
}

impl<'a> SeriesView<'a> {
    ghost use Rattle.std.specs.Prelude.{◌≡◌, length, pos, slice_index_or};
    ghost use Rattle.mseed_audit.specs.Series.{AreSteps};
    ghost use Rattle.mseed_pack.specs.Traces.{headed, trace_of};

    /// The view of a series.
    pub fn of<A: Allocator + Copy>(series: &'a Series<A>) -> SeriesView<'a>
        ensures trace { trace_of result ≡ series.now }
        ensures places { AreSteps (length result.samples.now) result.steps.now }
    {
        SeriesView {
            codes: series.codes(),
            start: series.start(),
            rate: series.rate(),
            samples: series.samples(),
            steps: series.steps(),
        }
    }

    /// The series without its samples.
    pub fn head(&self) -> SeriesHead<'a>
        ensures trace { headed result self.now.samples.now ≡ trace_of self.now }
        ensures count { result.count ≡ length self.now.samples.now }
        ensures first { result.first ≡ slice_index_or self.now.samples.now 0 (pos 0) }
    {
        let first = match self.samples.first() {
            Some(first) => *first,
            None => 0,
        };
        SeriesHead {
            codes: self.codes,
            start: self.start,
            rate: self.rate,
            count: self.samples.len(),
            first,
            steps: self.steps,
        }
    }
}
