//! The end of a record, by which the next one is judged.
ghost use Rattle.std.specs.Prelude.{◌≡◌, Option, Some, None, IfOk, IfErr, IsTrue};
ghost use Rattle.mseed_record.specs.View.{View};
ghost use Rattle.mseed_record.specs.Viewing.{view_of};
ghost use Rattle.mseed_audit.specs.Judging.{known_rate, IsFound};
ghost use Rattle.mseed_audit.specs.Audit.{IsTail, break_by};
ghost use Rattle.mseed_audit.specs.private.ChannelState.{break_after};

use crate::finding::Why;
use mseed_record::{Leap, RecordView};
use mseed_time::{Join, Micros, Ratio, join};

/// The end of a record whose time and rate are known: where it began, how many samples follow at which
/// rate, and the leap seconds that it carries.
#[derive(Clone, Copy, Debug, PartialEq, Eq)]
pub struct Tail {
    /// The instant of the record's first sample, in microseconds from 1970 on (UTC).
    pub start: Micros,
    /// The number of the record's samples.
    pub samples: u16,
    /// The record's sample rate, in samples a second.
    pub rate: Ratio,
    /// The leap seconds that the record carries, by its activity flags (SEED manual, chapter 8, field 12).
    pub leap: Leap,
}

impl Tail {
    /// The end of a record, where its time and its rate are known.
    ///
    /// # Errors
    ///
    /// Why they aren't.
    #[inline(always)]
    pub(crate) fn of(view: &RecordView) -> Result<Tail, Why>
        ensures ok { IfOk result (λ t. IsTail t (view_of view.now)) }
        ensures unknown { IfErr result (λ why. known_rate (view_of view.now) ≡ None) }
        ensures why { IfErr result (λ why. (before : Option View) → IsFound before (view_of view.now) (Some why)) }
    {
        let start = match view.start() {
            Ok(start) => start,
            Err(fault) => return Err(Why::Time(fault)),
        };
        let rate = match view.rate() {
            Ok(rate) => rate.ratio(),
            Err(_) => return Err(Why::Rate),
        };
        Ok(Tail {
            start,
            samples: view.samples(),
            rate,
            leap: view.leap(),
        })
    }

    /// Whether the record that ends so follows the one before it, if there is one whose end is known.
    #[inline(always)]
    pub(crate) fn follows(&self, before: Option<Tail>) -> bool
        ensures { IsTrue result → break_after before self.now ≡ None }
    {
        match before {
            Some(before) => before.break_to(self.start, self.rate).is_none(),
            None => true,
        }
    }

    /// Returns why a record of this start and rate doesn't follow one that ends so; `None` where it does.
    pub fn break_to(&self, start: Micros, rate: Ratio) -> Option<Why>
        ensures { result ≡ break_by self.now start rate }
    {
        if !self.rate.same_as(rate) {
            return Some(Why::RateChange);
        }
        if matches!(self.leap, Leap::Both) {
            return Some(Why::Leap);
        }
        match join(
            self.start,
            u32::from(self.samples),
            self.rate,
            self.leap.step(),
            start,
        ) {
            Join::Meets => None,
            Join::Late(micros) => Some(Why::Gap(micros)),
            Join::Early(micros) => Some(Why::Overlap(micros)),
        }
    }
}
