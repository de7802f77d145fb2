//! The series of a channel: its samples, one after another.
ghost use Rattle.std.specs.Prelude.{◌≡◌, ◌↔◌, ◌<◌, ◌≤◌, ◌+◌, ◌++◌, ℤ, List, IsTrue, OnOk, IfErr, IfSome, IsOk, None};
ghost use Rattle.std.specs.Prelude.{[], length};
ghost use Rattle.mseed_record.specs.Viewing.{view_of};
ghost use Rattle.mseed_steim.specs.Reading.{IsWhole};
ghost use Rattle.mseed_audit.specs.Follows.{IsSound};
ghost use Rattle.mseed_audit.specs.Series.{AreSteps, IsBadStep, Trace, step_at};

use mseed_record::{Codes, RecordView};
use mseed_steim::fill_samples;
use mseed_time::{LeapStep, Micros, Rate};
use std::alloc::{AllocError, Allocator, Global};
use std::marker::Model;

/// The samples of a channel from an instant on, at one rate, and the leap seconds among them.
///
/// Contracts see a series as a `Trace`.
#[derive(Debug, Drop)]
pub struct Series<A: Allocator = Global> {
    codes: Codes,
    start: Micros,
    rate: Rate,
    samples: Vec<i32, A>,
    steps: Vec<(u64, LeapStep), A>,
}

impl<A: Allocator> Model for Series<A> {
    ghost Value = { Trace };

    ghost view = { λ s. record {
      codes = s.codes;
      start = s.start;
      rate = s.rate;
      samples = s.samples.items;
      steps = s.steps.items;
    } };

    ghost invariant = { λ s. AreSteps (length s.samples.items) s.steps.items };
}

/// Leap seconds that a series can't have: the index of the first bad one, and the list, which comes back.
#[derive(Debug, Drop)]
pub struct BadStep<A: Allocator = Global> {
    /// The index of the first bad leap second among those that were given, from 0.
    pub index: usize,
    /// The list that was given: of each, the number of samples before it, and the leap second.
    pub steps: Vec<(u64, LeapStep), A>,
}

impl<A: Allocator + Copy> Series<A> {
    /// A series without leap seconds. It takes no memory: the allocator is that of an empty list.
    pub fn new(alloc: A, codes: Codes, start: Micros, rate: Rate, samples: Vec<i32, A>) -> Series<A>
        ensures { result ≡ record { codes = codes; start = start; rate = rate; samples = samples.items; steps = [] } }
    {
        Series {
            codes,
            start,
            rate,
            samples,
            steps: Vec::new(alloc),
        }
    }

    /// Returns the codes of the channel.
    pub fn codes(&self) -> Codes
        ensures { result ≡ self.now.codes }
    {
        self.codes
    }

    /// Returns the instant of the first sample, in microseconds from 1970 on (UTC).
    pub fn start(&self) -> Micros
        ensures { result ≡ self.now.start }
    {
        self.start
    }

    /// Returns the sample rate, in samples a second.
    pub fn rate(&self) -> Rate
        ensures { result ≡ self.now.rate }
    {
        self.rate
    }

    /// Returns the samples, in their order.
    pub fn samples(&self) -> &[i32]
        ensures { result.now ≡ self.now.samples }
    {
        &self.samples
    }

    /// Returns the leap seconds: each with the number of samples before it, which rises strictly from 1 on.
    pub fn steps(&self) -> &[(u64, LeapStep)]
        ensures value { result.now ≡ self.now.steps }
        ensures places { AreSteps (length self.now.samples) self.now.steps }
    {
        &self.steps
    }

    /// Adds the samples of a sound record, and the leap second after them. Where memory is refused, a part of
    /// them may have been added.
    pub(crate) fn push(
        &mut self,
        view: &RecordView<'_>,
        step: Option<LeapStep>,
    ) -> Result<(), AllocError>
        requires { IsSound (view_of view.now) }
        ensures { OnOk result ((s : List ℤ) × (IsWhole (view_of view.now) s
            × (self.new
            ≡ record self.old {
              samples = self.old.samples ++ s;
              steps = self.old.steps ++ step_at (length self.old.samples + length s) step;
            }))) }
    {
        append_samples(&mut self.samples, view)?;
        if let Some(step) = step {
            self.steps.push((self.samples.len() as u64, step))?;
        }
        Ok(())
    }

    /// Gives the series other leap seconds. It takes no memory.
    ///
    /// # Errors
    ///
    /// The index of the first one whose place isn't in `1..=length` and past that of the one before it. The
    /// list comes back, and the series is as it was.
    pub fn set_steps(&mut self, steps: Vec<(u64, LeapStep), A>) -> Result<(), BadStep<A>>
        ensures ok { IsOk result ↔ AreSteps (length self.old.samples) steps.items }
        ensures set { OnOk result (self.new ≡ record self.old { steps = steps.items }) }
        ensures unchanged { IfErr result (λ e. self.new ≡ self.old) }
        ensures bad { IfErr result (λ e. IsBadStep (length self.old.samples) steps.items e.index) }
        ensures back { IfErr result (λ e. e.steps.items ≡ steps.items) }
    {
        if let Some(index) = first_bad(&steps, self.samples.len()) {
            return Err(BadStep { index, steps });
        }
        self.steps = steps;
        Ok(())
    }
}

/// Adds the samples of a sound record to a list. Where memory is refused, the list is as it was.
fn append_samples<A: Allocator>(
    samples: &mut Vec<i32, A>,
    view: &RecordView<'_>,
) -> Result<(), AllocError>
    requires { IsSound (view_of view.now) }
    ensures added { OnOk result ((s : List ℤ) × (IsWhole (view_of view.now) s
        × (samples.new.items ≡ samples.old.items ++ s))) }
    ensures refused { IfErr result (λ e. samples.new.items ≡ samples.old.items) }
{
    let before = samples.len();
    samples.resize(before + usize::from(view.samples()), 0)?;
    // A sound record has a reading.
    match fill_samples(view, &mut samples[before..]) {
        Ok(()) => Ok(()),
        Err(_) => unreachable!(),
    }
}

/// Returns the index of the first leap second that a series of `size` samples can't have.
fn first_bad(steps: &[(u64, LeapStep)], size: usize) -> Option<usize>
    ensures none { (result ≡ None) ↔ AreSteps size steps.now }
    ensures some { IfSome result (λ index. IsBadStep size steps.now index) }
{
    let mut before = 0;
    for (index, (place, _)) in steps.iter().enumerate() {
        if !is_after(before, *place, size as u64) {
            return Some(index);
        }
        before = *place;
    }
    None
}

/// Returns whether a leap second at `place` comes after `before`, with at most `size` samples before it.
fn is_after(before: u64, place: u64, size: u64) -> bool
    ensures { IsTrue result ↔ ((before < place) × (place ≤ size)) }
{
    before < place && place <= size
}
