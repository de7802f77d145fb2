//! A request for channels and a window of time.
ghost use Rattle.std.specs.Prelude.{◌≡◌, ◌&&◌, ◌↔◌, ℤ, ◌≤ℤ◌, Some, None, IsErr, IfOk};
ghost use Rattle.mseed_record.specs.View.{View, start_of};
ghost use Rattle.mseed_record.specs.Header.{key_at, samples_at};
ghost use Rattle.mseed_record.specs.Viewing.{view_of};
ghost use Rattle.mseed_record.specs.Pattern.{is_of_channels};
ghost use Rattle.mseed_record.specs.Selection.{IsAskedFor, LacksTime, answer_by, answer_in, answer_of, begins_before};
ghost use Rattle.mseed_record.specs.Selection.{lasts_to, rate_in, reaches};

use crate::fault::BadWindow;
use crate::patterns::Patterns;
use mseed_record::{Answer, RecordView};
use mseed_time::{Micros, Ratio, drift};

/// A request for channels and a window of time, as of FDSN's dataselect.
#[derive(Clone, Copy, Debug)]
pub struct Selector<'a> {
    channels: Option<Patterns<'a>>,
    from: Option<Micros>,
    until: Option<Micros>,
}

impl<'a> Selector<'a> {
    ghost use Rattle.mseed_select.specs.Selecting.{selection_of, text_of};

    /// Returns the request for the records of the channels that the patterns match, in the window from `from` up to
    /// `until`, which isn't part of it. What isn't given bounds nothing.
    ///
    /// # Errors
    ///
    /// `BadWindow` exactly where `until` isn't after `from`.
    pub fn new(
        channels: Option<Patterns<'a>>,
        from: Option<Micros>,
        until: Option<Micros>,
    ) -> Result<Selector<'a>, BadWindow>
        ensures err { IsErr result ↔ ((begin : ℤ) × ((end : ℤ) × ((from ≡ Some begin) × (until ≡ Some end)
            × (end ≤ℤ begin)))) }
        ensures value { IfOk result (λ s. selection_of s
            ≡ record { channels = text_of channels.entry; from = from; until = until }) }
    {
        if let (Some(begin), Some(end)) = (from, until)
            && end.get() <= begin.get()
        {
            return Err(BadWindow);
        }
        Ok(Selector {
            channels,
            from,
            until,
        })
    }

    /// Returns whether a record is asked for. It is where a pattern matches its channel, and it lies in the window: its
    /// last sample isn't before the window's beginning, and its first is before the window's end. These are by the
    /// start, the number of samples and the rate of its header, and compared exactly; without a rate or a sample it is
    /// at its start alone. With a window a record whose start isn't valid isn't asked for.
    #[inline(always)]
    pub fn asks_for(&self, view: &RecordView) -> Answer
        ensures value { result ≡ answer_of (selection_of self.now) (view_of view.now) }
        ensures asked { (result ≡ Answer.AskedFor) ↔ IsAskedFor (selection_of self.now) (view_of view.now) }
        ensures lacks { (result ≡ Answer.NoTime) ↔ LacksTime (selection_of self.now) (view_of view.now) }
    {
        self.answer(view)
    }

    /// Returns whether a record is asked for, as it is computed.
    #[inline(always)]
    fn answer(&self, view: &RecordView) -> Answer
        ensures { result ≡ answer_of (selection_of self.now) (view_of view.now) }
    {
        if self.is_of_channels(view) {
            self.by_window(view)
        } else {
            Answer::Left
        }
    }

    /// Returns whether a pattern matches a record's channel.
    fn is_of_channels(&self, view: &RecordView) -> bool
        ensures { result ≡ is_of_channels (text_of self.now.channels) (key_at (view_of view.now).bytes) }
    {
        match &self.channels {
            Some(patterns) => patterns.are_of(&view.codes()),
            None => true,
        }
    }

    /// Returns whether a record of a channel that is asked for lies in the window.
    fn by_window(&self, view: &RecordView) -> Answer
        ensures { result ≡ answer_in self.now.from self.now.until (view_of view.now) }
    {
        if self.from.is_none() && self.until.is_none() {
            return Answer::AskedFor;
        }
        match view.start() {
            Ok(start) => self.by_start(view, start),
            Err(_) => Answer::NoTime,
        }
    }

    /// Returns whether a record lies in the window, by its start.
    fn by_start(&self, view: &RecordView, start: Micros) -> Answer
        requires { start ≡ start_of (view_of view.now) }
        ensures { result ≡ answer_by None (reaches self.now.from (view_of view.now)
            && begins_before self.now.until (view_of view.now)) }
    {
        if reaches(self.from, view, start) && begins_before(self.until, start) {
            Answer::AskedFor
        } else {
            Answer::Left
        }
    }
}

/// Returns whether the last sample of a record that begins at `start` isn't before a window's beginning.
fn reaches(from: Option<Micros>, view: &RecordView, start: Micros) -> bool
    requires { start ≡ start_of (view_of view.now) }
    ensures { result ≡ reaches from (view_of view.now) }
{
    match from {
        Some(from) => lasts_to(view, start, from),
        None => true,
    }
}

/// Returns whether a record that begins at `start` begins before a window's end.
fn begins_before(until: Option<Micros>, start: Micros) -> bool
    ensures { (v : View) → start ≡ start_of v → result ≡ begins_before until v }
{
    match until {
        Some(until) => start.get() < until.get(),
        None => true,
    }
}

/// Returns whether the last sample of a record that begins at `start` is at an instant or after it.
fn lasts_to(view: &RecordView, start: Micros, instant: Micros) -> bool
    ensures { result ≡ lasts_to (rate_in (view_of view.now)) start
        (samples_at (view_of view.now).order (view_of view.now).bytes) instant }
{
    match view.rate() {
        Ok(rate) => is_sampled_to(start, view.samples(), rate.ratio(), instant),
        Err(_) => instant.get() <= start.get(),
    }
}

/// Returns whether the last of `samples` samples from `start` on is at an instant or after it.
fn is_sampled_to(start: Micros, samples: u16, rate: Ratio, instant: Micros) -> bool
    ensures { result ≡ lasts_to (Some rate) start samples instant }
{
    drift(
        start,
        u64::from(samples.saturating_sub(1)),
        rate,
        0,
        instant,
    ) <= 0
}
