//! The series of a channel, put together from its records.
ghost use Rattle.std.specs.Prelude.{◌≡◌, ◌<◌, ◌+◌, ◌^◌, ◌∷◌, ◌++◌, [], List, ℕ, ℤ, IfSome, IfErr, OnOk, IfOk, length};
ghost use Rattle.std.specs.Prelude.{map};
ghost use Rattle.std.specs.List.{filter, AllByRecursion};
ghost use Rattle.mseed_time.specs.declared.rate.Rate.{Rate};
ghost use Rattle.mseed_record.specs.View.{View};
ghost use Rattle.mseed_record.specs.Viewing.{view_of};
ghost use Rattle.mseed_audit.specs.declared.assembly.NotContinuous.TheVariants.{Memory};
ghost use Rattle.mseed_audit.specs.Channels.{Placed, added_from, is_of_channel, records_of, with_record};
ghost use Rattle.mseed_audit.specs.Audit.{StandsAt};
ghost use Rattle.mseed_audit.specs.private.ChannelState.{IsBounded, IsFirstRate};
ghost use Rattle.mseed_audit.specs.Series.{HoldsAll, IsSeries};
ghost use Rattle.mseed_audit.specs.Follows.{IsSound};

use crate::channel::Channel;
use crate::channel_series::Series;
use crate::finding::Finding;
use crate::law::continuous_exactly;
use crate::verdict::Verdict;
use mseed_record::{Codes, RecordView};
use mseed_time::{Micros, Rate};
use std::alloc::Allocator;

/// Why records give no series of a channel.
#[derive(Clone, Copy, Debug, PartialEq, Eq)]
pub enum NotContinuous {
    /// None of them has samples of the channel.
    Absent,
    /// The channel is broken: the first finding, whose offset is where the record begins if the records
    /// stand one after another.
    Broken(Finding),
    /// An allocation was refused.
    Memory,
}

/// Returns the series of a channel: the samples of its records, one after another, among fewer than 2^40 records.
///
/// # Errors
///
/// `Absent` where the channel has no samples, `Broken` where it isn't continuous, `Memory` where an allocation
/// was refused.
pub fn series<A: Allocator + Copy>(
    alloc: A,
    views: &[RecordView],
    codes: &Codes,
) -> Result<Series<A>, NotContinuous>
    requires { length views.now < 2 ^ 40 }
    ensures { IsSeries result (records_of codes.now (added_from 0 (map view_of views.now))) }
{
    continuous_exactly();
    let channel = match channel_of(views, codes) {
        Some(channel) => channel,
        None => return Err(NotContinuous::Absent),
    };
    match channel.verdict() {
        Verdict::Continuous { start, samples, .. } => match first_rate(views, codes) {
            Some(rate) => assemble(alloc, views, codes, start, rate, samples),
            None => unreachable!(),
        },
        Verdict::Broken { first, .. } => Err(NotContinuous::Broken(first)),
    }
}

/// Returns the sample rate of a channel's first record as its header has it; `None` where the channel has no record, or
/// the first one's factor and multiplier give no rate.
fn first_rate(views: &[RecordView], codes: &Codes) -> Option<Rate>
    ensures { IsFirstRate (filter (is_of_channel codes.now) (map view_of views.now)) result }
{
    for view in views {
        if is_of_channel(codes, view) {
            return match view.rate() {
                Ok(rate) => Some(rate),
                Err(_) => None,
            };
        }
    }
    None
}

/// Returns what an audit of the records holds of a channel; `None` where none of them has samples of it.
fn channel_of(views: &[RecordView], codes: &Codes) -> Option<Channel>
    requires { length views.now < 2 ^ 40 }
    ensures { StandsAt result (records_of codes.now (added_from 0 (map view_of views.now))) }
{
    let mut channel = None;
    let mut offset = 0;
    for (index, view) in views.iter().enumerate() {
        channel = channel_with(channel, view, codes, index as u64 + 1, offset);
        offset += view.bytes().len() as u64;
    }
    channel
}

/// Returns what an audit holds of a channel after a further record, which may be of another channel; `None` where no
/// record had samples of it so far.
fn channel_with(
    channel: Option<Channel>,
    view: &RecordView,
    codes: &Codes,
    number: u64,
    offset: u64,
) -> Option<Channel>
    requires { IfSome channel (λ c. IsBounded (2 ^ 40) c) }
    ensures stands { (ps : List Placed) → StandsAt channel ps
        → StandsAt result (with_record codes.now ps
        (record { view = view_of view.now; offset = offset; number = number })) }
    ensures bounded { (n : ℕ) → IfSome channel (λ c. IsBounded n c)
        → IfSome result (λ c. IsBounded (n + 1) c) }
{
    if !is_of_channel(codes, view) {
        return channel;
    }
    match channel {
        None => Some(Channel::begin(view, number, offset).0),
        Some(mut channel) => {
            channel.add(view, number, offset, None);
            Some(channel)
        }
    }
}

/// Returns whether a record has samples and is of this channel.
pub fn is_of_channel(codes: &Codes, view: &RecordView) -> bool
    ensures { result ≡ is_of_channel codes.now (view_of view.now) }
{
    view.samples() > 0 && *codes == view.codes()
}

/// The series of a channel that is continuous and has `count` samples.
fn assemble<A: Allocator + Copy>(
    alloc: A,
    views: &[RecordView],
    codes: &Codes,
    start: Micros,
    rate: Rate,
    count: u64,
) -> Result<Series<A>, NotContinuous>
    requires { AllByRecursion IsSound (filter (is_of_channel codes.now) (map view_of views.now)) }
    ensures holds { IfOk result (λ s. HoldsAll codes.now start rate
        (filter (is_of_channel codes.now) (map view_of views.now)) s) }
    ensures memory { IfErr result (λ e. e ≡ Memory) }
{
    let samples = match Vec::with_capacity(alloc, count as usize) {
        Ok(samples) => samples,
        Err(_) => return Err(NotContinuous::Memory),
    };
    let mut series = Series::new(alloc, *codes, start, rate, samples);
    for view in views {
        if is_of_channel(codes, view) {
            append_record(&mut series, view)?;
        }
    }
    Ok(series)
}

/// Adds the samples of a sound record after those that are there, and the leap second that it carries.
fn append_record<A: Allocator + Copy>(
    series: &mut Series<A>,
    view: &RecordView,
) -> Result<(), NotContinuous>
    requires { IsSound (view_of view.now) }
    ensures holds { (codes : List ℕ) (start : ℤ) (rate : Rate) (vs : List View)
        → HoldsAll codes start rate vs series.old
        → OnOk result (HoldsAll codes start rate (vs ++ view_of view.now ∷ []) series.new) }
    ensures memory { IfErr result (λ e. e ≡ Memory) }
{
    match series.push(view, view.leap().step()) {
        Ok(()) => Ok(()),
        Err(_) => Err(NotContinuous::Memory),
    }
}
