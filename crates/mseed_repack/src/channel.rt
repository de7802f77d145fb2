//! A channel packed anew by its stretches.
ghost use Rattle.std.specs.Prelude.{◌↔◌, ◌≤◌, ◌^◌, IsTrue, length, map};
ghost use Rattle.std.specs.List.{AllByRecursion};
ghost use Rattle.mseed_record.specs.Viewing.{view_of};
ghost use Rattle.mseed_audit.specs.Follows.{IsSound};
ghost use Rattle.mseed_repack.specs.Stretches.{AreStretches};
ghost use Rattle.mseed_repack.specs.private.Planning.{CanBeWritten, stretches_by};
ghost use Rattle.mseed_repack.specs.Restretch.{IsChannelRepacking};

use crate::channel_fault::ChannelFault;
use crate::packability::{Packability, fit_stretches};
use crate::packing::pack_stretches;
use crate::plan::Plan;
use crate::reading::count_steps;
use crate::room::blank_steps;
use crate::sound::is_sound;
use crate::walk::{RecordList, Walk};
use mseed_pack::{Options, Packer};
use mseed_record::RecordView;
use mseed_stream::Sink;
use mseed_time::LeapStep;
use std::alloc::Allocator;

/// Packs the records of one channel, in their order, anew: stretch by stretch, each from its own start, with sequence
/// numbers that run on. All stretches are known to fit before the first byte is written. Memory is requested
/// before it, too: for how each stretch is packed, for all leap seconds, and for the samples of the largest stretch
/// that goes by a list. A stretch goes from frames to frames, and memory is requested for 7,056 samples of it alone,
/// where its records are Steim, and so is what is written, no record has more samples than that, and it shows without
/// reading them that each sample is the one before it plus a difference of 30 bits. There are at most 2^40 records.
///
/// # Errors
///
/// `Broken` where a record has no samples or a finding of its own, else `Misfit` for the first stretch that can't be
/// packed; `Write` where the output failed, of which a part may have been written; `Memory` where an allocation was
/// refused.
pub fn repack_channel<A: Allocator + Copy, W: Sink>(
    alloc: A,
    records: &[RecordView],
    options: &Options,
    output: &mut W,
) -> Result<(), ChannelFault>
    requires few { length records.now ≤ 2 ^ 40 }
    ensures { IsChannelRepacking options.now (map view_of records.now) result
        (W.written output.old) (W.written output.new) }
{
    let row = RecordList { records, index: 0 };
    if !are_sound(row) {
        return Err(ChannelFault::Broken);
    }
    let mut steps = blank_steps(alloc, count_steps(records))?;
    let mut samples = Vec::new(alloc);
    let mut plans = Vec::new(alloc);
    match fit_stretches(alloc, row, options, &mut plans, &mut samples, &mut steps)? {
        Packability::Fit => repack_planned(row, &plans, options, &mut samples, &mut steps, output),
        Packability::Broken => Err(ChannelFault::Broken),
        Packability::Misfit(number, fault) => Err(ChannelFault::Misfit(number, fault)),
    }
}

/// Packs the records of a channel by how each stretch is packed, of which each fits.
fn repack_planned<'a, R: Walk<'a>, W: Sink>(
    records: R,
    plans: &[Plan],
    options: &Options,
    samples: &mut [i32],
    steps: &mut [(u64, LeapStep)],
    output: &mut W,
) -> Result<(), ChannelFault>
    requires led { R.leads records }
    requires sound { AllByRecursion IsSound (R.left records) }
    requires are { AreStretches (R.left records) (stretches_by plans.now (R.left records)) }
    requires ready { CanBeWritten options.now (length samples.old) (length steps.old) plans.now (R.left records) }
    ensures { IsChannelRepacking options.now (R.left records) result (W.written output.old) (W.written output.new) }
{
    let mut packer = Packer::new();
    match pack_stretches(records, plans, options, samples, steps, &mut packer, output) {
        Ok(()) => Ok(()),
        Err(_) => Err(ChannelFault::Write),
    }
}

/// Whether each of some records is sound.
pub(crate) fn are_sound<'a, R: Walk<'a>>(records: R) -> bool
    requires { R.leads records }
    ensures { IsTrue result ↔ AllByRecursion IsSound (R.left records) }
{
    let mut rest = records;
    while let Some(view) = rest.next() {
        if !is_sound_record(&view) {
            return false;
        }
    }
    true
}

/// Whether a record has samples and no finding of its own.
fn is_sound_record(view: &RecordView) -> bool
    ensures { IsTrue result ↔ IsSound (view_of view.now) }
{
    if view.samples() == 0 {
        return false;
    }
    is_sound(view)
}
