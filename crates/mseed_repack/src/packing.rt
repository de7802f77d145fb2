//! Writing the records of channels.
ghost use Rattle.std.specs.Prelude.{◌≡◌, ◌<◌, [], length, map, slice_index_or, IfErr, OnOk};
ghost use Rattle.mseed_record.specs.Viewing.{view_of};
ghost use Rattle.mseed_repack.specs.ByStretches.{kept_of};
ghost use Rattle.mseed_repack.specs.Repack.{Wrote};
ghost use Rattle.mseed_repack.specs.private.Archives.{IsAudited};
ghost use Rattle.mseed_repack.specs.private.Planning.{AreReady, CanBeWritten, IsPartOn, IsTextOn, PartsAs, TextsAs};
ghost use Rattle.mseed_repack.specs.private.Planning.{stretches_by};

use crate::archive::Archive;
use crate::packability::Packability;
use crate::plan::Plan;
use crate::series::pack_series;
use crate::stretching::Cutting;
use crate::walk::{Part, Walk, skip};
use mseed_pack::{Options, Packer};
use mseed_stream::{Failed, Sink};
use mseed_time::LeapStep;
use std::alloc::Allocator;

/// Writes the records of the channels that fit, each by how its stretches are packed, which are cut so.
///
/// # Errors
///
/// `Failed` where the output failed: a part was written.
pub(crate) fn pack_channels<A: Allocator, W: Sink>(
    archive: &Archive,
    _cutting: Cutting,
    packabilities: &[Packability],
    plans: &[Vec<Plan, A>],
    options: &Options,
    samples: &mut [i32],
    steps: &mut [(u64, LeapStep)],
    output: &mut W,
) -> Result<(), Failed>
    requires audited { IsAudited archive.now }
    requires ready { AreReady _cutting options.now (length samples.old) (length steps.old)
        (map view_of archive.now.views.now) archive.now.channels.now packabilities.now (map (λ own. own.items)
        plans.now) }
    ensures ok { OnOk result (Wrote (TextsAs _cutting options.now (map view_of archive.now.views.now)
        (kept_of archive.now.channels.now packabilities.now)) 0 (W.written output.old) (W.written output.new)) }
    ensures err { IfErr result (λ _. Wrote (PartsAs _cutting options.now (map view_of archive.now.views.now)
        (kept_of archive.now.channels.now packabilities.now)) 1 (W.written output.old) (W.written output.new)) }
{
    let mut packer = Packer::new();
    for number in 0..archive.channels.len() {
        let channel_walk = archive.channel_walk(number);
        if let Packability::Fit = packabilities[number] {
            match pack_stretches(
                channel_walk,
                plans_at(plans, number),
                options,
                samples,
                steps,
                &mut packer,
                output,
            ) {
                Ok(()) => {}
                Err(failed) => return Err(failed),
            }
        }
    }
    Ok(())
}

/// How the stretches of the channel with this number are packed.
fn plans_at<A: Allocator>(plans: &[Vec<Plan, A>], number: usize) -> &[Plan]
    requires { number < length plans.now }
    ensures { result.now ≡ slice_index_or (map (λ own. own.items) plans.now) number [] }
{
    plans[number].as_slice()
}

/// Writes the records of a channel's stretches, of which each can be packed, by how each is.
///
/// # Errors
///
/// `Failed` where the output failed: a part was written.
pub(crate) fn pack_stretches<'a, R: Walk<'a>, W: Sink>(
    records: R,
    plans: &[Plan],
    options: &Options,
    samples: &mut [i32],
    steps: &mut [(u64, LeapStep)],
    packer: &mut Packer,
    output: &mut W,
) -> Result<(), Failed>
    requires led { R.leads records }
    requires ready { CanBeWritten options.now (length samples.old) (length steps.old) plans.now (R.left records) }
    ensures ok { OnOk result (Wrote (IsTextOn options.now (stretches_by plans.now (R.left records))) 0
        (W.written output.old) (W.written output.new)) }
    ensures err { IfErr result (λ _. Wrote (IsPartOn options.now (stretches_by plans.now (R.left records))) 1
        (W.written output.old) (W.written output.new)) }
{
    let mut next = *options;
    let mut rest = records;
    let mut passed = 0;
    for plan in plans {
        rest = skip(rest, passed);
        let count = plan.most();
        let stretch = Part { rest, count };
        match pack_series(stretch, plan.way, &next, samples, steps, packer, output) {
            Ok(written) => next = next.after(written),
            Err(_) => return Err(Failed),
        }
        passed = count;
    }
    Ok(())
}
