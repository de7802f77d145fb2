//! How the channels of an archive are packed, known before anything is written.
ghost use Rattle.std.specs.Prelude.{◌≡◌, ◌≤◌, ◌^◌, length, map, true, IfOk};
ghost use Rattle.mseed_record.specs.Viewing.{view_of};
ghost use Rattle.mseed_audit.specs.Channels.{added_from};
ghost use Rattle.mseed_audit.specs.Follows.{IsSound};
ghost use Rattle.mseed_audit.specs.Verdict.{AreVerdicts};
ghost use Rattle.mseed_repack.specs.Repack.{AreContinuous};
ghost use Rattle.mseed_repack.specs.declared.stretching.Cutting.TheVariants.{Whole};
ghost use Rattle.mseed_repack.specs.private.Archives.{AreAlone};
ghost use Rattle.mseed_repack.specs.private.Planning.{AreReady};
ghost use Rattle.mseed_repack.specs.private.Reading.{steps_of};
ghost use Rattle.mseed_repack.specs.private.Supplying.{IsPlain};
ghost use Rattle.mseed_repack.specs.private.Links.{AreLinked};

use crate::judging::Judged;
use crate::links::{ChannelLinks, link_channels};
use crate::packability::{Packability, plan_channels};
use crate::plan::Plan;
use crate::room::blank_steps;
use crate::stretching::Cutting;
use mseed_audit::Verdict;
use mseed_pack::Options;
use mseed_record::{Codes, RecordView};
use mseed_time::LeapStep;
use std::alloc::{AllocError, Allocator};

/// What packing an archive needs beside its records and channels: all memory that it takes.
#[derive(Drop)]
pub(crate) struct Planned<A: Allocator> {
    /// Where the records of each channel stand.
    pub(crate) links: ChannelLinks<A>,
    /// What is found of each channel.
    pub(crate) packabilities: Vec<Packability, A>,
    /// How the stretches of each channel are packed; none of one that doesn't fit.
    pub(crate) plans: Vec<Vec<Plan, A>, A>,
    /// Room for the samples of each stretch that goes by a list.
    pub(crate) samples: Vec<i32, A>,
    /// Room for the leap seconds of each stretch.
    pub(crate) steps: Vec<(u64, LeapStep), A>,
}

/// How the records of an archive are packed, each channel's cut so, by what the audit says of the channels and what was
/// found of the records. A channel that isn't to be cut is continuous.
///
/// # Errors
///
/// `AllocError` where an allocation was refused.
pub(crate) fn plan_archive<A: Allocator + Copy>(
    alloc: A,
    views: &[RecordView],
    channels: &[(Codes, Verdict)],
    judged: &Judged<A>,
    cutting: Cutting,
    options: &Options,
) -> Result<Planned<A>, AllocError>
    requires few { length views.now ≤ 2 ^ 40 }
    requires verdicts { AreVerdicts (added_from 0 (map view_of views.now)) channels.now }
    requires sound { judged.now.sound ≡ true → AreAlone IsSound (map view_of views.now) }
    requires plain { judged.now.plain ≡ true → AreAlone IsPlain (map view_of views.now) }
    requires steps { judged.now.steps ≡ steps_of (map view_of views.now) }
    requires whole { cutting ≡ Whole → AreContinuous (map view_of views.now) channels.now }
    ensures laid { IfOk result (λ planned.
        AreLinked views.now channels.now planned.links.firsts.items planned.links.nexts.items) }
    ensures ready { IfOk result (λ planned. AreReady cutting options.now (length planned.samples.items)
        (length planned.steps.items) (map view_of views.now) channels.now planned.packabilities.items
        (map (λ own. own.items) planned.plans.items)) }
{
    let links = link_channels(alloc, views, channels)?;
    let mut steps = blank_steps(alloc, judged.steps)?;
    let mut samples = Vec::new(alloc);
    let mut plans = Vec::new(alloc);
    let packabilities = plan_channels(
        alloc,
        &links.archive(views, channels),
        judged,
        cutting,
        options,
        &mut plans,
        &mut samples,
        &mut steps,
    )?;
    Ok(Planned {
        links,
        packabilities,
        plans,
        samples,
        steps,
    })
}
