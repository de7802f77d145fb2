//! What is found of the channels of an archive that is packed.
ghost use Rattle.std.specs.Prelude.{◌≡◌, ◌≢◌, ◌↔◌, ◌⊎◌, ◌≤◌, ◌^◌, [], IsTrue, length, map, true, IfOk, IfSome};
ghost use Rattle.std.specs.List.{AllByRecursion};
ghost use Rattle.mseed_record.specs.Viewing.{view_of};
ghost use Rattle.mseed_audit.specs.Follows.{IsSound};
ghost use Rattle.mseed_audit.specs.Verdict.{says_continuous};
ghost use Rattle.mseed_pack.specs.Options.{IsSteim};
ghost use Rattle.mseed_repack.specs.Repack.{AreContinuous};
ghost use Rattle.mseed_repack.specs.declared.stretching.Cutting.TheVariants.{Stretches, Whole};
ghost use Rattle.mseed_repack.specs.private.Archives.{AreAlone, HasRoomForSteps, SaysCount};
ghost use Rattle.mseed_repack.specs.private.Reading.{CanBeCut, steps_of};
ghost use Rattle.mseed_repack.specs.private.Planning.{AreReady, IsReady};
ghost use Rattle.mseed_repack.specs.private.Supplying.{AreCounted, IsPlain};

use crate::archive::Archive;
use crate::channel::are_sound;
use crate::judging::Judged;
use crate::plan::Plan;
use crate::series::{Fitting, fit_series};
use crate::stretching::{Cutting, cut_stretch};
use crate::walk::{Part, Walk};
use mseed_audit::Verdict;
use mseed_pack::{Encoding, Options, PackFault};
use mseed_time::LeapStep;
use std::alloc::{AllocError, Allocator};

/// What is found of a channel, taken as a list of stretches.
#[derive(Clone, Copy, Debug, PartialEq, Eq)]
pub(crate) enum Packability {
    /// Each of its stretches can be packed.
    Fit,
    /// Some record has a finding of its own.
    Broken,
    /// The first stretch that can't be packed, by its number, from 1, and why.
    Misfit(u64, PackFault),
}

/// What is found of each channel, whose records are cut so, by what was found of all records. How its stretches are
/// packed, if it fits, is put after the plans of the others, in a list that is empty; the list of samples grows where a
/// stretch goes by a list and wants more room.
///
/// # Errors
///
/// `AllocError` where there is no memory for one of the lists.
pub(crate) fn plan_channels<A: Allocator + Copy>(
    alloc: A,
    archive: &Archive,
    judged: &Judged<A>,
    cutting: Cutting,
    options: &Options,
    plans: &mut Vec<Vec<Plan, A>, A>,
    samples: &mut Vec<i32, A>,
    steps: &mut [(u64, LeapStep)],
) -> Result<Vec<Packability, A>, AllocError>
    requires places { HasRoomForSteps archive.now (length steps.old) }
    requires sound { judged.now.sound ≡ true → AreAlone IsSound (map view_of archive.now.views.now) }
    requires plain { judged.now.plain ≡ true → AreAlone IsPlain (map view_of archive.now.views.now) }
    requires whole { cutting ≡ Whole → AreContinuous (map view_of archive.now.views.now) archive.now.channels.now }
    requires none { plans.old.items ≡ [] }
    ensures { IfOk result (λ packabilities. AreReady cutting options.now (length samples.new.items) (length steps.new)
        (map view_of archive.now.views.now) archive.now.channels.now packabilities.items
        (map (λ own. own.items) plans.new.items)) }
{
    let mut packabilities = Vec::new(alloc);
    for (number, channel) in archive.channels.iter().enumerate() {
        let sound = is_known_sound(&channel.1, judged.sound);
        let plain = count_plain(&channel.1, judged.plain, options.encoding);
        let mut own = Vec::new(alloc);
        let packability = plan_channel(
            alloc,
            archive.channel_walk(number),
            sound,
            plain,
            cutting,
            options,
            &mut own,
            samples,
            steps,
        )?;
        packabilities.push(packability)?;
        plans.push(own)?;
    }
    Ok(packabilities)
}

/// Returns whether each record of a channel is known to be sound, by the verdict on it, and whether no record of the
/// archive has a finding of its own.
fn is_known_sound(verdict: &Verdict, sound: bool) -> bool
    ensures { result ≡ true → (sound ≡ true) ⊎ (says_continuous verdict.now ≡ true) }
{
    sound || verdict.is_continuous()
}

/// Returns how many samples a continuous channel has, by the verdict on it, where its records are plain, and are to be
/// written in either Steim.
fn count_plain(verdict: &Verdict, plain: bool, encoding: Encoding) -> Option<usize>
    ensures { IfSome result (λ count. (plain ≡ true) × IsSteim encoding × SaysCount count verdict.now) }
{
    if !plain {
        return None;
    }
    match (encoding, verdict) {
        (Encoding::Steim1 | Encoding::Steim2, Verdict::Continuous { samples, .. }) => {
            Some(*samples as usize)
        }
        _ => None,
    }
}

/// What is found of a channel with these records, each of which is known to be sound, or isn't. Where the channel isn't
/// cut, they may be known to be plain, and how many samples they have. How each of its stretches is packed, if it fits,
/// is put into a list, which is empty.
///
/// # Errors
///
/// `AllocError` where there is no memory for one of the lists.
fn plan_channel<'a, A: Allocator + Copy, R: Walk<'a>>(
    alloc: A,
    records: R,
    sound: bool,
    plain: Option<usize>,
    cutting: Cutting,
    options: &Options,
    plans: &mut Vec<Plan, A>,
    samples: &mut Vec<i32, A>,
    steps: &mut [(u64, LeapStep)],
) -> Result<Packability, AllocError>
    requires led { R.leads records }
    requires few { length (R.left records) ≤ 2 ^ 40 }
    requires some { cutting ≡ Whole → R.left records ≢ [] }
    requires sound { sound ≡ true → AllByRecursion IsSound (R.left records) }
    requires plain { IfSome plain (λ count. AreCounted options.now.encoding count (R.left records)) }
    requires none { plans.old.items ≡ [] }
    requires steps_fit { steps_of (R.left records) ≤ length steps.old }
    ensures ready { IfOk result (λ s. IsReady cutting options.now (length samples.new.items) (length steps.new)
        (R.left records) s plans.new.items) }
    ensures grown { IfOk result (λ _. length samples.old.items ≤ length samples.new.items) }
{
    if !are_all_sound(records, sound) {
        return Ok(Packability::Broken);
    }
    match cutting {
        Cutting::Stretches => fit_stretches(alloc, records, options, plans, samples, steps),
        Cutting::Whole => match fit_series(alloc, records, plain, options, samples, steps)? {
            Fitting::Fits(way) => {
                plans.push(Plan { records: None, way })?;
                Ok(Packability::Fit)
            }
            Fitting::Misfits(fault) => Ok(Packability::Misfit(1, fault)),
        },
    }
}

/// Whether each of a channel's records is sound: they are looked at only where that isn't known.
fn are_all_sound<'a, R: Walk<'a>>(records: R, known: bool) -> bool
    requires led { R.leads records }
    requires known { known ≡ true → AllByRecursion IsSound (R.left records) }
    ensures { IsTrue result ↔ AllByRecursion IsSound (R.left records) }
{
    if known {
        return true;
    }
    are_sound(records)
}

/// What is found of a channel that is cut into stretches, of which each record is sound. How each stretch before the
/// first that can't be packed is packed is put into a list, which is empty. The list of samples grows where a stretch
/// wants more room.
///
/// # Errors
///
/// `AllocError` where there is no memory for either list.
pub(crate) fn fit_stretches<'a, A: Allocator + Copy, R: Walk<'a>>(
    alloc: A,
    records: R,
    options: &Options,
    plans: &mut Vec<Plan, A>,
    samples: &mut Vec<i32, A>,
    steps: &mut [(u64, LeapStep)],
) -> Result<Packability, AllocError>
    requires cut { CanBeCut R.leads R.left records }
    requires none { plans.old.items ≡ [] }
    requires steps_fit { steps_of (R.left records) ≤ length steps.old }
    ensures ready { IfOk result (λ packability. IsReady Stretches options.now (length samples.new.items)
        (length steps.new) (R.left records) packability plans.new.items) }
    ensures grown { IfOk result (λ _. length samples.old.items ≤ length samples.new.items) }
{
    let mut rest = records;
    let mut after = records;
    while let Some(count) = cut_stretch(&mut after) {
        let stretch = Part { rest, count };
        match fit_series(alloc, stretch, None, options, samples, steps)? {
            Fitting::Fits(way) => plans.push(Plan {
                records: Some(count),
                way,
            })?,
            Fitting::Misfits(fault) => return Ok(Packability::Misfit(
                plans.len() as u64 + 1,
                fault,
            )),
        }
        rest = after;
    }
    Ok(Packability::Fit)
}
