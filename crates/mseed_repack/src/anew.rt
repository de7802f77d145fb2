//! Packing those records of an archive anew that are asked for: each channel whole, or by its stretches.
ghost use Rattle.std.specs.Prelude.{◌≡◌, ◌<◌, ◌^◌, List, length, map};
ghost use Rattle.mseed_record.specs.View.{View};
ghost use Rattle.mseed_record.specs.Viewing.{view_of};
ghost use Rattle.mseed_stream.specs.Calls.{ReadsOn};
ghost use Rattle.mseed_stream.specs.Device.{BytesRead, nothing_read};
ghost use Rattle.mseed_audit.specs.Channels.{Placed};
ghost use Rattle.mseed_repack.specs.Repack.{IsWhole};
ghost use Rattle.mseed_repack.specs.private.Places.{ArePlaces};
ghost use Rattle.mseed_repack.specs.private.Restretching.{IsPackedIfLeft, IsSelectedAs};

use crate::asked::{report_if_left, report_unless_left};
use crate::broken::broken_whole;
use crate::fault::RepackFault;
use crate::input::{Asked, read_input, split_asked};
use crate::judging::judge_records;
use crate::packing::pack_channels;
use crate::places::Places;
use crate::planned::plan_archive;
use crate::refusing::{LeftOut, left_out_of, refusal_unless, report_left_out};
use crate::stretching::Cutting;
use mseed_pack::{Encoding, Options};
use mseed_record::{Choice, RecordView};
use mseed_stream::{Sink, Source};
use std::alloc::Allocator;

/// Packs those records of the archive anew that are asked for, of which each channel is cut so. How many lack a time is
/// reported before the lines of channels that are left out, and where none is left out, at the end. Where channels
/// aren't cut, none is left out.
///
/// # Errors
///
/// `Stream` where the input is no whole archive, `Broken` where a channel isn't continuous, or one that is cut has a
/// record with a finding of its own, `Misfit` where a stretch can't be packed, `Write` where the output failed,
/// `Memory` where an allocation was refused.
pub(crate) fn pack_asked<A: Allocator + Copy, C: Choice, R: Source, W: Sink, E: Sink>(
    alloc: A,
    choice: &C,
    cutting: Cutting,
    options: &Options,
    leave: bool,
    input: &mut R,
    output: &mut W,
    errors: &mut E,
) -> Result<LeftOut, RepackFault>
    requires { R.read input.old ≡ nothing_read }
    ensures packed { IsSelectedAs cutting (C.selection choice.now) options.now leave result (R.read input.new)
        (W.written output.old) (W.written output.new) (E.written errors.old) (E.written errors.new) }
    ensures reads { ReadsOn (R.read input.old) (R.read input.new) (R.remaining input.old) (R.remaining input.new)
        (R.beside input.old) (R.beside input.new) }
{
    let mut archive = Vec::new(alloc);
    read_input(choice, input, &mut archive, errors)?;
    let Asked {
        views,
        without_time,
    } = split_asked(alloc, choice, &archive, input, errors)?;
    let places = Places {
        bytes: &archive,
        choice,
    };
    let outcome = pack_records(
        alloc,
        &views,
        &places,
        cutting,
        options,
        leave,
        without_time,
        output,
        errors,
    );
    report_unless_left(&outcome, without_time, errors);
    outcome
}

/// Packs the records of an archive anew, of which each channel is cut so. Where a channel is left out, how many records
/// lack a time is reported before anything else.
///
/// # Errors
///
/// Those of [`pack_asked`], but for `Stream`.
fn pack_records<A: Allocator + Copy, C: Choice, W: Sink, E: Sink>(
    alloc: A,
    views: &[RecordView],
    places: &Places<'_, C>,
    cutting: Cutting,
    options: &Options,
    leave: bool,
    without_time: u64,
    output: &mut W,
    errors: &mut E,
) -> Result<LeftOut, RepackFault>
    requires { length views.now < 2 ^ 40 }
    ensures { (read : BytesRead) (place : List View → List Placed) → IsWhole read (map view_of views.now)
        → ArePlaces (C.selection places.now.choice.now) places.now.bytes.now (map view_of views.now)
        (place (map view_of views.now))
        → IsPackedIfLeft cutting place options.now leave without_time result read
        (W.written output.old) (W.written output.new) (E.written errors.old) (E.written errors.new) }
{
    let judged = judge_records(alloc, views, may_be_plain(cutting, options.encoding))?;
    let channels = judged.verdicts.as_slice();
    if let Some(broken) = broken_whole(cutting, views, channels, places) {
        return Err(RepackFault::Broken(broken.0, broken.1));
    }
    let mut planned = plan_archive(alloc, views, channels, &judged, cutting, options)?;
    let archive = planned.links.archive(views, channels);
    if let Some(fault) = refusal_unless(leave, &archive, &planned.packabilities, places) {
        return Err(fault);
    }
    let left = left_out_of(&planned.packabilities);
    report_if_left(left, without_time, errors);
    report_left_out(channels, &planned.packabilities, options.encoding, errors);
    match pack_channels(
        &archive,
        cutting,
        &planned.packabilities,
        &planned.plans,
        options,
        &mut planned.samples,
        &mut planned.steps,
        output,
    ) {
        Ok(()) => Ok(left),
        Err(_) => Err(RepackFault::Write),
    }
}

/// Whether it is asked of records if they are plain: only a channel that isn't cut is packed as such, into Steim.
fn may_be_plain(cutting: Cutting, encoding: Encoding) -> bool {
    match (cutting, encoding) {
        (Cutting::Whole, Encoding::Steim1 | Encoding::Steim2) => true,
        _ => false,
    }
}
