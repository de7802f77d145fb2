//! The series of some records: how it begins, whether it can be packed, and how it is written.
ghost use Rattle.std.specs.Prelude.{◌≡◌, ◌≢◌, ◌<◌, ◌≤◌, ℤ, List, length, pos, slice_index_or, All, IfOk, IfSome};
ghost use Rattle.std.specs.Prelude.{ℕ, IfErr, IsTrue, OnOk, Some, true};
ghost use Rattle.mseed_record.specs.View.{View};
ghost use Rattle.mseed_steim.specs.Spelling.{IsWithin};
ghost use Rattle.mseed_audit.specs.Series.{AreJoined, IsSeriesOf};
ghost use Rattle.mseed_pack.specs.Options.{IsSteim};
ghost use Rattle.mseed_pack.specs.Traces.{headed, trace_of};
ghost use Rattle.mseed_repack.specs.private.Outline.{AreHeld, IsKnown, says_near};
ghost use Rattle.mseed_repack.specs.private.Reading.{AreOf, CanBeRead, IsSoundWalk, samples_of};
ghost use Rattle.mseed_repack.specs.private.Supplying.{AreCounted};
ghost use Rattle.mseed_repack.specs.private.Planning.{GoesBy, IsBegunBy, IsFitting, IsStretchWritten};
ghost use Rattle.mseed_repack.specs.private.Planning.{room_of};
ghost use Rattle.mseed_pack.specs.declared.window.TheConstants.{MOST_DIFFERENCES};
ghost use Rattle.mseed_repack.specs.Repack.{StretchFits, StretchMisfits};
ghost use Rattle.mseed_repack.specs.declared.plan.Way.TheVariants.{Frames};
ghost use Rattle.mseed_repack.specs.declared.series.Fitting.TheVariants.{Fits};

use crate::outline::{Nearness, Outline, nearness_before, outline_counted, outline_records};
use crate::plan::Way;
use crate::reading::read_records;
use crate::room::make_room;
use crate::stretch::Stretch;
use crate::unpacking::{Unpacking, first_sample};
use crate::walk::Walk;
use mseed_audit::one_series;
use mseed_pack::{
    Encoding, MOST_DIFFERENCES, Options, PackFault, Packer, SeriesHead, SeriesView, fit_head,
    fit_view,
};
use mseed_stream::Sink;
use mseed_time::LeapStep;
use std::alloc::{AllocError, Allocator};

/// What is found of a series.
#[derive(Clone, Copy)]
pub(crate) enum Fitting {
    /// It can be packed, and goes this way.
    Fits(Way),
    /// It can't be packed, for this reason.
    Misfits(PackFault),
}

/// Returns whether the series of some records can be packed, and which way it goes. Where they are known to be plain,
/// and how many samples they have, none is looked at but the first. The samples are read only where less doesn't
/// show that they fit. Memory is requested only where the list of samples is too short: for all samples of a series
/// that goes by a list, and for those of one record where the series goes from frames to frames.
///
/// # Errors
///
/// `AllocError` where there is no memory for the list.
pub(crate) fn fit_series<'a, A: Allocator + Copy, R: Walk<'a>>(
    alloc: A,
    records: R,
    plain: Option<usize>,
    options: &Options,
    samples: &mut Vec<i32, A>,
    steps: &mut [(u64, LeapStep)],
) -> Result<Fitting, AllocError>
    requires read { CanBeRead R.leads R.left records (length steps.old) }
    requires plain { IfSome plain (λ count. AreCounted options.now.encoding count (R.left records)) }
    ensures fitting { IfOk result (λ fitting.
        IsFitting options.now (length samples.new.items) (R.left records) fitting) }
    ensures grown { IfOk result (λ _. length samples.old.items ≤ length samples.new.items) }
    // The list grows to no more than the way of this series wants.
    ensures exact { IfOk result (λ fitting. length samples.old.items < length samples.new.items
        → length samples.new.items ≡ room_of fitting (R.left records)) }
{
    if let Some(count) = plain {
        if let Err(fault) = fit_plain(records, count, options, steps) {
            return Ok(Fitting::Misfits(fault));
        }
        make_room(alloc, samples, MOST_DIFFERENCES)?;
        return Ok(Fitting::Fits(Way::Frames(count)));
    }
    let outline = outline_records(records, nearness_before(options.encoding), steps);
    let head = head_of(records, outline.samples, &steps[..outline.steps]);
    if let Err(fault) = fit_head(&head) {
        return Ok(Fitting::Misfits(fault));
    }
    let held = held_way(&outline, options.encoding);
    if let Some(Way::Frames(count)) = held {
        make_room(alloc, samples, MOST_DIFFERENCES)?;
        return Ok(Fitting::Fits(Way::Frames(count)));
    }
    make_room(alloc, samples, outline.samples)?;
    match held {
        Some(_) => Ok(Fitting::Fits(Way::Listed)),
        None => Ok(fit_read(records, options, samples, steps)),
    }
}

/// Tells whether the series of some records can be packed that are plain, and have `count` samples: it goes from frames
/// to frames, where there is room for the samples of one record.
///
/// # Errors
///
/// Why it can't be packed.
fn fit_plain<'a, R: Walk<'a>>(
    records: R,
    count: usize,
    options: &Options,
    steps: &mut [(u64, LeapStep)],
) -> Result<(), PackFault>
    requires read { CanBeRead R.leads R.left records (length steps.old) }
    requires plain { AreCounted options.now.encoding count (R.left records) }
    ensures fits { OnOk result (IsFitting options.now MOST_DIFFERENCES (R.left records) (Fits (Frames count))) }
    ensures misfits { IfErr result (λ fault. StretchMisfits options.now fault (R.left records)) }
{
    let outline = outline_counted(records, count, steps);
    let head = head_of(records, outline.samples, &steps[..outline.steps]);
    fit_head(&head)
}

/// Returns which way a series of this outline goes whose samples the encoding surely holds, before they are read. It
/// goes from frames to frames where its records are Steim, and so is what is written, each sample is near the one
/// before it, and no record has more differences than there is room for.
fn held_way(outline: &Outline, encoding: Encoding) -> Option<Way>
    ensures held { IfSome result (λ _.
        (xs : List ℤ) → All (IsWithin 32) xs → IsKnown outline.now.nearness xs → AreHeld encoding xs) }
    ensures frames { (count : ℕ) → result ≡ Some (Frames count) → IsSteim encoding × (outline.now.unpackable ≡ true)
        × IsTrue (says_near outline.now.nearness) × (count ≡ outline.now.samples) }
{
    match (encoding, outline.nearness) {
        (Encoding::Int32, _) => Some(Way::Listed),
        (Encoding::Steim1 | Encoding::Steim2, Nearness::Near(_)) => {
            if outline.unpackable {
                Some(Way::Frames(outline.samples))
            } else {
                Some(Way::Listed)
            }
        }
        _ => None,
    }
}

/// Returns whether a series can be packed, by its samples, for which there is room.
fn fit_read<'a, R: Walk<'a>>(
    records: R,
    options: &Options,
    samples: &mut [i32],
    steps: &mut [(u64, LeapStep)],
) -> Fitting
    requires read { CanBeRead R.leads R.left records (length steps.old) }
    requires samples_fit { samples_of (R.left records) ≤ length samples.old }
    ensures fitting { IsFitting options.now (length samples.old) (R.left records) result }
    ensures listed { (count : ℕ) → result ≢ Fits (Frames count) }
{
    let stretch = beginning(records);
    let read = read_records(records, samples, steps);
    let series = series_of(&stretch, &samples[..read.samples], &steps[..read.steps]);
    match fit_view(&series, options) {
        Ok(()) => Fitting::Fits(Way::Listed),
        Err(fault) => Fitting::Misfits(fault),
    }
}

/// Writes the records of a series that can be packed, by the way that it goes, and returns how many there are. Where it
/// goes from frames to frames, no list is made of its samples: then the list is the room for those of one record.
///
/// # Errors
///
/// How many bytes the output accepted before it failed.
pub(crate) fn pack_series<'a, R: Walk<'a>, W: Sink>(
    records: R,
    way: Way,
    options: &Options,
    samples: &mut [i32],
    steps: &mut [(u64, LeapStep)],
    packer: &mut Packer,
    output: &mut W,
) -> Result<u64, u128>
    requires read { CanBeRead R.leads R.left records (length steps.old) }
    requires goes { GoesBy options.now.encoding (length samples.old) way (R.left records) }
    requires fits { StretchFits options.now (R.left records) }
    ensures { IsStretchWritten options.now (R.left records) result (W.written output.old) (W.written output.new) }
{
    one_series();
    match way {
        Way::Frames(count) => {
            let borne = outline_counted(records, count, steps);
            let head = head_of(records, borne.samples, &steps[..borne.steps]);
            let mut unpacking = Unpacking::of(records, head.first, samples);
            packer.pack_supplied(&head, options, &mut unpacking, output)
        }
        Way::Listed => {
            let stretch = beginning(records);
            let read = read_records(records, samples, steps);
            let series = series_of(&stretch, &samples[..read.samples], &steps[..read.steps]);
            // The series is the one that was found to fit.
            packer.pack_fitting(&series, options, output)
        }
    }
}

/// Returns how the first of some records begins their series.
fn beginning<'a, R: Walk<'a>>(records: R) -> Stretch
    requires { IsSoundWalk R.leads R.left records }
    ensures { IsBegunBy result (R.left records) }
{
    let mut rest = records;
    match rest.next() {
        Some(first) => Stretch::begin(&first),
        None => unreachable!(),
    }
}

/// Returns the series of some records without its samples, by how many they have, and by their leap seconds.
fn head_of<'s, 'a, R: Walk<'a>>(
    records: R,
    count: usize,
    steps: &'s [(u64, LeapStep)],
) -> SeriesHead<'s>
    requires { IsSoundWalk R.leads R.left records }
    // With the samples of the records it is their series.
    ensures series { (xs : List ℤ) → AreOf (R.left records) xs steps.now
        → IsSeriesOf (headed result xs) (R.left records) }
    ensures first { (xs : List ℤ) → AreJoined (R.left records) xs → slice_index_or xs 0 (pos 0) ≡ result.first }
    ensures count { result.count ≡ count }
    ensures steps { result.steps.now ≡ steps.now }
{
    let stretch = beginning(records);
    SeriesHead {
        codes: stretch.codes,
        start: stretch.start,
        rate: stretch.rate,
        count,
        first: first_sample(records),
        steps,
    }
}

/// Returns the series that begins so, of these samples and leap seconds.
fn series_of<'a>(
    stretch: &Stretch,
    samples: &'a [i32],
    steps: &'a [(u64, LeapStep)],
) -> SeriesView<'a>
    ensures series { (vs : List View) → IsBegunBy stretch.now vs → AreOf vs samples.now steps.now
        → IsSeriesOf (trace_of result) vs }
    ensures samples { result.samples.now ≡ samples.now }
    ensures steps { result.steps.now ≡ steps.now }
{
    SeriesView {
        codes: stretch.codes,
        start: stretch.start,
        rate: stretch.rate,
        samples,
        steps,
    }
}
