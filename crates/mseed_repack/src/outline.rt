//! What is known of records before their samples are read.
ghost use Rattle.std.specs.Prelude.{◌≡◌, ◌<◌, ◌≤◌, ◌+◌, ◌++◌, ◌^◌, ◌-ℤ◌, [], List, ℕ, ℤ, length, take};
ghost use Rattle.std.specs.Prelude.{◌↔◌, IsTrue, true};
ghost use Rattle.std.specs.Bool.{OnTrue};
ghost use Rattle.std.specs.List.{AllByRecursion};
ghost use Rattle.mseed_record.specs.View.{leap_of};
ghost use Rattle.mseed_record.specs.Viewing.{view_of};
ghost use Rattle.mseed_steim.specs.Reading.{count_of, IsWhole};
ghost use Rattle.mseed_steim.specs.Spelling.{IsWithin};
ghost use Rattle.mseed_audit.specs.Follows.{IsSound};
ghost use Rattle.mseed_audit.specs.Judging.{step_in};
ghost use Rattle.mseed_audit.specs.Series.{step_at};
ghost use Rattle.mseed_repack.specs.private.Outline.{IsKnown, IsOutline};
ghost use Rattle.mseed_repack.specs.private.Reading.{CanBeRead, samples_of, step_count};
ghost use Rattle.mseed_repack.specs.private.Supplying.{IsPlain, IsUnpackable};

use crate::reading::put_step;
use crate::unpacking::is_unpackable;
use crate::walk::Walk;
use mseed_pack::Encoding;
use mseed_record::RecordView;
use mseed_steim::near_ends;
use mseed_time::LeapStep;

/// Whether each sample of some records is near the one before it: by no more than a Steim-2 word can say.
#[derive(Clone, Copy)]
pub(crate) enum Nearness {
    /// There is no sample yet.
    Empty,
    /// Each is, and the last is this one.
    Near(i32),
    /// It isn't known.
    Unknown,
}

/// How many samples and leap seconds some records have, whether their samples are near one another, and whether each
/// record can be unpacked.
#[derive(Clone, Copy)]
pub(crate) struct Outline {
    pub(crate) samples: usize,
    pub(crate) steps: usize,
    pub(crate) nearness: Nearness,
    pub(crate) unpackable: bool,
}

/// What is known of samples before the first one, where they are to be written in this encoding. To integers nothing
/// needs to be known of them: those of 32 bits hold any, and of those of 16 bits only the samples show it.
pub(crate) fn nearness_before(encoding: Encoding) -> Nearness
    ensures { IsKnown result [] }
{
    match encoding {
        Encoding::Int16 | Encoding::Int32 => Nearness::Unknown,
        Encoding::Steim1 | Encoding::Steim2 => Nearness::Empty,
    }
}

/// The outline of some records, where this is known before them. Their leap seconds are put into the list.
pub(crate) fn outline_records<'a, R: Walk<'a>>(
    records: R,
    before: Nearness,
    steps: &mut [(u64, LeapStep)],
) -> Outline
    requires read { CanBeRead R.leads R.left records (length steps.old) }
    requires none { IsKnown before [] }
    ensures outline { IsOutline (R.left records) result.samples result.steps result.nearness steps.new }
    ensures samples { result.samples ≡ samples_of (R.left records) }
    ensures steps_inside { result.steps ≤ length steps.new }
    ensures unpackable { result.unpackable ≡ true → AllByRecursion IsUnpackable (R.left records) }
{
    let mut outline = Outline {
        samples: 0,
        steps: 0,
        nearness: before,
        unpackable: !matches!(before, Nearness::Unknown),
    };
    let mut rest = records;
    while let Some(view) = rest.next() {
        outline = outline_record(&view, outline, steps);
    }
    outline
}

/// The outline of some records with `samples` samples, whose nearness isn't asked for. Where the list has no room
/// for a leap second there is none, and no record is looked at.
pub(crate) fn outline_counted<'a, R: Walk<'a>>(
    records: R,
    samples: usize,
    steps: &mut [(u64, LeapStep)],
) -> Outline
    requires read { CanBeRead R.leads R.left records (length steps.old) }
    requires count { samples ≡ samples_of (R.left records) }
    ensures outline { IsOutline (R.left records) result.samples result.steps result.nearness steps.new }
    ensures steps_inside { result.steps ≤ length steps.new }
{
    if steps.is_empty() {
        return Outline {
            samples,
            steps: 0,
            nearness: Nearness::Unknown,
            unpackable: false,
        };
    }
    outline_records(records, Nearness::Unknown, steps)
}

/// The outline with one more record, which is sound.
pub(crate) fn outline_record(
    view: &RecordView,
    before: Outline,
    steps: &mut [(u64, LeapStep)],
) -> Outline
    requires sound { IsSound (view_of view.now) }
    requires few { before.samples + 65_535 < 2 ^ 64 }
    requires steps_fit { before.steps + step_count (view_of view.now) ≤ length steps.old }
    ensures samples { result.samples ≡ before.samples + count_of (view_of view.now) }
    ensures most { result.samples ≤ before.samples + 65_535 }
    ensures steps { take result.steps steps.new ≡ take before.steps steps.old
        ++ step_at result.samples (step_in (leap_of (view_of view.now).bytes)) }
    ensures steps_count { result.steps ≡ before.steps + step_count (view_of view.now) }
    ensures nearness { (xs s : List ℤ) → IsKnown before.nearness xs → IsWhole (view_of view.now) s
        → IsKnown result.nearness (xs ++ s) }
    ensures unpackable { result.unpackable ≡ true → (before.unpackable ≡ true) × IsUnpackable (view_of view.now) }
{
    let samples = before.samples + usize::from(view.samples());
    Outline {
        samples,
        steps: put_step(view, samples, before.steps, steps),
        nearness: nearness_with(before.nearness, view),
        unpackable: before.unpackable && is_unpackable(view),
    }
}

/// What is known with one more record, which is sound.
fn nearness_with(before: Nearness, view: &RecordView) -> Nearness
    requires { IsSound (view_of view.now) }
    ensures { (xs s : List ℤ) → IsKnown before xs → IsWhole (view_of view.now) s → IsKnown result (xs ++ s) }
{
    if let Nearness::Unknown = before {
        return Nearness::Unknown;
    }
    let Some(ends) = near_ends(view) else {
        return Nearness::Unknown;
    };
    match before {
        Nearness::Empty => Nearness::Near(ends.last),
        Nearness::Near(last) => {
            if is_near(last, ends.first) {
                Nearness::Near(ends.last)
            } else {
                Nearness::Unknown
            }
        }
        Nearness::Unknown => Nearness::Unknown,
    }
}

/// Whether a sound record is known to be plain before its samples are read: it can be unpacked, each of its samples is
/// near the one before it, and the first and the last have 29 bits at the most. So the samples of plain records are
/// near one another in whatever order these stand.
pub(crate) fn is_plain(view: &RecordView) -> bool
    requires { IsSound (view_of view.now) }
    ensures { OnTrue result (IsPlain (view_of view.now)) }
{
    if !is_unpackable(view) {
        return false;
    }
    let Some(ends) = near_ends(view) else {
        return false;
    };
    if !is_short(ends.first) {
        return false;
    }
    is_short(ends.last)
}

/// Whether a sample has 29 bits at the most.
fn is_short(sample: i32) -> bool
    ensures { IsTrue result ↔ IsWithin 29 sample }
{
    -0x1000_0000 <= sample && sample < 0x1000_0000
}

/// Whether a sample is near the one before it.
fn is_near(before: i32, sample: i32) -> bool
    ensures { IsTrue result ↔ IsWithin 30 (sample -ℤ before) }
{
    let difference = i64::from(sample) - i64::from(before);
    -0x2000_0000 <= difference && difference < 0x2000_0000
}
