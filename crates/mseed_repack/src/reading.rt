//! Reading records into lists that are there.
ghost use Rattle.std.specs.Prelude.{◌≡◌, ◌≤◌, ◌+◌, ◌++◌, ℤ, List, length, map, take};
ghost use Rattle.mseed_record.specs.View.{leap_of};
ghost use Rattle.mseed_record.specs.Viewing.{view_of};
ghost use Rattle.mseed_steim.specs.Reading.{count_of, IsWhole};
ghost use Rattle.mseed_audit.specs.Follows.{IsSound};
ghost use Rattle.mseed_audit.specs.Judging.{step_in};
ghost use Rattle.mseed_audit.specs.Series.{AreSteps, step_at};
ghost use Rattle.mseed_repack.specs.private.Reading.{AreOf, CanBeRead, samples_of, step_count, steps_of};

use crate::walk::Walk;
use mseed_record::RecordView;
use mseed_steim::fill_samples;
use mseed_time::LeapStep;

/// How many samples and how many leap seconds were read.
#[derive(Clone, Copy)]
pub(crate) struct Read {
    pub(crate) samples: usize,
    pub(crate) steps: usize,
}

/// Reads the samples and leap seconds of some records, from the beginning of the lists on, and returns how many there
/// are. It requests no memory.
pub(crate) fn read_records<'a, R: Walk<'a>>(
    records: R,
    samples: &mut [i32],
    steps: &mut [(u64, LeapStep)],
) -> Read
    requires read { CanBeRead R.leads R.left records (length steps.old) }
    requires samples_fit { samples_of (R.left records) ≤ length samples.old }
    ensures read { AreOf (R.left records) (take result.samples samples.new) (take result.steps steps.new) }
    ensures places { AreSteps result.samples (take result.steps steps.new) }
    ensures samples_inside { result.samples ≤ length samples.new }
    ensures steps_inside { result.steps ≤ length steps.new }
{
    let mut read = Read {
        samples: 0,
        steps: 0,
    };
    let mut rest = records;
    while let Some(view) = rest.next() {
        read = read_record(&view, read, samples, steps);
    }
    read
}

/// Reads the samples of a sound record, and its leap second, where it has one, after those that were read.
pub(crate) fn read_record(
    view: &RecordView,
    before: Read,
    samples: &mut [i32],
    steps: &mut [(u64, LeapStep)],
) -> Read
    requires sound { IsSound (view_of view.now) }
    requires samples_fit { before.samples + count_of (view_of view.now) ≤ length samples.old }
    requires steps_fit { before.steps + step_count (view_of view.now) ≤ length steps.old }
    ensures samples { (s : List ℤ) × (IsWhole (view_of view.now) s
        × (take result.samples samples.new ≡ take before.samples samples.old ++ s)) }
    ensures steps { take result.steps steps.new ≡ take before.steps steps.old
        ++ step_at result.samples (step_in (leap_of (view_of view.now).bytes)) }
    ensures samples_count { result.samples ≡ before.samples + count_of (view_of view.now) }
    ensures steps_count { result.steps ≡ before.steps + step_count (view_of view.now) }
{
    let end = before.samples + usize::from(view.samples());
    // A sound record has a reading.
    match fill_samples(view, &mut samples[before.samples..end]) {
        Ok(()) => {}
        Err(_) => unreachable!(),
    }
    Read {
        samples: end,
        steps: put_step(view, end, before.steps, steps),
    }
}

/// Puts a record's leap second, where it has one, after the first `count` of a list, with the number of samples before
/// it, and returns how many the list holds then. Where the list is full, no flag is looked at.
pub(crate) fn put_step(
    view: &RecordView,
    place: usize,
    count: usize,
    steps: &mut [(u64, LeapStep)],
) -> usize
    requires { count + step_count (view_of view.now) ≤ length steps.old }
    ensures steps { take result steps.new ≡ take count steps.old
        ++ step_at place (step_in (leap_of (view_of view.now).bytes)) }
    ensures count { result ≡ count + step_count (view_of view.now) }
{
    if count == steps.len() {
        return count;
    }
    match view.leap().step() {
        Some(step) => {
            steps[count] = (place as u64, step);
            count + 1
        }
        None => count,
    }
}

/// Returns how many leap seconds happened during the records.
pub(crate) fn count_steps(views: &[RecordView]) -> usize
    ensures { result ≡ steps_of (map view_of views.now) }
{
    let mut count = 0;
    for view in views {
        count += step_count(view);
    }
    count
}

/// Returns how many leap seconds happened during a record: one, or none.
pub(crate) fn step_count(view: &RecordView) -> usize
    ensures value { result ≡ step_count (view_of view.now) }
    ensures bound { result ≤ 1 }
{
    match view.leap().step() {
        Some(_) => 1,
        None => 0,
    }
}
