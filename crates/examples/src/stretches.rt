//! Calls of `mseed_repack`: stretches.
ghost use Rattle.std.specs.Prelude.{◌<◌, ◌≤◌, ◌^◌, IsSome, length, map};
ghost use Rattle.std.specs.List.{AllByRecursion};
ghost use Rattle.mseed_record.specs.Viewing.{view_of};
ghost use Rattle.mseed_audit.specs.Follows.{IsSound};
ghost use Rattle.mseed_audit.specs.Judging.{known_rate};

use mseed_record::RecordView;
use mseed_repack::{Stretch, first_stretch, is_sound};

/// Whether a record can stand in a stretch: it has samples, and nothing is found of it alone.
pub fn can_be_kept(view: &RecordView) -> bool {
    view.samples() > 0 && is_sound(view)
}

/// How many records of a channel the first stretch has, and how many samples.
pub fn first_counts(views: &[RecordView]) -> (u64, u64)
    requires some { 0 < length views.now }
    requires few { length views.now ≤ 2 ^ 40 }
    requires sound { AllByRecursion IsSound (map view_of views.now) }
{
    let stretch = first_stretch(views);
    (stretch.records, stretch.samples)
}

/// The stretch of two records, where the second one goes on with the first.
pub fn stretch_of(first: &RecordView, second: &RecordView) -> Option<Stretch>
    requires { IsSome (known_rate (view_of first.now)) }
{
    let stretch = Stretch::begin(first);
    if stretch.goes_on(second) {
        Some(stretch.with(second))
    } else {
        None
    }
}
