//! The first stretch of a channel's records.
ghost use Rattle.std.specs.Prelude.{◌<◌, ◌≤◌, ◌^◌, drop, length, map, take};
ghost use Rattle.std.specs.List.{AllByRecursion};
ghost use Rattle.mseed_record.specs.Viewing.{view_of};
ghost use Rattle.mseed_audit.specs.Follows.{IsSound};
ghost use Rattle.mseed_repack.specs.Clocks.{IsStretchOf};
ghost use Rattle.mseed_repack.specs.Stretches.{IsFirstStretch};

use crate::stretch::Stretch;
use mseed_record::RecordView;

/// Returns the first stretch of some records of a channel, each of which is sound: how its first record begins, and how
/// many records and samples it has. Called again for the records after those, it returns the next stretch. There is at
/// least one record, and there are at most 2^40.
pub fn first_stretch(views: &[RecordView]) -> Stretch
    requires some { 0 < length views.now }
    requires few { length views.now ≤ 2 ^ 40 }
    requires sound { AllByRecursion IsSound (map view_of views.now) }
    ensures kept { IsStretchOf result (map view_of (take result.records views.now)) }
    ensures first { IsFirstStretch (map view_of views.now) (map view_of (take result.records views.now))
        (map view_of (drop result.records views.now)) }
    ensures inside { result.records ≤ length views.now }
{
    let mut stretch = Stretch::begin(&views[0]);
    for index in 1..views.len() {
        let view = &views[index];
        if !stretch.goes_on(view) {
            return stretch;
        }
        stretch = stretch.with(view);
    }
    stretch
}
