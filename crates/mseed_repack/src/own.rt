//! The first record of a channel that has a finding of its own.
ghost use Rattle.std.specs.Prelude.{◌≡◌, ◌<◌, ◌≤◌, ◌^◌, ℕ, List, [], None, length, map, take, IfNone, IfSome};
ghost use Rattle.std.specs.List.{AllByRecursion};
ghost use Rattle.mseed_record.specs.Viewing.{view_of};
ghost use Rattle.mseed_steim.specs.Reading.{count_of};
ghost use Rattle.mseed_audit.specs.Channels.{Placed, channel_in as placed_in};
ghost use Rattle.mseed_audit.specs.Follows.{IsSound};
ghost use Rattle.mseed_audit.specs.Judging.{IsFound};
ghost use Rattle.mseed_audit.specs.Scope.{placed_of};
ghost use Rattle.mseed_repack.specs.ByStretches.{IsFirstOwn};
ghost use Rattle.mseed_repack.specs.private.Archives.{records_on};
ghost use Rattle.mseed_repack.specs.private.Places.{ArePlaces, IsOwnAt, StandsAt};
ghost use Rattle.mseed_repack.specs.private.Reading.{channel_in};

use crate::archive::ChannelWalk;
use crate::places::Places;
use mseed_audit::{Finding, Why, is_of_channel};
use mseed_record::{Choice, Codes, RecordView};
use mseed_steim::{check_samples, one_reading};

/// Returns the first finding that is a record's own, of a channel that has one, by its channel's walk: with the number
/// and the offset that the record has in what was read.
#[cold]
#[inline(never)]
pub(crate) fn first_own<C: Choice>(
    channel_walk: &ChannelWalk<'_, '_>,
    places: &Places<'_, C>,
) -> Finding
    requires few { length channel_walk.now.views.now ≤ 2 ^ 40 }
    requires all { records_on channel_walk.now ≡ channel_in channel_walk.now.codes.now
        (map view_of channel_walk.now.views.now) }
    requires broken { ¬ (AllByRecursion IsSound (records_on channel_walk.now)) }
    ensures { (ps : List Placed)
        → ArePlaces (C.selection places.now.choice.now) places.now.bytes.now (map view_of channel_walk.now.views.now) ps
        → IsFirstOwn (placed_in channel_walk.now.codes.now ps) result }
{
    let begin = channel_walk.index.min(channel_walk.views.len());
    match find_own(channel_walk.views, begin, channel_walk.codes) {
        Some(finding) => places.placed(finding),
        None => unreachable!(),
    }
}

/// Returns the same where the channel has one, with the number and the offset that the record has among these, of which
/// none is of the channel before an index.
fn find_own(views: &[RecordView], begin: usize, codes: &Codes) -> Option<Finding>
    requires few { length views.now ≤ 2 ^ 40 }
    requires inside { begin ≤ length views.now }
    requires none { channel_in codes.now (map view_of (take begin views.now)) ≡ [] }
    ensures own { IfSome result (λ f. (index : ℕ) × (IsOwnAt codes.now (map view_of views.now) index f
        × StandsAt (placed_of (map view_of views.now)) index f)) }
    ensures number { IfSome result (λ f. 0 < f.number) }
    ensures none { IfNone result (AllByRecursion IsSound (channel_in codes.now (map view_of views.now))) }
{
    one_reading();
    let mut offset = 0;
    for turn in 0..begin {
        offset += views[turn].bytes().len() as u64;
    }
    for index in begin..views.len() {
        let view = &views[index];
        if is_of_channel(codes, view) {
            if let Some(why) = own_finding(view) {
                return Some(Finding {
                    number: index as u64 + 1,
                    offset,
                    why,
                });
            }
        }
        offset += view.bytes().len() as u64;
    }
    None
}

/// Returns what is found of a record with samples by itself, if something is.
#[inline(always)]
pub(crate) fn own_finding(view: &RecordView) -> Option<Why>
    requires { 0 < count_of (view_of view.now) }
    ensures { IsFound None (view_of view.now) result }
{
    if let Err(fault) = view.start() {
        return Some(Why::Time(fault));
    }
    if let Err(_) = view.rate() {
        return Some(Why::Rate);
    }
    match check_samples(view) {
        Ok(_) => None,
        Err(fault) => Some(Why::Read(fault)),
    }
}
