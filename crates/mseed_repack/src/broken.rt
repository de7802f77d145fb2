//! The first channel of an archive that isn't continuous.
ghost use Rattle.std.specs.Prelude.{◌≡◌, ◌<◌, ℕ, List, map, true, IfNone, IfSome};
ghost use Rattle.mseed_record.specs.View.{View};
ghost use Rattle.mseed_record.specs.Viewing.{view_of};
ghost use Rattle.mseed_audit.specs.Channels.{Placed, added_from, channel_in, records_of};
ghost use Rattle.mseed_audit.specs.Follows.{IsContinuous};
ghost use Rattle.mseed_audit.specs.Verdict.{AreVerdicts, says_continuous};
ghost use Rattle.mseed_repack.specs.Repack.{AreContinuous, IsFirst, IsFirstFinding, records_in};
ghost use Rattle.mseed_repack.specs.declared.stretching.Cutting.TheVariants.{Whole};
ghost use Rattle.mseed_repack.specs.private.Places.{ArePlaces};

use crate::places::Places;
use crate::stretching::Cutting;
use mseed_audit::{Finding, Verdict};
use mseed_record::{Choice, Codes, RecordView};

/// Returns the codes of the first channel, by its key, that isn't continuous, and its first finding, with the number
/// and the offset that its record has in what was read. Where channels are to be cut there is none.
pub(crate) fn broken_whole<C: Choice>(
    cutting: Cutting,
    views: &[RecordView],
    channels: &[(Codes, Verdict)],
    places: &Places<'_, C>,
) -> Option<(Codes, Finding)>
    requires { AreVerdicts (added_from 0 (map view_of views.now)) channels.now }
    ensures none { IfNone result (cutting ≡ Whole → AreContinuous (map view_of views.now) channels.now) }
    ensures whole { IfSome result (λ _. cutting ≡ Whole) }
    ensures some { IfSome result (λ broken. IsFirst (λ k. IsContinuous (records_in (map view_of views.now) k))
        (λ k. ¬ (IsContinuous (records_in (map view_of views.now) k))) broken.0 channels.now) }
    ensures first { IfSome result (λ broken. (ps : List Placed)
        → ArePlaces (C.selection places.now.choice.now) places.now.bytes.now (map view_of views.now) ps
        → IsFirstFinding (channel_in broken.0 ps) broken.1) }
{
    match cutting {
        Cutting::Stretches => None,
        Cutting::Whole => match first_broken(views, channels) {
            Some((codes, first)) => Some((codes, places.placed(first))),
            None => None,
        },
    }
}

/// Returns the same, with the number and the offset that the record has among those that are packed.
fn first_broken(views: &[RecordView], channels: &[(Codes, Verdict)]) -> Option<(Codes, Finding)>
    requires { AreVerdicts (added_from 0 (map view_of views.now)) channels.now }
    ensures none { IfNone result (AreContinuous (map view_of views.now) channels.now) }
    ensures some { IfSome result (λ broken. IsFirst (λ k. IsContinuous (records_in (map view_of views.now) k))
        (λ k. ¬ (IsContinuous (records_in (map view_of views.now) k))) broken.0 channels.now) }
    ensures first { IfSome result (λ broken.
        IsFirstFinding (records_of broken.0 (added_from 0 (map view_of views.now))) broken.1) }
    ensures number { IfSome result (λ broken. 0 < broken.1.number) }
{
    for channel in channels {
        if let Some(first) = first_finding(&channel.1) {
            return Some((channel.0, first));
        }
    }
    None
}

/// Returns the first finding of a channel that isn't continuous, by the verdict on it.
fn first_finding(verdict: &Verdict) -> Option<Finding>
    ensures none { IfNone result (says_continuous verdict.now ≡ true) }
    ensures some { IfSome result (λ first. (count : ℕ) × (verdict.now ≡ Verdict.Broken first count)) }
{
    match verdict {
        Verdict::Continuous { .. } => None,
        Verdict::Broken { first, .. } => Some(*first),
    }
}
