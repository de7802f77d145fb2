//! What the audit says of an archive's channels.
ghost use Rattle.std.specs.Prelude.{◌≡◌, ◌<◌, ◌^◌, length, map, false, true, IfOk};
ghost use Rattle.std.specs.Bool.{OnTrue};
ghost use Rattle.mseed_record.specs.Viewing.{view_of};
ghost use Rattle.mseed_steim.specs.Reading.{count_of};
ghost use Rattle.mseed_audit.specs.Channels.{added_from};
ghost use Rattle.mseed_audit.specs.Verdict.{AreVerdicts};
ghost use Rattle.mseed_audit.specs.Follows.{IsSound};
ghost use Rattle.mseed_repack.specs.private.Archives.{AreAlone, is_own};
ghost use Rattle.mseed_repack.specs.private.Reading.{steps_of};
ghost use Rattle.mseed_repack.specs.private.Supplying.{IsPlain};

use crate::outline::is_plain;
use crate::reading::step_count;
use mseed_audit::{Audit, Memory, Verdicts, Why};
use mseed_record::RecordView;
use mseed_steim::one_reading;
use std::alloc::{AllocError, Allocator};

/// What the audit says of the records of an archive.
#[derive(Drop)]
pub(crate) struct Judged<A: Allocator> {
    /// Of each channel.
    pub(crate) verdicts: Verdicts<A>,
    /// Whether no record has a finding of its own.
    pub(crate) sound: bool,
    /// Whether each record with samples is plain; false also where that wasn't asked for.
    pub(crate) plain: bool,
    /// How many leap seconds happened during the records.
    pub(crate) steps: usize,
}

/// What the audit says of some records, and, where that is asked for, whether each is plain.
///
/// # Errors
///
/// `AllocError` where there is no memory for a channel.
pub(crate) fn judge_records<A: Allocator + Copy>(
    alloc: A,
    views: &[RecordView],
    asked: bool,
) -> Result<Judged<A>, AllocError>
    requires { length views.now < 2 ^ 40 }
    ensures verdicts { IfOk result (λ judged. AreVerdicts (added_from 0 (map view_of views.now)) judged.verdicts) }
    ensures sound { IfOk result (λ judged. judged.sound ≡ true → AreAlone IsSound (map view_of views.now)) }
    ensures plain { IfOk result (λ judged. judged.plain ≡ true → AreAlone IsPlain (map view_of views.now)) }
    ensures steps { IfOk result (λ judged. judged.steps ≡ steps_of (map view_of views.now)) }
{
    one_reading();
    let mut audit = Audit::new(alloc);
    let mut offset = 0;
    let mut sound = true;
    let mut plain = asked;
    let mut steps = 0;
    for (index, view) in views.iter().enumerate() {
        let begin = offset;
        offset += view.bytes().len() as u64;
        steps += step_count(view);
        match audit.add_judged(view, begin) {
            Ok(why) => {
                if is_own(why) {
                    sound = false;
                }
                if plain {
                    plain = is_plain_by(view, why);
                }
            }
            Err(Memory) => return Err(AllocError),
        }
    }
    Ok(Judged {
        verdicts: audit.finish(),
        sound,
        plain,
        steps,
    })
}

/// Whether a record of which this is found is known to be plain, or has no samples.
fn is_plain_by(view: &RecordView, why: Option<Why>) -> bool
    requires { is_own why ≡ false → 0 < count_of (view_of view.now) → IsSound (view_of view.now) }
    ensures { OnTrue result (0 < count_of (view_of view.now) → IsPlain (view_of view.now)) }
{
    if is_own(why) {
        return false;
    }
    if view.samples() == 0 {
        return true;
    }
    is_plain(view)
}

/// Whether a finding is a record's own, and not one of the border between it and the record before.
fn is_own(why: Option<Why>) -> bool
    ensures { result ≡ is_own why }
{
    matches!(why, Some(Why::Time(_) | Why::Rate | Why::Read(_)))
}
