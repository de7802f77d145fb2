//! Records without a finding of their own.
ghost use Rattle.std.specs.Prelude.{◌↔◌, ◌<◌, IsTrue};
ghost use Rattle.mseed_record.specs.Viewing.{view_of};
ghost use Rattle.mseed_steim.specs.Reading.{count_of};
ghost use Rattle.mseed_audit.specs.Follows.{IsSound};

use crate::own::own_finding;
use mseed_record::RecordView;
use mseed_steim::{one_fault, one_reading};

/// Returns whether a record with samples has no finding of its own: its time and its rate are known, and it has one
/// reading, which ends on its constants.
pub fn is_sound(view: &RecordView) -> bool
    requires { 0 < count_of (view_of view.now) }
    ensures { IsTrue result ↔ IsSound (view_of view.now) }
{
    one_reading();
    one_fault();
    own_finding(view).is_none()
}
