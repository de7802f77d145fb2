//! Which records are asked for.
ghost use Rattle.std.specs.Prelude.{◌≡◌};
ghost use Rattle.mseed_record.specs.Viewing.{view_of};
ghost use Rattle.mseed_record.specs.Selection.{Selection, answer_of, everything};

use crate::answer::Answer;
use crate::view::RecordView;

/// Which records of an input are asked for: those that a selection names, or [`All`] of them. A loop over records is
/// generic over the choice, so that asking for all costs nothing.
pub trait Choice {
    // What is asked for.
    ghost selection: { Self → Selection };

    /// Returns whether a record is asked for.
    fn answer(&self, view: &RecordView) -> Answer
        ensures { result ≡ answer_of (selection self.now) (view_of view.now) };
}

/// The choice of all records.
#[derive(Clone, Copy, Debug)]
pub struct All;

impl Choice for All {
    ghost selection = { λ _. everything };

    #[inline(always)]
    fn answer(&self, _view: &RecordView) -> Answer {
        Answer::AskedFor
    }
}
