//! A selector is a choice of records.
ghost use Rattle.std.specs.Prelude.{◌≡◌};
ghost use Rattle.mseed_record.specs.Viewing.{view_of};
ghost use Rattle.mseed_record.specs.Selection.{answer_of};
ghost use Rattle.mseed_select.specs.Selecting.{selection_of};

use crate::selector::Selector;
use mseed_record::{Answer, Choice, RecordView};

impl<'a> Choice for Selector<'a> {
    ghost selection = { λ s. selection_of s };

    #[inline(always)]
    fn answer(&self, view: &RecordView) -> Answer {
        self.asks_for(view)
    }
}
