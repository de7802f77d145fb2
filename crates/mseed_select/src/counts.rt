//! The counts of a selection.
ghost use Rattle.std.specs.Prelude.{◌≡◌, ◌+◌, ◌<◌, ◌^◌, ◌≤◌};
ghost use Rattle.mseed_select.specs.Counting.{one_if};
ghost use Rattle.mseed_record.specs.Selection.{is_asked, is_without_time};

use crate::selected::Selected;
use mseed_record::Answer;
use mseed_stream::StreamFault;

/// How many records there were, how many of them are asked for, and how many lack a time.
#[derive(Clone, Copy, Debug, PartialEq, Eq)]
pub struct Counts {
    /// How many records there were.
    pub records: u64,
    /// How many records are asked for.
    pub asked_for: u64,
    /// How many records lack a time: their channel is asked for and a window is given, and their start isn't valid.
    pub without_time: u64,
}

impl Counts {
    /// Returns the counts of no record.
    pub fn none() -> Counts
        ensures { result ≡ record { records = 0; asked_for = 0; without_time = 0 } }
    {
        Counts {
            records: 0,
            asked_for: 0,
            without_time: 0,
        }
    }

    /// Counts one more record, by whether it is asked for. Fewer than 2^60 were counted, and neither other count is
    /// above theirs.
    pub fn add(&mut self, answer: Answer)
        requires records { self.old.records < 2 ^ 60 }
        requires asked_for { self.old.asked_for ≤ self.old.records }
        requires without_time { self.old.without_time ≤ self.old.records }
        ensures { self.new ≡ record {
          records = self.old.records + 1;
          asked_for = self.old.asked_for + one_if (is_asked answer);
          without_time = self.old.without_time + one_if (is_without_time answer);
        } }
    {
        self.records += 1;
        match answer {
            Answer::AskedFor => self.asked_for += 1,
            Answer::Left => {}
            Answer::NoTime => self.without_time += 1,
        }
    }

    /// Returns the counts of all records of an input, with the fault by which it ended, if by one.
    pub(crate) fn selected(self, end: Option<StreamFault>) -> Selected
        ensures { result ≡ record {
          records = self.records;
          written = self.asked_for;
          without_time = self.without_time;
          end = end;
        } }
    {
        Selected {
            records: self.records,
            written: self.asked_for,
            without_time: self.without_time,
            end,
        }
    }
}
