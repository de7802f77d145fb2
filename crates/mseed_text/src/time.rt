//! Instants, sample rates, and the fields of a time that are out of their ranges.
ghost use Rattle.std.specs.Prelude.{◌≡◌, ◌≤◌, ◌+◌, ◌++◌, length};
ghost use Rattle.mseed_time.specs.Text.{fault_word};
ghost use Rattle.mseed_record.specs.Viewing.{view_of};
ghost use Rattle.mseed_text.specs.Time.{ratio_text, start_text};

use crate::line::{LONGEST_LINE, Line};
use mseed_record::RecordView;
use mseed_time::{Ratio, TimeFault, show_time};

impl Line {
    /// Puts a record's start at its end, in UTC and to the microsecond, or `fault` and the first field of the start
    /// that is out of its range: at most 26 bytes.
    #[inline(always)]
    pub fn put_start(&mut self, view: &RecordView)
        requires room { length self.old + 26 ≤ LONGEST_LINE }
        ensures text { self.new ≡ self.old ++ start_text (view_of view.now) }
        ensures most { length self.new ≤ length self.old + 26 }
    {
        match view.start() {
            Ok(start) => self.put(&show_time(start)),
            Err(fault) => {
                self.put(b"fault ");
                self.put_field(fault);
            }
        }
    }

    /// Puts the name of a field of a time at its end: at most 8 bytes.
    pub fn put_field(&mut self, fault: TimeFault)
        requires room { length self.old + 8 ≤ LONGEST_LINE }
        ensures text { self.new ≡ self.old ++ fault_word fault }
        ensures most { length self.new ≤ length self.old + 8 }
    {
        self.put(fault.word().as_bytes());
    }

    /// Puts a sample rate at its end, in samples a second, as a ratio `num/den`: at most 41 bytes.
    #[inline(always)]
    pub fn put_ratio(&mut self, rate: Ratio)
        requires room { length self.old + 41 ≤ LONGEST_LINE }
        ensures text { self.new ≡ self.old ++ ratio_text rate }
        ensures most { length self.new ≤ length self.old + 41 }
    {
        self.put_count(u64::from(rate.num()));
        self.put_labelled(b"/", u64::from(rate.den()));
    }
}
