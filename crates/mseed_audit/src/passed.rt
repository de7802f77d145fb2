//! The records that an audit isn't asked for.
ghost use Rattle.std.specs.Prelude.{◌≡◌, ◌+◌, ◌<◌, ◌^◌, if◌then◌else◌, false};
ghost use Rattle.mseed_record.specs.Selection.{is_asked, is_without_time};

use mseed_record::Answer;

/// How many records an audit passed.
#[derive(Clone, Copy)]
pub(crate) struct Passed {
    /// Those that are of another channel, or stand outside the window.
    pub(crate) left: u64,
    /// Those of a channel that is asked for that lack a time, where a window is given.
    pub(crate) without_time: u64,
}

impl Passed {
    /// None yet.
    pub(crate) fn none() -> Passed
        ensures { result ≡ record { left = 0; without_time = 0 } }
    {
        Passed {
            left: 0,
            without_time: 0,
        }
    }

    /// Counts a record that isn't asked for.
    pub(crate) fn add(&mut self, answer: Answer)
        requires left { self.old.left < 2 ^ 60 }
        requires without_time { self.old.without_time < 2 ^ 60 }
        requires passed { is_asked answer ≡ false }
        ensures { self.new ≡ record {
          left = self.old.left + (if is_without_time answer then 0 else 1);
          without_time = self.old.without_time + (if is_without_time answer then 1 else 0);
        } }
    {
        match answer {
            Answer::AskedFor => {}
            Answer::Left => self.left += 1,
            Answer::NoTime => self.without_time += 1,
        }
    }
}
