//! The leap seconds of a record.
ghost use Rattle.std.specs.Prelude.{◌≡◌};

use mseed_time::LeapStep;

/// The leap seconds that happened during a record, by its activity flags (SEED manual, chapter 8, field 12: bits 4 and
/// 5).
#[derive(Clone, Copy, Debug, PartialEq, Eq)]
pub enum Leap {
    /// None.
    None,
    /// A positive one: a minute of 61 seconds.
    Positive,
    /// A negative one: a minute of 59 seconds.
    Negative,
    /// Both flags are set, so that it isn't known which one happened.
    Both,
}

impl Leap {
    ghost use Rattle.mseed_record.specs.View.{step_in};

    /// Returns the leap second that counts at the record's end; `None` where there is none, and with both flags.
    pub fn step(self) -> Option<LeapStep>
        ensures { result ≡ step_in self }
    {
        match self {
            Leap::None | Leap::Both => None,
            Leap::Positive => Some(LeapStep::Plus),
            Leap::Negative => Some(LeapStep::Minus),
        }
    }
}
