//! What waits between the tries of a fetch.
ghost use Rattle.std.specs.Prelude.{◌≡◌, ◌+◌, ◌<◌, ◌^◌, ◌∷◌, ◌++◌, ℕ, List, []};
ghost use Rattle.slink_links.specs.Pauses.{pause_after, pauses_since};

use mseed_stream::Tally;
use std::thread;
use std::time::{Clock, Duration};

/// What waits.
pub trait Pause {
    // How long it was to wait so far, in tenths of a second, in order.
    ghost called: { Self → List ℕ };

    /// Waits for `tenths` tenths of a second.
    fn pause(&mut self, tenths: u8)
        ensures { called self.new ≡ called self.old ++ tenths ∷ [] };
}

/// Waits by a clock.
#[derive(Drop)]
pub struct Sleeper<'a, C: Clock> {
    clock: &'a C,
    called: Tally,
}

impl<'a, C: Clock> Sleeper<'a, C> {
    /// Returns what waits by a clock, and hasn't waited yet.
    pub fn new(clock: &'a C) -> Sleeper<'a, C>
        ensures { ⟦<Sleeper<'a, C> as Pause>⟧.called result ≡ [] }
    {
        Sleeper {
            clock,
            called: Tally::new(),
        }
    }

    /// Waits no more, and returns how long it was to wait, in tenths of a second, each as a byte, in order.
    pub fn into_log(self) -> Tally
        ensures { result.bytes ≡ ⟦<Sleeper<'a, C> as Pause>⟧.called self.entry }
    {
        self.called
    }
}

impl<C: Clock> Pause for Sleeper<'_, C> {
    ghost called = { λ s. s.called.bytes };

    fn pause(&mut self, tenths: u8) {
        thread::sleep(self.clock, Duration::from_millis(u64::from(tenths) * 100));
        self.called.record(&[tenths], false);
    }
}

/// The first pauses, in tenths of a second.
const FIRST: [u8; 6] = [1, 2, 4, 8, 16, 32];

/// The longest pause.
const LONGEST: u8 = 50;

/// How long a pause is after `count` others, in tenths of a second.
fn pause_after(count: usize) -> u8
    ensures { result ≡ pause_after count }
{
    match FIRST.get(count) {
        Some(tenths) => *tenths,
        None => LONGEST,
    }
}

/// Waits after a try that brought a record or didn't, and after `count` pauses. The answer is after how many the next
/// one comes.
pub(crate) fn wait_after<P: Pause>(received: bool, count: usize, waits: &mut P) -> usize
    requires { count + 1 < 2 ^ 64 }
    ensures called { P.called waits.new ≡ P.called waits.old ++ pause_after (pauses_since received count) ∷ [] }
    ensures next { result ≡ pauses_since received count + 1 }
{
    let count = if received { 0 } else { count };
    waits.pause(pause_after(count));
    count + 1
}
