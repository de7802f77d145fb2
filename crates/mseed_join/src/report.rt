//! What is done with the borders that have a finding.
ghost use Rattle.std.specs.Prelude.{◌≡◌, ◌≤◌, ◌++◌, ⊤, ℕ, IfOk, List, MatchResult, length};
ghost use Rattle.mseed_stream.specs.declared.whole.TheConstants.{GATHERED};
ghost use Rattle.mseed_stream.specs.Calls.{WritesOn};
ghost use Rattle.mseed_join.specs.Borders.{Border, border_lines};
ghost use Rattle.mseed_join.specs.declared.fault.JoinFault.{JoinFault};
ghost use Rattle.mseed_join.specs.private.Bordered.{AreLined, IsCutShort, IsFlushed};
ghost use Rattle.mseed_join.specs.private.Taking.{border_by};

use crate::borders::push_reported;
use crate::fault::JoinFault;
use crate::joint::Reported;
use mseed_stream::{GATHERED, Sink, write_all_of, write_beyond};
use std::alloc::Allocator;

/// What is done with the borders that have a finding: nothing, or a line for each goes to an output. The loop over the
/// lines of parts takes any report.
pub(crate) trait Report<O> {
    // So the report and its output stand once these were reported: by the output at first, the report and the output.
    ghost stands: { O → Self → O → List Border → Type 0 };

    // So the output stands where a fault came as these were reported: by the output at first, and the output.
    ghost cuts: { O → O → List Border → JoinFault → Type 0 };

    // So the output stands where the parts ended with a fault after these, and which one is answered then.
    ghost stops: { O → O → List Border → JoinFault → JoinFault → Type 0 };

    // How many bytes of lines wait to be written.
    ghost waiting: { Self → ℕ };

    /// Adds the border that a line reports, if it reports one, and writes to the output what was gathered, once it has
    /// more than [`GATHERED`] bytes.
    ///
    /// # Errors
    ///
    /// Where the output failed, or an allocation was refused: it isn't called again.
    fn add(&mut self, output: &mut O, reported: &Reported) -> Result<(), JoinFault>
        ensures reported { (first : O) (found : List Border) → stands first self.old output.old found
            → MatchResult result (λ _. stands first self.new output.new (found ++ border_by reported.now))
            (λ fault. cuts first output.new (found ++ border_by reported.now) fault) }
        ensures few { IfOk result (λ _. waiting self.new ≤ GATHERED) };

    /// Writes to the output what was gathered, since the parts end with a fault, and returns the fault: the output's
    /// where the output failed.
    fn stop(&self, output: &mut O, fault: JoinFault) -> JoinFault
        ensures { (first : O) (found : List Border) → stands first self.now output.old found
            → stops first output.new found fault result };
}

/// No border is reported.
#[derive(Clone, Copy)]
pub(crate) struct Unreported;

impl Report<()> for Unreported {
    ghost stands = { λ _ _ _ _. ⊤ };

    ghost cuts = { λ _ _ _ _. ⊥ };

    ghost stops = { λ _ _ _ ended fault. fault ≡ ended };

    ghost waiting = { λ _. 0 };

    #[inline(always)]
    fn add(&mut self, _output: &mut (), _reported: &Reported) -> Result<(), JoinFault> {
        Ok(())
    }

    #[inline(always)]
    fn stop(&self, _output: &mut (), fault: JoinFault) -> JoinFault {
        fault
    }
}

/// Their lines are gathered in a text, and written some at a time.
impl<A: Allocator, W: Sink> Report<W> for Vec<u8, A> {
    ghost stands = { λ first text now found. AreLined (W.written first) (W.written now) text.items found
        × WritesOn (W.written first) (W.written now) (W.contents first) (W.contents now) (W.beside first)
        (W.beside now) };

    ghost cuts = { λ first now found fault. IsCutShort (W.written first) (W.written now) (border_lines found) fault
        × WritesOn (W.written first) (W.written now) (W.contents first) (W.contents now) (W.beside first)
        (W.beside now) };

    ghost stops = { λ first now found ended fault. IsFlushed (W.written first) (W.written now) found ended fault
        × WritesOn (W.written first) (W.written now) (W.contents first) (W.contents now) (W.beside first)
        (W.beside now) };

    ghost waiting = { λ text. length text.items };

    fn add(&mut self, output: &mut W, reported: &Reported) -> Result<(), JoinFault> {
        match push_reported(self, reported) {
            Ok(()) => {}
            Err(_) => return Err(JoinFault::Memory),
        }
        match write_beyond(output, self, GATHERED) {
            Ok(()) => Ok(()),
            Err(_) => Err(JoinFault::Write),
        }
    }

    fn stop(&self, output: &mut W, fault: JoinFault) -> JoinFault {
        match write_all_of(output, self) {
            Ok(()) => fault,
            Err(_) => JoinFault::Write,
        }
    }
}
