//! What an audit does with the records that have a finding.
ghost use Rattle.std.specs.Prelude.{◌+◌, ◌++◌, ◌≤◌, ◌∷◌, [], ⊤, ℕ, IfOk, List, MatchResult, length};
ghost use Rattle.mseed_stream.specs.declared.whole.TheConstants.{GATHERED};
ghost use Rattle.mseed_record.specs.Viewing.{view_of};
ghost use Rattle.mseed_audit.specs.Reported.{Reported};
ghost use Rattle.mseed_audit.specs.private.Gathered.{AreLined, AreLinedInPart};

use crate::audits::Memory;
use crate::finding::Finding;
use crate::text::push_reported_line;
use mseed_record::RecordView;
use mseed_stream::{Failed, GATHERED, Sink, write_beyond};
use std::alloc::Allocator;

/// What is done with the records that have a finding: nothing, or a line for each goes to an output. A loop over
/// records takes any report, so that it costs nothing where none is made.
pub(crate) trait Report<O> {
    // So the report and its output stand once these were reported: by the output at first, the report and the output.
    ghost stands: { O → Self → O → List Reported → Type 0 };

    // So the output stands where it failed as these were reported: by the output at first, and the output.
    ghost fails: { O → O → List Reported → Type 0 };

    // How many bytes of lines wait to be written.
    ghost waiting: { Self → ℕ };

    /// Adds a record with its finding.
    ///
    /// # Errors
    ///
    /// `Memory` where an allocation was refused: the record isn't reported then.
    fn add(&mut self, view: &RecordView, finding: &Finding) -> Result<(), Memory>
        ensures { (first now : O) (reported : List Reported) → stands first self.old now reported → MatchResult result
            (λ _. stands first self.new now
            (reported ++ record { view = view_of view.now; finding = finding.now } ∷ []))
            (λ _. stands first self.new now reported) };

    /// Writes to the output the lines that were gathered, once they have more than [`GATHERED`] bytes.
    ///
    /// # Errors
    ///
    /// `Failed` where the output failed: a prefix of the lines was written, and it isn't called again.
    fn write(&mut self, output: &mut O) -> Result<(), Failed>
        ensures reported { (first : O) (reported : List Reported) → stands first self.old output.old reported
            → MatchResult result (λ _. stands first self.new output.new reported)
            (λ _. fails first output.new reported) }
        ensures few { IfOk result (λ _. waiting self.new ≤ GATHERED) };
}

/// No record is reported.
#[derive(Clone, Copy)]
pub(crate) struct Unreported;

impl Report<()> for Unreported {
    ghost stands = { λ _ _ _ _. ⊤ };

    ghost fails = { λ _ _ _. ⊥ };

    ghost waiting = { λ _. 0 };

    #[inline(always)]
    fn add(&mut self, _view: &RecordView, _finding: &Finding) -> Result<(), Memory> {
        Ok(())
    }

    #[inline(always)]
    fn write(&mut self, _output: &mut ()) -> Result<(), Failed> {
        Ok(())
    }
}

/// Their lines are gathered in a text, and written some at a time.
impl<A: Allocator, W: Sink> Report<W> for Vec<u8, A> {
    ghost stands = { λ first text now reported. AreLined (W.written first) (W.written now) (W.contents first)
        (W.contents now) (W.beside first) (W.beside now) text.items reported };

    ghost fails = { λ first now reported. AreLinedInPart (W.written first) (W.written now) (W.contents first)
        (W.contents now) (W.beside first) (W.beside now) reported };

    ghost waiting = { λ text. length text.items };

    #[inline(always)]
    fn add(&mut self, view: &RecordView, finding: &Finding) -> Result<(), Memory> {
        match push_reported_line(self, view, finding) {
            Ok(()) => Ok(()),
            Err(_) => Err(Memory),
        }
    }

    #[inline(always)]
    fn write(&mut self, output: &mut W) -> Result<(), Failed> {
        match write_beyond(output, self, GATHERED) {
            Ok(()) => Ok(()),
            Err(_) => Err(Failed),
        }
    }
}
