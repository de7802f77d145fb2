//! Parts that are read out of a source, line by line.
ghost use Rattle.std.specs.Prelude.{◌≡◌, ◌≤◌, ◌+◌, ◌^◌, Bool, false, IfOk, OnSome};
ghost use Rattle.mseed_stream.specs.Calls.{ReadsOn};
ghost use Rattle.mseed_stream.specs.Device.{nothing_read};
ghost use Rattle.mseed_join.specs.Reached.{Stage, start};
ghost use Rattle.mseed_join.specs.private.Along.{IsAlong, IsFinished, IsNextStep};

use crate::fault::JoinFault;
use crate::flaw::Flaw;
use crate::joint::{Joint, JointPart, LineFault, Reported};
use crate::law::lines_are_short;
use crate::line_reader::{LineReader, NextLine};
use mseed_audit::Memory;
use mseed_stream::Source;
use std::alloc::Allocator;

/// Parts that are read line by line, and joined as they are read.
#[derive(Drop)]
pub(crate) struct Reader<A: Allocator> {
    lines: LineReader<A>,
    pub(crate) joint: Joint<A>,
}

impl<A: Allocator + Copy> Reader<A> {
    /// Returns a reader that read nothing.
    ///
    /// # Errors
    ///
    /// Where there is no memory for its buffer.
    pub(crate) fn new(alloc: A, past_faults: bool) -> Result<Reader<A>, Memory>
        ensures { IfOk result (λ r. IsAlong past_faults nothing_read (start) r) }
    {
        let lines = LineReader::new(alloc)?;
        Ok(Reader {
            lines,
            joint: Joint::new(alloc, past_faults),
        })
    }

    /// Takes the next line, and returns what is reported of it; `None` at the input's end.
    ///
    /// # Errors
    ///
    /// `Line` where the next line is bad, `Stream` where the source failed, or wasn't at its end after 2^40 reads, and
    /// `Memory` where there was no room for a channel that is new.
    pub(crate) fn next<R: Source>(&mut self, source: &mut R) -> Result<Option<Reported>, JoinFault>
        requires { (past_faults : Bool) × (s : Stage) × IsAlong past_faults (R.read source.old) s self.old }
        ensures step { (past_faults : Bool) (s : Stage) → IsAlong past_faults (R.read source.old) s self.old
            → IsNextStep past_faults s result (R.read source.new) self.new }
        ensures line { IfOk result (λ line. OnSome line (self.new.lines.lines ≡ self.old.lines.lines + 1)) }
        ensures few { IfOk result (λ line. OnSome line (self.old.lines.lines ≤ 2 ^ 56)) }
        ensures reads { ReadsOn (R.read source.old) (R.read source.new) (R.remaining source.old)
            (R.remaining source.new) (R.beside source.old) (R.beside source.new) }
    {
        lines_are_short();
        let ahead = match self.lines.look(source) {
            Ok(ahead) => ahead,
            Err(fault) => return Err(JoinFault::Stream(fault)),
        };
        let number = self.lines.lines() + 1;
        let offset = self.lines.offset();
        let flaw = match ahead {
            NextLine::Line => match self.joint.take_line(self.lines.line()) {
                Ok(reported) => {
                    self.lines.pass();
                    return Ok(Some(reported));
                }
                Err(LineFault::Bad(flaw)) => flaw,
                Err(LineFault::Memory) => return Err(JoinFault::Memory),
            },
            NextLine::TooLong => Flaw::Long,
            NextLine::Unended => Flaw::Unended,
            NextLine::Nothing => {
                if self.joint.can_end() {
                    return Ok(None);
                }
                Flaw::Missing
            }
        };
        Err(JoinFault::Line {
            number,
            offset,
            flaw,
        })
    }

    /// Returns the joint part, at the input's end. Where a number of parts is `expected` they have to be as many, those
    /// that don't count too.
    ///
    /// # Errors
    ///
    /// `Count` where they aren't.
    pub(crate) fn finish(self, expected: Option<u64>) -> Result<JointPart<A>, JoinFault>
        ensures { IsFinished self.joint expected result }
    {
        let parts = self.joint.parts;
        match expected {
            Some(due) if parts != due => Err(JoinFault::Count(parts, due)),
            _ => Ok(self.joint.into_part()),
        }
    }
}
