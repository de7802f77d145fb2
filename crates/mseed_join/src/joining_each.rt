//! Parts joined, with a line for each border with a finding.
ghost use Rattle.std.specs.Prelude.{◌≡◌};
ghost use Rattle.mseed_stream.specs.Calls.{ReadsOn, WritesOn};
ghost use Rattle.mseed_stream.specs.Device.{nothing_read};
ghost use Rattle.mseed_join.specs.JoinsEach.{IsJoinEachOutcome};

use crate::fault::JoinFault;
use crate::joining::{Form, Joined, push_joined};
use crate::joint::JointPart;
use crate::parts::read_with;
use mseed_audit::Memory;
use mseed_stream::{Sink, Source, write_all_of};
use std::alloc::Allocator;

/// Joins parts as `join` does to the text of the audit of their archives, and writes before it a line for each border
/// with a finding: part after part, ascending by channel within a part. The lines are written as borders come, some at
/// a time. The source is one of which nothing was read yet.
///
/// # Errors
///
/// `Line` where a line is bad, `Stream` where the parts couldn't be read whole, and `Count` where another number of
/// parts was read than is expected: the lines of the borders so far were written then. `Write` where the output failed,
/// and `Memory` where an allocation was refused: a prefix of the text was written then.
pub fn join_each<A: Allocator + Copy, R: Source, W: Sink, E: Sink>(
    alloc: A,
    past_faults: bool,
    expected: Option<u64>,
    source: &mut R,
    sink: &mut W,
    errors: &mut E,
) -> Result<Joined, JoinFault>
    requires { R.read source.old ≡ nothing_read }
    ensures outcome { IsJoinEachOutcome past_faults expected result (R.read source.new) (W.written sink.old)
        (W.written sink.new) (E.written errors.old) (E.written errors.new) }

    // What the source is known to have left is what was read of it, up to its end where the input is at its end.
    ensures reads { ReadsOn (R.read source.old) (R.read source.new) (R.remaining source.old) (R.remaining source.new)
        (R.beside source.old) (R.beside source.new) }

    // What the sink is known to hold grew by what it accepted.
    ensures writes { WritesOn (W.written sink.old) (W.written sink.new) (W.contents sink.old) (W.contents sink.new)
        (W.beside sink.old) (W.beside sink.new) }
{
    let mut text = Vec::new(alloc);
    let JointPart { part, faults, end } = read_with(
        alloc,
        past_faults,
        expected,
        source,
        errors,
        &mut text,
        sink,
    )?;
    let joined = match push_joined(&mut text, alloc, Form::Audit, part, faults, &end) {
        Ok(joined) => joined,
        Err(Memory) => return Err(JoinFault::Memory),
    };
    match write_all_of(sink, &text) {
        Ok(()) => Ok(joined),
        Err(_) => Err(JoinFault::Write),
    }
}
