//! The audit of an archive that reports each record with a finding.
ghost use Rattle.std.specs.Prelude.{◌≡◌, []};
ghost use Rattle.mseed_stream.specs.Calls.{ReadsOn, WritesOn};
ghost use Rattle.mseed_stream.specs.Device.{nothing_read};
ghost use Rattle.mseed_audit.specs.Each.{IsEachOutcome, IsReporting};
ghost use Rattle.mseed_audit.specs.Selected.{IsEachSelectedOutcome};

use crate::audits::Memory;
use crate::summary::{Gathered, SelectedSummary, Summary, gather_with, push_finished};
use mseed_record::{All, Choice};
use mseed_stream::{Sink, Source, write_all_of};
use std::alloc::Allocator;
use thiserror::Error;

/// Why a text that reports each record with a finding wasn't written whole. A prefix of it was written.
#[derive(Clone, Copy, Debug, PartialEq, Eq, Error)]
pub enum EachFault {
    /// The output failed.
    #[error("the output failed")]
    Write,
    /// An allocation was refused.
    #[error("no memory")]
    Memory,
}

/// Audits as `audit` does, and writes before its text a line for each record with a finding, in the order of the
/// input. The lines are written as records come, some at a time.
///
/// # Errors
///
/// `Write` where the output failed, `Memory` where an allocation was refused. A prefix of the text was written then.
pub fn audit_each<A: Allocator + Copy, R: Source, W: Sink>(
    alloc: A,
    source: &mut R,
    sink: &mut W,
) -> Result<Summary, EachFault>
    requires { R.read source.old ≡ nothing_read }
    ensures outcome { IsEachOutcome result (R.read source.new) (W.written sink.old) (W.written sink.new) }

    // What the source is known to have left is what was read of it, up to its end where the input is at its end.
    ensures reads { ReadsOn (R.read source.old) (R.read source.new) (R.remaining source.old) (R.remaining source.new)
        (R.beside source.old) (R.beside source.new) }

    // What the sink is known to hold grew by what it accepted.
    ensures writes { WritesOn (W.written sink.old) (W.written sink.new) (W.contents sink.old) (W.contents sink.new)
        (W.beside sink.old) (W.beside sink.new) }
{
    match audit_each_selected(alloc, &All, source, sink) {
        Ok(found) => Ok(found.summary),
        Err(fault) => Err(fault),
    }
}

/// Audits as `audit_selected` does, and writes before its text a line for each record with a finding, in the order of
/// the input. The lines are written as records come, some at a time.
///
/// # Errors
///
/// `Write` where the output failed, `Memory` where an allocation was refused. A prefix of the text was written then.
pub fn audit_each_selected<A: Allocator + Copy, C: Choice, R: Source, W: Sink>(
    alloc: A,
    choice: &C,
    source: &mut R,
    sink: &mut W,
) -> Result<SelectedSummary, EachFault>
    requires { R.read source.old ≡ nothing_read }
    ensures outcome { IsEachSelectedOutcome (C.selection choice.now) result (R.read source.new) (W.written sink.old)
        (W.written sink.new) }

    // What the source is known to have left is what was read of it, up to its end where the input is at its end.
    ensures reads { ReadsOn (R.read source.old) (R.read source.new) (R.remaining source.old) (R.remaining source.new)
        (R.beside source.old) (R.beside source.new) }

    // What the sink is known to hold grew by what it accepted.
    ensures writes { WritesOn (W.written sink.old) (W.written sink.new) (W.contents sink.old) (W.contents sink.new)
        (W.beside sink.old) (W.beside sink.new) }
{
    let mut text = Vec::new(alloc);
    let selected = match gather_with(alloc, choice, source, &mut text, sink) {
        Ok(selected) => selected,
        Err(fault) => return Err(fault),
    };
    let found = match push_finished(&mut text, selected) {
        Ok(found) => found,
        Err(Memory) => return Err(EachFault::Memory),
    };
    match write_all_of(sink, &text) {
        Ok(()) => Ok(found),
        Err(_) => Err(EachFault::Write),
    }
}

/// Audits the records that a source gives as `gather` does, and writes a line for each record with a finding, in the
/// order of the input. The lines are written as records come, some at a time; the last are left in `text`, which is
/// empty at first.
///
/// # Errors
///
/// `Write` where the output failed, `Memory` where an allocation was refused. A prefix of the lines was written then.
pub fn gather_each<A: Allocator + Copy, R: Source, W: Sink>(
    alloc: A,
    source: &mut R,
    sink: &mut W,
    text: &mut Vec<u8, A>,
) -> Result<Gathered<A>, EachFault>
    requires read { R.read source.old ≡ nothing_read }
    requires text { text.old.items ≡ [] }
    ensures reported { IsReporting result (R.read source.new) (W.written sink.old) (W.written sink.new) text.new.items }

    // What the source is known to have left is what was read of it, up to its end where the input is at its end.
    ensures reads { ReadsOn (R.read source.old) (R.read source.new) (R.remaining source.old) (R.remaining source.new)
        (R.beside source.old) (R.beside source.new) }

    // What the sink is known to hold grew by what it accepted.
    ensures writes { WritesOn (W.written sink.old) (W.written sink.new) (W.contents sink.old) (W.contents sink.new)
        (W.beside sink.old) (W.beside sink.new) }
{
    match gather_with(alloc, &All, source, text, sink) {
        Ok(found) => Ok(found.gathered),
        Err(fault) => Err(fault),
    }
}
