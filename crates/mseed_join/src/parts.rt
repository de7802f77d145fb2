//! Parts one after another, read and joined.
ghost use Rattle.std.specs.Prelude.{◌≡◌, []};
ghost use Rattle.mseed_stream.specs.Calls.{ReadsOn};
ghost use Rattle.mseed_stream.specs.Device.{nothing_read};
ghost use Rattle.mseed_join.specs.ReadParts.{IsReadOutcome};
ghost use Rattle.mseed_join.specs.Reached.{AreReported};
ghost use Rattle.mseed_join.specs.private.Bordered.{IsReading};
ghost use Rattle.mseed_join.specs.private.Taking.{passed_by};

use crate::fault::JoinFault;
use crate::joint::{JointPart, Reported};
use crate::reader::Reader;
use crate::report::{Report, Unreported};
use mseed_audit::Memory;
use mseed_stream::{Sink, Source, report};
use mseed_text::Line;
use std::alloc::Allocator;

/// Reads the texts of parts, one after another, and joins them as they are read. A part after one that ends with a
/// fault isn't counted; where faults are passed (`past_faults`), each part counts as if it ended without one, and a
/// line on `errors` reports the fault. Where a number of parts is `expected` they have to be as many, those that aren't
/// counted too. It takes memory for the channels, and a buffer of a fixed size. The source is one of which nothing was
/// read yet.
///
/// # Errors
///
/// `Line` where a line is bad, the first such line by its number: with it the text can be that of no parts that can be
/// joined. `Stream` where the source failed, or wasn't at its end after 2^40 reads. `Count` where all was read, and it
/// is another number of parts than is expected. `Memory` where an allocation was refused.
pub fn read_parts<A: Allocator + Copy, R: Source, E: Sink>(
    alloc: A,
    past_faults: bool,
    expected: Option<u64>,
    source: &mut R,
    errors: &mut E,
) -> Result<JointPart<A>, JoinFault>
    requires { R.read source.old ≡ nothing_read }
    ensures outcome { IsReadOutcome result past_faults expected (R.read source.new) (E.written errors.old)
        (E.written errors.new) }

    // What the source is known to have left is what was read of it, up to its end where the input is at its end.
    ensures reads { ReadsOn (R.read source.old) (R.read source.new) (R.remaining source.old) (R.remaining source.new)
        (R.beside source.old) (R.beside source.new) }
{
    read_with(
        alloc,
        past_faults,
        expected,
        source,
        errors,
        &mut Unreported,
        &mut (),
    )
}

/// Reads the texts of parts as `read_parts` does, and reports the borders that have a finding. A report that has
/// gathered something has it still once all parts are read.
///
/// # Errors
///
/// Those of `read_parts`, as the report answers them, and those of the report.
pub(crate) fn read_with<A: Allocator + Copy, R: Source, E: Sink, O, P: Report<O>>(
    alloc: A,
    past_faults: bool,
    expected: Option<u64>,
    source: &mut R,
    errors: &mut E,
    report: &mut P,
    output: &mut O,
) -> Result<JointPart<A>, JoinFault>
    requires read { R.read source.old ≡ nothing_read }
    requires report { P.stands output.old report.old output.old [] }
    ensures outcome { IsReading result past_faults expected (R.read source.new) (E.written errors.old)
        (E.written errors.new) (P.stands output.old report.new output.new) (P.cuts output.old output.new)
        (P.stops output.old output.new) }
    ensures reads { ReadsOn (R.read source.old) (R.read source.new) (R.remaining source.old) (R.remaining source.new)
        (R.beside source.old) (R.beside source.new) }
{
    let mut reader = match Reader::new(alloc, past_faults) {
        Ok(reader) => reader,
        Err(Memory) => return Err(report.stop(output, JoinFault::Memory)),
    };
    'lines: loop {
        match reader.next(source) {
            Ok(Some(reported)) => {
                report_passed(errors, &reported);
                match report.add(output, &reported) {
                    Ok(()) => {}
                    Err(fault) => return Err(fault),
                }
            }
            Ok(None) => match reader.finish(expected) {
                Ok(joint) => return Ok(joint),
                Err(unread) => return Err(report.stop(output, unread)),
            },
            Err(unread) => return Err(report.stop(output, unread)),
        }
    }
}

/// Reports a fault that is passed, with the number of the part that ends with it.
fn report_passed<E: Sink>(errors: &mut E, reported: &Reported)
    ensures { AreReported (passed_by reported.now) (E.written errors.old) (E.written errors.new) }
{
    match reported {
        Reported::Passed { part, fault } => {
            let mut line = Line::new();
            line.put_labelled(b"mseed: part ", *part);
            line.put(b" ");
            line.put_fault_line(fault);
            report(errors, line.as_slice());
        }
        Reported::Nothing => {}
        Reported::Border { .. } => {}
    }
}
