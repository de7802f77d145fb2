//! The audit of an archive that writes the part of what was read.
ghost use Rattle.std.specs.Prelude.{◌≡◌, List, IfOk, map};
ghost use Rattle.mseed_record.specs.View.{View};
ghost use Rattle.mseed_stream.specs.Calls.{ReadsOn, WritesOn};
ghost use Rattle.mseed_stream.specs.Device.{BytesRead, nothing_read};
ghost use Rattle.mseed_audit.specs.Summary.{IsGathered, broken_count};
ghost use Rattle.mseed_join.specs.AuditPart.{IsPartEachOutcome, IsPartOutcome};
ghost use Rattle.mseed_join.specs.Joined.{verdict_at};
ghost use Rattle.mseed_join.specs.private.Parted.{IsPushed};

use crate::text::push_part;
use mseed_audit::{
    Audit, AuditFault, Channel, EachFault, Findings, Gathered, Memory, Summary,
    channels_have_verdicts, gather, gather_each,
};
use mseed_record::Codes;
use mseed_stream::{Sink, Source, StreamFault, write_all_of};
use std::alloc::Allocator;

/// Audits the records that a source gives as `audit` does, and writes in place of the audit's text the part of what was
/// read. The source is one of which nothing was read yet.
///
/// # Errors
///
/// `Write` where the output failed, `Memory` where an allocation was refused.
pub fn audit_part<A: Allocator + Copy, R: Source, W: Sink>(
    alloc: A,
    source: &mut R,
    sink: &mut W,
) -> Result<Summary, AuditFault>
    requires { R.read source.old ≡ nothing_read }
    ensures outcome { IsPartOutcome result (R.read source.new) (W.written sink.old) (W.written sink.new) }

    // What the source is known to have left is what was read of it, up to its end where the input is at its end.
    ensures reads { ReadsOn (R.read source.old) (R.read source.new) (R.remaining source.old) (R.remaining source.new)
        (R.beside source.old) (R.beside source.new) }

    // What the sink is known to hold grew by what it accepted.
    ensures writes { WritesOn (W.written sink.old) (W.written sink.new) (W.contents sink.old) (W.contents sink.new)
        (W.beside sink.old) (W.beside sink.new) }
{
    let Gathered { audit, end, bytes } = match gather(alloc, source) {
        Ok(gathered) => gathered,
        Err(Memory) => return Err(AuditFault::Memory),
    };
    let mut text = Vec::new(alloc);
    let summary = match push_audited(&mut text, alloc, audit, &end, bytes) {
        Ok(summary) => summary,
        Err(Memory) => return Err(AuditFault::Memory),
    };
    match write_all_of(sink, &text) {
        Ok(()) => Ok(summary),
        Err(taken) => Err(AuditFault::Write(taken)),
    }
}

/// Audits as `audit_part` does, and writes before the part a line for each record with a finding, in the order of the
/// input. The lines are written as records come, some at a time.
///
/// # Errors
///
/// `Write` where the output failed, `Memory` where an allocation was refused. A prefix of the text was written then.
pub fn audit_part_each<A: Allocator + Copy, R: Source, W: Sink>(
    alloc: A,
    source: &mut R,
    sink: &mut W,
) -> Result<Summary, EachFault>
    requires { R.read source.old ≡ nothing_read }
    ensures outcome { IsPartEachOutcome result (R.read source.new) (W.written sink.old) (W.written sink.new) }

    // What the source is known to have left is what was read of it, up to its end where the input is at its end.
    ensures reads { ReadsOn (R.read source.old) (R.read source.new) (R.remaining source.old) (R.remaining source.new)
        (R.beside source.old) (R.beside source.new) }

    // What the sink is known to hold grew by what it accepted.
    ensures writes { WritesOn (W.written sink.old) (W.written sink.new) (W.contents sink.old) (W.contents sink.new)
        (W.beside sink.old) (W.beside sink.new) }
{
    let mut text = Vec::new(alloc);
    let Gathered { audit, end, bytes } = gather_each(alloc, source, sink, &mut text)?;
    let summary = match push_audited(&mut text, alloc, audit, &end, bytes) {
        Ok(summary) => summary,
        Err(Memory) => return Err(EachFault::Memory),
    };
    match write_all_of(sink, &text) {
        Ok(()) => Ok(summary),
        Err(_) => Err(EachFault::Write),
    }
}

/// Adds the part's text, and returns what the audit's text says in numbers.
fn push_audited<A: Allocator + Copy>(
    text: &mut Vec<u8, A>,
    alloc: A,
    audit: Audit<A>,
    end: &Option<StreamFault>,
    bytes: u64,
) -> Result<Summary, Memory>
    ensures { (h : BytesRead) (views : List View) → IsGathered audit end.now bytes h views
        → IfOk result (λ summary. IsPushed summary h views text.old.items text.new.items) }
{
    channels_have_verdicts();
    let records = audit.added();
    let channels = audit.into_channels(alloc)?;
    match push_part(text, channels.as_slice(), records, bytes, 0, end) {
        Ok(()) => Ok(Summary {
            records,
            channels: channels.as_slice().len() as u64,
            broken: count_broken(channels.as_slice()),
            fault: end.is_some(),
            end: *end,
        }),
        Err(_) => Err(Memory),
    }
}

/// Returns how many channels are broken.
pub(crate) fn count_broken(channels: &[(Codes, Channel)]) -> u64
    ensures { result ≡ broken_count (map verdict_at channels.now) }
{
    let mut broken = 0;
    for (_, channel) in channels {
        if let Findings::Counted { .. } = channel.findings {
            broken += 1;
        }
    }
    broken
}
