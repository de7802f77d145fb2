//! The audit of an archive that lies in memory.
ghost use Rattle.std.specs.Prelude.{◌≡◌, ◌≢◌, length, IfSome};
ghost use Rattle.mseed_stream.specs.Calls.{ReadsOn, WritesOn};
ghost use Rattle.mseed_stream.specs.Device.{nothing_read};
ghost use Rattle.mseed_c.specs.Audited.{IsShown, SaysAudit, SaysEach, SaysPart, Stays, status_of, totals_of};
ghost use Rattle.mseed_c.specs.Room.{overwritten};
ghost use Rattle.mseed_c.specs.private.Reported.{IsReported, says_of};

use crate::codes::{BROKEN, FAULT, NO_MEMORY, OK};
use crate::lent::Lent;
use mseed_audit::{Summary, audit, audit_each};
use mseed_join::audit_part;
use mseed_pack::overwrite;
use mseed_stream::{Counted, Sink, Source};
use std::alloc::Global;

/// The counts of an audit, and the length of its text.
#[repr(C)]
#[derive(Clone, Copy)]
pub struct Totals {
    /// How many records were read, those without samples too.
    pub records: u64,
    /// How many channels have samples.
    pub channels: u64,
    /// How many of these channels are broken.
    pub broken: u64,
    /// The length of the whole text in bytes, also where the room was shorter.
    pub length: usize,
}

/// Which text about an archive is written.
#[derive(Clone, Copy)]
pub(crate) enum Text {
    /// That of `mseed audit`.
    Audit,
    /// That of `mseed audit --each`: a line for each record with a finding, and then the audit.
    Each,
    /// That of `mseed audit --part`: the archive's part, which `mseed join` reads.
    Part,
}

/// Audits an archive that lies in memory. The text of `mseed audit` is written into the room, as much of it as there is
/// room for; what lies after it stays. `totals` gets the counts, and the length of the whole text.
///
/// Returns the status of `mseed audit`: 0 where each channel is continuous, 1 where some channel is broken, 2 where the
/// archive doesn't end where a record ends. Returns 3 where memory was refused: then nothing is written.
#[unsafe(no_mangle)]
pub extern "C" fn mseed_audit(
    alloc: Global,
    bytes: &[u8],
    room: &mut [u8],
    totals: &mut Totals,
) -> u32
    ensures shown { result ≢ NO_MEMORY → IsShown SaysAudit bytes.now room.old room.new totals.new result }
    ensures refused { result ≡ NO_MEMORY → Stays room.old room.new totals.old totals.new }
{
    show_text(Text::Audit, alloc, bytes, room, totals)
}

/// Audits an archive that lies in memory, with the text of `mseed audit --each`: before the lines of [`mseed_audit`]
/// stands a line for each record with a finding. The text is written into the room, as much of it as there is room for;
/// what lies after it stays. `totals` gets the counts, and the length of the whole text.
///
/// Returns the status, as [`mseed_audit`] does, or 3 where memory was refused: then nothing is written.
#[unsafe(no_mangle)]
pub extern "C" fn mseed_audit_each(
    alloc: Global,
    bytes: &[u8],
    room: &mut [u8],
    totals: &mut Totals,
) -> u32
    ensures shown { result ≢ NO_MEMORY → IsShown SaysEach bytes.now room.old room.new totals.new result }
    ensures refused { result ≡ NO_MEMORY → Stays room.old room.new totals.old totals.new }
{
    show_text(Text::Each, alloc, bytes, room, totals)
}

/// Makes the part of an archive that lies in memory, the text of `mseed audit --part`, from which `mseed join` makes
/// the audit of several archives. The text is written into the room, as much of it as there is room for; what lies
/// after it stays. `totals` gets the counts, and the length of the whole text.
///
/// Returns the status of the audit, as [`mseed_audit`] does, or 3 where memory was refused: then nothing is written.
#[unsafe(no_mangle)]
pub extern "C" fn mseed_part(
    alloc: Global,
    bytes: &[u8],
    room: &mut [u8],
    totals: &mut Totals,
) -> u32
    ensures shown { result ≢ NO_MEMORY → IsShown SaysPart bytes.now room.old room.new totals.new result }
    ensures refused { result ≡ NO_MEMORY → Stays room.old room.new totals.old totals.new }
{
    show_text(Text::Part, alloc, bytes, room, totals)
}

/// Writes a text about an archive that lies in memory into a room, and its counts into `totals`. Returns the status, or
/// 3 where memory was refused: then nothing is written.
fn show_text(text: Text, alloc: Global, bytes: &[u8], room: &mut [u8], totals: &mut Totals) -> u32
    ensures shown { result ≢ NO_MEMORY → IsShown (says_of text) bytes.now room.old room.new totals.new result }
    ensures refused { result ≡ NO_MEMORY → Stays room.old room.new totals.old totals.new }
{
    let mut source = Lent::new(bytes);
    let mut sink = Counted::new(Vec::new(alloc));
    match write_text(text, alloc, &mut source, &mut sink) {
        Some(summary) => show(sink.get_ref(), &summary, room, totals),
        None => NO_MEMORY,
    }
}

/// Writes a text about the archive that a source gives. Returns its summary, or `None` where memory was refused or
/// the output failed.
fn write_text<R: Source, W: Sink>(
    text: Text,
    alloc: Global,
    source: &mut R,
    sink: &mut W,
) -> Option<Summary>
    requires { R.read source.old ≡ nothing_read }
    ensures reported { IfSome result (λ summary.
        IsReported (says_of text) summary (R.read source.new) (W.written sink.old) (W.written sink.new)) }
    ensures reads { ReadsOn (R.read source.old) (R.read source.new) (R.remaining source.old) (R.remaining source.new)
        (R.beside source.old) (R.beside source.new) }
    ensures writes { WritesOn (W.written sink.old) (W.written sink.new) (W.contents sink.old) (W.contents sink.new)
        (W.beside sink.old) (W.beside sink.new) }
{
    match text {
        Text::Audit => audit(alloc, source, sink).ok(),
        Text::Each => audit_each(alloc, source, sink).ok(),
        Text::Part => audit_part(alloc, source, sink).ok(),
    }
}

/// Writes a text into a room, and its counts into `totals`. Returns the status.
fn show(text: &[u8], summary: &Summary, room: &mut [u8], totals: &mut Totals) -> u32
    ensures room { room.new ≡ overwritten text.now room.old }
    ensures totals { totals.new ≡ totals_of summary.now (length text.now) }
    ensures status { result ≡ status_of summary.now }
{
    overwrite(text, room);
    *totals = totals_of(summary, text.len());
    status_of(summary)
}

/// Returns the counts of a summary, with the length of the whole text in bytes.
fn totals_of(summary: &Summary, length: usize) -> Totals
    ensures { result ≡ totals_of summary.now length }
{
    Totals {
        records: summary.records,
        channels: summary.channels,
        broken: summary.broken,
        length,
    }
}

/// Returns the status of an audit: 2 at a fault, else 1 where some channel is broken, else 0.
fn status_of(summary: &Summary) -> u32
    ensures { result ≡ status_of summary.now }
{
    if summary.fault {
        FAULT
    } else if summary.broken > 0 {
        BROKEN
    } else {
        OK
    }
}
