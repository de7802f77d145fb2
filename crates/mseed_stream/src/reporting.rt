//! Diagnostics.
ghost use Rattle.mseed_stream.specs.LineWritten.{WritesLine};

use crate::device::Sink;
use crate::whole::write_all_of;

/// Writes a line of diagnostics, bytes as they are. Where the device fails the rest of the line is left out, and the
/// failure isn't reported: there is no other device for it.
pub fn report<E: Sink>(errors: &mut E, line: &[u8])
    ensures { WritesLine line.now (E.written errors.old) (E.written errors.new) }
{
    let _ = write_all_of(errors, line);
}
