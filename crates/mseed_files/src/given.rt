//! What was given on a command line, as a line reports it. The line is built without the heap.
ghost use Rattle.std.specs.Prelude.{◌≤◌, length};
ghost use Rattle.mseed_files.specs.Given.{given_line};
ghost use Rattle.mseed_stream.specs.LineWritten.{WritesLine};

use mseed_stream::{Sink, report};
use mseed_text::Line;

/// Reports something of an argument of the command line, or of an option's value, by the text before it, of at most 40
/// bytes, and the text after it, of at most 120. Bytes outside 32 to 126 are reported as `?`, and of more than 60 bytes
/// the first 57 and `...`.
pub fn report_given<E: Sink>(errors: &mut E, before: &[u8], given: &[u8], after: &[u8])
    requires before { length before.now ≤ 40 }
    requires after { length after.now ≤ 120 }
    ensures { WritesLine (given_line before.now given.now after.now) (E.written errors.old) (E.written errors.new) }
{
    let mut line = Line::new();
    line.put(b"mseed: ");
    line.put(before);
    line.put_shown(given);
    line.put(after);
    line.put(b"\n");
    report(errors, line.as_slice());
}
