//! Lines that are reported of an input, built without the heap: a line is reported whatever memory there is.
ghost use Rattle.std.specs.Prelude.{◌≤◌, ◌++◌, codes, decimal, length};
ghost use Rattle.mseed_files.specs.InputFiles.{no_memory};
ghost use Rattle.mseed_stream.specs.LineWritten.{WritesLine};
ghost use Rattle.mseed_text.specs.Fault.{fault_line};

use mseed_stream::{Sink, StreamFault, report};
use mseed_text::Line;

/// Reports with what fault an input ended.
pub fn report_fault<E: Sink>(errors: &mut E, fault: &StreamFault)
    ensures { WritesLine (codes "mseed: " ++ fault_line fault.now) (E.written errors.old) (E.written errors.new) }
{
    let mut line = Line::new();
    line.put(b"mseed: ");
    line.put_fault_line(fault);
    report(errors, line.as_slice());
}

/// Reports a line with a number in it, by what stands before the number and after it, each of at most 32 bytes.
pub fn report_number<'a, E: Sink>(errors: &mut E, before: &'a [u8], number: u64, after: &'a [u8])
    requires before { length before.now ≤ 32 }
    requires after { length after.now ≤ 32 }
    ensures { WritesLine (before.entry.now ++ decimal number ++ after.entry.now) (E.written errors.old)
        (E.written errors.new) }
{
    let mut line = Line::new();
    line.put(before);
    line.put_count(number);
    line.put(after);
    report(errors, line.as_slice());
}

/// Reports that memory was refused: to a command, or for the words of the command line.
pub fn report_no_memory<E: Sink>(errors: &mut E)
    ensures { WritesLine no_memory (E.written errors.old) (E.written errors.new) }
{
    report(errors, b"mseed: no memory\n");
}
