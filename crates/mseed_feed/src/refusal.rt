//! The lines that say why a feed isn't filled, that memory or a link failed, or why a port can't be had. They are built
//! without the heap: a line is reported whatever memory there is.
ghost use Rattle.std.specs.Prelude.{◌≡◌, ◌≤◌, ◌+◌, ◌++◌, codes, decimal, length};
ghost use Rattle.mseed_record.specs.Header.{trimmed};
ghost use Rattle.slink_feed.specs.Reporter.{AreReported};
ghost use Rattle.mseed_feed.specs.Plans.{fill_lines, fill_text, more_lines, station_line};
ghost use Rattle.mseed_feed.specs.Unlistened.{IsUnlistened, cannot_listen};
ghost use Rattle.mseed_files.specs.InputFiles.{no_memory};
ghost use Rattle.mseed_stream.specs.LineWritten.{WritesLine};

use mseed_files::{report_fault, report_given, report_no_memory, report_number};
use mseed_record::trimmed;
use mseed_stream::{Sink, StreamFault, report};
use mseed_text::Line;
use mseed_words::Endpoint;
use slink_feed::{ForeignRecord, InputFault};
use slink_links::{FAULT, ListenFault, put_address};
use slink_wire::Address;

/// Reports why a feed isn't filled further, and what more is to be said of that.
pub(crate) fn report_filling<E: Sink>(errors: &mut E, fault: &InputFault)
    ensures { AreReported (fill_lines fault.now) (E.written errors.old) (E.written errors.new) }
{
    report_reason(errors, fault);
    report_more(errors, fault);
}

/// Reports why a feed isn't filled further.
fn report_reason<E: Sink>(errors: &mut E, fault: &InputFault)
    ensures { WritesLine (fill_text fault.now) (E.written errors.old) (E.written errors.new) }
{
    match fault {
        InputFault::Stream(StreamFault::Memory) => report_no_memory(errors),
        InputFault::Stream(fault) => report_fault(errors, fault),
        InputFault::Foreign(foreign) => {
            report_number(
                errors,
                b"mseed: record ",
                foreign.number,
                b" is not of this feed\n",
            );
        }
    }
}

/// Reports what more is to be said of a fault of the input: of a record that isn't the feed's, whose it is.
fn report_more<E: Sink>(errors: &mut E, fault: &InputFault)
    ensures { AreReported (more_lines fault.now) (E.written errors.old) (E.written errors.new) }
{
    match fault {
        InputFault::Stream(_) => {}
        InputFault::Foreign(foreign) => report_station(errors, foreign),
    }
}

/// Reports of which station a record is that isn't the feed's, and how many bytes it has.
fn report_station<E: Sink>(errors: &mut E, foreign: &ForeignRecord)
    ensures { WritesLine (station_line foreign.now) (E.written errors.old) (E.written errors.new) }
{
    report_given(
        errors,
        before_station(foreign.number).as_slice(),
        station_of(&foreign.network, &foreign.station).as_slice(),
        after_station(foreign.size).as_slice(),
    );
}

/// What stands in that line before the station.
fn before_station(number: u64) -> Line
    ensures text { result ≡ codes "record " ++ decimal number ++ codes " is of " }
    ensures most { length result ≤ 34 }
{
    let mut line = Line::new();
    line.put_labelled(b"record ", number);
    line.put(b" is of ");
    line
}

/// Network and station, without what fills their fields.
fn station_of(network: &[u8; 2], station: &[u8; 5]) -> Line
    ensures { result ≡ trimmed network.now ++ codes "_" ++ trimmed station.now }
{
    let mut line = Line::new();
    put_trimmed(&mut line, network);
    line.put(b"_");
    put_trimmed(&mut line, station);
    line
}

/// Puts a code at the end of a line, without what fills its field.
fn put_trimmed(line: &mut Line, code: &[u8])
    requires { length line.old + length code.now ≤ 256 }
    ensures text { line.new ≡ line.old ++ trimmed code.now }
    ensures most { length line.new ≤ length line.old + length code.now }
{
    line.put(trimmed(code));
}

/// What stands in that line after the station.
fn after_station(size: usize) -> Line
    ensures text { result ≡ codes ", and has " ++ decimal size ++ codes " bytes" }
    ensures most { length result ≤ 36 }
{
    let mut line = Line::new();
    line.put_labelled(b", and has ", size as u64);
    line.put(b" bytes");
    line
}

/// Reports that memory was refused, and returns the exit status.
pub(crate) fn refuse_memory<E: Sink>(errors: &mut E) -> u8
    ensures status { result ≡ 2 }
    ensures reported { WritesLine no_memory (E.written errors.old) (E.written errors.new) }
{
    report_no_memory(errors);
    FAULT
}

/// Reports that a link failed, and returns the exit status.
pub(crate) fn link_failed<E: Sink>(errors: &mut E) -> u8
    ensures status { result ≡ 2 }
    ensures reported { WritesLine (codes "mseed: link failed\n") (E.written errors.old) (E.written errors.new) }
{
    report(errors, b"mseed: link failed\n");
    FAULT
}

/// Reports that the port can't be had that was requested, and why, and returns the exit status.
pub(crate) fn report_unlistened<E: Sink>(
    errors: &mut E,
    listener: &Endpoint<Address>,
    fault: ListenFault,
) -> u8
    ensures { IsUnlistened listener.now fault result (E.written errors.old) (E.written errors.new) }
{
    let status = link_failed(errors);
    report(errors, cannot_listen(listener, fault).as_slice());
    status
}

/// The line that says at which address and port it can't be listened, and why.
fn cannot_listen(listener: &Endpoint<Address>, fault: ListenFault) -> Line
    ensures { result ≡ cannot_listen listener.now fault }
{
    let mut line = Line::new();
    line.put(b"mseed: cannot listen at ");
    put_address(&mut line, listener.host);
    line.put_labelled(b":", u64::from(listener.port));
    line.put(b": ");
    line.put(fault.text().as_bytes());
    line.put(b"\n");
    line
}
