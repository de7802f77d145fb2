//! The lines that say why a command didn't do all that was requested. They are built without the heap: a line is
//! reported whatever memory there is.
ghost use Rattle.std.specs.Prelude.{◌≡◌, ◌≤◌, ◌+◌, ◌++◌, codes, length};
ghost use Rattle.mseed_files.specs.InputFiles.{no_memory};
ghost use Rattle.mseed_repack.specs.Misfits.{misfit_text};
ghost use Rattle.mseed_stream.specs.LineWritten.{WritesLine};
ghost use Rattle.mseed_text.specs.Fault.{fault_line};
ghost use Rattle.mseed.specs.Joined.{bad_line_text, closing_text, field_name, field_place, field_right, field_text};
ghost use Rattle.mseed.specs.Joined.{flaw_text, join_fault_text};
ghost use Rattle.mseed.specs.Outcome.{write_failed};
ghost use Rattle.mseed.specs.Repacked.{refusal_status, refusal_text};
ghost use Rattle.mseed.specs.Restretched.{stretches_text};

use crate::status::BROKEN;
use mseed_files::{report_fault, report_no_memory};
use mseed_join::{Closing, Field, Flaw, JoinFault};
use mseed_pack::PackFault;
use mseed_record::Codes;
use mseed_repack::{RepackFault, report_broken, report_misfit};
use mseed_steim::Encoding;
use mseed_stream::{Sink, StreamFault, report};
use mseed_text::Line;
use slink_links::FAULT;

/// Reports that the output failed, and returns the exit status.
pub fn write_failed<E: Sink>(errors: &mut E) -> u8
    ensures status { result ≡ 2 }
    ensures reported { WritesLine write_failed (E.written errors.old) (E.written errors.new) }
{
    report(errors, b"mseed: write failed\n");
    FAULT
}

/// Reports that memory was refused, to a command or for the arguments of the command line, and returns the exit status.
pub fn refuse_memory<E: Sink>(errors: &mut E) -> u8
    ensures status { result ≡ 2 }
    ensures reported { WritesLine no_memory (E.written errors.old) (E.written errors.new) }
{
    report_no_memory(errors);
    FAULT
}

/// Reports why an archive wasn't packed anew in an encoding, and returns the exit status: a broken channel is no fault.
/// Of that the first finding is reported too.
pub fn refuse_to_repack<E: Sink>(errors: &mut E, encoding: Encoding, fault: &RepackFault) -> u8
    ensures status { result ≡ refusal_status fault.now }
    ensures reported { WritesLine (refusal_text encoding fault.now) (E.written errors.old) (E.written errors.new) }
{
    match fault {
        RepackFault::Stream(fault) => refuse_input(errors, fault),
        RepackFault::Broken(channel, first) => {
            report_broken(channel, first, errors);
            BROKEN
        }
        RepackFault::Misfit(channel, _, fault) => {
            refuse_unfit(errors, encoding, channel, None, fault)
        }
        RepackFault::Write => write_failed(errors),
        RepackFault::Memory => refuse_memory(errors),
    }
}

/// Reports why an archive wasn't packed anew by stretches, and returns the exit status, as [`refuse_to_repack`] does;
/// but of a channel that can't be packed it says which stretch.
pub fn refuse_to_stretch<E: Sink>(errors: &mut E, encoding: Encoding, fault: &RepackFault) -> u8
    ensures status { result ≡ refusal_status fault.now }
    ensures reported { WritesLine (stretches_text encoding fault.now) (E.written errors.old) (E.written errors.new) }
{
    match fault {
        RepackFault::Misfit(channel, number, fault) => {
            refuse_unfit(errors, encoding, channel, Some(*number), fault)
        }
        _ => refuse_to_repack(errors, encoding, fault),
    }
}

/// Reports why parts weren't joined, and returns the exit status.
pub fn refuse_to_join<E: Sink>(errors: &mut E, fault: &JoinFault) -> u8
    ensures status { result ≡ 2 }
    ensures reported { WritesLine (join_fault_text fault.now) (E.written errors.old) (E.written errors.new) }
{
    match fault {
        JoinFault::Line { number, flaw, .. } => refuse_line(errors, *number, flaw),
        JoinFault::Count(parts, expected) => refuse_count(errors, *parts, *expected),
        JoinFault::Stream(fault) => refuse_input(errors, fault),
        JoinFault::Write => write_failed(errors),
        JoinFault::Memory => refuse_memory(errors),
    }
}

/// Reports that a line of parts is bad, by its number, and what is wrong with it, and returns the exit status.
fn refuse_line<E: Sink>(errors: &mut E, number: u64, flaw: &Flaw) -> u8
    ensures status { result ≡ 2 }
    ensures reported { WritesLine (bad_line_text number flaw.now) (E.written errors.old) (E.written errors.new) }
{
    let mut line = Line::new();
    line.put_labelled(b"mseed: bad part at line ", number);
    line.put(b"\nmseed: ");
    put_flaw(&mut line, flaw);
    line.put(b"\n");
    report(errors, line.as_slice());
    FAULT
}

/// Puts what is wrong with a line of parts at a line's end.
fn put_flaw(line: &mut Line, flaw: &Flaw)
    requires { length line.old ≤ 64 }
    ensures text { line.new ≡ line.old ++ flaw_text flaw.now }
    ensures most { length line.new ≤ length line.old + 128 }
{
    match flaw {
        Flaw::Beginning => line.put(b"no beginning of a part; that is mseed part 1"),
        Flaw::Row(field) => put_field(line, *field),
        Flaw::Order(codes) => {
            line.put_name(codes);
            line.put(b" is out of order; channels ascend by their keys");
        }
        Flaw::Ending(closing) => line.put(closing_text(*closing).as_bytes()),
        Flaw::Limit => line.put(b"a sum passes 9223372036854775807, the most that a number can be"),
        Flaw::Long => line.put(b"no LF within 512 bytes; no line is longer"),
        Flaw::Unended => line.put(b"no LF at the end of the input; each line ends with one"),
        Flaw::Missing => {
            line.put(
                b"the input ends within a part; the counts are missing, as records 2 bytes 256",
            )
        }
    }
}

/// Puts the first bad field of a line of parts at a line's end.
fn put_field(line: &mut Line, field: Field)
    requires { length line.old ≤ 64 }
    ensures text { line.new ≡ line.old ++ field_text field }
    ensures most { length line.new ≤ length line.old + 128 }
{
    line.put(b"bad ");
    line.put(field_name(field).as_bytes());
    line.put(b" in the ");
    line.put(field_place(field).as_bytes());
    line.put(b"; ");
    line.put(field_right(field).as_bytes());
}

/// The name of a field of a line of parts.
fn field_name(field: Field) -> &'static str
    ensures text { result.now ≡ field_name field }
    ensures most { length result.now ≤ 8 }
{
    match field {
        Field::Key => "key",
        Field::Records | Field::AllRecords => "records",
        Field::Samples | Field::TailSamples => "samples",
        Field::HeadNumber => "number",
        Field::HeadOffset => "offset",
        Field::HeadStart | Field::TailStart => "start",
        Field::HeadRate | Field::TailRate => "rate",
        Field::TailLeap => "leap",
        Field::Findings => "findings",
        Field::First => "first",
        Field::AllBytes => "bytes",
    }
}

/// Where a field of a line of parts stands.
fn field_place(field: Field) -> &'static str
    ensures text { result.now ≡ field_place field }
    ensures most { length result.now ≤ 18 }
{
    match field {
        Field::HeadNumber | Field::HeadOffset | Field::HeadStart | Field::HeadRate => {
            "head of a channel"
        }
        Field::TailStart | Field::TailSamples | Field::TailRate | Field::TailLeap => {
            "tail of a channel"
        }
        Field::AllRecords | Field::AllBytes => "line of the counts",
        Field::Key | Field::Records | Field::Samples | Field::Findings | Field::First => {
            "line of a channel"
        }
    }
}

/// What would be right in place of a bad field of a line of parts.
fn field_right(field: Field) -> &'static str
    ensures text { result.now ≡ field_right field }
    ensures most { length result.now ≤ 80 }
{
    match field {
        Field::Key => "it is 24 digits 0-9A-F, or the counts are as records 2 bytes 256",
        Field::Records | Field::AllRecords => {
            "they are as records 2, from 0 to 9223372036854775807"
        }
        Field::Samples => "they are as samples 32, from 0 to 9223372036854775807",
        Field::HeadNumber => "it is as head 1 0 1704067200000000 20/1, or head none",
        Field::HeadOffset => "it is from 0 to 9223372036854775807",
        Field::HeadStart => {
            "it is as 1704067200000000, microseconds from 1970, of the years 1800 to 2199"
        }
        Field::HeadRate | Field::TailRate => "it is as 20/1, each from 1 to 1073741824",
        Field::TailStart => "it is as tail 1704067200000000 16 20/1 none, or tail none",
        Field::TailSamples => "they are from 1 to 65535",
        Field::TailLeap => "it is none, positive, negative or both",
        Field::Findings => "they are as findings 1, and 0 only with a head and a tail",
        Field::First => "where findings are not 0 it ends the line, as first 2 128 gap 25001",
        Field::AllBytes => "they end it, as bytes 256, from 0 to 9223372036854775807",
    }
}

/// What a line after the counts of a part is not.
fn closing_text(closing: Closing) -> &'static str
    ensures text { result.now ≡ closing_text closing }
    ensures most { length result.now ≤ 128 }
{
    match closing {
        Closing::Faults => {
            "bad faults after the counts; they come once, as faults 2, from 1 to 9223372036854775807"
        }
        Closing::Fault => {
            "bad fault at after the counts; it is as fault at 256 notdata, and has the bytes of the counts"
        }
        Closing::Neither => {
            "neither faults of this part nor the beginning of the next; that is mseed part 1"
        }
    }
}

/// Reports how many parts were read, and that another number of them was expected, and returns the exit status.
fn refuse_count<E: Sink>(errors: &mut E, parts: u64, expected: u64) -> u8
    ensures status { result ≡ 2 }
    ensures reported { WritesLine (join_fault_text (JoinFault.Count parts expected)) (E.written errors.old)
        (E.written errors.new) }
{
    let mut line = Line::new();
    line.put_labelled(b"mseed: ", parts);
    line.put_labelled(b" parts, not ", expected);
    line.put(b"\n");
    report(errors, line.as_slice());
    FAULT
}

/// Reports with what fault the input ended, and returns the exit status.
pub fn refuse_input<E: Sink>(errors: &mut E, fault: &StreamFault) -> u8
    ensures status { result ≡ 2 }
    ensures reported { WritesLine (codes "mseed: " ++ fault_line fault.now) (E.written errors.old)
        (E.written errors.new) }
{
    report_fault(errors, fault);
    FAULT
}

/// Reports why a channel can't be packed in an encoding, or a stretch of it by its number, from 1, and returns the exit
/// status.
fn refuse_unfit<E: Sink>(
    errors: &mut E,
    encoding: Encoding,
    channel: &Codes,
    stretch: Option<u64>,
    fault: &PackFault,
) -> u8
    ensures status { result ≡ 2 }
    ensures reported { WritesLine (misfit_text encoding channel.now stretch fault.now) (E.written errors.old)
        (E.written errors.new) }
{
    report_misfit(channel, stretch, encoding, fault, errors);
    FAULT
}
