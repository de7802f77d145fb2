//! Calls of `mseed_text`.
ghost use Rattle.std.specs.Prelude.{IfOk, decimal, ◌≡◌};
ghost use Rattle.mseed_text.specs.Fault.{fault_line};

use mseed_record::{Codes, RecordView};
use mseed_stream::StreamFault;
use mseed_text::{Line, push_fault_line, push_line, shown_byte};
use mseed_time::{Ratio, TimeFault};
use std::alloc::{AllocError, Global};

/// The line that says how many records a channel has, added to a text.
pub fn push_records(text: &mut Vec<u8>, codes: &Codes, records: u64) -> Result<(), AllocError> {
    let mut line = Line::new();
    line.put_name(codes);
    line.put_labelled(b" has ", records);
    line.put(b" records\n");
    push_line(text, line.as_slice())
}

/// A number in decimal digits.
pub fn digits_of(alloc: Global, number: u64) -> Result<Vec<u8>, AllocError>
    ensures { IfOk result (λ text. text.items ≡ decimal number) }
{
    let mut text = Vec::new(alloc);
    let mut line = Line::new();
    line.put_count(number);
    push_line(&mut text, line.as_slice())?;
    Ok(text)
}

/// Whether a channel's name is this one; no memory is requested.
pub fn is_named(codes: &Codes, name: &[u8]) -> bool {
    let mut line = Line::new();
    line.put_name(codes);
    line.as_slice() == name
}

/// The line of a sample and of how far it stands from another one, in steps of the digitizer.
pub fn push_sample(text: &mut Vec<u8>, sample: i32, distance: u128) -> Result<(), AllocError> {
    let mut line = Line::new();
    line.put_signed(i64::from(sample));
    line.put(b" ");
    line.put_wide(distance);
    line.put(b"\n");
    push_line(text, line.as_slice())
}

/// The line of a station's code.
pub fn push_code(text: &mut Vec<u8>, station: &[u8; 5]) -> Result<(), AllocError> {
    let mut line = Line::new();
    line.put_code(station);
    line.put(b"\n");
    push_line(text, line.as_slice())
}

/// The line of a record's start and of its channel's sample rate.
pub fn push_start(text: &mut Vec<u8>, record: &RecordView, rate: Ratio) -> Result<(), AllocError> {
    let mut line = Line::new();
    line.put_start(record);
    line.put(b" ");
    line.put_ratio(rate);
    line.put(b"\n");
    push_line(text, line.as_slice())
}

/// The line that says which field of a time is out of its range.
pub fn push_refusal(text: &mut Vec<u8>, fault: TimeFault) -> Result<(), AllocError> {
    let mut line = Line::new();
    line.put(b"bad ");
    line.put_field(fault);
    line.put(b"\n");
    push_line(text, line.as_slice())
}

/// The line of a stream's fault, as it ends an audit's text.
pub fn fault_text(alloc: Global, fault: &StreamFault) -> Result<Vec<u8>, AllocError>
    ensures { IfOk result (λ text. text.items ≡ fault_line fault.now) }
{
    let mut text = Vec::new(alloc);
    push_fault_line(&mut text, fault)?;
    Ok(text)
}

/// How many bytes the line of a stream's fault has.
pub fn fault_length(fault: &StreamFault) -> usize {
    let mut line = Line::new();
    line.put_fault_line(fault);
    line.as_slice().len()
}

/// The line that says what was given, and is not known.
pub fn push_unknown(text: &mut Vec<u8>, given: &[u8]) -> Result<(), AllocError> {
    let mut line = Line::new();
    line.put(b"unknown: ");
    line.put_shown(given);
    line.put(b"\n");
    push_line(text, line.as_slice())
}

/// Whether a text is shown as it is.
pub fn is_plain(text: &[u8]) -> bool {
    text.iter().all(|byte| shown_byte(*byte) == *byte)
}
