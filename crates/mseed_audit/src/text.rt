//! The lines of an audit's text.
ghost use Rattle.std.specs.Prelude.{◌≡◌, ◌≤◌, ◌+◌, ◌++◌, OnErr, OnOk, length};
ghost use Rattle.std.specs.Fmt.{signed_decimal};
ghost use Rattle.mseed_steim.specs.declared.fault.ReadFault.TheVariants.{LastDiffers};
ghost use Rattle.mseed_stream.specs.Device.{IsPrefixOf};
ghost use Rattle.mseed_audit.specs.Text.{audit_text, verdict_lines, verdict_line, continuous_words};
ghost use Rattle.mseed_audit.specs.Text.{broken_words, total_line, why_text, read_text, reported_line};
ghost use Rattle.mseed_record.specs.Viewing.{view_of};

use crate::finding::{Finding, Why};
use crate::verdict::Verdict;
use mseed_record::{Codes, RecordView};
use mseed_steim::ReadFault;
use mseed_stream::StreamFault;
use mseed_text::{LONGEST_LINE, Line, push_fault_line, push_line};
use mseed_time::{Micros, Ratio, show_time};
use std::alloc::{AllocError, Allocator};

/// Adds the text of an audit: a line for each verdict, the numbers of records and of channels, and the line of
/// the fault with which the archive ends, if with any. Where memory is refused, a part of it may have been
/// added.
pub(crate) fn push_audit<A: Allocator>(
    text: &mut Vec<u8, A>,
    verdicts: &[(Codes, Verdict)],
    records: u64,
    end: &Option<StreamFault>,
) -> Result<(), AllocError>
    ensures { OnOk result (text.new.items ≡ text.old.items ++ audit_text verdicts.now records end.now) }
{
    push_verdicts(text, verdicts)?;
    push_total_line(text, records, verdicts.len() as u64)?;
    match end {
        Some(fault) => push_fault_line(text, fault),
        None => Ok(()),
    }
}

/// Adds a line for each verdict.
fn push_verdicts<A: Allocator>(
    text: &mut Vec<u8, A>,
    verdicts: &[(Codes, Verdict)],
) -> Result<(), AllocError>
    ensures { OnOk result (text.new.items ≡ text.old.items ++ verdict_lines verdicts.now) }
{
    for (codes, verdict) in verdicts {
        push_verdict_line(text, codes, verdict)?;
    }
    Ok(())
}

/// Adds the line of a channel, by its verdict.
///
/// # Errors
///
/// `AllocError` where memory is refused. The text is as it was.
pub fn push_verdict_line<A: Allocator>(
    text: &mut Vec<u8, A>,
    codes: &Codes,
    verdict: &Verdict,
) -> Result<(), AllocError>
    ensures ok { OnOk result (text.new.items ≡ text.old.items ++ verdict_line codes.now verdict.now) }
    ensures unchanged { OnErr result (text.new.items ≡ text.old.items) }
    ensures prefix { IsPrefixOf text.old.items text.new.items }
{
    let mut line = Line::new();
    put_verdict_line(&mut line, codes, verdict);
    push_line(text, line.as_slice())
}

/// Puts the line of a channel.
#[inline(always)]
fn put_verdict_line(line: &mut Line, codes: &Codes, verdict: &Verdict)
    requires { length line.old + 169 ≤ LONGEST_LINE }
    ensures { line.new ≡ line.old ++ verdict_line codes.now verdict.now }
{
    line.put_name(codes);
    match verdict {
        Verdict::Continuous {
            start,
            rate,
            records,
            samples,
        } => put_continuous(line, *start, *rate, *records, *samples),
        Verdict::Broken { first, count } => put_broken(line, first, *count),
    }
}

/// Puts what follows the name of a continuous channel.
#[inline(always)]
fn put_continuous(line: &mut Line, start: Micros, rate: Ratio, records: u64, samples: u64)
    requires { length line.old + 144 ≤ LONGEST_LINE }
    ensures { line.new ≡ line.old ++ continuous_words start rate records samples }
{
    line.put(b" continuous ");
    line.put(&show_time(start));
    line.put(b" rate ");
    line.put_ratio(rate);
    line.put_labelled(b" records ", records);
    line.put_labelled(b" samples ", samples);
    line.put(b"\n");
}

/// Puts what follows the name of a broken channel.
#[inline(always)]
fn put_broken(line: &mut Line, first: &Finding, count: u64)
    requires { length line.old + 154 ≤ LONGEST_LINE }
    ensures { line.new ≡ line.old ++ broken_words first.now count }
{
    line.put_labelled(b" broken findings ", count);
    line.put_labelled(b" first record ", first.number);
    line.put_labelled(b" offset ", first.offset);
    line.put(b" ");
    put_why(line, &first.why);
    line.put(b"\n");
}

/// Adds the line of a record with a finding.
///
/// # Errors
///
/// `AllocError` where memory is refused. The text is as it was.
#[cold]
#[inline(never)]
pub(crate) fn push_reported_line<A: Allocator>(
    text: &mut Vec<u8, A>,
    view: &RecordView,
    finding: &Finding,
) -> Result<(), AllocError>
    ensures ok { OnOk result (text.new.items
        ≡ text.old.items ++ reported_line (record { view = view_of view.now; finding = finding.now })) }
    ensures unchanged { OnErr result (text.new.items ≡ text.old.items) }
{
    let mut line = Line::new();
    line.put_count(finding.offset);
    line.put(b" ");
    line.put_name(&view.codes());
    line.put_labelled(b" record ", finding.number);
    line.put(b" start ");
    line.put_start(view);
    line.put(b" ");
    put_why(&mut line, &finding.why);
    line.put(b"\n");
    push_line(text, line.as_slice())
}

/// Adds the line with the numbers of records and of channels.
///
/// # Errors
///
/// `AllocError` where memory is refused. The text is as it was.
pub fn push_total_line<A: Allocator>(
    text: &mut Vec<u8, A>,
    records: u64,
    channels: u64,
) -> Result<(), AllocError>
    ensures ok { OnOk result (text.new.items ≡ text.old.items ++ total_line records channels) }
    ensures unchanged { OnErr result (text.new.items ≡ text.old.items) }
    ensures prefix { IsPrefixOf text.old.items text.new.items }
{
    let mut line = Line::new();
    line.put_labelled(b"records ", records);
    line.put_labelled(b" channels ", channels);
    line.put(b"\n");
    push_line(text, line.as_slice())
}

/// Puts the text of a finding at the end of a line: at most 53 bytes.
pub fn put_why(line: &mut Line, why: &Why)
    requires room { length line.old + 53 ≤ LONGEST_LINE }
    ensures text { line.new ≡ line.old ++ why_text why.now }
    ensures most { length line.new ≤ length line.old + 53 }
{
    match why {
        Why::Time(fault) => {
            line.put(b"time ");
            line.put_field(*fault);
        }
        Why::Rate => line.put(b"norate"),
        Why::Read(fault) => put_read_fault(line, fault),
        Why::RateChange => line.put(b"ratechange"),
        Why::Leap => line.put(b"leap"),
        Why::Gap(micros) => {
            line.put(b"gap ");
            line.put_wide(*micros);
        }
        Why::Overlap(micros) => {
            line.put(b"overlap ");
            line.put_wide(*micros);
        }
    }
}

/// Puts the text of samples that can't be read.
fn put_read_fault(line: &mut Line, fault: &ReadFault)
    requires { length line.old + 53 ≤ LONGEST_LINE }
    ensures text { line.new ≡ line.old ++ read_text fault.now }
    ensures most { length line.new ≤ length line.old + 53 }
{
    match fault {
        ReadFault::Blockette100 => line.put(b"blockette100"),
        ReadFault::Encoding(code) => {
            line.put_labelled(b"encoding ", u64::from(*code));
        }
        ReadFault::LittleSteim => line.put(b"littlesteim"),
        ReadFault::DataOffset => line.put(b"dataoffset"),
        ReadFault::Short(found) => {
            line.put_labelled(b"short ", *found as u64);
        }
        ReadFault::BadWord(frame, word) => {
            line.put_labelled(b"badword ", *frame as u64);
            line.put_labelled(b" ", *word as u64);
        }
        ReadFault::Overflow(index) => {
            line.put_labelled(b"overflow ", *index as u64);
        }
        ReadFault::LastDiffers(found, constant) => put_last_differs(line, *found, *constant),
        ReadFault::Memory => {}
    }
}

/// Puts the text of samples that don't end on their constant.
fn put_last_differs(line: &mut Line, found: i32, constant: i32)
    requires { length line.old + 53 ≤ LONGEST_LINE }
    ensures text { line.new ≡ line.old ++ read_text (LastDiffers found constant) }
    ensures most { length line.new ≤ length line.old + 53 }
{
    line.put(b"lastdiffers ");
    put_sample(line, found);
    line.put(b" ");
    put_sample(line, constant);
}

/// Puts a sample.
fn put_sample(line: &mut Line, sample: i32)
    requires { length line.old + 20 ≤ LONGEST_LINE }
    ensures text { line.new ≡ line.old ++ signed_decimal sample }
    ensures most { length line.new ≤ length line.old + 20 }
{
    line.put_signed(i64::from(sample));
}
