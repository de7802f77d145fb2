//! The text of a part, and of the audit that it is the part of, written.
ghost use Rattle.std.specs.Prelude.{◌≡◌, ◌++◌, ℕ, OnOk, map};
ghost use Rattle.mseed_text.specs.Fault.{end_line};
ghost use Rattle.mseed_audit.specs.Text.{verdict_lines};
ghost use Rattle.mseed_join.specs.Lines.{faults_line};
ghost use Rattle.mseed_join.specs.Joined.{join_text, verdict_at};
ghost use Rattle.mseed_join.specs.Written.{channel_lines, part_text};

use crate::writing::{FIRST_LINE, push_channel_line, push_counts_line, push_faults_line};
use mseed_audit::{Channel, push_total_line, push_verdict_line};
use mseed_record::Codes;
use mseed_stream::StreamFault;
use mseed_text::push_fault_line;
use std::alloc::{AllocError, Allocator};

/// Adds the text of a part of these channels, in which `faults` faults were passed, and which ends with `end`, if with
/// a fault.
/// Where memory is refused, the first bytes of it may have been added.
pub(crate) fn push_part<A: Allocator>(
    text: &mut Vec<u8, A>,
    channels: &[(Codes, Channel)],
    records: u64,
    bytes: u64,
    faults: u64,
    end: &Option<StreamFault>,
) -> Result<(), AllocError>
    ensures { OnOk result (text.new.items ≡ text.old.items ++ part_text (record {
      part = record { channels = channels.now; records = records; bytes = bytes };
      faults = faults;
      end = end.now;
    })) }
{
    text.extend_from_slice(FIRST_LINE)?;
    push_channels(text, channels)?;
    push_counts_line(text, records, bytes)?;
    push_faults(text, faults, end)
}

/// Adds a line for each channel.
fn push_channels<A: Allocator>(
    text: &mut Vec<u8, A>,
    channels: &[(Codes, Channel)],
) -> Result<(), AllocError>
    ensures { OnOk result (text.new.items ≡ text.old.items ++ channel_lines channels.now) }
{
    for (codes, channel) in channels {
        push_channel_line(text, codes, channel)?;
    }
    Ok(())
}

/// Adds the lines of faults: how many were passed, and that of the one at the end, if there is one.
fn push_faults<A: Allocator>(
    text: &mut Vec<u8, A>,
    faults: u64,
    end: &Option<StreamFault>,
) -> Result<(), AllocError>
    ensures { OnOk result (text.new.items ≡ text.old.items ++ (faults_line faults ++ end_line end.now)) }
{
    push_faults_line(text, faults)?;
    match end {
        Some(fault) => push_fault_line(text, fault),
        None => Ok(()),
    }
}

/// Adds the text of the audit that holds these channels, in which `faults` faults were passed, and which ends with
/// `end`, if with a fault. Where memory is refused, the first bytes of it may have been added.
pub(crate) fn push_join<A: Allocator>(
    text: &mut Vec<u8, A>,
    channels: &[(Codes, Channel)],
    records: u64,
    faults: u64,
    end: &Option<StreamFault>,
) -> Result<(), AllocError>
    ensures { (bytes : ℕ) → OnOk result (text.new.items ≡ text.old.items ++ join_text (record {
      part = record { channels = channels.now; records = records; bytes = bytes };
      faults = faults;
      end = end.now;
    })) }
{
    push_verdicts(text, channels)?;
    push_total_line(text, records, channels.len() as u64)?;
    push_faults(text, faults, end)
}

/// Adds a line for the verdict on each channel.
fn push_verdicts<A: Allocator>(
    text: &mut Vec<u8, A>,
    channels: &[(Codes, Channel)],
) -> Result<(), AllocError>
    ensures { OnOk result (text.new.items ≡ text.old.items ++ verdict_lines (map verdict_at channels.now)) }
{
    for (codes, channel) in channels {
        push_verdict_line(text, codes, &channel.verdict())?;
    }
    Ok(())
}
