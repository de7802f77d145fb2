//! The lines of a part, read.
ghost use Rattle.std.specs.Prelude.{◌≡◌, ◌≢◌, List, ℕ, IfSome, IfNone};
ghost use Rattle.mseed_text.specs.Fault.{fault_line};
ghost use Rattle.mseed_stream.specs.declared.fault.StreamFault.{StreamFault};
ghost use Rattle.mseed_audit.specs.declared.channel.Channel.{Channel};
ghost use Rattle.mseed_join.specs.Lines.{channel_line, counts_line, faults_line, HasChannelLine, HasCountsLine};
ghost use Rattle.mseed_join.specs.Lines.{HasFaultsLine, HasFaultLine};

use crate::reading::{channel_at, counts_at, fault_at, faults_at};
use mseed_audit::Channel;
use mseed_record::Codes;
use mseed_stream::StreamFault;

/// Returns a channel and its codes, from its line with the LF at its end; `None` where it isn't a channel's line.
pub fn read_channel_line(line: &[u8]) -> Option<(Codes, Channel)>
    // What is read is what is written of it.
    ensures read { IfSome result (λ x. line.now ≡ channel_line x.0 x.1) }
    ensures fits { IfSome result (λ x. HasChannelLine x.0 x.1) }
    // What is written of a channel is read.
    ensures none { IfNone result ((key : List ℕ) (c : Channel) → HasChannelLine key c → line.now ≢ channel_line key c) }
{
    channel_at(line)
}

/// Returns the numbers of records and of bytes, from their line with the LF at its end; `None` where it isn't the
/// line of the counts.
pub fn read_counts_line(line: &[u8]) -> Option<(u64, u64)>
    ensures read { IfSome result (λ x. line.now ≡ counts_line x.0 x.1) }
    ensures fits { IfSome result (λ x. HasCountsLine x.0 x.1) }
    ensures none { IfNone result ((records bytes : ℕ) → HasCountsLine records bytes
        → line.now ≢ counts_line records bytes) }
{
    counts_at(line)
}

/// Returns how many faults were passed, at least one, from their line with the LF at its end; `None` where it isn't the
/// line of the faults that were passed.
pub fn read_faults_line(line: &[u8]) -> Option<u64>
    ensures read { IfSome result (λ n. line.now ≡ faults_line n) }
    ensures fits { IfSome result (λ n. HasFaultsLine n) }
    ensures none { IfNone result ((n : ℕ) → HasFaultsLine n → line.now ≢ faults_line n) }
{
    faults_at(line)
}

/// Returns the fault after this number of bytes, from its line with the LF at its end; `None` where it isn't the
/// line of a fault there.
pub fn read_fault_line(line: &[u8], bytes: u64) -> Option<StreamFault>
    ensures read { IfSome result (λ fault. line.now ≡ fault_line fault) }
    ensures fits { IfSome result (λ fault. HasFaultLine bytes fault) }
    ensures none { IfNone result ((fault : StreamFault) → HasFaultLine bytes fault → line.now ≢ fault_line fault) }
{
    fault_at(line, bytes)
}
