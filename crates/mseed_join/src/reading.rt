//! Whole lines, read from left to right.
ghost use Rattle.std.specs.Prelude.{◌≡◌};
ghost use Rattle.std.specs.Option.{option_map};
ghost use Rattle.mseed_join.specs.private.Reading.{first_at, counted_findings_at, findings_at, ends, channel_at};
ghost use Rattle.mseed_join.specs.private.Reading.{counts_at, faults_at, fault_at};

use crate::fields::{head_at, tail_at};
use crate::hex::key_at;
use crate::numbers::{LARGEST, after, number_after};
use crate::reasons::{stream_fault_at, why_at};
use mseed_audit::{Channel, Finding, Findings, Head, Tail};
use mseed_record::Codes;
use mseed_stream::StreamFault;

/// The first finding, and the bytes after it.
#[tactic(auto, unfolding(crate::specs::private::Reading::first_at))]
fn first_at(bytes: &[u8]) -> Option<(Finding, &[u8])>
    ensures { option_map (λ x. (x.0, x.1.now)) result ≡ first_at bytes.now }
{
    let (number, rest) = number_after(b" first ", LARGEST, bytes)?;
    let (offset, rest) = number_after(b" ", LARGEST, rest)?;
    let rest = after(b" ", rest)?;
    let (why, rest) = why_at(rest)?;
    Some((
        Finding {
            number,
            offset,
            why,
        },
        rest,
    ))
}

/// What is found of a channel, by the number of its findings, and the bytes after it.
#[inline(always)]
#[tactic(auto, unfolding(crate::specs::private::Reading::counted_findings_at))]
fn counted_findings_at(
    count: u64,
    head: Option<Head>,
    tail: Option<Tail>,
    bytes: &[u8],
) -> Option<(Findings, &[u8])>
    ensures { option_map (λ x. (x.0, x.1.now)) result ≡ counted_findings_at count head tail bytes.now }
{
    if count > 0 {
        let (first, rest) = first_at(bytes)?;
        return Some((
            Findings::Counted {
                count,
                first,
                head,
                tail,
            },
            rest,
        ));
    }
    match (head, tail) {
        (Some(head), Some(tail)) => Some((Findings::Nothing { head, tail }, bytes)),
        _ => None,
    }
}

/// How a channel begins and ends, and what is found of it, and the bytes after it.
#[inline(always)]
#[tactic(auto, unfolding(crate::specs::private::Reading::findings_at))]
fn findings_at(bytes: &[u8]) -> Option<(Findings, &[u8])>
    ensures { option_map (λ x. (x.0, x.1.now)) result ≡ findings_at bytes.now }
{
    let rest = after(b" head ", bytes)?;
    let Some((head, rest)) = head_at(rest) else {
        return None;
    };
    let rest = after(b" tail ", rest)?;
    let Some((tail, rest)) = tail_at(rest) else {
        return None;
    };
    let (count, rest) = number_after(b" findings ", LARGEST, rest)?;
    counted_findings_at(count, head, tail, rest)
}

/// Whether a line ends here.
#[inline(always)]
fn ends(bytes: &[u8]) -> bool
    ensures { result ≡ ends bytes.now }
{
    bytes == b"\n".as_slice()
}

/// Returns a channel and its codes, from its line; `None` where it isn't a channel's line.
#[inline(always)]
#[tactic(auto, unfolding(crate::specs::private::Reading::channel_at))]
pub(crate) fn channel_at(line: &[u8]) -> Option<(Codes, Channel)>
    ensures { result ≡ channel_at line.now }
{
    let Some((codes, rest)) = key_at(line) else {
        return None;
    };
    let (records, rest) = number_after(b" records ", LARGEST, rest)?;
    let (samples, rest) = number_after(b" samples ", LARGEST, rest)?;
    let Some((findings, rest)) = findings_at(rest) else {
        return None;
    };
    if !ends(rest) {
        return None;
    }
    Some((
        codes,
        Channel {
            records,
            samples,
            findings,
        },
    ))
}

/// Returns how many records and bytes there are, from their line; `None` where it isn't the line of the counts.
#[tactic(auto, unfolding(crate::specs::private::Reading::counts_at))]
pub(crate) fn counts_at(line: &[u8]) -> Option<(u64, u64)>
    ensures { result ≡ counts_at line.now }
{
    let (records, rest) = number_after(b"records ", LARGEST, line)?;
    let (bytes, rest) = number_after(b" bytes ", LARGEST, rest)?;
    if ends(rest) {
        Some((records, bytes))
    } else {
        None
    }
}

/// Returns how many faults were passed, from their line; `None` where it isn't the line of the faults that were passed.
#[tactic(auto, unfolding(crate::specs::private::Reading::faults_at))]
pub(crate) fn faults_at(line: &[u8]) -> Option<u64>
    ensures { result ≡ faults_at line.now }
{
    let (faults, rest) = number_after(b"faults ", LARGEST, line)?;
    if faults > 0 && ends(rest) {
        Some(faults)
    } else {
        None
    }
}

/// Returns the fault after this number of bytes, from its line; `None` where it isn't the line of a fault there.
#[tactic(auto, unfolding(crate::specs::private::Reading::fault_at))]
pub(crate) fn fault_at(line: &[u8], bytes: u64) -> Option<StreamFault>
    ensures { result ≡ fault_at line.now bytes }
{
    let (offset, rest) = number_after(b"fault at ", LARGEST, line)?;
    let rest = after(b" ", rest)?;
    let (fault, rest) = stream_fault_at(bytes, rest)?;
    if offset == bytes && ends(rest) {
        Some(fault)
    } else {
        None
    }
}
