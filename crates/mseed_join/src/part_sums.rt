//! How what is held of a channel is joined with what is held of its further records.
ghost use Rattle.std.specs.Prelude.{◌≡◌, ◌↔◌, ◌<◌, ◌+◌, ◌^◌, length, IsOk, IfErr, IfOk, IsTrue, OnErr, OnOk};
ghost use Rattle.std.specs.Option.{option_map, option_to_list};
ghost use Rattle.mseed_audit.specs.declared.channel.Findings.TheVariants.{Nothing};
ghost use Rattle.mseed_join.specs.Joining.{moved_head, moved_findings, moved_channel};
ghost use Rattle.mseed_join.specs.Joining.{border_of, findings_with, channel_then};
ghost use Rattle.mseed_audit.specs.Audit.{head_in, tail_in};
ghost use Rattle.mseed_audit.specs.declared.tail.Tail.{Tail};
ghost use Rattle.mseed_join.specs.Parts.{HeadFits, FirstFits, Moves, CountFits, CountsFit};

use crate::border::border_of;
use crate::numbers::LARGEST;
use crate::part::PartFault;
use mseed_audit::{Channel, Finding, Findings, Head};

/// A sum of two numbers of a part would pass 2^63 - 1.
#[derive(Clone, Copy, Debug, PartialEq, Eq)]
pub struct TooLarge;

/// Returns the sum of two numbers of a part: of records, samples, findings, faults or bytes.
///
/// # Errors
///
/// `TooLarge` exactly where it would pass 2^63 - 1.
#[inline(always)]
pub fn sum(a: u64, b: u64) -> Result<u64, TooLarge>
    ensures value { IfOk result (λ n. n ≡ a + b) }
    ensures fits { IsOk result ↔ a + b < 2 ^ 63 }
{
    if a <= LARGEST && b <= LARGEST - a {
        Ok(a + b)
    } else {
        Err(TooLarge)
    }
}

/// Returns a head as it is after so many records and bytes: its number and its offset go up by them.
///
/// # Errors
///
/// `TooLarge` exactly where one of the two would pass 2^63 - 1.
#[inline(always)]
fn moved_head(head: &Head, records: u64, bytes: u64) -> Result<Head, TooLarge>
    ensures value { IfOk result (λ h. h ≡ moved_head records bytes head.now) }
    ensures fits { IsOk result ↔ (records + head.now.number < 2 ^ 63) × (bytes + head.now.offset < 2 ^ 63) }
{
    Ok(Head {
        number: sum(records, head.number)?,
        offset: sum(bytes, head.offset)?,
        start: head.start,
        rate: head.rate,
    })
}

/// Returns a head, where there is one, as `moved_head` does, and `None` where there is none.
///
/// # Errors
///
/// `TooLarge` exactly where the head's number or its offset would pass 2^63 - 1.
#[inline(always)]
fn moved_some(head: Option<Head>, records: u64, bytes: u64) -> Result<Option<Head>, TooLarge>
    ensures value { IfOk result (λ h. h ≡ option_map (moved_head records bytes) head) }
    ensures fits { IsOk result ↔ HeadFits records bytes head }
{
    match head {
        Some(head) => Ok(Some(moved_head(&head, records, bytes)?)),
        None => Ok(None),
    }
}

/// Returns the findings of a channel as they are after so many records and bytes: the numbers and the offsets of the
/// head and of the first finding go up by them.
///
/// # Errors
///
/// `TooLarge` exactly where one of these would pass 2^63 - 1.
#[inline(always)]
fn moved_findings(findings: &Findings, records: u64, bytes: u64) -> Result<Findings, TooLarge>
    ensures value { IfOk result (λ f. f ≡ moved_findings records bytes findings.now) }
    ensures fits { IsOk result
        ↔ (HeadFits records bytes (head_in findings.now) × FirstFits records bytes findings.now) }
{
    match *findings {
        Findings::Nothing { head, tail } => Ok(Findings::Nothing {
            head: moved_head(&head, records, bytes)?,
            tail,
        }),
        Findings::Counted {
            count,
            first,
            head,
            tail,
        } => Ok(Findings::Counted {
            count,
            first: Finding {
                number: sum(records, first.number)?,
                offset: sum(bytes, first.offset)?,
                why: first.why,
            },
            head: moved_some(head, records, bytes)?,
            tail,
        }),
    }
}

/// A channel as it is after these numbers of further records and bytes: its numbers and offsets go up by them.
#[inline(always)]
pub(crate) fn moved(channel: &Channel, records: u64, bytes: u64) -> Result<Channel, TooLarge>
    ensures value { IfOk result (λ c. c ≡ moved_channel records bytes channel.now) }
    ensures fits { IsOk result ↔ Moves records bytes channel.now }
{
    Ok(Channel {
        records: channel.records,
        samples: channel.samples,
        findings: moved_findings(&channel.findings, records, bytes)?,
    })
}

/// The findings of further records, with what is found before them, of a channel of which nothing was found.
#[inline(always)]
fn with_first(head: Head, further: &Findings, border: Option<Finding>) -> Result<Findings, TooLarge>
    ensures value { (t : Tail) → IfOk result (λ f. f ≡ findings_with (Nothing head t) further.now border) }
    ensures fits { (t : Tail) → (IsOk result ↔ CountFits (findings_with (Nothing head t) further.now border)) }
{
    match (*further, border) {
        (Findings::Nothing { tail, .. }, None) => Ok(Findings::Nothing { head, tail }),
        (Findings::Nothing { tail, .. }, Some(first)) => Ok(Findings::Counted {
            count: 1,
            first,
            head: Some(head),
            tail: Some(tail),
        }),
        (
            Findings::Counted {
                count,
                first,
                tail,
                ..
            },
            border,
        ) => Ok(Findings::Counted {
            count: sum(size_of(border), count)?,
            first: border.unwrap_or(first),
            head: Some(head),
            tail,
        }),
    }
}

/// Puts the findings of further records, and what is found before them, after those of a channel.
#[inline(always)]
fn put_findings(
    kept: &mut Findings,
    further: &Findings,
    border: Option<Finding>,
) -> Result<(), TooLarge>
    ensures value { OnOk result (kept.new ≡ findings_with kept.old further.now border) }
    ensures fits { IsOk result ↔ CountFits (findings_with kept.old further.now border) }
    ensures unchanged { OnErr result (kept.new ≡ kept.old) }
{
    match kept {
        Findings::Nothing { head, tail } => match (*further, border) {
            (Findings::Nothing { tail: next, .. }, None) => *tail = next,
            _ => match with_first(*head, further, border) {
                Ok(joined) => *kept = joined,
                Err(_) => return Err(TooLarge),
            },
        },
        Findings::Counted { count, tail, .. } => {
            *count = sum(*count, sum(size_of(border), further.count())?)?;
            *tail = further.tail();
        }
    }
    Ok(())
}

/// Returns how many findings there are between two records: one or none.
fn size_of(border: Option<Finding>) -> u64
    ensures { result ≡ length (option_to_list border) }
{
    if border.is_some() { 1 } else { 0 }
}

/// Puts further records after a channel, and returns what is found between the two. Where a count would pass the
/// limit, the channel is then as it was.
#[inline(always)]
pub(crate) fn add_further(
    kept: &mut Channel,
    further: &Channel,
) -> Result<Option<Finding>, PartFault>
    ensures value { OnOk result (kept.new ≡ channel_then kept.old further.now) }
    ensures border { IfOk result
        (λ found. found ≡ border_of (tail_in kept.old.findings) (head_in further.now.findings)) }
    ensures fits { IsOk result ↔ CountsFit (channel_then kept.old further.now) }
    ensures fault { IfErr result (λ fault. fault ≡ PartFault.Limit) }
    ensures unchanged { OnErr result (kept.new ≡ kept.old) }
{
    let border = border_of(kept.findings.tail(), further.findings.head());
    let records = sum(kept.records, further.records)?;
    let samples = sum(kept.samples, further.samples)?;
    put_findings(&mut kept.findings, &further.findings, border)?;
    kept.records = records;
    kept.samples = samples;
    Ok(border)
}

/// Returns whether no count of a channel passes 2^63 - 1.
pub(crate) fn counts_fit(channel: &Channel) -> bool
    ensures { IsTrue result ↔ CountsFit channel.now }
{
    let found = channel.findings.count();
    channel.records <= LARGEST && channel.samples <= LARGEST && found <= LARGEST
}
