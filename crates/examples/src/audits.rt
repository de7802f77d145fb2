//! Calls of `mseed_audit`.
ghost use Rattle.std.specs.Prelude.{IfOk, ◌≡◌, ◌<◌, ◌^◌, length};
ghost use Rattle.mseed_stream.specs.Device.{nothing_read};
ghost use Rattle.mseed_audit.specs.Text.{why_text};

use mseed_audit::{
    Audit, AuditFault, BadStep, Channel, ChannelList, EachFault, Memory, NotContinuous, Series,
    Verdict, Why, audit, audit_each, audit_each_selected, audit_selected, gather, gather_each,
    is_of_channel, push_total_line, push_verdict_line, put_why, series,
};
use mseed_record::{Codes, RecordView};
use mseed_select::Selector;
use mseed_stream::{Counted, Sink, Source};
use mseed_text::{Line, push_line};
use mseed_time::{LeapStep, Micros, Rate};
use std::alloc::{AllocError, Global};

/// The text of a slice's audit.
pub fn audit_slice(alloc: Global, bytes: &[u8]) -> Result<Vec<u8>, AuditFault> {
    let mut source = Counted::new(bytes);
    let mut sink = Counted::new(Vec::new(alloc));
    audit(alloc, &mut source, &mut sink)?;
    Ok(sink.into_inner())
}

/// Whether all channels of an archive are continuous, and nothing is wrong with the archive. The text goes to a sink.
pub fn is_sound<R: Source, W: Sink>(
    alloc: Global,
    source: &mut R,
    sink: &mut W,
) -> Result<bool, AuditFault>
    requires { R.read source.old ≡ nothing_read }
{
    let summary = audit(alloc, source, sink)?;
    Ok(summary.broken == 0 && !summary.fault)
}

/// The text of a slice's audit, with a line for each record with a finding before it.
pub fn audit_each_in(alloc: Global, bytes: &[u8]) -> Result<Vec<u8>, EachFault> {
    let mut source = Counted::new(bytes);
    let mut sink = Counted::new(Vec::new(alloc));
    audit_each(alloc, &mut source, &mut sink)?;
    Ok(sink.into_inner())
}

/// Audits the records of an archive that are asked for, and answers how many of their channels are broken. The text
/// goes to a sink.
pub fn broken_among<R: Source, W: Sink>(
    alloc: Global,
    selector: &Selector,
    source: &mut R,
    sink: &mut W,
) -> Result<u64, AuditFault>
    requires { R.read source.old ≡ nothing_read }
{
    let found = audit_selected(alloc, selector, source, sink)?;
    Ok(found.summary.broken)
}

/// The audit of the records of a slice that are asked for, with a line for each that has a finding, and how many lack a
/// time.
pub fn audit_asked(
    alloc: Global,
    selector: &Selector,
    bytes: &[u8],
) -> Result<(Vec<u8>, u64), EachFault> {
    let mut source = Counted::new(bytes);
    let mut sink = Counted::new(Vec::new(alloc));
    let found = audit_each_selected(alloc, selector, &mut source, &mut sink)?;
    Ok((sink.into_inner(), found.without_time))
}

/// Audits two records that stand one after another, and says how many channels are broken.
pub fn broken_of_two(alloc: Global, one: &RecordView, other: &RecordView) -> Result<usize, Memory> {
    let mut audit = Audit::new(alloc);
    audit.add(one, 0)?;
    audit.add(other, one.bytes().len() as u64)?;
    let verdicts = audit.finish();
    let broken = verdicts.as_slice().iter();
    Ok(
        broken
            .filter(|(_, verdict)| !verdict.is_continuous())
            .count(),
    )
}

/// What is found of a record that alone is audited.
pub fn finding_of(alloc: Global, record: &RecordView) -> Result<Option<Why>, Memory> {
    let mut audit = Audit::new(alloc);
    audit.add_judged(record, 0)
}

/// Audits the second of two records alone, and answers the number with which its finding is reported.
pub fn number_of_second(
    alloc: Global,
    one: &RecordView,
    other: &RecordView,
) -> Result<u64, Memory> {
    let mut audit = Audit::new(alloc);
    audit.pass();
    audit.add(other, one.bytes().len() as u64)?;
    Ok(audit.added())
}

/// Whether a record would open a channel of which an audit knows nothing yet.
pub fn is_new(audit: &Audit, record: &RecordView) -> bool {
    audit.added() == 0 || !audit.holds(&record.codes())
}

/// The number of the record at which a channel breaks first.
pub fn breaks_at(verdict: &Verdict) -> Option<u64> {
    match verdict {
        Verdict::Continuous { .. } => None,
        Verdict::Broken { first, .. } => Some(first.number),
    }
}

/// The samples of the channel to which the first of some records belongs.
pub fn first_series(alloc: Global, views: &[RecordView]) -> Result<Series, NotContinuous>
    requires { length views.now < 2 ^ 40 }
{
    match views.first() {
        Some(first) => series(alloc, views, &first.codes()),
        None => Err(NotContinuous::Absent),
    }
}

/// How many records of a channel have samples.
pub fn count_of(codes: &Codes, views: &[RecordView]) -> usize {
    views
        .iter()
        .filter(|view| is_of_channel(codes, view))
        .count()
}

/// A series made by hand, with a leap second after its 100th sample.
pub fn with_leap_second(
    alloc: Global,
    codes: Codes,
    start: Micros,
    rate: Rate,
    samples: Vec<i32>,
) -> Result<Option<Series>, AllocError> {
    let mut made = Series::new(alloc, codes, start, rate, samples);
    let steps = vec![in alloc; (100, LeapStep::Plus)]?;
    match made.set_steps(steps) {
        Ok(()) => Ok(Some(made)),
        Err(BadStep { .. }) => Ok(None),
    }
}

/// How many records a slice holds, and how many bytes they have.
pub fn count_records(alloc: Global, bytes: &[u8]) -> Result<(u64, u64), Memory> {
    let gathered = gather(alloc, &mut Counted::new(bytes))?;
    Ok((gathered.audit.added(), gathered.bytes))
}

/// The lines of a slice's records with a finding.
pub fn lines_of_findings(alloc: Global, bytes: &[u8]) -> Result<Vec<u8>, EachFault> {
    let mut source = Counted::new(bytes);
    let mut sink = Counted::new(Vec::new(alloc));
    let mut last = Vec::new(alloc);
    gather_each(alloc, &mut source, &mut sink, &mut last)?;
    let mut lines = sink.into_inner();
    match lines.extend_from_slice(&last) {
        Ok(()) => Ok(lines),
        Err(_) => Err(EachFault::Memory),
    }
}

/// The verdict on the first channel of an audit, which goes on as what it kept.
pub fn first_verdict(alloc: Global, audit: Audit) -> Result<Option<Verdict>, Memory> {
    let channels = audit.into_channels(alloc)?;
    match channels.as_slice() {
        [(_, channel), ..] => Ok(Some(channel.verdict())),
        [] => Ok(None),
    }
}

/// Why a channel doesn't go on where another one begins, if both ends are known and it doesn't.
pub fn break_between(one: &Channel, next: &Channel) -> Option<Why> {
    match (one.findings.tail(), next.findings.head()) {
        (Some(tail), Some(head)) => tail.break_to(head.start, head.rate),
        _ => None,
    }
}

/// Whether one record of a channel has a finding, and no other.
pub fn breaks_once(channel: &Channel) -> bool {
    channel.findings.count() == 1
}

/// The text of a finding.
pub fn reason_text(alloc: Global, why: &Why) -> Result<Vec<u8>, AllocError>
    ensures { IfOk result (λ text. text.items ≡ why_text why.now) }
{
    let mut text = Vec::new(alloc);
    let mut line = Line::new();
    put_why(&mut line, why);
    push_line(&mut text, line.as_slice())?;
    Ok(text)
}

/// The audit's text of an archive of one channel, of `records` records, that ends without a fault.
pub fn text_of_one(
    alloc: Global,
    codes: &Codes,
    verdict: &Verdict,
    records: u64,
) -> Result<Vec<u8>, AllocError> {
    let mut text = Vec::new(alloc);
    push_verdict_line(&mut text, codes, verdict)?;
    push_total_line(&mut text, records, 1)?;
    Ok(text)
}

/// The last sample of a series, where no leap second stands among its samples.
pub fn last_of(series: &Series) -> Option<i32> {
    if !series.steps().is_empty() {
        return None;
    }
    series.samples().last().copied()
}

/// Whether a series goes on with the channel, the start and the rate of another.
pub fn is_headed_alike(one: &Series, other: &Series) -> bool {
    one.codes() == other.codes() && one.start() == other.start() && one.rate() == other.rate()
}

/// Two channels, ascending by their keys; one where both have the same key.
pub fn two_channels(
    alloc: Global,
    one: &(Codes, Channel),
    other: &(Codes, Channel),
) -> Result<Vec<(Codes, Channel)>, Memory> {
    let mut channels = ChannelList::new(alloc);
    channels.find_or_keep(one.0, &one.1)?;
    channels.find_or_keep(other.0, &other.1)?;
    channels.by_key(alloc)
}

/// Puts what is kept of a channel in the place of what was, or keeps a new channel.
pub fn put_channel(
    channels: &mut ChannelList,
    codes: Codes,
    channel: Channel,
) -> Result<(), Memory> {
    match channels.find(codes) {
        Some(index) => {
            *channels.channel_mut(index) = channel;
            Ok(())
        }
        None => channels.keep(codes, channel),
    }
}

/// Whether a channel came first of all on a list.
pub fn is_first(channels: &ChannelList, codes: &Codes) -> bool {
    match channels.places().get(codes) {
        Some(index) => *index == 0,
        None => false,
    }
}

/// How many channels are on a list besides one.
pub fn others(channels: &ChannelList, codes: &Codes) -> usize {
    if channels.holds(codes) {
        channels.len().saturating_sub(1)
    } else {
        channels.as_slice().len()
    }
}
