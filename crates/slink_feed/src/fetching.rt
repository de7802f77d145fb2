//! One step of a client with its link: what a read brought is taken, and the records of it go to an output.
ghost use Rattle.std.specs.Prelude.{◌≡◌, ◌≤◌, ◌<◌, ◌^◌, IfErr, IfOk, OnOk, length};
ghost use Rattle.mseed_stream.specs.Device.{BytesWritten};
ghost use Rattle.slink_feed.specs.declared.dialogue.Event.{Event};
ghost use Rattle.slink_feed.specs.Fetching.{Delivers, FailsAt, Notes, TakesTurn, fetching};
ghost use Rattle.slink_feed.specs.private.Delivery.{FailsToTakeNext, IsDelivered, IsReportedOf, IsUndelivered};
ghost use Rattle.slink_feed.specs.private.Delivery.{TakesNext};
ghost use Rattle.slink_feed.specs.Listening.{IsLinked};
ghost use Rattle.slink_feed.specs.Reports.{ReportsRecords, TakesReportingTurn, outputs};
ghost use Rattle.slink_feed.specs.Reporter.{AreReported, lines_of, reporting_after};
ghost use Rattle.slink_feed.specs.Reported.{record_in};

use crate::client::Client;
use crate::dialogue::Event;
use crate::reading::read_once;
use crate::reporter::Reporter;
use crate::turn::{LinkFault, Turn};
use mseed_stream::{Counted, Duplex, Failed, Sink, write_all_of};
use slink_wire::PACKET;
use std::io::sink;

/// Room for the bytes that a step reads, which is lent to one step after another.
pub type Room = [u8; PACKET];

/// How many bytes the link and the output accepted in a step so far.
#[derive(Clone, Copy)]
pub(crate) struct Counts {
    pub(crate) written: usize,
    pub(crate) output: usize,
}

/// Takes one step with a client's link: reads once, at most as many bytes as a packet still lacks of its 520, and takes
/// them event by event. The lines of the handshake go to the link, and the 512 bytes of each record to the output. The
/// caller writes the line of [`Client::connect`] first.
///
/// Returns `Closed` where the link is at its end; else `Ended` or `Stopped` where the client has ended, and `Goes`
/// where it hasn't. A client that isn't connected, or has ended, drops what is read.
///
/// # Errors
///
/// `Read`, `Write` or `Output` where that device failed, the last two with the number of bytes that it accepted in this
/// step. The line or the record that wasn't accepted whole isn't written again, and what was read after it is lost: the
/// link is to be given up.
pub fn fetch_turn<S: Duplex, W: Sink>(
    client: &mut Client,
    link: &mut S,
    output: &mut W,
) -> Result<Turn, LinkFault>
    ensures turn { TakesTurn result (fetching client.old (S.written link.old) (W.written output.old))
        (fetching client.new (S.written link.new) (W.written output.new)) (S.read link.old) (S.read link.new) }
{
    let mut reporter = Reporter::new(client, false);
    let mut nowhere = Counted::new(sink());
    fetch_turn_in(
        client,
        link,
        output,
        &mut nowhere,
        &mut reporter,
        &mut [0; PACKET],
    )
}

/// Takes one step with a client's link as [`fetch_turn`] does. What the reporter reports of a record, if anything, is
/// written to `errors` before the record is, and the reporter notes that the output accepted one. The bytes that are
/// read stand in room that is lent to one step after another: a record goes to the output from there.
///
/// # Errors
///
/// Those of [`fetch_turn`].
pub fn fetch_turn_in<S: Duplex, W: Sink, E: Sink>(
    client: &mut Client,
    link: &mut S,
    output: &mut W,
    errors: &mut E,
    reporter: &mut Reporter,
    room: &mut Room,
) -> Result<Turn, LinkFault>
    ensures { TakesReportingTurn result (fetching client.old (S.written link.old) (W.written output.old))
        (fetching client.new (S.written link.new) (W.written output.new)) (S.read link.old) (S.read link.new)
        reporter.old reporter.new (E.written errors.old) (E.written errors.new) }
{
    client.kept_reads_as_begun();
    let lack = client.lack();
    let count = match read_once(link, &mut room[..lack]) {
        Ok(count) => count,
        Err(Failed) => return Err(LinkFault::Read),
    };
    if count == 0 {
        return Ok(Turn::Closed);
    }
    read(client, &room[..count], link, output, errors, reporter)?;
    Ok(client.turn())
}

/// Takes bytes of a link, and delivers the lines and records of their events.
fn read<L: Sink, W: Sink, E: Sink>(
    client: &mut Client,
    bytes: &[u8],
    link: &mut L,
    output: &mut W,
    errors: &mut E,
    reporter: &mut Reporter,
) -> Result<(), LinkFault>
    requires { length bytes.now ≤ PACKET }
    ensures ok { OnOk result (Delivers (fetching client.old (L.written link.old) (W.written output.old))
        (fetching client.new (L.written link.new) (W.written output.new)) bytes.now) }
    ensures fault { IfErr result
        (λ fault. FailsAt fault (fetching client.old (L.written link.old) (W.written output.old))
        (fetching client.new (L.written link.new) (W.written output.new)) bytes.now) }
    ensures noted { ReportsRecords client.old.talk client.new.talk reporter.old reporter.new (W.written output.old)
        (W.written output.new) (E.written errors.old) (E.written errors.new) }
    ensures beside { L.beside link.new ≡ L.beside link.old }
{
    let mut offset = 0;
    let mut counts = Counts {
        written: 0,
        output: 0,
    };
    while offset < bytes.len() {
        if !client.is_linked() {
            break;
        }
        let incoming = take_next(
            client,
            &bytes[offset..],
            link,
            output,
            errors,
            reporter,
            counts,
        )?;
        offset += incoming.used;
        counts = incoming.counts;
    }
    Ok(())
}

/// How many bytes were taken, and what the link and the output accepted by then.
#[derive(Clone, Copy)]
pub(crate) struct Received {
    used: usize,
    counts: Counts,
}

/// Takes bytes of a link up to the first event, or all, and delivers the line or the record of that event. The record
/// of a packet that is there whole goes to the output from where it stands.
fn take_next<L: Sink, W: Sink, E: Sink>(
    client: &mut Client,
    bytes: &[u8],
    link: &mut L,
    output: &mut W,
    errors: &mut E,
    reporter: &mut Reporter,
    counts: Counts,
) -> Result<Received, LinkFault>
    requires linked { IsLinked client.old.talk.stage }
    requires some { 0 < length bytes.now }
    requires written { counts.written ≤ 2 ^ 32 }
    requires output { counts.output ≤ 2 ^ 32 }
    ensures ok { IfOk result (λ incoming. TakesNext bytes.now incoming.used counts incoming.counts
        (fetching client.old (L.written link.old) (W.written output.old))
        (fetching client.new (L.written link.new) (W.written output.new))
        (outputs (W.written output.old) (E.written errors.old) reporter.old.reporting)
        (outputs (W.written output.new) (E.written errors.new) reporter.new.reporting)) }
    ensures fault { IfErr result (λ fault. FailsToTakeNext fault bytes.now counts
        (fetching client.old (L.written link.old) (W.written output.old))
        (fetching client.new (L.written link.new) (W.written output.new))
        (outputs (W.written output.old) (E.written errors.old) reporter.old.reporting)
        (outputs (W.written output.new) (E.written errors.new) reporter.new.reporting)) }
    ensures received { Notes reporter.old.received reporter.new.received (W.written output.old) (W.written output.new) }
    ensures beside { L.beside link.new ≡ L.beside link.old }
{
    match client.take_record(bytes) {
        Some((index, number, record)) => {
            let counts = deliver_record(index, number, record, output, errors, reporter, counts)?;
            Ok(Received {
                used: PACKET,
                counts,
            })
        }
        None => {
            let (used, event) = client.take(bytes);
            let after = deliver(&event, link, output, errors, reporter, counts)?;
            Ok(Received {
                used,
                counts: after,
            })
        }
    }
}

/// Delivers an event: its line to the link, or its record, once that was reported, to the output.
#[tactic(auto, using(crate::proofs::Noting::nothing_noted, crate::proofs::ReportLines::unreported))]
fn deliver<L: Sink, W: Sink, E: Sink>(
    event: &Event,
    link: &mut L,
    output: &mut W,
    errors: &mut E,
    reporter: &mut Reporter,
    counts: Counts,
) -> Result<Counts, LinkFault>
    requires written { counts.written ≤ 2 ^ 32 }
    requires output { counts.output ≤ 2 ^ 32 }
    ensures ok { IfOk result (λ after. IsDelivered event.now counts after (L.written link.old) (L.written link.new)
        (W.written output.old) (W.written output.new)) }
    ensures fault { IfErr result (λ fault. IsUndelivered fault event.now counts (L.written link.old)
        (L.written link.new)
        (W.written output.old) (W.written output.new)) }
    ensures received { Notes reporter.old.received reporter.new.received (W.written output.old) (W.written output.new) }
    // A record is reported before it is written, also where that fails.
    ensures reporting { reporter.new.reporting ≡ reporting_after reporter.old.reporting (record_in event.now) }
    ensures lines { AreReported (lines_of reporter.old.reporting (record_in event.now)) (E.written errors.old)
        (E.written errors.new) }
    ensures beside { L.beside link.new ≡ L.beside link.old }
{
    match event {
        Event::Say(line) => match write_all_of(link, line.as_slice()) {
            Ok(()) => Ok(Counts {
                written: counts.written + line.len(),
                output: counts.output,
            }),
            Err(count) => Err(LinkFault::Write(counts.written + count)),
        },
        Event::Record(index, number, record) => {
            deliver_record(*index, *number, record, output, errors, reporter, counts)
        }
        Event::None | Event::End | Event::Refused(_) | Event::Gap { .. } => Ok(counts),
        Event::Garbage | Event::Foreign => Ok(counts),
    }
}

/// Reports a record, and writes it to the output.
#[tactic(auto, using(crate::proofs::Noting::failed_noted, crate::proofs::Noting::record_noted))]
fn deliver_record<W: Sink, E: Sink>(
    index: usize,
    number: u32,
    bytes: &[u8; 512],
    output: &mut W,
    errors: &mut E,
    reporter: &mut Reporter,
    counts: Counts,
) -> Result<Counts, LinkFault>
    requires written { counts.written ≤ 2 ^ 32 }
    requires output { counts.output ≤ 2 ^ 32 }
    // Whatever the link accepted, it stays so.
    ensures ok { (link : BytesWritten) → IfOk result (λ after. IsDelivered (Event.Record index number bytes.now) counts
        after link link (W.written output.old) (W.written output.new)) }
    ensures fault { (link : BytesWritten) → IfErr result (λ fault. IsUndelivered fault
        (Event.Record index number bytes.now) counts link link (W.written output.old) (W.written output.new)) }
    ensures received { Notes reporter.old.received reporter.new.received (W.written output.old) (W.written output.new) }
    ensures reported { IsReportedOf (Event.Record index number bytes.now)
        (outputs (W.written output.old) (E.written errors.old) reporter.old.reporting)
        (outputs (W.written output.new) (E.written errors.new) reporter.new.reporting) }
{
    reporter.note(index, number, errors);
    match write_all_of(output, bytes) {
        Ok(()) => {
            reporter.receive();
            Ok(Counts {
                written: counts.written,
                output: counts.output + bytes.len(),
            })
        }
        Err(count) => Err(LinkFault::Output(counts.output + count)),
    }
}
