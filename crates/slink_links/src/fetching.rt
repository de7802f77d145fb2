//! Fetching records over one link after another.
ghost use Rattle.std.specs.Prelude.{◌≡◌, ◌+◌, ◌≤◌, Option, Some};
ghost use Rattle.slink_feed.specs.declared.dialogue.Ending.{Ending};
ghost use Rattle.slink_feed.specs.declared.dialogue.Stage.{Stage};
ghost use Rattle.slink_feed.specs.Fetching.{Notes, fetching};
ghost use Rattle.slink_feed.specs.Listening.{IsLinked};
ghost use Rattle.slink_feed.specs.Reports.{ReportsRecords, outputs};
ghost use Rattle.slink_feed.specs.Reporter.{AreReported, wants_left};
ghost use Rattle.slink_links.specs.Fetched.{HasDialled, HasFetched, HasReadEach, HasReadLink, HasTakenAll, HasTurned};
ghost use Rattle.slink_links.specs.Out.{AreOut};
ghost use Rattle.slink_links.specs.Fetched.{HasPaused, IsFetchedOver, IsReading, calls_of};
ghost use Rattle.slink_links.specs.Fetched.{FetchesAll, FetchesReporting, HasCalled, HasTried, IsQuiet};
ghost use Rattle.slink_links.specs.Fetched.{end_by, fetch_status, is_unwritten, next_lines, stopped_by};
ghost use Rattle.slink_links.specs.Trouble.{IsOfLastTry};

use crate::dial::Dial;
use crate::ending::report_end;
use crate::handshake::EndsHandshake;
use crate::pause::{Pause, wait_after};
use crate::plan::FetchTerms;
use crate::serving::TURNS;
use crate::status::{DONE, FAULT};
use crate::trouble::Trouble;
use mseed_stream::{Counted, Sink, write_all_of};
use slink_feed::{Client, Event, LinkFault, Reporter, Room, Turn, fetch_turn_in};
use slink_wire::PACKET;
use std::io::sink;

/// How a fetch ended.
#[derive(Clone, Copy, Debug, PartialEq, Eq)]
pub enum FetchEnd {
    /// The server sent `END`: that it has sent all that was requested.
    Done,
    /// The server refused a station.
    Refused,
    /// The link brought what no server sends that serves these stations.
    BadFeed,
    /// The output failed.
    WriteFailed,
    /// Each link failed, was closed, or couldn't be had.
    LinkFailed,
}

/// Fetches over one link after another, at most as many as the terms say, until the server says that it has sent all
/// that was requested, and gives each back. A `dial` that fails uses up a try. Each record goes to the output as soon
/// as it is reported. After each try but the last it waits by `waits`: a tenth of a second, and then twice as long each
/// time, up to five seconds; a received record begins anew.
///
/// Returns the exit status: 0, or 2 with a line on `errors` that says why not all came, and one more: what went wrong
/// in the last try, with the host and the port, or which station was refused, or what came of it. Before each record
/// that comes after a hole a line is written there; with `report_next` also before the first record of each station,
/// and, at the end, the arguments of a fetch that goes on.
pub fn fetch_all<D: Dial, P: Pause, W: Sink, E: Sink>(
    client: &mut Client,
    terms: &FetchTerms,
    dialler: &mut D,
    waits: &mut P,
    output: &mut W,
    errors: &mut E,
) -> u8
    requires { AreOut 0 (D.calls dialler.old) (D.failures dialler.old) (D.given_back dialler.old) }
    ensures dials { D.calls dialler.new ≤ D.calls dialler.old + terms.now.tries }
    ensures done { result ≡ 0 → client.new.talk.stage ≡ Stage.Ended Ending.End }
    // What the client reported went to the output, and the status and the line are by how it ended. Each link was
    // fetched over before it was given back, one after another, and all but the last one failed. Between the tries it
    // paused, by which of them brought a record. What went wrong is that of the last try.
    ensures end { (end : FetchEnd) × (trouble : Option Trouble)
        × FetchesAll end terms.now.server trouble terms.now.report_next result client.old client.new
        (W.written output.old) (W.written output.new) (E.written errors.old) (E.written errors.new)
        × HasCalled end terms.now.tries client.old client.new (W.written output.old) (W.written output.new)
        (calls_of (D.calls dialler.old) (D.given_back dialler.old) (P.called waits.old))
        (calls_of (D.calls dialler.new) (D.given_back dialler.new) (P.called waits.new))
        × IsOfLastTry terms.now.tries trouble (D.trouble dialler.new) }
    ensures quiet { IsQuiet terms.now.server terms.now.report_next client.old.talk.holes client.new.talk result
        (E.written errors.old) (E.written errors.new) }
    // Each link was given back before the next one was dialled.
    ensures out { AreOut 0 (D.calls dialler.new) (D.failures dialler.new) (D.given_back dialler.new) }
{
    let mut reporter = Reporter::new(client, terms.report_next);
    let (end, trouble) = fetch_links(
        client,
        terms.tries,
        dialler,
        waits,
        output,
        errors,
        &mut reporter,
    );
    report_end(end, &terms.server, trouble, client, errors);
    report_next_of(terms.report_next, &reporter, client, end, errors);
    fetch_status(end)
}

/// Writes the arguments of a fetch that goes on, where they are requested.
fn report_next_of<E: Sink>(
    is_called: bool,
    reporter: &Reporter,
    client: &Client,
    end: FetchEnd,
    errors: &mut E,
)
    ensures { AreReported (next_lines is_called
        (wants_left (is_unwritten end) reporter.now.reporting.last client.now.talk.wants)) (E.written errors.old)
        (E.written errors.new) }
{
    if is_called {
        reporter.report_next(client, is_unwritten(end), errors);
    }
}

/// The exit status.
fn fetch_status(end: FetchEnd) -> u8
    ensures { result ≡ fetch_status end }
{
    match end {
        FetchEnd::Done => DONE,
        _ => FAULT,
    }
}

/// Whether the last record wasn't taken whole.
fn is_unwritten(end: FetchEnd) -> bool
    ensures { result ≡ is_unwritten end }
{
    matches!(end, FetchEnd::WriteFailed)
}

/// Fetches over one link after another, waits between them, and answers how it ended, and what went wrong in the last
/// try, if one was made.
fn fetch_links<D: Dial, P: Pause, W: Sink, E: Sink>(
    client: &mut Client,
    tries: u64,
    dialler: &mut D,
    waits: &mut P,
    output: &mut W,
    errors: &mut E,
    reporter: &mut Reporter,
) -> (FetchEnd, Option<Trouble>)
    requires { AreOut 0 (D.calls dialler.old) (D.failures dialler.old) (D.given_back dialler.old) }
    ensures fetched { FetchesReporting result.0 client.old client.new
        (outputs (W.written output.old) (E.written errors.old) reporter.old.reporting)
        (outputs (W.written output.new) (E.written errors.new) reporter.new.reporting) }
    ensures dialled { HasDialled result.0 tries (D.calls dialler.old) (D.calls dialler.new) }
    ensures out { AreOut 0 (D.calls dialler.new) (D.failures dialler.new) (D.given_back dialler.new) }
    ensures read { HasReadEach result.0 client.old client.new (D.given_back dialler.old) (D.given_back dialler.new)
        (W.written output.old) (W.written output.new) }
    ensures trouble { IsOfLastTry tries result.1 (D.trouble dialler.new) }
    ensures paused { HasPaused result.0 client.old client.new (W.written output.old) (W.written output.new)
        (calls_of (D.calls dialler.old) (D.given_back dialler.old) (P.called waits.old))
        (calls_of (D.calls dialler.new) (D.given_back dialler.new) (P.called waits.new)) }
{
    if tries == 0 {
        return (FetchEnd::LinkFailed, None);
    }
    let mut left = tries;
    let mut count = 0;
    'links: loop {
        let (end, received, trouble) = try_link(client, dialler, output, errors, reporter);
        left -= 1;
        if end != FetchEnd::LinkFailed || left == 0 {
            return (end, Some(trouble));
        }
        count = wait_after(received, count, waits);
    }
}

/// Dials once and fetches over that link, and answers how it ended, whether it brought a record, and what went wrong.
fn try_link<D: Dial, W: Sink, E: Sink>(
    client: &mut Client,
    dialler: &mut D,
    output: &mut W,
    errors: &mut E,
    reporter: &mut Reporter,
) -> (FetchEnd, bool, Trouble)
    requires { AreOut 0 (D.calls dialler.old) (D.failures dialler.old) (D.given_back dialler.old) }
    ensures fetched { FetchesReporting result.0 client.old client.new
        (outputs (W.written output.old) (E.written errors.old) reporter.old.reporting)
        (outputs (W.written output.new) (E.written errors.new) reporter.new.reporting) }
    ensures dialled { D.calls dialler.new ≡ D.calls dialler.old + 1 }
    ensures trouble { D.trouble dialler.new ≡ Some result.2 }
    ensures out { AreOut 0 (D.calls dialler.new) (D.failures dialler.new) (D.given_back dialler.new) }
    ensures tried { HasTried result.0 result.1 client.old client.new (D.given_back dialler.old)
        (D.given_back dialler.new) (W.written output.old) (W.written output.new) }
{
    match dialler.dial() {
        Ok(mut link) => {
            reporter.begin();
            let end = fetch_link_reporting(client, &mut link, output, errors, reporter);
            let loss = dialler.hang_up(link);
            (end, reporter.has_received(), Trouble::Lost(loss))
        }
        Err(fault) => (FetchEnd::LinkFailed, false, Trouble::Undialled(fault)),
    }
}

/// Fetches over one link, and returns how it ended. The output takes the records that the link brought, and no others.
pub fn fetch_link<S: EndsHandshake, W: Sink>(
    client: &mut Client,
    link: &mut S,
    output: &mut W,
) -> FetchEnd
    ensures fetched { HasFetched result client.old client.new (W.written output.old) (W.written output.new) }
    ensures read { HasReadLink client.old client.new (S.read link.old) (S.read link.new) (W.written output.old)
        (W.written output.new) }
    // The client's first line was written, and then steps were taken, up to the one by which the fetch ends so.
    ensures turns { IsFetchedOver (fetching client.old (S.written link.old) (W.written output.old)) (S.read link.old)
        result
        (fetching client.new (S.written link.new) (W.written output.new)) (S.read link.new) }
{
    let mut reporter = Reporter::new(client, false);
    let mut nowhere = Counted::new(sink());
    fetch_link_reporting(client, link, output, &mut nowhere, &mut reporter)
}

/// Fetches over one link as [`fetch_link`], reports each record before it is written, and notes that the output
/// accepted one.
fn fetch_link_reporting<S: EndsHandshake, W: Sink, E: Sink>(
    client: &mut Client,
    link: &mut S,
    output: &mut W,
    errors: &mut E,
    reporter: &mut Reporter,
) -> FetchEnd
    ensures fetched { FetchesReporting result client.old client.new
        (outputs (W.written output.old) (E.written errors.old) reporter.old.reporting)
        (outputs (W.written output.new) (E.written errors.new) reporter.new.reporting) }
    ensures read { HasReadLink client.old client.new (S.read link.old) (S.read link.new) (W.written output.old)
        (W.written output.new) }
    ensures turns { IsFetchedOver (fetching client.old (S.written link.old) (W.written output.old)) (S.read link.old)
        result
        (fetching client.new (S.written link.new) (W.written output.new)) (S.read link.new) }
    ensures received { Notes reporter.old.received reporter.new.received (W.written output.old) (W.written output.new) }
{
    let line = client.connect();
    match write_all_of(link, line.as_slice()) {
        Ok(()) => take_turns(client, link, output, errors, reporter, &mut [0; PACKET]),
        Err(_) => FetchEnd::LinkFailed,
    }
}

/// Takes steps with a link until it ends, or until many were taken.
fn take_turns<S: EndsHandshake, W: Sink, E: Sink>(
    client: &mut Client,
    link: &mut S,
    output: &mut W,
    errors: &mut E,
    reporter: &mut Reporter,
    room: &mut Room,
) -> FetchEnd
    requires reading { IsReading client.old }
    requires linked { IsLinked client.old.talk.stage }
    ensures turned { HasTurned (Some result) client.old client.new (S.read link.old) (S.read link.new)
        (W.written output.old) (W.written output.new) }
    ensures taken { HasTakenAll (fetching client.old (S.written link.old) (W.written output.old)) (S.read link.old)
        result
        (fetching client.new (S.written link.new) (W.written output.new)) (S.read link.new) }
    ensures noted { ReportsRecords client.old.talk client.new.talk reporter.old reporter.new (W.written output.old)
        (W.written output.new) (E.written errors.old) (E.written errors.new) }
{
    for turn in 0..TURNS {
        let step = fetch_turn_in(client, link, output, errors, reporter, room);
        end_handshake(client, link);
        if let Some(end) = end_by(&step) {
            return end;
        }
    }
    FetchEnd::LinkFailed
}

/// Informs the link where the handshake is over.
fn end_handshake<S: EndsHandshake>(client: &Client, link: &S) {
    if client.is_streaming() {
        link.end_handshake();
    }
}

/// How a fetch ends by what a step comes to, if it ends.
fn end_by(turn: &Result<Turn, LinkFault>) -> Option<FetchEnd>
    ensures { result ≡ end_by turn.now }
{
    match turn {
        Ok(Turn::Goes) => None,
        Ok(Turn::Ended) => Some(FetchEnd::Done),
        Ok(Turn::Stopped(event)) => Some(stopped_by(event)),
        Ok(Turn::Closed) | Err(LinkFault::Read | LinkFault::Write(_)) => Some(FetchEnd::LinkFailed),
        Err(LinkFault::Output(_)) => Some(FetchEnd::WriteFailed),
    }
}

/// How a fetch ends by the event at which the client stopped.
fn stopped_by(event: &Event) -> FetchEnd
    ensures { result ≡ stopped_by event.now }
{
    match event {
        Event::Refused(_) => FetchEnd::Refused,
        _ => FetchEnd::BadFeed,
    }
}
