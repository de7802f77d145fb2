//! What is reported at the end of a fetch. The lines are built without the heap.
ghost use Rattle.std.specs.Prelude.{◌≡◌, ◌≤◌, ◌+◌, ◌++◌, List, ℕ, length};
ghost use Rattle.std.specs.Net.Text.{ipv4_text};
ghost use Rattle.slink_feed.specs.Reporter.{AreReported, named_number};
ghost use Rattle.slink_links.specs.EndLines.{IsShownHost, ReportsLinkFailed, ReportsOfFetch, ReportsTrouble};
ghost use Rattle.slink_links.specs.EndLines.{ending_line, foreign_line, gap_line, garbage_line, outcome, reply_line};
ghost use Rattle.slink_links.specs.EndLines.{reply_words, server_line, trouble_line, with_more};

use crate::fetching::FetchEnd;
use crate::plan::Server;
use crate::trouble::Trouble;
use mseed_stream::{Sink, report};
use mseed_text::Line;
use slink_feed::{Client, Ending, Wanted};
use slink_wire::{Address, Host, six_digits};

/// What is said of a reply that begins with `ERROR`.
const REFUSES: &[u8] = b": the server refuses it";

/// What is said of a reply that neither grants a station nor refuses it.
const IS_NEITHER: &[u8] = b": the reply is neither OK nor ERROR";

/// Reports how a fetch ended from a server, and why: by what went wrong in the last try, if one was made, and by what
/// the client has come to.
pub(crate) fn report_end<E: Sink>(
    end: FetchEnd,
    server: &Server,
    trouble: Option<Trouble>,
    client: &Client,
    errors: &mut E,
)
    ensures { ReportsOfFetch (outcome server.now trouble client.now.talk) end (E.written errors.old)
        (E.written errors.new) }
{
    match end {
        FetchEnd::Done => {}
        FetchEnd::Refused => report_both(b"mseed: refused\n", &ending_line(client), errors),
        FetchEnd::BadFeed => report_both(b"mseed: bad feed\n", &ending_line(client), errors),
        FetchEnd::WriteFailed => report(errors, b"mseed: write failed\n"),
        FetchEnd::LinkFailed => report_link_failed(server, trouble, errors),
    }
}

/// Reports a line, and one more if there is one.
fn report_both<E: Sink>(line: &[u8], more: &Option<Line>, errors: &mut E)
    ensures { AreReported (with_more line.now more.now) (E.written errors.old) (E.written errors.new) }
{
    report(errors, line);
    if let Some(more) = more {
        report(errors, more.as_slice());
    }
}

/// The line that says why the client takes nothing more of its link, if it doesn't.
fn ending_line(client: &Client) -> Option<Line>
    ensures { result ≡ ending_line client.now.talk }
{
    match client.ending()? {
        Ending::End => None,
        Ending::Refused(k) => Some(reply_line(REFUSES, &client.wanted(k)?, client.reply())),
        Ending::Gap { place, want, got } => Some(gap_line(want, got, &client.wanted(place)?)),
        Ending::Unanswered(k) => Some(reply_line(IS_NEITHER, &client.wanted(k)?, client.reply())),
        Ending::Garbage => Some(garbage_line(client.packets())),
        Ending::Foreign { station, network } => Some(foreign_line(&station, &network)),
    }
}

/// A line about the reply to a station, by the words before what the reply says.
fn reply_line(words: &[u8], wanted: &Wanted, reply: &[u8]) -> Line
    requires { length words.now ≤ 40 }
    ensures { result ≡ reply_line words.now wanted.now reply.now }
{
    let mut line = Line::new();
    line.put(b"mseed: ");
    line.put(wanted.place.label().as_slice());
    put_number(&mut line, b" from ", wanted.next);
    line.put(words);
    put_reply(&mut line, reply);
    line.put(b"\n");
    line
}

/// Puts what a reply says at the end of a line, where it is more than that it refuses.
fn put_reply(line: &mut Line, reply: &[u8])
    requires { length line.old ≤ 128 }
    ensures text { line.new ≡ line.old ++ reply_words reply.now }
    ensures most { length line.new ≤ length line.old + 62 }
{
    if !reply.is_empty() && reply != &b"ERROR"[..] {
        line.put(b": ");
        line.put_shown(reply);
    }
}

/// Puts a number at the end of a line, after its name, where it is known.
fn put_number(line: &mut Line, name: &[u8], number: Option<u32>)
    requires { length line.old + length name.now ≤ 100 }
    ensures text { line.new ≡ line.old ++ named_number name.now number }
    ensures most { length line.new ≤ length line.old + length name.now + 6 }
{
    if let Some(number) = number {
        line.put(name);
        line.put(&six_digits(number));
    }
}

/// The line of a station of which another record came than the one that was wanted.
fn gap_line(want: u32, got: u32, wanted: &Wanted) -> Line
    ensures { result ≡ gap_line want got wanted.now }
{
    let mut line = Line::new();
    line.put(b"mseed: ");
    line.put(wanted.place.label().as_slice());
    line.put(b": record ");
    line.put(&six_digits(want));
    line.put(b" was wanted, and ");
    line.put(&six_digits(got));
    line.put(b" came\n");
    line
}

/// The line of bytes that begin no packet, and aren't the end, after `packets` packets.
fn garbage_line(packets: u64) -> Line
    ensures { result ≡ garbage_line packets }
{
    let mut line = Line::new();
    line.put_labelled(
        b"mseed: bytes came that are neither a packet nor the end, after ",
        packets,
    );
    if packets == 1 {
        line.put(b" packet\n");
    } else {
        line.put(b" packets\n");
    }
    line
}

/// The line of a record of another station, by the codes of its header.
fn foreign_line(station: &[u8; 5], network: &[u8; 2]) -> Line
    ensures { result ≡ foreign_line station.now network.now }
{
    let mut line = Line::new();
    line.put(b"mseed: a record of ");
    line.put_code(network);
    line.put(b"_");
    line.put_code(station);
    line.put(b" came, which is none of the stations\n");
    line
}

/// Reports that the links failed, and why the last one did.
fn report_link_failed<E: Sink>(server: &Server, trouble: Option<Trouble>, errors: &mut E)
    ensures { ReportsLinkFailed server.now trouble (E.written errors.old) (E.written errors.new) }
{
    report(errors, b"mseed: link failed\n");
    report_trouble(server, trouble, errors);
}

/// Reports what went wrong in the last try, if one was made.
fn report_trouble<E: Sink>(server: &Server, trouble: Option<Trouble>, errors: &mut E)
    ensures { ReportsTrouble server.now trouble (E.written errors.old) (E.written errors.new) }
{
    if let Some(trouble) = trouble {
        report(errors, trouble_line(server, trouble).as_slice());
    }
}

/// The line of what went wrong in a try.
fn trouble_line(server: &Server, trouble: Trouble) -> Line
    ensures { (host : List ℕ) → IsShownHost server.now.host host
        → result ≡ trouble_line host server.now.port trouble }
{
    match trouble {
        Trouble::Undialled(fault) => {
            line_of_server(
                b"mseed: cannot connect to ",
                server,
                fault.text().as_bytes(),
            )
        }
        Trouble::Lost(loss) => {
            line_of_server(
                b"mseed: lost the connection to ",
                server,
                loss.text().as_bytes(),
            )
        }
    }
}

/// A line about a server: what stands before its host, and the words after its port.
fn line_of_server(before: &[u8], server: &Server, words: &[u8]) -> Line
    requires before { length before.now ≤ 40 }
    requires words { length words.now ≤ 40 }
    ensures { (host : List ℕ) → IsShownHost server.now.host host
        → result ≡ server_line before.now host server.now.port words.now }
{
    let mut line = Line::new();
    line.put(before);
    put_host(&mut line, &server.host);
    line.put_labelled(b":", u64::from(server.port));
    line.put(b": ");
    line.put(words);
    line.put(b"\n");
    line
}

/// Puts a host at the end of a line, as it is shown.
fn put_host(line: &mut Line, host: &Host)
    requires { length line.old ≤ 64 }
    ensures text { (text : List ℕ) → IsShownHost host.now text → line.new ≡ line.old ++ text }
    ensures most { length line.new ≤ length line.old + 83 }
{
    match host {
        Host::Address(address) => put_address(line, *address),
        Host::Name(name) => line.put_shown(name.text().as_bytes()),
    }
}

/// Puts an address at the end of a line: its octets in decimal digits, with `.` between them.
pub fn put_address(line: &mut Line, address: Address)
    requires { length line.old ≤ 64 }
    ensures text { line.new ≡ line.old ++ ipv4_text address.octets }
    ensures most { length line.new ≤ length line.old + 83 }
{
    let [a, b, c, d] = address.octets;
    line.put_count(u64::from(a));
    line.put_labelled(b".", u64::from(b));
    line.put_labelled(b".", u64::from(c));
    line.put_labelled(b".", u64::from(d));
}
