//! A session over TCP: its transcript, a fetch, and a client that takes turns with a server.
ghost use Rattle.slink_feed.specs.Session.{Fits};

use super::{
    ALL, FROM_1, client, fetch, output, plan_of, rest_of, serve, serve_plan_of, taken_by,
    two_packets, two_records,
};
use crate::live::push;
use crate::model::three_pushed;
use mseed_stream::{Counted, Duplex, Sink, write_all_of};
use slink_feed::{Client, Feed, Session, Turn, fetch_turn, serve_turn};
use std::alloc::{Allocator, Global};
use std::cell::Cell;
use std::io;
use std::io::{Read, Write};
use std::net::{Ipv4Addr, Net, OpenListener, OpenStream, Shutdown, SocketAddr};
use std::process::Abort;
use std::time::{Clock, Duration};

/// A host whose every link has its other end here: that end says its bytes, and nothing more.
#[derive(Drop)]
struct Both<'a, N: Net> {
    host: &'a N,
    said: &'a [u8],
    other: Cell<Option<N::Stream>>,
}

impl<'a, N: Net> Both<'a, N> {
    fn new(host: &'a N, said: &'a [u8]) -> Both<'a, N> {
        Both {
            host,
            said,
            other: Cell::new(None),
        }
    }

    /// The other end says its bytes.
    fn say(&self, mut other: N::Stream) -> io::Result<()> {
        other.write_all(self.said)?;
        other.shutdown(Shutdown::Write)?;
        self.other.set(Some(other));
        Ok(())
    }

    /// All that the other end is still to read.
    fn read(&self, rt: &impl Abort, alloc: Global) -> Vec<u8> {
        let mut other = self.other.replace(None).expect(rt, "a link");
        rest_of(rt, alloc, &mut other)
    }
}

/// Both ends of a link over a host, the one that dialled first.
fn both_ends<N: Net>(host: &N, addr: SocketAddr) -> io::Result<(N::Stream, N::Stream)> {
    let listener = host.bind(addr)?;
    let dialled = host.connect(listener.local_addr()?)?;
    let (accepted, _) = listener.accept()?;
    Ok((dialled, accepted))
}

impl<N: Net> Net for Both<'_, N> {
    type Stream = N::Stream;

    type Listener = N::Listener;

    // A client dials it at once.
    fn bind(&self, addr: SocketAddr) -> io::Result<N::Listener> {
        let listener = self.host.bind(addr)?;
        self.say(self.host.connect(listener.local_addr()?)?)?;
        Ok(listener)
    }

    // A server takes it at once.
    fn connect(&self, addr: SocketAddr) -> io::Result<N::Stream> {
        let (stream, other) = both_ends(self.host, addr)?;
        self.say(other)?;
        Ok(stream)
    }
}

impl<N: Net + Clock> Clock for Both<'_, N> {
    fn monotonic(&self) -> io::Result<Duration> {
        self.host.monotonic()
    }

    fn since_1970(&self) -> io::Result<Duration> {
        self.host.since_1970()
    }
}

/// What a client says, sent whole.
const LINES: &[u8] =
    b"HELLO\r\nDATA 000001\r\nSTATION ABC XX\r\nstation STA XX\r\nSELECT BHZ\r\nSELECT\r\n\
DATA 000000\r\nDATA 4\r\nDATA 3\r\nFETCH 1\r\nINFO ID\r\nEND\r\n";

/// What it is answered before the packets.
const REPLIES: &[u8] =
    b"SeedLink v3.0 (mseed)\r\nmseed feed\r\nERROR\r\nERROR\r\nOK\r\nERROR\r\nOK\r\nERROR\r\n\
ERROR\r\nOK\r\nOK\r\nERROR\r\n";

/// All that is sent for those lines: the replies, and records 1 and 2.
fn all_sent(rt: &impl Abort, alloc: Global) -> Vec<u8> {
    let mut sent = Vec::new(alloc);
    push(rt, &mut sent, REPLIES);
    let packets = two_packets(rt, alloc);
    push(rt, &mut sent, packets.as_slice().get(8..).unwrap_or(b""));
    sent
}

/// Whether one connection to a host is served whole, with nothing to report.
fn serves_one<N: Net + Clock>(rt: &impl Abort, host: &N, alloc: Global) -> bool {
    let plan = serve_plan_of(three_pushed(rt, alloc, 0), 1, 0);
    let mut errors = output(alloc, ALL);
    let status = serve(host, alloc, &plan, &mut errors);
    status == Ok(0) && taken_by(errors).is_empty()
}

/// All that a client is sent that says all lines to a port, once it is served.
fn transcript<N: Net + Clock>(rt: &impl Abort, host: &N, alloc: Global) -> Vec<u8> {
    let both = Both::new(host, LINES);
    assert!(rt; serves_one(rt, &both, alloc));
    both.read(rt, alloc)
}

#[test]
fn serves_a_transcript(rt: HostRuntime) {
    let read = transcript(&rt, &rt, rt.alloc());
    assert!(rt; read.as_slice() == all_sent(&rt, rt.alloc()).as_slice());
}

/// The records that are fetched from a host; none where the fetch ends otherwise than it should.
fn fetched_from<N: Net + Clock>(rt: &impl Abort, host: &N, alloc: Global) -> Vec<u8> {
    let mut plan = plan_of(client(rt), 1, 0);
    let mut records = output(alloc, ALL);
    let mut errors = output(alloc, ALL);
    let status = fetch(host, alloc, &mut plan, &mut records, &mut errors);
    let is_well = status == Ok(0) && taken_by(errors).is_empty();
    let held = taken_by(records);
    if is_well { held } else { Vec::new(alloc) }
}

/// What a server takes that says these packets, and the records that are fetched from it.
fn fetched<N: Net + Clock>(
    rt: &impl Abort,
    host: &N,
    alloc: Global,
    packets: &[u8],
) -> (Vec<u8>, Vec<u8>) {
    let both = Both::new(host, packets);
    let held = fetched_from(rt, &both, alloc);
    (both.read(rt, alloc), held)
}

#[test]
fn fetches_over_tcp(rt: HostRuntime) {
    let packets = two_packets(&rt, rt.alloc());
    let wanted = two_records(&rt, rt.alloc());
    let (said, held) = fetched(&rt, &rt, rt.alloc(), packets.as_slice());
    assert!(rt; said.as_slice() == FROM_1 && held.as_slice() == wanted.as_slice());
}

/// A new session, which can be served from a feed.
fn session_of(_feed: &Feed) -> Session
    ensures { Fits _feed.now result.state }
{
    Session::new()
}

/// Whether the server's turn ends so.
fn serves<A: Allocator, S: Duplex>(
    session: &mut Session,
    feed: &Feed<A>,
    link: &mut S,
    turn: Turn,
) -> bool
    requires { Fits feed.now session.old.state }
    ensures { Fits feed.now session.new.state }
{
    serve_turn(session, feed, link) == Ok(turn)
}

/// Whether the client's turn goes on.
fn fetches<S: Duplex, W: Sink>(client: &mut Client, link: &mut S, output: &mut W) -> bool {
    fetch_turn(client, link, output) == Ok(Turn::Goes)
}

/// Whether the client's turns go on until all is fetched.
fn fetches_all<S: Duplex, W: Sink>(client: &mut Client, link: &mut S, output: &mut W) -> bool {
    for _ in 0..1043 {
        match fetch_turn(client, link, output) {
            Ok(Turn::Goes) => {}
            end => return end == Ok(Turn::Ended),
        }
    }
    false
}

/// Whether the server's turn and the client's go on.
fn take_turns<S: Duplex, C: Duplex, W: Sink>(
    session: &mut Session,
    feed: &Feed,
    client: &mut Client,
    server_link: &mut S,
    client_link: &mut C,
    output: &mut W,
) -> bool
    requires { Fits feed.now session.old.state }
    ensures { Fits feed.now session.new.state }
{
    serves(session, feed, server_link, Turn::Goes) && fetches(client, client_link, output)
}

/// Whether a client that takes turns with a server of a feed fetches all that is there.
fn are_taken<S: Duplex, C: Duplex, W: Sink>(
    feed: &Feed,
    client: &mut Client,
    server_link: &mut S,
    client_link: &mut C,
    output: &mut W,
) -> bool {
    let mut session = session_of(feed);
    // Each reads what the other wrote just before: STATION, OK, FETCH, OK, END. Then packets are due.
    write_all_of(client_link, client.connect().as_slice()).is_ok()
        && take_turns(&mut session, feed, client, server_link, client_link, output)
        && take_turns(&mut session, feed, client, server_link, client_link, output)
        && serves(&mut session, feed, server_link, Turn::Goes)
        && serves(&mut session, feed, server_link, Turn::Closed)
        && fetches_all(client, client_link, output)
}

/// The records that a client holds which takes turns with a server; none where a turn ends otherwise than it should.
fn records_of_turns<N: Net>(rt: &impl Abort, host: &N, alloc: Global) -> Vec<u8> {
    let mut client = client(rt);
    let feed = three_pushed(rt, alloc, 0);
    let port = SocketAddr::from((Ipv4Addr::LOCALHOST, 0));
    let (dialled, accepted) = both_ends(host, port).expect(rt, "a link");
    let mut records = output(alloc, ALL);
    let is_well = are_taken(
        &feed,
        &mut client,
        &mut Counted::new(accepted),
        &mut Counted::new(dialled),
        &mut records,
    );
    let held = taken_by(records);
    if is_well { held } else { Vec::new(alloc) }
}

#[test]
fn takes_turns(rt: HostRuntime) {
    let wanted = two_records(&rt, rt.alloc());
    assert!(rt; records_of_turns(&rt, &rt, rt.alloc()).as_slice() == wanted.as_slice());
}
