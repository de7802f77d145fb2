//! What stands between a link and its stream: what is read ahead, and what is gathered. Seen at a host in memory whose
//! one stream notes each of its calls.

use super::{
    ALL, fetch, line_of, output, packets, plan_of, records, serve, serve_plan_of, taken_by,
    two_packets,
};
use crate::model::{place, pushed, three_pushed};
use slink_feed::{Client, Feed, Mode};
use std::alloc::Global;
use std::cell::Cell;
use std::io;
use std::io::{ErrorKind, Read, Write};
use std::net::{Ipv4Addr, Net, OpenListener, OpenStream, SocketAddr};
use std::os::fd::{AsRawFd, RawFd};
use std::process::Abort;
use std::time::{Clock, Duration};

/// What came of a call of a stream.
#[derive(Clone, Copy, PartialEq, Eq)]
enum Call {
    /// It gave so many bytes.
    Read(usize),
    /// It accepted so many.
    Wrote(usize),
    /// There was no room.
    Failed,
}

/// What a stream gives, in pieces of at most so many bytes, its room, and what came of its calls.
#[derive(Drop)]
struct Wire<'a> {
    alloc: Global,
    reported: &'a [u8],
    piece: usize,
    given: Cell<usize>,
    room: Cell<usize>,
    taken: Cell<Vec<u8>>,
    calls: Cell<Vec<Call>>,
}

impl<'a> Wire<'a> {
    fn new(alloc: Global, reported: &'a [u8], piece: usize, room: usize) -> Wire<'a> {
        Wire {
            alloc,
            reported,
            piece,
            given: Cell::new(0),
            room: Cell::new(room),
            taken: Cell::new(Vec::new(alloc)),
            calls: Cell::new(Vec::new(alloc)),
        }
    }

    /// Notes a call.
    fn note(&self, call: Call) {
        let mut calls = self.calls.replace(Vec::new(self.alloc));
        let _ = calls.push(call);
        self.calls.set(calls);
    }

    /// Keeps bytes.
    fn keep(&self, bytes: &[u8]) {
        let mut taken = self.taken.replace(Vec::new(self.alloc));
        let _ = taken.extend_from_slice(bytes);
        self.taken.set(taken);
    }
}

/// The host, its port, and the stream.
#[derive(Clone, Copy)]
struct End<'a> {
    wire: &'a Wire<'a>,
}

impl<'a> Net for End<'a> {
    type Stream = End<'a>;

    type Listener = End<'a>;

    fn bind(&self, _addr: SocketAddr) -> io::Result<End<'a>> {
        Ok(*self)
    }

    fn connect(&self, _addr: SocketAddr) -> io::Result<End<'a>> {
        Ok(*self)
    }
}

impl<'a> OpenListener for End<'a> {
    type Stream = End<'a>;

    fn accept(&self) -> io::Result<(End<'a>, SocketAddr)> {
        Ok((*self, SocketAddr::from((Ipv4Addr::LOCALHOST, 0))))
    }
}

impl Clock for End<'_> {
    fn monotonic(&self) -> io::Result<Duration> {
        Ok(Duration::ZERO)
    }

    fn since_1970(&self) -> io::Result<Duration> {
        Ok(Duration::ZERO)
    }
}

impl AsRawFd for End<'_> {
    fn as_raw_fd(&self) -> RawFd {
        3
    }
}

impl OpenStream for End<'_> {}

impl Read for End<'_> {
    fn read(&mut self, buf: &mut [u8]) -> io::Result<usize> {
        let given = self.wire.given.get();
        let mut left = self.wire.reported.get(given..).unwrap_or(b"");
        let most = buf.len().min(self.wire.piece);
        let count = left.read(&mut buf[..most])?;
        self.wire.given.set(given.saturating_add(count));
        self.wire.note(Call::Read(count));
        Ok(count)
    }
}

impl Write for End<'_> {
    fn write(&mut self, bytes: &[u8]) -> io::Result<usize> {
        let room = self.wire.room.get();
        let count = bytes.len().min(room);
        if count == 0 {
            self.wire.note(Call::Failed);
            return Err(ErrorKind::Other.into());
        }
        self.wire.room.set(room - count);
        self.wire.keep(&bytes[..count]);
        self.wire.note(Call::Wrote(count));
        Ok(count)
    }

    fn flush(&mut self) -> io::Result<()> {
        Ok(())
    }
}

/// Whether a feed is served to one connection over the wire with this status, and the line of it.
fn is_served(wire: &Wire, feed: Feed, status: u8) -> bool {
    let plan = serve_plan_of(feed, 1, 0);
    let mut errors = output(wire.alloc, ALL);
    let ended = serve(&End { wire }, wire.alloc, &plan, &mut errors);
    ended == Ok(status) && taken_by(errors).as_slice() == line_of(status)
}

/// Whether the wire accepted these bytes, and this came of its calls.
fn came_to(wire: &Wire, taken: &[u8], calls: &[Call]) -> bool {
    let found = wire.calls.replace(Vec::new(wire.alloc));
    wire.taken.replace(Vec::new(wire.alloc)).as_slice() == taken && found.as_slice() == calls
}

/// So many records of STA.
const MANY: u8 = 70;

/// A feed of them.
fn many_pushed(rt: &impl Abort, alloc: Global) -> Feed {
    pushed(rt, alloc, usize::from(MANY), 0, MANY)
}

/// What a client says that lacks all of them.
const REQUEST: &[u8] = b"STATION STA XX\r\nFETCH 0\r\nEND\r\n";

/// The 64th packet goes out at once after those that were gathered. What is shorter goes out after the others.
static GATHERED: [Call; 7] = [
    Call::Read(REQUEST.len()),
    Call::Wrote(4),
    Call::Wrote(4),
    Call::Wrote(63 * 520),
    Call::Wrote(520),
    Call::Wrote(6 * 520),
    Call::Wrote(3),
];

/// Whether a feed is served to one connection over the wire with this status, and the wire accepted these bytes, and
/// this came of its calls.
fn goes_over(wire: &Wire, feed: Feed, status: u8, taken: &[u8], calls: &[Call]) -> bool {
    is_served(wire, feed, status) && came_to(wire, taken, calls)
}

#[test]
fn gathers_packets(rt: HostRuntime) {
    let sent = packets(&rt, rt.alloc(), 0..MANY);
    let feed = many_pushed(&rt, rt.alloc());
    let wire = Wire::new(rt.alloc(), REQUEST, ALL, ALL);
    assert!(rt; goes_over(&wire, feed, 0, sent.as_slice(), &GATHERED));
}

/// The first so many bytes.
fn up_to(bytes: &[u8], count: usize) -> &[u8] {
    bytes.get(..count).unwrap_or(b"")
}

/// A client that says this asks for records as they come, and then leaves.
const LEAVING: &[u8] = b"STATION STA XX\r\nDATA 1\r\nEND\r\nBYE\r\n";

/// The client's first lines come in one piece, and the last one after it.
static READ: [Call; 5] = [
    Call::Read(LEAVING.len() - 5),
    Call::Wrote(4),
    Call::Wrote(4),
    Call::Wrote(2 * 520),
    Call::Read(5),
];

#[test]
fn writes_them_where_it_is_read(rt: HostRuntime) {
    let all = two_packets(&rt, rt.alloc());
    let feed = three_pushed(&rt, rt.alloc(), 0);
    let wire = Wire::new(rt.alloc(), LEAVING, LEAVING.len() - 5, ALL);
    assert!(rt; goes_over(&wire, feed, 0, up_to(all.as_slice(), 1048), &READ));
}

/// A client says this, and accepts the second packet in part. Nothing is written again.
const ASKING: &[u8] = b"STATION STA XX\r\nFETCH 1\r\nEND\r\n";

static FAILED: [Call; 5] = [
    Call::Read(ASKING.len()),
    Call::Wrote(4),
    Call::Wrote(4),
    Call::Wrote(700),
    Call::Failed,
];

#[test]
fn tells_what_fails(rt: HostRuntime) {
    let all = two_packets(&rt, rt.alloc());
    let feed = three_pushed(&rt, rt.alloc(), 0);
    let wire = Wire::new(rt.alloc(), ASKING, ALL, 708);
    assert!(rt; goes_over(&wire, feed, 2, up_to(all.as_slice(), 708), &FAILED));
}

/// The lines of a fetch from a server that closes the link, where the status says so.
fn lines_of_fetch(status: u8) -> &'static [u8] {
    if status == 0 {
        b""
    } else {
        b"mseed: link failed\n\
          mseed: lost the connection to 127.0.0.1:0: closed by the server before the end\n"
    }
}

/// Whether a fetch by a client over the wire ends with this status, the lines of it, and these records.
fn is_fetched(wire: &Wire, client: Client, status: u8, records: &[u8]) -> bool {
    let mut plan = plan_of(client, 1, 0);
    let mut written = output(wire.alloc, ALL);
    let mut errors = output(wire.alloc, ALL);
    let ended = fetch(
        &End { wire },
        wire.alloc,
        &mut plan,
        &mut written,
        &mut errors,
    );
    ended == Ok(status)
        && taken_by(errors).as_slice() == lines_of_fetch(status)
        && taken_by(written).as_slice() == records
}

/// A client that asks for all records that are there.
fn client(rt: &impl Abort) -> Client {
    Client::new(&[(place(rt, b"STA"), Some(0))], Mode::Fetch)
}

/// How much is read ahead at once.
const AHEAD: usize = 1 << 15;

/// All that is there is read at once, and the rest where that is given.
static READ_AHEAD: [Call; 5] = [
    Call::Wrote(16),
    Call::Read(AHEAD),
    Call::Wrote(14),
    Call::Wrote(5),
    Call::Read(8 + 70 * 520 + 3 - AHEAD),
];

/// What comes of the calls where the server leaves in place of the end.
static LEFT: [Call; 6] = [
    Call::Wrote(16),
    Call::Read(AHEAD),
    Call::Wrote(14),
    Call::Wrote(5),
    Call::Read(8 + 70 * 520 - AHEAD),
    Call::Read(0),
];

/// What the client says.
const SAID: &[u8] = b"STATION STA XX\r\nFETCH 000000\r\nEND\r\n";

/// Whether all records are fetched from a server that says this, with this status, and these calls.
fn is_read_ahead(
    rt: &impl Abort,
    alloc: Global,
    reported: &[u8],
    status: u8,
    calls: &[Call],
) -> bool {
    let records = records(rt, alloc, 0..MANY);
    let client = client(rt);
    let wire = Wire::new(alloc, reported, ALL, ALL);
    is_fetched(&wire, client, status, records.as_slice()) && came_to(&wire, SAID, calls)
}

#[test]
fn reads_ahead(rt: HostRuntime) {
    let sent = packets(&rt, rt.alloc(), 0..MANY);
    let cut = up_to(sent.as_slice(), 8 + 70 * 520);
    assert!(rt; is_read_ahead(&rt, rt.alloc(), cut, 2, &LEFT));
    assert!(rt; is_read_ahead(&rt, rt.alloc(), sent.as_slice(), 0, &READ_AHEAD));
}
