//! Worked rows of rings, sessions, clients and schedules.
ghost use Rattle.slink_feed.specs.Session.{Fits, State};

mod client;
mod schedule;
mod turns;

use slink_feed::{Feed, FeedFault, Ring, Sent, Session};
use slink_wire::{Packet, Place, Reply};
use std::alloc::Global;
use std::process::Abort;

/// A station of the network XX.
pub(crate) fn place(rt: &impl Abort, sta: &[u8]) -> Place {
    Place::new(sta, b"XX").expect(rt, "a place")
}

/// A record of the station in the network XX, with a byte of its own.
pub(crate) fn record(sta: &[u8; 5], mark: u8) -> [u8; 512] {
    let mut bytes = [mark; 512];
    bytes[8..13].copy_from_slice(sta);
    bytes[18..20].copy_from_slice(b"XX");
    bytes
}

/// An empty ring of a station of the network XX.
pub(crate) fn ring(
    rt: &impl Abort,
    alloc: Global,
    sta: &[u8],
    capacity: usize,
    first: u32,
) -> Ring {
    Ring::new(alloc, place(rt, sta), capacity, first).expect(rt, "a ring")
}

/// Pushes a record to a ring of a feed.
pub(crate) fn push(rt: &impl Abort, feed: &mut Feed, k: usize, bytes: &[u8; 512])
    ensures { (s : State) → Fits feed.old s → Fits feed.new s }
{
    assert!(rt; k < feed.len());
    let ring = feed.ring(k);
    assert!(rt; ring.place().bears(bytes) && ring.next() < 1 << 62);
    feed.push(k, bytes);
}

/// Adds a ring to a feed.
fn add(rt: &impl Abort, feed: &mut Feed, ring: Ring) {
    assert!(rt; feed.add(ring).is_ok());
}

/// The index of a station in the feed, its code, and the mark of a record.
type Pushed = (usize, &'static [u8; 5], u8);

/// Pushes records to the rings of a feed.
fn push_all(rt: &impl Abort, feed: &mut Feed, records: &[Pushed]) {
    for (k, sta, mark) in records {
        push(rt, feed, *k, &record(sta, *mark));
    }
}

/// Adds a ring of the station STA of XX, and pushes records with the marks from 0 on.
fn fill(rt: &impl Abort, feed: &mut Feed, ring: Ring, count: u8) {
    add(rt, feed, ring);
    for mark in 0..count {
        push(rt, feed, 0, &record(b"STA  ", mark));
    }
}

/// A feed of one ring of the station STA of XX, of so many records, to which so many were pushed.
pub(crate) fn pushed(
    rt: &impl Abort,
    alloc: Global,
    capacity: usize,
    first: u32,
    count: u8,
) -> Feed {
    let ring = ring(rt, alloc, b"STA", capacity, first);
    let mut feed = Feed::new();
    fill(rt, &mut feed, ring, count);
    feed
}

/// Such a feed, of two records, to which three were pushed.
pub(crate) fn three_pushed(rt: &impl Abort, alloc: Global, first: u32) -> Feed {
    pushed(rt, alloc, 2, first, 3)
}

/// Whether a session takes a line whole, and replies so.
fn answers(session: &mut Session, feed: &Feed, line: &[u8], reply: &Reply) -> bool
    requires { Fits feed.now session.old.state }
    ensures { Fits feed.now session.new.state }
{
    let (used, found) = session.take(feed, line);
    used == line.len() && found == *reply
}

/// Whether a session gives this of a station.
fn gives(session: &mut Session, feed: &Feed, k: usize, wanted: &Sent) -> bool
    requires { Fits feed.now session.old.state }
    ensures { Fits feed.now session.new.state }
{
    k < feed.len() && session.packet(feed, k) == *wanted
}

/// The index of a station in the feed, its code, and the number and the mark of a record.
type Row = (usize, &'static [u8; 5], u8, u8);

/// Whether a session sends the packet of a record.
fn sends(session: &mut Session, feed: &Feed, row: &Row) -> bool
    requires { Fits feed.now session.old.state }
    ensures { Fits feed.now session.new.state }
{
    let sent = Sent::Packet(Packet::write(u32::from(row.2), &record(row.1, row.3)));
    gives(session, feed, row.0, &sent)
}

/// What a session is sent, and its reply.
static TRANSCRIPT: [(&[u8], Reply); 12] = [
    (b"HELLO\r", Reply::Hello),
    (b"\nDATA 000001\r", Reply::Error),
    (b"\nSTATION ABC XX\r", Reply::Error),
    (b"\nstation STA XX\r", Reply::Ok),
    (b"\nSELECT BHZ\r", Reply::Error),
    (b"\nSELECT\r", Reply::Ok),
    (b"\nDATA 000000\r", Reply::Error),
    (b"\nDATA 4\r", Reply::Error),
    (b"\nDATA 3\r", Reply::Ok),
    (b"\nFETCH 1\r", Reply::Ok),
    (b"\nINFO ID\r", Reply::Error),
    (b"\nEND\r", Reply::Nothing),
];

/// What it sends then.
static TRANSCRIPT_SENT: [Row; 2] = [(0, b"STA  ", 1, 1), (0, b"STA  ", 2, 2)];

/// Asserts that a session takes these lines, and replies so.
fn assert_answers(rt: &impl Abort, session: &mut Session, feed: &Feed, lines: &[(&[u8], Reply)])
    requires { Fits feed.now session.old.state }
    ensures { Fits feed.now session.new.state }
{
    for (line, wanted) in lines {
        assert!(rt; answers(session, feed, line, wanted), "{line:?}");
    }
}

/// Asserts that a session sends the packets of these records.
fn assert_sends(rt: &impl Abort, session: &mut Session, feed: &Feed, rows: &[Row])
    requires { Fits feed.now session.old.state }
    ensures { Fits feed.now session.new.state }
{
    for row in rows {
        assert!(rt; sends(session, feed, row), "{row:?}");
    }
}

/// Asserts that a new session of a feed takes these lines with their replies, sends these packets, and is done then
/// with a station.
fn assert_served(
    rt: &impl Abort,
    feed: &Feed,
    lines: &[(&[u8], Reply)],
    rows: &[Row],
    last: usize,
) {
    let mut session = Session::new();
    assert_answers(rt, &mut session, feed, lines);
    assert_sends(rt, &mut session, feed, rows);
    assert!(rt; gives(&mut session, feed, last, &Sent::Done));
    assert!(rt; gives(&mut session, feed, last, &Sent::Closed));
}

#[test]
fn serves_a_transcript(rt: HostRuntime) {
    let feed = three_pushed(&rt, rt.alloc(), 0);
    assert_served(&rt, &feed, &TRANSCRIPT, &TRANSCRIPT_SENT, 0);
}

/// Numbers as a client says them, and the numbers that they stand for.
static RESOLVED: [(u32, Option<u64>); 4] = [
    (0xFF_FFFE, None),
    (0xFF_FFFF, Some(16_777_215)),
    (0, Some(16_777_216)),
    (1, Some(16_777_217)),
];

/// Whether a ring of two records, the first of which has the last number that a client can say, finds them.
fn resolves(ring: &Ring) -> bool {
    let mut is_well = ring.oldest() == 16_777_215 && ring.next() == 16_777_217;
    for (number, wanted) in &RESOLVED {
        is_well = is_well && ring.resolve(*number) == *wanted;
    }
    is_well
}

#[test]
fn finds_records_after_the_last_number(rt: HostRuntime) {
    let feed = three_pushed(&rt, rt.alloc(), 0xFF_FFFE);
    assert!(rt; feed.len() != 0 && resolves(feed.ring(0)));
}

/// A session that is sent the records from the last number on.
fn asking(feed: &Feed) -> Session
    ensures { Fits feed.now result.state }
{
    let mut session = Session::new();
    session.take(feed, b"STATION STA\r");
    session.take(feed, b"DATA FFFFFF\r");
    session.take(feed, b"END\r");
    session
}

/// Whether a session ends because the record that it is sent next is lost, and stays so.
fn is_overrun(session: &mut Session, feed: &Feed) -> bool
    requires { Fits feed.now session.old.state }
{
    gives(session, feed, 0, &Sent::Overrun) && gives(session, feed, 0, &Sent::Closed)
}

#[test]
fn ends_where_a_record_is_lost(rt: HostRuntime) {
    let mut feed = three_pushed(&rt, rt.alloc(), 0xFF_FFFE);
    let mut session = asking(&feed);
    push(&rt, &mut feed, 0, &record(b"STA  ", 3));
    assert!(rt; is_overrun(&mut session, &feed));
}

/// The records of two stations.
static PUSHED: [Pushed; 3] = [(0, b"STA  ", 0), (0, b"STA  ", 1), (1, b"STB  ", 2)];

/// Adds the stations STA and STB of XX, and pushes two records and one.
fn fill_two(rt: &impl Abort, alloc: Global, feed: &mut Feed) {
    add(rt, feed, ring(rt, alloc, b"STA", 4, 0));
    add(rt, feed, ring(rt, alloc, b"STB", 4, 0));
    push_all(rt, feed, &PUSHED)
}

/// What a session of two stations is sent, and its reply.
static TWO_PLACES: [(&[u8], Reply); 6] = [
    (b"STATION STA\r", Reply::Ok),
    (b"\nFETCH\r", Reply::Ok),
    (b"\nSTATION STB XX\r", Reply::Ok),
    (b"\nEND\r", Reply::Error),
    (b"\nFETCH\r", Reply::Ok),
    (b"\nEND\r", Reply::Nothing),
];

/// What it sends: a packet of one station after another.
static SENT: [Row; 3] = [
    (0, b"STA  ", 0, 0),
    (1, b"STB  ", 0, 2),
    (0, b"STA  ", 1, 1),
];

#[test]
fn serves_two_places(rt: HostRuntime) {
    let mut feed = Feed::new();
    fill_two(&rt, rt.alloc(), &mut feed);
    assert_served(&rt, &feed, &TWO_PLACES, &SENT, 1);
}

/// What came of a ring that was to be added.
#[derive(Clone, Copy)]
enum Added {
    Well,
    Double,
    Full,
}

/// Adds an empty ring of the station of one letter.
fn add_letter(rt: &impl Abort, alloc: Global, feed: &mut Feed, letter: u8) -> Added {
    let ring = ring(rt, alloc, &[letter], 1, 0);
    match feed.add(ring) {
        Ok(()) => Added::Well,
        Err(FeedFault::Double(_)) => Added::Double,
        Err(FeedFault::Full(_)) => Added::Full,
    }
}

/// Whether a feed takes a ring of a letter's station, but no second one of A.
fn takes_another(rt: &impl Abort, alloc: Global, feed: &mut Feed, letter: u8) -> bool {
    let is_double = matches!(add_letter(rt, alloc, feed, b'A'), Added::Double);
    is_double && matches!(add_letter(rt, alloc, feed, letter), Added::Well)
}

/// Whether a feed of no rings takes sixteen, and none after them.
fn holds_sixteen(rt: &impl Abort, alloc: Global, feed: &mut Feed) -> bool {
    let mut is_well = matches!(add_letter(rt, alloc, feed, b'A'), Added::Well);
    for k in 1..16 {
        is_well = is_well && takes_another(rt, alloc, feed, b'A' + k);
    }
    is_well && matches!(add_letter(rt, alloc, feed, b'A'), Added::Full)
}

#[test]
fn holds_sixteen_rings(rt: HostRuntime) {
    let mut feed = Feed::new();
    assert!(rt; holds_sixteen(&rt, rt.alloc(), &mut feed));
}
