//! Calls of `slink_feed`.
ghost use Rattle.std.specs.Prelude.{[], IfOk, ◌≡◌, ◌^◌, ◌<◌, ℕ, Some, length, slice_get};
ghost use Rattle.slink_feed.specs.Session.{Fits};
ghost use Rattle.slink_feed.specs.Window.{Shows, Window};

use mseed_stream::{Duplex, Sink};
use slink_feed::{
    Bytes, Client, Ending, Event, Feed, FeedFault, ForeignRecord, InputFault, LinkFault, Mode,
    Reporter, Ring, RingFault, Room, Sent, Session, Turn, Unsent, fetch_turn, fetch_turn_in,
    serve_turn,
};
use slink_wire::{Packet, Place, Reply};
use std::alloc::Global;

/// A ring of the last 1,000 records of a place, of which the first has the number 0.
pub fn thousand_records(alloc: Global, place: Place) -> Result<Ring, RingFault>
    ensures { IfOk result (λ ring. Shows ring 0 []) }
{
    Ring::new(alloc, place, 1_000, 0)
}

/// Pushes a record where it is of the ring's place, and the ring still counts.
pub fn push_record(ring: &mut Ring, bytes: &[u8; 512]) -> bool {
    let is_taken = ring.place().bears(bytes) && ring.next() < 1 << 40;
    if is_taken {
        ring.push(bytes);
    }
    is_taken
}

/// The oldest record of a ring that has one.
pub fn oldest_record(ring: &Ring) -> Option<&[u8; 512]> {
    ring.get(ring.oldest())
}

/// The record that a client names by a number of six digits.
pub fn record_named(ring: &Ring, number: u32) -> Option<&[u8; 512]> {
    ring.get(ring.resolve(number)?)
}

/// A feed of one ring.
pub fn feed_of(ring: Ring) -> Result<Feed, FeedFault> {
    let mut feed = Feed::new();
    feed.add(ring)?;
    Ok(feed)
}

/// A feed of a ring that needs no test: it is the first.
pub fn feed_of_first(ring: Ring) -> Feed {
    let mut feed = Feed::new();
    feed.add_other(ring);
    feed
}

/// Gives a record to the first ring of a feed, where it is of its place.
pub fn push_to_feed(feed: &mut Feed, bytes: &[u8; 512]) -> bool {
    if feed.len() == 0 {
        return false;
    }
    let ring = feed.ring(0);
    if !ring.place().bears(bytes) || ring.next() >= 1 << 40 {
        return false;
    }
    feed.push(0, bytes);
    true
}

/// The number that a record gets in the first ring whose place it carries.
pub fn number_to_be(feed: &Feed, bytes: &[u8; 512]) -> Option<u64> {
    let k = feed.place_of(bytes)?;
    Some(feed.ring(k).next())
}

/// Takes a record of an input, which has this number, into the ring of its place, and returns that ring's index.
pub fn take_from_input(feed: &mut Feed, bytes: &[u8], number: u64) -> Result<usize, InputFault>
    requires { (k : ℕ) (w : Window) → slice_get feed.old k ≡ Some w → w.next < 2 ^ 40 }
{
    feed.take_record(bytes, number)
}

/// What is wrong with an input whose record of this number, as long as these bytes, is of no ring.
pub fn refuse_record(number: u64, bytes: &[u8]) -> InputFault {
    InputFault::Foreign(ForeignRecord::of(number, bytes.len(), bytes))
}

/// What a new session answers to the first line.
pub fn first_reply(feed: &Feed, bytes: &[u8]) -> Reply {
    let mut session = Session::new();
    let (_taken, reply) = session.take(feed, bytes);
    reply
}

/// The next packet of the first place, where one is due.
pub fn next_packet(session: &mut Session, feed: &Feed) -> Option<[u8; 520]>
    requires some { 0 < length feed.now }
    requires fits { Fits feed.now session.old.state }
{
    match session.packet(feed, 0) {
        Sent::Packet(packet) => Some(packet),
        Sent::Wait | Sent::Done | Sent::Overrun | Sent::Closed => None,
    }
}

/// Makes the next packet of the first place where it is to lie, if one is due.
pub fn put_next_packet(session: &mut Session, feed: &Feed, room: &mut [u8; 520]) -> bool
    requires some { 0 < length feed.now }
    requires fits { Fits feed.now session.old.state }
{
    match session.next_record(feed, 0) {
        Ok((number, record)) => {
            Packet::put(room, number, record);
            true
        }
        Err(Unsent::Wait | Unsent::Done | Unsent::Overrun | Unsent::Closed) => false,
    }
}

/// What is written to a link where a session sends no record.
pub fn bytes_without_a_record(unsent: Unsent) -> &'static [u8] {
    unsent.bytes()
}

/// Whether a record of the first place is due to a client.
pub fn has_record_due(session: &Session, feed: &Feed) -> bool
    requires { 0 < length feed.now }
{
    session.is_due(feed, 0)
}

/// Whether a client has all that it requested, for good.
pub fn has_all_for_good(session: &Session, feed: &Feed) -> bool {
    session.has_sent_all(feed)
}

/// Whether a session was granted records of the first place.
pub fn is_granted(session: &Session) -> bool {
    session.position(0).is_some()
}

/// A client of one place, and the first line that it writes.
pub fn client_of(place: Place) -> (Client, Bytes) {
    let mut client = Client::new(&[(place, None)], Mode::Fetch);
    let line = client.connect();
    (client, line)
}

/// A client of one place that goes past holes.
pub fn client_past_holes(place: Place) -> Client {
    Client::past_holes(&[(place, None)], Mode::Fetch)
}

/// Takes bytes of a link up to the first event, and counts a record.
pub fn count_event(client: &mut Client, bytes: &[u8], records: &mut u64) -> usize {
    let (taken, event) = client.take(bytes);
    match event {
        Event::Record(_place, _number, _record) => *records = records.saturating_add(1),
        _ => {}
    }
    taken
}

/// The number that a client's first place wants next.
pub fn wanted_next(client: &Client) -> Option<u32> {
    client.next(0)
}

/// The station that a server refused to a client, if it refused one.
pub fn refused_place(client: &Client) -> Option<Place> {
    match client.ending() {
        Some(Ending::Refused(k)) => Some(client.wanted(k)?.place),
        _ => None,
    }
}

/// What a server said where it refused a station to a client, and nothing where it refused none.
pub fn refusal_of(client: &Client) -> &[u8] {
    match client.ending() {
        Some(Ending::Refused(_)) => client.reply(),
        _ => b"",
    }
}

/// After how many packets of a client's link bytes came that are none, if they did.
pub fn packets_before_garbage(client: &Client) -> Option<u64> {
    match client.ending() {
        Some(Ending::Garbage) => Some(client.packets()),
        _ => None,
    }
}

/// Serves a new link for a turn; whether a further turn is to be taken.
pub fn serve_once<S: Duplex>(feed: &Feed, link: &mut S) -> Result<bool, LinkFault> {
    let mut session = Session::new();
    let turn = serve_turn(&mut session, feed, link)?;
    Ok(matches!(turn, Turn::Goes))
}

/// Fetches over a link for a turn; whether a further turn is to be taken.
pub fn fetch_once<S: Duplex, W: Sink>(
    client: &mut Client,
    link: &mut S,
    output: &mut W,
) -> Result<bool, LinkFault> {
    let turn = fetch_turn(client, link, output)?;
    Ok(matches!(turn, Turn::Goes))
}

/// Fetches over a link for a turn, reports the first record of each place, and answers whether a record came.
pub fn fetch_some<S: Duplex, W: Sink, E: Sink>(
    client: &mut Client,
    link: &mut S,
    output: &mut W,
    errors: &mut E,
    room: &mut Room,
) -> Result<bool, LinkFault> {
    let mut reporter = Reporter::new(client, true);
    reporter.begin();
    fetch_turn_in(client, link, output, errors, &mut reporter, room)?;
    Ok(reporter.has_received())
}

/// Fetches over a link for `turns` turns, in one room; whether a further turn is to be taken.
pub fn fetch_turns<S: Duplex, W: Sink, E: Sink>(
    client: &mut Client,
    link: &mut S,
    output: &mut W,
    errors: &mut E,
    turns: u64,
) -> Result<bool, LinkFault> {
    let mut reporter = Reporter::new(client, false);
    let mut room: Room = [0; 520];
    for turn in 0..turns {
        match fetch_turn_in(client, link, output, errors, &mut reporter, &mut room)? {
            Turn::Goes => {}
            Turn::Closed | Turn::Ended | Turn::Stopped(_) => return Ok(false),
        }
    }
    Ok(true)
}

/// Tells how to go on after a record that wasn't written whole.
pub fn report_where_to_go_on<E: Sink>(reporter: &Reporter, client: &Client, errors: &mut E) {
    reporter.report_next(client, true, errors);
}

/// Whether a session answers and sends nothing more.
pub fn is_over(session: &Session) -> bool {
    session.is_closed()
}

/// Whether both ends have come through the handshake.
pub fn are_streaming(session: &Session, client: &Client) -> bool {
    session.is_streaming() && client.is_streaming()
}
