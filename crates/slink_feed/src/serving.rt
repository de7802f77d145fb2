//! One step of a session with its link: due packets are written, and a read is answered line by line.
ghost use Rattle.std.specs.Prelude.{◌≡◌, ◌≢◌, ◌≤◌, ◌<◌, ◌^◌, IfErr, IfOk, OnOk, length};
ghost use Rattle.slink_feed.specs.declared.session.Phase.{Phase};
ghost use Rattle.slink_feed.specs.Attending.{Attends, IsServeFault, RepliesToAll, attending};
ghost use Rattle.slink_feed.specs.private.Replying.{FailsToGive, HasFailed, HasGiven, HasSent, IsUnwritten, IsWritten};
ghost use Rattle.slink_feed.specs.private.Replying.{waits_after};
ghost use Rattle.slink_feed.specs.Rounds.{Attending, FailsToSend, place_after};
ghost use Rattle.slink_feed.specs.Running.{Stands};
ghost use Rattle.slink_feed.specs.Session.{Fits, sent_without};

use crate::feed::Feed;
use crate::reading::read_once;
use crate::session::{Session, Unsent};
use crate::turn::{LinkFault, Turn};
use mseed_stream::{Duplex, Failed, Sink, write_all_of};
use slink_wire::{PACKET, Packet, STATIONS};
use std::alloc::Allocator;

/// The most bytes that a step reads.
const ROOM: usize = 512;

/// Takes one step with a session's link: writes the due packets, round and round of the stations, one packet a station,
/// until the session is closed or a whole round gives none. Unless it is closed then, it reads once, at most 512 bytes,
/// and writes the reply to each line (SeedLink 3, handshaking).
///
/// Returns `Closed` where the session is closed before the read, or the link is at its end; else `Goes`. Where a line
/// closes the session, the next step returns `Closed`.
///
/// It is lent the same feed at every call, whose rings keep their indices.
///
/// # Errors
///
/// `Read` or `Write` where the link failed so, the latter with the number of bytes that it accepted in this step. What
/// wasn't accepted whole isn't written again, and what was read is lost: the link is to be given up, and the session
/// with it.
pub fn serve_turn<A: Allocator, S: Duplex>(
    session: &mut Session,
    feed: &Feed<A>,
    link: &mut S,
) -> Result<Turn, LinkFault>
    requires fits { Fits feed.now session.old.state }
    ensures ok { IfOk result (λ turn. Attends feed.now (attending session.old (S.written link.old))
        (attending session.new (S.written link.new)) (S.read link.old) (S.read link.new) turn) }
    ensures fault { IfErr result (λ fault. IsServeFault feed.now (attending session.old (S.written link.old))
        (attending session.new (S.written link.new)) (S.read link.old) (S.read link.new) fault) }
    ensures fits { Fits feed.now session.new.state }
    ensures stands { Stands session.new }
{
    session.has_stream();
    let written = match send_all(session, feed, link, &mut [0; PACKET]) {
        Ok(written) => written,
        Err(count) => return Err(LinkFault::Write(count)),
    };
    if session.is_closed() {
        return Ok(Turn::Closed);
    }
    answer_once(session, feed, link, written)
}

/// Reads once, at most 512 bytes, and writes the reply to each line, after `written` bytes of due packets.
fn answer_once<A: Allocator, S: Duplex>(
    session: &mut Session,
    feed: &Feed<A>,
    link: &mut S,
    written: usize,
) -> Result<Turn, LinkFault>
    requires fits { Fits feed.now session.old.state }
    requires stands { Stands session.old }
    requires awake { session.old.state.phase ≢ Phase.Closed }
    requires few { written ≤ 2 ^ 40 }
    // From whatever the step began with.
    ensures ok { (start : Attending) → HasSent feed.now start (attending session.old (S.written link.old)) written
        → IfOk result (λ turn. Attends feed.now start (attending session.new (S.written link.new)) (S.read link.old)
        (S.read link.new) turn) }
    ensures fault { (start : Attending) → HasSent feed.now start (attending session.old (S.written link.old)) written
        → IfErr result (λ fault. IsServeFault feed.now start (attending session.new (S.written link.new))
        (S.read link.old) (S.read link.new) fault) }
    ensures fits { Fits feed.now session.new.state }
    ensures stands { Stands session.new }
{
    let mut room = [0; ROOM];
    let count = match read_once(link, &mut room) {
        Ok(count) => count,
        Err(Failed) => return Err(LinkFault::Read),
    };
    if count == 0 {
        return Ok(Turn::Closed);
    }
    match reply_to_all(session, feed, &room[..count], link, written) {
        Ok(()) => Ok(Turn::Goes),
        Err(count) => Err(LinkFault::Write(count)),
    }
}

/// Writes the due packets, and returns how many bytes they have. Each packet is made in the room. An error has the
/// number of bytes that the link accepted, here and below.
fn send_all<A: Allocator, L: Sink>(
    session: &mut Session,
    feed: &Feed<A>,
    link: &mut L,
    room: &mut [u8; PACKET],
) -> Result<usize, usize>
    requires fits { Fits feed.now session.old.state }
    requires stands { Stands session.old }
    ensures ok { IfOk result (λ written. HasSent feed.now (attending session.old (L.written link.old))
        (attending session.new (L.written link.new)) written) }
    ensures fault { IfErr result (λ count. FailsToSend feed.now (attending session.old (L.written link.old))
        (attending session.new (L.written link.new)) count) }
    ensures fits { Fits feed.now session.new.state }
    ensures stands { Stands session.new }
    ensures beside { L.beside link.new ≡ L.beside link.old }
{
    let mut written = 0;
    let mut k = 0;
    let mut waits = 0;
    while waits < feed.len() {
        if session.is_closed() {
            break;
        }
        let given = give(session, feed, k, link, room, written, waits)?;
        written = given.written;
        waits = given.waits;
        k = next_place(feed, k);
    }
    Ok(written)
}

/// How many bytes were written so far, and how many stations in a row had nothing to send.
#[derive(Clone, Copy)]
pub(crate) struct SendProgress {
    written: usize,
    waits: usize,
}

/// Writes what is due of a station, after `before` bytes of this step. The packet of a record, which its ring lends, is
/// made in room.
#[tactic(auto, using(crate::proofs::Sendoffs::few_without))]
fn give<A: Allocator, L: Sink>(
    session: &mut Session,
    feed: &Feed<A>,
    k: usize,
    link: &mut L,
    room: &mut [u8; PACKET],
    before: usize,
    waits: usize,
) -> Result<SendProgress, usize>
    requires in_range { k < length feed.now }
    requires fits { Fits feed.now session.old.state }
    requires room { before ≤ 2 ^ 41 }
    requires waits { waits < STATIONS }
    ensures ok { IfOk result (λ given. HasGiven feed.now k (attending session.old (L.written link.old))
        (attending session.new (L.written link.new)) before given.written waits given.waits) }
    ensures fault { IfErr result (λ after. FailsToGive feed.now k (attending session.old (L.written link.old))
        (attending session.new (L.written link.new)) before after) }
    ensures fits { Fits feed.now session.new.state }
    ensures stands { Stands session.new }
    ensures beside { L.beside link.new ≡ L.beside link.old }
{
    match session.next_record(feed, k) {
        Ok((number, bytes)) => {
            Packet::put(room, number, bytes);
            let written = write_after(link, room, before)?;
            Ok(SendProgress { written, waits: 0 })
        }
        Err(unsent) => {
            let after = write_after(link, unsent.bytes(), before)?;
            Ok(SendProgress {
                written: after,
                waits: count_waits(unsent, waits),
            })
        }
    }
}

/// How many stations in a row had nothing to send, once another one was asked.
fn count_waits(unsent: Unsent, waits: usize) -> usize
    requires { waits < STATIONS }
    ensures { result ≡ waits_after (sent_without unsent) waits }
{
    match unsent {
        Unsent::Wait => waits + 1,
        Unsent::Done | Unsent::Overrun | Unsent::Closed => 0,
    }
}

/// The index of the station after another; after the last station the first one.
fn next_place<A: Allocator>(feed: &Feed<A>, k: usize) -> usize
    requires { k < length feed.now }
    ensures { result ≡ place_after feed.now k }
{
    let count = feed.len();
    if k + 1 == count { 0 } else { k + 1 }
}

/// Takes bytes line by line, and writes the replies, after `before` bytes of this step.
#[tactic(auto, using(crate::proofs::Sendoffs::reply_short))]
fn reply_to_all<A: Allocator, L: Sink>(
    session: &mut Session,
    feed: &Feed<A>,
    bytes: &[u8],
    link: &mut L,
    before: usize,
) -> Result<(), usize>
    requires fits { Fits feed.now session.old.state }
    requires stands { Stands session.old }
    requires few { length bytes.now ≤ ROOM }
    requires room { before ≤ 2 ^ 40 }
    ensures ok { OnOk result (RepliesToAll feed.now (attending session.old (L.written link.old))
        (attending session.new (L.written link.new)) bytes.now) }
    ensures fault { IfErr result (λ after. HasFailed feed.now (attending session.old (L.written link.old))
        (attending session.new (L.written link.new)) bytes.now before after) }
    ensures fits { Fits feed.now session.new.state }
    ensures stands { Stands session.new }
    ensures beside { L.beside link.new ≡ L.beside link.old }
{
    let mut start = 0;
    let mut written = before;
    while start < bytes.len() {
        let (used, reply) = session.take(feed, &bytes[start..]);
        written = write_after(link, reply.bytes(), written)?;
        start += used;
    }
    Ok(())
}

/// Writes bytes after `before` others, and returns how many there are with these.
fn write_after<L: Sink>(link: &mut L, bytes: &[u8], before: usize) -> Result<usize, usize>
    requires room { before ≤ 2 ^ 41 }
    requires few { length bytes.now ≤ PACKET }
    ensures ok { IfOk result (λ after. IsWritten (L.written link.old) (L.written link.new) bytes.now before after) }
    ensures fault { IfErr result
        (λ after. IsUnwritten (L.written link.old) (L.written link.new) bytes.now before after) }
    ensures beside { L.beside link.new ≡ L.beside link.old }
{
    match write_all_of(link, bytes) {
        Ok(()) => Ok(before + bytes.len()),
        Err(count) => Err(before + count),
    }
}
