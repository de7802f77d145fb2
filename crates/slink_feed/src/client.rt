//! The client of one feed.
ghost use Rattle.std.specs.Prelude.{◌≡◌, ◌≢◌, ◌+◌, ◌++◌, ◌≤◌, ◌<◌, ◌^◌, ℕ, List, [], true, false, IfNone, IfSome};
ghost use Rattle.std.specs.Prelude.{length, take};
ghost use Rattle.std.specs.Bool.{OnFalse, OnTrue};
ghost use Rattle.slink_wire.specs.Packet.{HasHead, IsPacket};
ghost use Rattle.slink_wire.specs.Place.{AreNumbers};
ghost use Rattle.slink_feed.specs.Cutting.{IsBegun, IsReply};
ghost use Rattle.slink_feed.specs.private.Parts.{IsPacketPart, IsReplyPart};
ghost use Rattle.slink_feed.specs.declared.dialogue.Ending.{Ending};
ghost use Rattle.slink_feed.specs.declared.dialogue.Event.{Event};
ghost use Rattle.slink_feed.specs.Dialogue.{Packet as Brought, Talk, at_packet, place_of, event_of, heard, next_at};
ghost use Rattle.slink_feed.specs.Dialogue.{requests_place, want_at};
ghost use Rattle.slink_feed.specs.Endings.{ending_at};
ghost use Rattle.slink_feed.specs.Fetching.{turn_at};
ghost use Rattle.slink_feed.specs.Listening.{AwaitsReply, Brings, IsLinked, Listening, Reads, new_client};
ghost use Rattle.slink_feed.specs.Listening.{event_if_any};

use crate::cutting::{Part, take_packet, take_reply};
use crate::dialogue::{Bytes, Dialogue, Ending, Event, LONGEST_LINE, Stage, Wanted, want_at};
use crate::grant::Mode;
use crate::turn::Turn;
use arrayvec::ArrayVec;
use slink_wire::{PACKET, Packet, Place, STATIONS};
use std::marker::Model;

/// A client that asks for the records of up to sixteen stations over one link, and over another once that is lost.
///
/// It asks for no memory. A record is wanted once: the number that a station wants next moves by each record that is
/// reported of it, and by nothing else, so that each link goes on after the last record of the one before. A client
/// that goes past holes leaves records out, and reports none twice.
#[derive(Drop)]
pub struct Client {
    dialogue: Dialogue,
    kept: ArrayVec<u8, PACKET>,
}

impl Model for Client {
    ghost Value = { Listening };

    ghost view = { λ c. record { talk = c.dialogue; kept = c.kept.items } };

    ghost invariant = { λ c. IsBegun c.dialogue.stage c.kept.items };
}

impl Client {
    /// Returns a client of up to sixteen different stations, each with the number below 2^24 that it wants first, or
    /// none.
    pub fn new(places: &[(Place, Option<u32>)], mode: Mode) -> Client
        requires count { length places.now ≤ STATIONS }
        requires numbers { AreNumbers places.now }
        ensures { result ≡ new_client places.now mode false }
    {
        Client::of(places, mode, false)
    }

    /// Returns a client as by [`Client::new`] that goes past holes: it takes a record too whose number is ahead of the
    /// one that its station wants, by 1 to 2^23 - 1, modulo 2^24, and wants the one after it next.
    pub fn past_holes(places: &[(Place, Option<u32>)], mode: Mode) -> Client
        requires count { length places.now ≤ STATIONS }
        requires numbers { AreNumbers places.now }
        ensures { result ≡ new_client places.now mode true }
    {
        Client::of(places, mode, true)
    }

    /// A client that goes past holes, or doesn't.
    fn of(places: &[(Place, Option<u32>)], mode: Mode, holes: bool) -> Client
        requires count { length places.now ≤ STATIONS }
        requires numbers { AreNumbers places.now }
        ensures { result ≡ new_client places.now mode holes }
    {
        Client {
            dialogue: Dialogue::new(places, mode, holes),
            kept: ArrayVec::new(),
        }
    }

    /// Returns the number that the station at an index wants next, modulo 2^24, where one was named or came.
    pub fn next(&self, k: usize) -> Option<u32>
        ensures value { result ≡ next_at self.now.talk.wants k }
        ensures short { IfSome result (λ n. n < 2 ^ 24) }
    {
        self.dialogue.next(k)
    }

    /// Returns the station at an index, with the number that it wants next, or `None` where there are fewer stations.
    pub fn wanted(&self, k: usize) -> Option<Wanted>
        ensures { result ≡ want_at self.now.talk.wants k }
    {
        want_at(self.dialogue.wants(), k)
    }

    /// Returns why nothing more of the last link is taken, or `None` while more of it is taken, or there was none.
    pub fn ending(&self) -> Option<Ending>
        ensures { result ≡ ending_at self.now.talk.stage }
    {
        match self.dialogue.stage() {
            Stage::Ended(ending) => Some(ending),
            Stage::Unlinked | Stage::Station(_) | Stage::Number(_) | Stage::Packets => None,
        }
    }

    /// Returns how many packets came since the last reply, at most 2^64 - 1: once packets are awaited, those of the
    /// link.
    pub fn packets(&self) -> u64
        ensures { result ≡ self.now.talk.packets }
    {
        self.dialogue.packets()
    }

    /// Returns the line of the last reply, without its CR LF. It has no bytes before the first reply, and after bytes
    /// that were no reply, packet or end.
    pub fn reply(&self) -> &[u8]
        ensures { result.now ≡ self.now.talk.reply }
    {
        self.dialogue.reply()
    }

    /// The stations that are requested, each with the number that it wants next.
    pub(crate) fn wants(&self) -> &[Option<Wanted>; STATIONS]
        ensures { result.now ≡ self.now.talk.wants }
    {
        self.dialogue.wants()
    }

    /// Begins on a new link, and returns the line that is to be written to it. What was kept of the link before is
    /// dropped.
    pub fn connect(&mut self) -> Bytes
        ensures written { requests_place 0 self.old.talk ≡ (self.new.talk, Event.Say result) }
        ensures dropped { self.new.kept ≡ [] }
        // The new link has brought nothing.
        ensures reads { Reads self.new.talk [] [] self.new }
    {
        self.kept.clear();
        self.dialogue.request_place(0)
    }

    /// Takes bytes of the link up to the first event, or all, and returns how many it took, and the event.
    ///
    /// The bytes that a link brought read as replies, packets and the end in one way, so that the pieces make no
    /// difference.
    pub fn take(&mut self, bytes: &[u8]) -> (usize, Event)
        // With those that were kept they are a whole, which is read; or they are kept.
        ensures brings { IsLinked self.old.talk.stage
            → Brings self.old.talk (self.old.kept ++ take result.0 bytes.now) self.new result.1 }
        // The client goes on to stand for all that the link brought, and the events for what it reads as.
        ensures reads { (start : Talk) (stream : List ℕ) (events : List Event) → IsLinked self.old.talk.stage
            → Reads start stream events self.old
            → Reads start (stream ++ take result.0 bytes.now) (events ++ event_if_any result.1) self.new }
        ensures whole { result.1 ≡ Event.None → result.0 ≡ length bytes.now }
        ensures some { IsLinked self.old.talk.stage → 0 < length bytes.now → 0 < result.0 }
        ensures bound { result.0 ≤ length bytes.now }
        // Before the first link all bytes are dropped.
        ensures unlinked { self.old.talk.stage ≡ Stage.Unlinked
            → (result.0 ≡ length bytes.now) × (result.1 ≡ Event.None) × (self.new ≡ self.old) }
        // After the last event of a link nothing is taken, and it is reported again.
        ensures ended { (ending : Ending) → self.old.talk.stage ≡ Stage.Ended ending
            → (result.0 ≡ 0) × (result.1 ≡ event_of ending) × (self.new ≡ self.old) }
    {
        match self.dialogue.stage() {
            Stage::Unlinked => (bytes.len(), Event::None),
            Stage::Station(_) | Stage::Number(_) => {
                let (used, part) = take_reply(&mut self.kept, bytes);
                (used, read_reply(&mut self.dialogue, &mut self.kept, part))
            }
            Stage::Packets => {
                let (used, part) = take_packet(&mut self.kept, bytes);
                (used, read_packets(&mut self.dialogue, &mut self.kept, part))
            }
            Stage::Ended(ending) => (0, ending.event()),
        }
    }

    /// Takes the packet at the start of bytes, where nothing is kept and its record is wanted, and lends the record
    /// with the index of its station and its number. Else nothing is taken.
    pub(crate) fn take_record<'a>(&mut self, bytes: &'a [u8]) -> Option<(usize, u32, &'a [u8; 512])>
        ensures brings { IfSome result (λ r. Brings self.old.talk (self.old.kept ++ take PACKET bytes.now) self.new
            (Event.Record r.0 r.1 r.2.now)) }
        ensures long { IfSome result (λ _. PACKET ≤ length bytes.now) }
        ensures none { IfNone result (self.new ≡ self.old) }
    {
        if !self.kept.is_empty() {
            return None;
        }
        match self.dialogue.stage() {
            Stage::Packets => read_leading(&mut self.dialogue, bytes),
            Stage::Unlinked | Stage::Station(_) | Stage::Number(_) | Stage::Ended(_) => None,
        }
    }

    /// How many bytes a packet still lacks with those that are kept.
    pub(crate) fn lack(&self) -> usize
        ensures some { 0 < result }
        ensures lack { result + length self.now.kept ≡ PACKET }
    {
        PACKET - self.kept.len()
    }

    /// What is kept reads as what is begun. Nothing is done.
    pub(crate) fn kept_reads_as_begun(&self)
        ensures { Reads self.now.talk self.now.kept [] self.now }
    {
        // The prover learns here that what is kept is begun.
        let _ = &self.kept;
    }

    /// Whether there is a link of which more is taken.
    pub(crate) fn is_linked(&self) -> bool
        ensures yes { OnTrue result (IsLinked self.now.talk.stage) }
        ensures no { OnFalse result (¬ (IsLinked self.now.talk.stage)) }
    {
        !matches!(self.dialogue.stage(), Stage::Unlinked | Stage::Ended(_))
    }

    /// Returns whether packets are awaited: the client has sent all its requests.
    pub fn is_streaming(&self) -> bool
        ensures yes { OnTrue result (self.now.talk.stage ≡ Stage.Packets) }
        ensures no { OnFalse result (self.now.talk.stage ≢ Stage.Packets) }
    {
        matches!(self.dialogue.stage(), Stage::Packets)
    }

    /// What a step comes to in which the link gave bytes.
    pub(crate) fn turn(&self) -> Turn
        ensures { result ≡ turn_at self.now.talk.stage }
    {
        match self.dialogue.stage() {
            Stage::Ended(Ending::End) => Turn::Ended,
            Stage::Ended(ending) => Turn::Stopped(ending.event()),
            Stage::Unlinked | Stage::Station(_) | Stage::Number(_) | Stage::Packets => Turn::Goes,
        }
    }
}

/// The line of a reply.
fn line_of(bytes: &[u8]) -> &[u8]
    requires { (line : List ℕ) × IsReply bytes.now line }
    ensures reply { IsReply bytes.now result.now }
    ensures short { length result.now ≤ LONGEST_LINE }
{
    &bytes[..bytes.len() - 2]
}

/// Takes what the bytes of a reply have come to.
fn read_reply(dialogue: &mut Dialogue, kept: &mut ArrayVec<u8, PACKET>, part: Part) -> Event
    requires stage { AwaitsReply dialogue.old.stage }
    requires part { IsReplyPart kept.old.items part }
    ensures brings { Brings dialogue.old kept.old.items (record { talk = dialogue.new; kept = kept.new.items }) result }
    ensures begun { result ≡ Event.None → part ≡ Part.Begun }
{
    let event = match part {
        Part::Begun => return Event::None,
        Part::Whole => dialogue.read_reply(line_of(kept.as_slice())),
        Part::End => unreachable!(),
        Part::Garbage => dialogue.read_garbage(),
    };
    kept.clear();
    event
}

/// Takes what the bytes of a packet have come to.
fn read_packets(dialogue: &mut Dialogue, kept: &mut ArrayVec<u8, PACKET>, part: Part) -> Event
    requires stage { dialogue.old.stage ≡ Stage.Packets }
    requires part { IsPacketPart kept.old.items part }
    ensures brings { Brings dialogue.old kept.old.items (record { talk = dialogue.new; kept = kept.new.items }) result }
    ensures begun { result ≡ Event.None → part ≡ Part.Begun }
{
    let event = match part {
        Part::Begun => return Event::None,
        Part::Whole => read_packet(dialogue, kept.as_slice()),
        Part::End => dialogue.end(Ending::End),
        Part::Garbage => dialogue.read_garbage(),
    };
    kept.clear();
    event
}

/// Takes the packet at the start of bytes, where its record is wanted.
fn read_leading<'a>(dialogue: &mut Dialogue, bytes: &'a [u8]) -> Option<(usize, u32, &'a [u8; 512])>
    requires { dialogue.old.stage ≡ Stage.Packets }
    ensures brings { IfSome result (λ r. Brings dialogue.old (take PACKET bytes.now)
        (record { talk = dialogue.new; kept = [] }) (Event.Record r.0 r.1 r.2.now)) }
    ensures long { IfSome result (λ _. PACKET ≤ length bytes.now) }
    ensures none { IfNone result (dialogue.new ≡ dialogue.old) }
{
    let Some(packet) = bytes.first_chunk() else {
        return None;
    };
    match Packet::read(packet) {
        Ok((number, record)) => match dialogue.read_wanted(number, record) {
            Some(k) => Some((k, number, record)),
            None => None,
        },
        Err(_) => None,
    }
}

/// Takes the bytes of a whole packet.
fn read_packet(dialogue: &mut Dialogue, bytes: &[u8]) -> Event
    requires { (n : ℕ) × HasHead bytes.now n × (length bytes.now ≡ PACKET) }
    ensures read { (n : ℕ) × (r : List ℕ) × IsPacket bytes.now n r
        × (at_packet (place_of dialogue.old.wants r) n r (heard (Brought n r) dialogue.old)
        ≡ (dialogue.new, result)) }
    ensures reported { result ≢ Event.None }
{
    let Some(packet) = bytes.first_chunk() else {
        unreachable!();
    };
    match Packet::read(packet) {
        Ok((number, record)) => dialogue.read_packet(number, record),
        Err(_) => unreachable!(),
    }
}
