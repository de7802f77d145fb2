//! The session that serves one connection.
ghost use Rattle.std.specs.Prelude.{◌≡◌, ◌≢◌, ◌≤◌, ◌<◌, ◌++◌, List, ℕ, length, option_map};
ghost use Rattle.std.specs.Prelude.{◌^◌, IfErr, IfOk, slice_get, take};
ghost use Rattle.std.specs.Bool.{OnFalse, OnTrue};
ghost use Rattle.std.specs.Option.{ForSome};
ghost use Rattle.slink_wire.specs.Lines.{IsHeld, YieldsNothing};
ghost use Rattle.slink_wire.specs.Packet.{packet_bytes};
ghost use Rattle.slink_feed.specs.declared.grant.Grant.{Grant};
ghost use Rattle.slink_feed.specs.Window.{Window};
ghost use Rattle.slink_feed.specs.Running.{Stands};
ghost use Rattle.slink_feed.specs.Serving.{Answers, IsNew, SessionState, TakesWhole};
ghost use Rattle.slink_feed.specs.Session.{Fits, IsAtNext, has_sent_all, grant_at, sent, sent_bytes};
ghost use Rattle.slink_feed.specs.Session.{sent_without};

use crate::feed::Feed;
use crate::progress::Progress;
use slink_wire::{Lines, MOST_RECORDS, PACKET, Reply, Took};
use std::alloc::Allocator;
use std::marker::Model;

/// How far a session has come. The stations are named by their indices in the feed.
#[derive(Clone, Copy, Debug, PartialEq, Eq)]
pub enum Phase {
    /// No station is chosen.
    Fresh,
    /// This station is chosen, and has no grant yet.
    Chosen(usize),
    /// This station is chosen, and has a grant.
    Granted(usize),
    /// Records are sent.
    Streaming,
    /// Nothing more is answered or sent.
    Closed,
}

/// What a session sends when a packet of a station is requested.
#[derive(Debug, PartialEq, Eq, Drop)]
pub enum Sent {
    /// The packet of the next record.
    Packet([u8; PACKET]),
    /// Nothing now.
    Wait,
    /// All that was requested was sent: the session is closed, and `END` is to be sent.
    Done,
    /// The next record has left the ring: the session is closed.
    Overrun,
    /// The session was closed already.
    Closed,
}

/// Why no record is sent when a packet of a station is requested.
#[derive(Clone, Copy, Debug, PartialEq, Eq)]
pub enum Unsent {
    /// There is none now.
    Wait,
    /// All that was requested was sent: the session is closed, and `END` is to be sent.
    Done,
    /// The next record has left the ring: the session is closed.
    Overrun,
    /// The session was closed already.
    Closed,
}

impl Unsent {
    /// Returns the bytes that are to be written: `END`, or none.
    pub fn bytes(self) -> &'static [u8]
        ensures { result.now ≡ sent_bytes (sent_without self) }
    {
        match self {
            Unsent::Done => b"END",
            Unsent::Wait | Unsent::Overrun | Unsent::Closed => b"",
        }
    }

    /// What a session sends where no record is sent for this reason.
    pub(crate) fn sent(self) -> Sent
        ensures { result ≡ sent_without self }
    {
        match self {
            Unsent::Wait => Sent::Wait,
            Unsent::Done => Sent::Done,
            Unsent::Overrun => Sent::Overrun,
            Unsent::Closed => Sent::Closed,
        }
    }
}

/// The session of one connection.
#[derive(Drop)]
pub struct Session {
    progress: Progress,
    lines: Lines,
}

impl Model for Session {
    ghost Value = { SessionState };

    ghost view = { λ s. record { state = s.progress; held = s.lines } };

    // Unless it is closed, it stands for the stream that its link brought, in which no line is too long.
    ghost invariant = { λ s. Stands (record { state = s.progress; held = s.lines }) };
}

impl Session {
    /// Returns the session of a new connection: no station is chosen, and none has a grant.
    pub fn new() -> Session
        ensures is_new { IsNew result }
        ensures fits { (feed : List Window) → Fits feed result.state }
        ensures stands { Stands result }
    {
        Session {
            progress: Progress::new(),
            lines: Lines::new(),
        }
    }

    /// Takes bytes up to the end of one line, and returns how many it took, and its reply to that line (SeedLink 3,
    /// handshaking). A closed session takes all bytes, and replies nothing.
    ///
    /// It is lent the same feed at every call, whose rings keep their indices.
    pub fn take<A: Allocator>(&mut self, feed: &Feed<A>, bytes: &[u8]) -> (usize, Reply)
        requires { Fits feed.now self.old.state }
        // The session goes on to stand for the stream that its link brought so far.
        ensures held { (stream : List ℕ) → self.old.state.phase ≢ Phase.Closed → IsHeld self.old.held stream
            → IsHeld self.new.held (stream ++ take result.0 bytes.now) }
        // The answer is to what these bytes add to the lines of the stream.
        ensures answers { (stream : List ℕ) → self.old.state.phase ≢ Phase.Closed → IsHeld self.old.held stream
            → Answers feed.now self.old.state stream (stream ++ take result.0 bytes.now) self.new.state result.1 }
        // All bytes are taken, unless a line ends or is too long.
        ensures whole { (stream : List ℕ) → self.old.state.phase ≢ Phase.Closed → IsHeld self.old.held stream
            → TakesWhole stream (stream ++ take result.0 bytes.now) result.0 (length bytes.now) }
        // Fewer of them add nothing.
        ensures first { (stream : List ℕ) (n : ℕ) → self.old.state.phase ≢ Phase.Closed → IsHeld self.old.held stream
            → n < result.0 → YieldsNothing stream (stream ++ take n bytes.now) }
        ensures closed { self.old.state.phase ≡ Phase.Closed
            → (result.0 ≡ length bytes.now) × (result.1 ≡ Reply.Nothing) × (self.new ≡ self.old) }
        // It takes some, where there are any.
        ensures some { 0 < length bytes.now → 0 < result.0 }
        ensures bound { result.0 ≤ length bytes.now }
        ensures fits { Fits feed.now self.new.state }
        ensures stands { Stands self.new }
    {
        if self.progress.is_closed() {
            return (bytes.len(), Reply::Nothing);
        }
        let Took { used, what } = self.lines.take(bytes);
        (used, self.progress.answer_to(feed, what))
    }

    /// Returns the next packet of the station at an index of the feed, or why none is sent.
    ///
    /// It is lent the same feed at every call, whose rings keep their indices.
    pub fn packet<A: Allocator>(&mut self, feed: &Feed<A>, k: usize) -> Sent
        requires in_range { k < length feed.now }
        requires fits { Fits feed.now self.old.state }
        ensures sent { sent feed.now self.old.state k ≡ (self.new.state, result) }
        ensures held { self.new.held ≡ self.old.held }
        ensures fits { Fits feed.now self.new.state }
        ensures stands { Stands self.new }
        // The ring of a packet keeps at most 1,000,000 records.
        ensures few { (bytes : List ℕ) → result ≡ Sent.Packet bytes
            → ForSome (slice_get feed.now k) (λ w. length w.records ≤ MOST_RECORDS) }
    {
        self.progress.packet(feed, k)
    }

    /// Returns the record of the next packet of the station at an index of the feed, with its number modulo 2^24. The
    /// session goes on as by [`Session::packet`], and the ring lends the record, so that its packet can be made where
    /// it is to lie.
    ///
    /// It is lent the same feed at every call, whose rings keep their indices.
    ///
    /// # Errors
    ///
    /// The reason, where no record is sent.
    pub fn next_record<'f, A: Allocator>(
        &mut self,
        feed: &'f Feed<A>,
        k: usize,
    ) -> Result<(u32, &'f [u8; 512]), Unsent>
        requires in_range { k < length feed.now }
        requires fits { Fits feed.now self.old.state }
        ensures sent { IfOk result (λ r. sent feed.now self.old.state k
            ≡ (self.new.state, Sent.Packet (packet_bytes r.0 r.1.now))) }
        ensures unsent { IfErr result (λ e. sent feed.now self.old.state k ≡ (self.new.state, sent_without e)) }
        ensures number { IfOk result (λ r. r.0 < 2 ^ 24) }
        ensures held { self.new.held ≡ self.old.held }
        ensures fits { Fits feed.now self.new.state }
        ensures stands { Stands self.new }
        // The ring of a record keeps at most 1,000,000 records.
        ensures few { IfOk result (λ _. ForSome (slice_get feed.now k) (λ w. length w.records ≤ MOST_RECORDS)) }
    {
        self.progress.next_record(feed, k)
    }

    /// Returns whether a record is due of the station at an index of the feed: the session streams, was granted the
    /// station, and hasn't sent all records that were pushed to it. Then [`Session::packet`] gives the next one, or
    /// reports that it left the ring. While a record of one station is due, nothing is sent of the stations that have
    /// none due.
    ///
    /// It is lent the same feed at every call, whose rings keep their indices.
    pub fn is_due<A: Allocator>(&self, feed: &Feed<A>, k: usize) -> bool
        requires { k < length feed.now }
        ensures yes { OnTrue result
            ((self.now.state.phase ≡ Phase.Streaming) × ¬ (IsAtNext feed.now self.now.state.grants k)) }
        ensures no { OnFalse result
            (self.now.state.phase ≡ Phase.Streaming → IsAtNext feed.now self.now.state.grants k) }
    {
        self.progress.is_due(feed, k)
    }

    /// Returns whether all that was requested is sent, and no record that comes later is requested. It is so of a
    /// session without grants.
    ///
    /// It is lent the same feed at every call, whose rings keep their indices.
    pub fn has_sent_all<A: Allocator>(&self, feed: &Feed<A>) -> bool
        ensures { result ≡ has_sent_all feed.now self.now.state.grants }
    {
        self.progress.has_sent_all(feed)
    }

    /// Does nothing. Where it is called, a proof knows that the session stands for the stream that its link brought,
    /// unless it is closed.
    pub(crate) fn has_stream(&self)
        ensures { Stands self.now }
    {
        // The prover learns here what is true of every session.
        let _ = &self.progress;
    }

    /// Returns whether the session is closed: nothing more is answered or sent.
    pub fn is_closed(&self) -> bool
        ensures yes { OnTrue result (self.now.state.phase ≡ Phase.Closed) }
        ensures no { OnFalse result (self.now.state.phase ≢ Phase.Closed) }
    {
        self.progress.is_closed()
    }

    /// Returns whether records are sent: the client has ended the handshake by END.
    pub fn is_streaming(&self) -> bool
        ensures yes { OnTrue result (self.now.state.phase ≡ Phase.Streaming) }
        ensures no { OnFalse result (self.now.state.phase ≢ Phase.Streaming) }
    {
        self.progress.is_streaming()
    }

    /// Returns the number of the record that is sent next of the station at an index of the feed, where it has a grant.
    pub fn position(&self, k: usize) -> Option<u64>
        ensures { result ≡ option_map (λ (g : Grant). g.position) (grant_at self.now.state.grants k) }
    {
        match self.progress.grant_of(k) {
            Some(grant) => Some(grant.position),
            None => None,
        }
    }
}
