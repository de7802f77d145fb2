//! What a server keeps of one link: its session, and what is left to be written.
ghost use Rattle.std.specs.Prelude.{◌≡◌, ◌≢◌, ◌↔◌, ◌⊎◌, ◌+◌, ◌*◌, ◌<◌, ◌≤◌, [], ◌++◌, drop, length, List, true};
ghost use Rattle.std.specs.Prelude.{ℕ, IfNone, IfSome};
ghost use Rattle.std.specs.Bool.{OnFalse, OnTrue};
ghost use Rattle.slink_wire.specs.declared.limits.TheConstants.{STATIONS};
ghost use Rattle.slink_feed.specs.declared.session.Phase.{Phase};
ghost use Rattle.slink_feed.specs.declared.session.Sent.{Sent};
ghost use Rattle.slink_feed.specs.Serving.{IsNew, Serves};
ghost use Rattle.slink_feed.specs.Session.{Fits, IsAtNext, IsWaiting, has_sent_all, sent};
ghost use Rattle.slink_feed.specs.Window.{Window};
ghost use Rattle.slink_live.specs.Awake.{HasLeft, HasRoom, IsClosable, IsFilled, IsLost, MustClose};
ghost use Rattle.slink_live.specs.History.{Asks, IsEarlier};
ghost use Rattle.slink_live.specs.Served.{LinkState, link_state};
ghost use Rattle.slink_live.specs.private.Calling.{Gives, IsRested};
ghost use Rattle.slink_live.specs.private.Granting.{AreDue, Covers, Has};

use crate::pending::{MOST_PENDING, Pending};
use crate::places::Places;
use crate::ready::Interest;
use slink_feed::{Feed, Session, Unsent};
use slink_wire::PACKET;
use std::marker::Model;

/// No reply has more bytes.
const REPLY: usize = 35;

/// The most bytes that are read at once.
pub(crate) const PIECE: usize = 64;

/// So often a session is called at most at a time: for the packets that there is room for, and for its end.
const ASKS: usize = MOST_PENDING / PACKET + 1;

/// What is to be done with a link whose packets were queued.
#[derive(Clone, Copy, Debug, PartialEq, Eq)]
pub(crate) enum Update {
    /// There is none.
    Empty,
    /// It stands, and this is wanted of it.
    Wants(Interest),
    /// It is to be closed.
    Closes,
}

/// A link's session, and what that sent and the link didn't take yet.
#[derive(Drop)]
pub(crate) struct Link {
    session: Session,
    // The number of the ring that is asked first.
    ring: usize,
    pending: Pending,
}

impl Model for Link {
    ghost Value = { LinkState };

    ghost view = { λ l. link_state l.session l.ring l.pending.bytes };
}

impl Link {
    /// A new link.
    pub(crate) fn new() -> Link
        ensures session { IsNew result.session }
        ensures ring { result.ring ≡ 0 }
        ensures pending { result.pending ≡ [] }
        ensures fits { (feed : List Window) → Fits feed result.session.state }
    {
        Link {
            session: Session::new(),
            ring: 0,
            pending: Pending::new(),
        }
    }

    /// How many bytes can be read now, so that there is room for each reply.
    pub(crate) fn readable(&self) -> usize
        ensures room { length self.now.pending + REPLY * result ≤ MOST_PENDING }
        ensures most { result ≤ PIECE }
        ensures some { HasRoom self.now → 0 < result }
    {
        ((MOST_PENDING - self.pending.len()) / REPLY).min(PIECE)
    }

    /// What is left to be written.
    pub(crate) fn pending(&self) -> &[u8]
        ensures { result.now ≡ self.now.pending }
    {
        self.pending.as_slice()
    }

    /// Whether its session is closed.
    fn is_closed(&self) -> bool
        ensures yes { OnTrue result (self.now.session.state.phase ≡ Phase.Closed) }
        ensures no { OnFalse result (self.now.session.state.phase ≢ Phase.Closed) }
    {
        self.session.is_closed()
    }

    /// Whether its session is closed, and nothing is pending.
    fn must_close(&self) -> bool
        ensures yes { OnTrue result (MustClose self.now) }
        ensures no { OnFalse result (¬ (MustClose self.now)) }
    {
        self.session.is_closed() && self.pending.is_empty()
    }

    /// Whether the client has sent all its commands.
    fn is_streaming(&self) -> bool
        ensures yes { OnTrue result (self.now.session.state.phase ≡ Phase.Streaming) }
        ensures no { OnFalse result (self.now.session.state.phase ≢ Phase.Streaming) }
    {
        self.session.is_streaming()
    }

    /// Whether it streams, and nothing is pending: then it has all that there is, once it is filled.
    fn has_all(&self) -> bool
        ensures yes { OnTrue result ((self.now.session.state.phase ≡ Phase.Streaming) × (self.now.pending ≡ [])) }
        ensures no { OnFalse result
            (¬ ((self.now.session.state.phase ≡ Phase.Streaming) × (self.now.pending ≡ []))) }
    {
        self.session.is_streaming() && self.pending.is_empty()
    }

    /// Whether a record that is to be sent next has left its ring.
    fn is_lost(&self, feed: &Feed) -> bool
        ensures yes { OnTrue result (IsLost feed.now self.now.session.state) }
        ensures no { OnFalse result (¬ (IsLost feed.now self.now.session.state)) }
    {
        if !self.session.is_streaming() {
            return false;
        }
        for k in 0..feed.len() {
            if self.has_left(feed, k) {
                return true;
            }
        }
        false
    }

    /// Whether the next record of a station has left its ring.
    fn has_left(&self, feed: &Feed, k: usize) -> bool
        requires { k < length feed.now }
        ensures yes { OnTrue result (HasLeft feed.now self.now.session.state.grants k) }
        ensures no { OnFalse result (¬ (HasLeft feed.now self.now.session.state.grants k)) }
    {
        match self.session.position(k) {
            Some(position) => position < feed.ring(k).oldest(),
            None => false,
        }
    }

    /// Whether it is to be closed, once it is filled. A link that lost its position is found here, when records come:
    /// one that takes nothing is never writable.
    pub(crate) fn is_closable(&self, feed: &Feed, has_ended: bool) -> bool
        requires { IsFilled feed.now self.now }
        ensures yes { OnTrue result (IsClosable feed.now has_ended self.now) }
        ensures no { OnFalse result (¬ (IsClosable feed.now has_ended self.now)) }
    {
        self.must_close() || self.is_stuck(feed) || has_ended && self.has_all()
    }

    /// Whether the link is to be closed, where nothing more is due to it, and no record that is to be sent next has
    /// left its ring.
    pub(crate) fn is_closable_at_rest(&self, has_ended: bool) -> bool
        ensures yes { OnTrue result ((feed : List Window) → IsRested feed self.now
            → IsClosable feed has_ended self.now) }
        ensures no { OnFalse result ((feed : List Window) → IsRested feed self.now
            → ¬ (IsClosable feed has_ended self.now)) }
    {
        self.must_close() || has_ended && self.has_all()
    }

    /// Whether a record that is to be sent next has left its ring, once it is filled: with room for a packet none has.
    fn is_stuck(&self, feed: &Feed) -> bool
        requires { IsFilled feed.now self.now }
        ensures yes { OnTrue result (IsLost feed.now self.now.session.state) }
        ensures no { OnFalse result (¬ (IsLost feed.now self.now.session.state)) }
    {
        !self.has_room() && self.is_lost(feed)
    }

    /// Whether there is room for a packet.
    pub(crate) fn has_room(&self) -> bool
        ensures yes { OnTrue result (length self.now.pending + PACKET ≤ MOST_PENDING) }
        ensures no { OnFalse result (MOST_PENDING < length self.now.pending + PACKET) }
    {
        self.pending.len() <= MOST_PENDING - PACKET
    }

    /// What is wanted of the link: reading where there is room for replies, writing where bytes are pending.
    pub(crate) fn interest(&self) -> Interest
        ensures reads { (result.reads ≡ true) ↔ HasRoom self.now }
        ensures writes { (result.writes ≡ true) ↔ (self.now.pending ≢ []) }
        ensures streams { (result.is_streaming ≡ true) ↔ (self.now.session.state.phase ≡ Phase.Streaming) }
        ensures most { length self.now.pending ≤ MOST_PENDING }
    {
        Interest {
            reads: self.readable() > 0,
            writes: !self.pending.is_empty(),
            is_streaming: self.is_streaming(),
        }
    }

    /// Of which stations it is sent records, once it streams.
    pub(crate) fn granted(&self, feed: &Feed) -> Places
        requires { Fits feed.now self.now.session.state }
        ensures { Covers result self.now }
    {
        if !self.session.is_streaming() {
            return Places::none();
        }
        let mut places = Places::none();
        for k in 0..feed.len() {
            if self.session.position(k).is_some() {
                places = places.with(k);
            }
        }
        places
    }

    /// Takes what the link brought: the session answers each line.
    pub(crate) fn receive(&mut self, feed: &Feed, bytes: &[u8])
        requires fits { Fits feed.now self.old.session.state }
        requires room { length self.old.pending + REPLY * length bytes.now ≤ MOST_PENDING }
        ensures serves { Serves feed.now self.old.session bytes.now self.old.pending self.new.session
            self.new.pending }
        ensures ring { self.new.ring ≡ self.old.ring }
        ensures fits { Fits feed.now self.new.session.state }
    {
        let mut start = 0;
        while start < bytes.len() {
            let (used, reply) = self.session.take(feed, &bytes[start..]);
            self.queue(reply.bytes());
            start += used;
        }
    }

    /// Queues bytes, to be sent after those that are pending.
    fn queue(&mut self, bytes: &[u8])
        requires { length self.old.pending + length bytes.now ≤ MOST_PENDING }
        ensures { self.new ≡ record self.old { pending = self.old.pending ++ bytes.now } }
    {
        self.pending.queue(bytes);
    }

    /// Asks the session for packets, round and round of the stations, as many as there is room for.
    pub(crate) fn fill(&mut self, feed: &Feed)
        requires fits { Fits feed.now self.old.session.state }
        ensures asks { Asks feed.now self.old.session self.old.ring self.old.pending self.new.session self.new.ring
            self.new.pending }
        ensures fits { Fits feed.now self.new.session.state }
        ensures filled { IsFilled feed.now self.new }
    {
        // Before it streams a session sends nothing, and after its end nothing either.
        if !self.is_streaming() {
            return;
        }
        // One look shows which stations have a record due, most often one of them or none: they alone are asked.
        let mut due = self.due(feed);
        for ask in 0..ASKS {
            if !self.has_room() {
                return;
            }
            match self.next_due(due) {
                Some(k) => due = self.ask_due(feed, k, due),
                None => return self.end(feed),
            }
            if self.is_closed() {
                return;
            }
        }
    }

    /// The stations of which a record is due.
    fn due(&self, feed: &Feed) -> Places
        requires { self.now.session.state.phase ≡ Phase.Streaming }
        ensures { AreDue feed.now self.now.session.state result (length feed.now) }
    {
        let mut due = Places::none();
        for k in 0..feed.len() {
            if self.is_due(feed, k) {
                due = due.with(k);
            }
        }
        due
    }

    /// Whether a record of a station is due.
    fn is_due(&self, feed: &Feed, k: usize) -> bool
        requires { k < length feed.now }
        ensures yes { OnTrue result ((self.now.session.state.phase ≡ Phase.Streaming)
            × ¬ (IsAtNext feed.now self.now.session.state.grants k)) }
        ensures no { OnFalse result (self.now.session.state.phase ≡ Phase.Streaming
            → IsAtNext feed.now self.now.session.state.grants k) }
    {
        self.session.is_due(feed, k)
    }

    /// The index of the station that is asked next, of those that have a record due.
    fn next_due(&self, due: Places) -> Option<usize>
        ensures some { IfSome result (Has due) }
        ensures first { IfSome result (λ k. (j : ℕ) → IsEarlier self.now.ring j k → ¬ (Has due j)) }
        ensures none { IfNone result ((j : ℕ) → ¬ (Has due j)) }
    {
        due.first_from(self.ring)
    }

    /// Asks for the packet of a station of which a record is due. Returns the stations of which one is due then.
    fn ask_due(&mut self, feed: &Feed, k: usize, due: Places) -> Places
        requires room { length self.old.pending + PACKET ≤ MOST_PENDING }
        requires fits { Fits feed.now self.old.session.state }
        requires due { AreDue feed.now self.old.session.state due (length feed.now) }
        requires turn { Has due k }
        ensures gives { Gives feed.now k self.old self.new }
        ensures fits { Fits feed.now self.new.session.state }
        ensures due { (self.new.session.state.phase ≡ Phase.Closed)
            ⊎ AreDue feed.now self.new.session.state result (length feed.now) }
    {
        self.ask_at(feed, k);
        if self.is_due(feed, k) {
            due
        } else {
            due.without(k)
        }
    }

    /// Whether all that was requested is sent, and no record that comes is requested.
    fn has_sent_all(&self, feed: &Feed) -> bool
        ensures { result ≡ has_sent_all feed.now self.now.session.state.grants }
    {
        self.session.has_sent_all(feed)
    }

    /// Queues the END, where all that was requested is sent, and no record that comes is requested.
    fn end(&mut self, feed: &Feed)
        requires room { length self.old.pending + PACKET ≤ MOST_PENDING }
        requires fits { Fits feed.now self.old.session.state }
        requires streams { self.old.session.state.phase ≡ Phase.Streaming }
        requires none { (k : ℕ) → k < length feed.now → IsAtNext feed.now self.old.session.state.grants k }
        ensures asks { Asks feed.now self.old.session self.old.ring self.old.pending self.new.session self.new.ring
            self.new.pending }
        ensures fits { Fits feed.now self.new.session.state }
        ensures filled { IsFilled feed.now self.new }
    {
        if self.has_sent_all(feed) {
            self.ask(feed);
        }
    }

    /// Asks for the packet of the next station that has something to send, and returns whether one has.
    fn ask(&mut self, feed: &Feed) -> bool
        requires room { length self.old.pending + PACKET ≤ MOST_PENDING }
        requires fits { Fits feed.now self.old.session.state }
        ensures yes { OnTrue result (Asks feed.now self.old.session self.old.ring self.old.pending self.new.session
            self.new.ring self.new.pending) }
        ensures grows { OnTrue result ((self.new.session.state.phase ≡ Phase.Closed)
            ⊎ (length self.new.pending ≡ length self.old.pending + PACKET)) }
        ensures ends { self.old.session.state.phase ≡ Phase.Streaming
            → ((k : ℕ) → k < length feed.now → IsAtNext feed.now self.old.session.state.grants k)
            → OnTrue result (self.new.session.state.phase ≡ Phase.Closed) }
        ensures no { OnFalse result (IsWaiting feed.now self.old.session.state) }
        ensures stays { OnFalse result (self.new ≡ self.old) }
        ensures fits { Fits feed.now self.new.session.state }
    {
        let ring = self.ring;
        for k in ring..feed.len() {
            if self.ask_at(feed, k) {
                return true;
            }
        }
        for k in 0..feed.len().min(ring) {
            if self.ask_at(feed, k) {
                return true;
            }
        }
        false
    }

    /// Asks for the next packet of a station, and returns whether something is sent of it.
    fn ask_at(&mut self, feed: &Feed, k: usize) -> bool
        requires within { k < length feed.now }
        requires few { k < STATIONS }
        requires room { length self.old.pending + PACKET ≤ MOST_PENDING }
        requires fits { Fits feed.now self.old.session.state }
        ensures yes { OnTrue result (Gives feed.now k self.old self.new) }
        ensures no { OnFalse result
            (sent feed.now self.old.session.state k ≡ (self.old.session.state, Sent.Wait)) }
        ensures stays { OnFalse result (self.new ≡ self.old) }
        ensures fits { Fits feed.now self.new.session.state }
    {
        match self.session.next_record(feed, k) {
            Ok((number, record)) => {
                self.pending.queue_packet(number, record);
                self.ring = k + 1;
                true
            }
            Err(Unsent::Wait) => false,
            Err(unsent) => {
                self.queue(unsent.bytes());
                self.ring = k + 1;
                true
            }
        }
    }

    /// Notes that the link accepted `count` bytes.
    pub(crate) fn taken(&mut self, count: usize)
        requires { count ≤ length self.old.pending }
        ensures { self.new ≡ record self.old { pending = drop count self.old.pending } }
    {
        self.pending.taken(count);
    }
}
