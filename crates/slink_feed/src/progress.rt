//! How far a session has come: which commands it answers how, and which packets it sends.
ghost use Rattle.std.specs.Prelude.{◌≡◌, ◌≢◌, ◌⊎◌, ◌≤◌, ◌<◌, List, ℕ, None, IfErr, IfNone, IfOk, IfSome};
ghost use Rattle.std.specs.Prelude.{◌↔◌, ◌^◌, IsTrue, Some, length, replicate, slice_get};
ghost use Rattle.std.specs.Bool.{OnFalse, OnTrue};
ghost use Rattle.std.specs.Option.{ForSome};
ghost use Rattle.slink_wire.specs.Packet.{packet_bytes};
ghost use Rattle.slink_feed.specs.declared.grant.Grant.{Grant};
ghost use Rattle.slink_feed.specs.declared.session.Phase.{Phase};
ghost use Rattle.slink_feed.specs.declared.session.Sent.{Sent};
ghost use Rattle.slink_feed.specs.Serving.{IsAnswer};
ghost use Rattle.slink_feed.specs.Session.{AreReached, Fits, State, has_sent_all, answered, called, at, at_next};
ghost use Rattle.slink_feed.specs.Session.{chosen, ended, grant_at, answer_chosen, answer_fresh, answer_granted};
ghost use Rattle.slink_feed.specs.Session.{answer_streaming};
ghost use Rattle.slink_feed.specs.Session.{has_sent, sent, IsAtNext, sent_without};
ghost use Rattle.slink_feed.specs.Window.{record_at};

use crate::feed::Feed;
use crate::grant::{Grant, Mode, first_granted};
use crate::ring::SPAN;
use crate::session::{Phase, Sent, Unsent};
use slink_wire::{Command, LineOutcome, MOST_RECORDS, Packet, Reply, STATIONS};
use std::alloc::Allocator;
use std::marker::Model;

/// The phase of a session, and the grants of the stations.
#[derive(Drop)]
pub(crate) struct Progress {
    phase: Phase,
    grants: [Option<Grant>; STATIONS],
}

impl Model for Progress {
    ghost Value = { State };

    ghost view = { λ c. at c.phase c.grants };
}

impl Progress {
    /// A session in which no station is chosen, and none has a grant.
    pub(crate) fn new() -> Progress
        ensures { result ≡ at Phase.Fresh (replicate STATIONS None) }
    {
        Progress {
            phase: Phase::Fresh,
            grants: [None; STATIONS],
        }
    }

    /// Whether nothing more is answered or sent.
    pub(crate) fn is_closed(&self) -> bool
        ensures yes { OnTrue result (self.now.phase ≡ Phase.Closed) }
        ensures no { OnFalse result (self.now.phase ≢ Phase.Closed) }
    {
        matches!(self.phase, Phase::Closed)
    }

    /// Whether records are sent.
    pub(crate) fn is_streaming(&self) -> bool
        ensures yes { OnTrue result (self.now.phase ≡ Phase.Streaming) }
        ensures no { OnFalse result (self.now.phase ≢ Phase.Streaming) }
    {
        matches!(self.phase, Phase::Streaming)
    }

    /// The next packet of the station at an index of the feed.
    pub(crate) fn packet<A: Allocator>(&mut self, feed: &Feed<A>, k: usize) -> Sent
        requires in_range { k < length feed.now }
        requires fits { Fits feed.now self.old }
        ensures sent { sent feed.now self.old k ≡ (self.new, result) }
        ensures fits { Fits feed.now self.new }
        ensures few { (bytes : List ℕ) → result ≡ Sent.Packet bytes
            → ForSome (slice_get feed.now k) (λ w. length w.records ≤ MOST_RECORDS) }
    {
        match self.next_record(feed, k) {
            Ok((number, bytes)) => Sent::Packet(Packet::write(number, bytes)),
            Err(unsent) => unsent.sent(),
        }
    }

    /// The record of the next packet of the station at an index of the feed, with its number modulo 2^24.
    ///
    /// # Errors
    ///
    /// Why no record is sent.
    #[tactic(auto, using(crate::proofs::Waits::waits_before))]
    pub(crate) fn next_record<'f, A: Allocator>(
        &mut self,
        feed: &'f Feed<A>,
        k: usize,
    ) -> Result<(u32, &'f [u8; 512]), Unsent>
        requires in_range { k < length feed.now }
        requires fits { Fits feed.now self.old }
        ensures sent { IfOk result (λ r. sent feed.now self.old k
            ≡ (self.new, Sent.Packet (packet_bytes r.0 r.1.now))) }
        ensures number { IfOk result (λ r. r.0 < 2 ^ 24) }
        // The ring of a record keeps at most 1,000,000 records.
        ensures few { IfOk result (λ _. ForSome (slice_get feed.now k) (λ w. length w.records ≤ MOST_RECORDS)) }
        ensures unsent { IfErr result (λ e. sent feed.now self.old k ≡ (self.new, sent_without e)) }
        ensures fits { Fits feed.now self.new }
    {
        match self.phase {
            Phase::Fresh | Phase::Chosen(_) | Phase::Granted(_) => Err(Unsent::Wait),
            Phase::Streaming => match self.grant_of(k) {
                Some(grant) => self.next_from(feed, k, grant),
                None => Err(Unsent::Wait),
            },
            Phase::Closed => Err(Unsent::Closed),
        }
    }

    /// The record at a grant's position, or why none is sent.
    fn next_from<'f, A: Allocator>(
        &mut self,
        feed: &'f Feed<A>,
        k: usize,
        grant: Grant,
    ) -> Result<(u32, &'f [u8; 512]), Unsent>
        requires in_range { k < length feed.now }
        requires phase { self.old.phase ≡ Phase.Streaming }
        requires granted { grant_at self.old.grants k ≡ Some grant }
        requires fits { AreReached feed.now self.old.grants }
        ensures sent { IfOk result (λ r. sent feed.now self.old k
            ≡ (self.new, Sent.Packet (packet_bytes r.0 r.1.now))) }
        ensures number { IfOk result (λ r. r.0 < 2 ^ 24) }
        // The ring of a record keeps at most 1,000,000 records.
        ensures few { IfOk result (λ _. ForSome (slice_get feed.now k) (λ w. length w.records ≤ MOST_RECORDS)) }
        ensures unsent { IfErr result (λ e. sent feed.now self.old k ≡ (self.new, sent_without e)) }
        ensures fits { Fits feed.now self.new }
    {
        if grant.position == feed.ring(k).next() {
            return Err(self.at_next(feed));
        }
        match self.record_from(feed, k, grant) {
            Some(record) => Ok(record),
            None => {
                self.phase = Phase::Closed;
                Err(Unsent::Overrun)
            }
        }
    }

    /// The record at a grant's position.
    fn record_from<'f, A: Allocator>(
        &mut self,
        feed: &'f Feed<A>,
        k: usize,
        grant: Grant,
    ) -> Option<(u32, &'f [u8; 512])>
        requires in_range { k < length feed.now }
        requires phase { self.old.phase ≡ Phase.Streaming }
        requires granted { grant_at self.old.grants k ≡ Some grant }
        requires fits { AreReached feed.now self.old.grants }
        ensures sent { IfSome result (λ r. sent feed.now self.old k
            ≡ (self.new, Sent.Packet (packet_bytes r.0 r.1.now))) }
        ensures number { IfSome result (λ r. r.0 < 2 ^ 24) }
        // The ring of a record keeps at most 1,000,000 records.
        ensures few { IfSome result (λ _. ForSome (slice_get feed.now k) (λ w. length w.records ≤ MOST_RECORDS)) }
        ensures none { IfNone result (self.new ≡ self.old) }
        ensures gone { IfNone result (ForSome (slice_get feed.now k) (λ w. record_at w grant.position ≡ None)) }
        ensures fits { Fits feed.now self.new }
    {
        let ring = feed.ring(k);
        match ring.get(grant.position) {
            Some(bytes) => {
                self.grants[k] = Some(Grant {
                    mode: grant.mode,
                    position: grant.position + 1,
                });
                Some(((grant.position % SPAN) as u32, bytes))
            }
            None => None,
        }
    }

    /// Whether a record of a station is due, or was, and left its ring.
    pub(crate) fn is_due<A: Allocator>(&self, feed: &Feed<A>, k: usize) -> bool
        requires { k < length feed.now }
        ensures yes { OnTrue result ((self.now.phase ≡ Phase.Streaming) × ¬ (IsAtNext feed.now self.now.grants k)) }
        ensures no { OnFalse result (self.now.phase ≡ Phase.Streaming → IsAtNext feed.now self.now.grants k) }
    {
        self.is_streaming() && !self.is_at_next(feed, k)
    }

    /// Whether a station has no grant, or one at its ring's next record.
    fn is_at_next<A: Allocator>(&self, feed: &Feed<A>, k: usize) -> bool
        requires { k < length feed.now }
        ensures { IsTrue result ↔ IsAtNext feed.now self.now.grants k }
    {
        match self.grant_of(k) {
            Some(grant) => grant.position == feed.ring(k).next(),
            None => true,
        }
    }

    /// Closes where all that was granted is fetched.
    fn at_next<A: Allocator>(&mut self, feed: &Feed<A>) -> Unsent
        ensures sent { at_next (has_sent_all feed.now self.old.grants) self.old ≡ (self.new, sent_without result) }
        ensures grants { self.new.grants ≡ self.old.grants }
        ensures phase { (self.new.phase ≡ self.old.phase) ⊎ (self.new.phase ≡ Phase.Closed) }
    {
        if !self.has_sent_all(feed) {
            return Unsent::Wait;
        }
        self.phase = Phase::Closed;
        Unsent::Done
    }

    /// Whether all that was granted is fetched.
    pub(crate) fn has_sent_all<A: Allocator>(&self, feed: &Feed<A>) -> bool
        ensures { result ≡ has_sent_all feed.now self.now.grants }
    {
        for k in 0..feed.len() {
            if !self.has_sent_place(feed, k) {
                return false;
            }
        }
        true
    }

    /// Whether what was granted of a station is fetched.
    fn has_sent_place<A: Allocator>(&self, feed: &Feed<A>, k: usize) -> bool
        requires { k < length feed.now }
        ensures { ForSome (slice_get feed.now k) (λ w. result ≡ has_sent w (grant_at self.now.grants k)) }
    {
        match self.grant_of(k) {
            Some(grant) => grant.is_fetched(feed.ring(k).next()),
            None => true,
        }
    }

    /// The grant of a station.
    pub(crate) fn grant_of(&self, k: usize) -> Option<Grant>
        ensures { result ≡ grant_at self.now.grants k }
    {
        match self.grants.get(k) {
            Some(grant) => *grant,
            None => None,
        }
    }

    /// Answers a command.
    fn answer<A: Allocator>(&mut self, feed: &Feed<A>, command: Command) -> Reply
        requires { Fits feed.now self.old }
        ensures answered { answered feed.now self.old command ≡ (self.new, result) }
    {
        match self.phase {
            Phase::Fresh => self.answer_fresh(feed, command),
            Phase::Chosen(k) => self.answer_chosen(feed, k, command),
            Phase::Granted(k) => self.answer_granted(feed, k, command),
            Phase::Streaming => self.answer_streaming(command),
            Phase::Closed => Reply::Nothing,
        }
    }

    /// Answers what bytes of the stream gave.
    pub(crate) fn answer_to<A: Allocator>(&mut self, feed: &Feed<A>, what: LineOutcome) -> Reply
        requires { Fits feed.now self.old }
        ensures answer { IsAnswer feed.now self.old what self.new result }
        ensures fits { Fits feed.now self.new }
    {
        match what {
            LineOutcome::More => Reply::Nothing,
            LineOutcome::Line(line) => self.answer(feed, Command::read(line.as_slice())),
            LineOutcome::TooLong => self.end(),
        }
    }

    /// Answers a command before a station is chosen.
    fn answer_fresh<A: Allocator>(&mut self, feed: &Feed<A>, command: Command) -> Reply
        ensures answered { answer_fresh feed.now self.old command ≡ (self.new, result) }
    {
        match command {
            Command::Hello => Reply::Hello,
            Command::Station { sta, net } => self.choose(feed.find(&sta, net)),
            Command::Bye => self.close(),
            Command::SelectAll => Reply::Error,
            Command::Data(_) | Command::Fetch(_) | Command::End | Command::Other => Reply::Error,
        }
    }

    /// Answers a command where a station is chosen that has no grant.
    fn answer_chosen<A: Allocator>(&mut self, feed: &Feed<A>, k: usize, command: Command) -> Reply
        requires { k < length feed.now }
        ensures answered { answer_chosen feed.now k self.old command ≡ (self.new, result) }
    {
        match command {
            Command::Hello => Reply::Hello,
            Command::Station { sta, net } => self.choose(feed.find(&sta, net)),
            Command::SelectAll => Reply::Ok,
            Command::Data(number) => self.ask(feed, k, Mode::Data, number),
            Command::Fetch(number) => self.ask(feed, k, Mode::Fetch, number),
            Command::Bye => self.close(),
            Command::End | Command::Other => Reply::Error,
        }
    }

    /// Answers a command where a station is chosen that has a grant: END begins the records, and any other is answered
    /// as where it has none.
    fn answer_granted<A: Allocator>(&mut self, feed: &Feed<A>, k: usize, command: Command) -> Reply
        requires { k < length feed.now }
        ensures answered { answer_granted feed.now k self.old command ≡ (self.new, result) }
    {
        match command {
            Command::End => {
                self.phase = Phase::Streaming;
                Reply::Nothing
            }
            _ => self.answer_chosen(feed, k, command),
        }
    }

    /// Answers a command while records are sent.
    fn answer_streaming(&mut self, command: Command) -> Reply
        ensures answered { answer_streaming self.old command ≡ (self.new, result) }
    {
        match command {
            Command::Bye => self.close(),
            _ => Reply::Nothing,
        }
    }

    /// Chooses a station, whose grant is dropped.
    fn choose(&mut self, k: Option<usize>) -> Reply
        requires { IfSome k (λ k. k < STATIONS) }
        ensures answered { chosen k self.old ≡ (self.new, result) }
    {
        match k {
            Some(k) => {
                self.grants[k] = None;
                self.phase = Phase::Chosen(k);
                Reply::Ok
            }
            None => Reply::Error,
        }
    }

    /// Grants what is requested of the chosen station, if it can be had.
    fn ask<A: Allocator>(
        &mut self,
        feed: &Feed<A>,
        k: usize,
        mode: Mode,
        number: Option<u32>,
    ) -> Reply
        requires { k < length feed.now }
        ensures answered { called feed.now k mode number self.old ≡ (self.new, result) }
    {
        match first_granted(feed.ring(k), mode, number) {
            Some(position) => {
                self.grants[k] = Some(Grant { mode, position });
                self.phase = Phase::Granted(k);
                Reply::Ok
            }
            None => Reply::Error,
        }
    }

    /// Closes, and answers nothing.
    fn close(&mut self) -> Reply
        ensures state { self.new ≡ at Phase.Closed self.old.grants }
        ensures reply { result ≡ Reply.Nothing }
    {
        self.phase = Phase::Closed;
        Reply::Nothing
    }

    /// Closes since a line is too long.
    fn end(&mut self) -> Reply
        ensures answered { ended self.old ≡ (self.new, result) }
    {
        let reply = match self.phase {
            Phase::Fresh | Phase::Chosen(_) | Phase::Granted(_) => Reply::Error,
            Phase::Streaming | Phase::Closed => Reply::Nothing,
        };
        self.phase = Phase::Closed;
        reply
    }
}
