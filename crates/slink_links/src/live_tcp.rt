//! An input, a listener and its links, by one wait for all of them.
ghost use Rattle.std.specs.Prelude.{◌≡◌, [], IfOk, IfSome, true};
ghost use Rattle.slink_links.specs.Happened.{happened, has_failed};

use crate::acceptor::Acceptor;
use crate::draining::Draining;
use crate::guards::Guards;
use crate::input::{INPUT, Input};
use crate::round::Round;
use crate::slot::{Readiness, Slot};
use mio::net::TcpListener;
use mio::{Events, Poll, Token};
use slink_live::{Event, Interest, Log, Ready};
use std::alloc::Global;
use std::io;
use std::io::Read;
use std::net::{Net, SocketAddr};
use std::os::fd::AsRawFd;
use std::time::{Clock, Duration, Instant};

/// The token of the listener. The slots' tokens follow, and those of the links that leave.
const LISTENER: usize = 1;

/// The token of the first slot.
const FIRST: usize = 2;

/// The most events that are taken from the system at once.
const EVENTS: usize = 256;

/// How often the clock is read while connections drain or have a time-out, in milliseconds.
const TICK: u64 = 250;

/// Where links are taken from, and how.
#[derive(Clone, Copy, Debug)]
pub struct LivePlan {
    /// The address and port at which they dial.
    pub address: SocketAddr,
    /// How many stand at once.
    pub clients: usize,
    /// How long a handshake may take, and a link take nothing though there is something to send; no bound where there
    /// is none.
    pub timeout: Option<Duration>,
}

/// An input, a listener and its links.
#[derive(Drop)]
pub struct LiveTcp<'a, C: Clock, I: Drop> {
    clock: &'a C,
    guards: Guards,
    poll: Poll,
    events: Events,
    input: Input<I>,
    acceptor: Acceptor,
    timeout: Option<Duration>,
    slots: Vec<Slot>,
    draining: Draining,
    round: Round,
    // The next token of the round, and whether the round found something.
    cursor: usize,
    is_busy: bool,
    looked_at: Option<Instant>,
    has_failed: bool,
    log: Log,
}

/// A list of `count` slots for links.
fn slots(alloc: Global, count: usize) -> io::Result<Vec<Slot>> {
    let mut slots = Vec::new(alloc);
    for slot in 0..count {
        slots.push(Slot::new())?;
    }
    Ok(slots)
}

/// A listener that is waited for.
fn acceptor_at<N: Net>(host: &N, address: SocketAddr, poll: &Poll) -> io::Result<Acceptor> {
    let mut listener = TcpListener::bind(host, address)?;
    poll.registry()
        .register(&mut listener, Token(LISTENER), mio::Interest::READABLE)?;
    Ok(Acceptor::new(listener))
}

/// A round with the tokens of the input and of the listener.
fn first_round(alloc: Global, count: usize) -> io::Result<Round> {
    let mut round = Round::new(alloc, count)?;
    round.add(INPUT);
    round.add(LISTENER);
    Ok(round)
}

/// Slots for the links of `clients`, room for those of them that leave, and a round with room for the tokens of all.
fn slots_for(alloc: Global, clients: usize) -> io::Result<(Vec<Slot>, Draining, Round)> {
    let end = FIRST.saturating_add(clients);
    let slots = slots(alloc, clients)?;
    let draining = Draining::new(alloc, end, clients)?;
    Ok((slots, draining, first_round(alloc, end)?))
}

/// What waits, and the listener that is waited for. No socket takes the descriptor of a standard stream that is closed.
fn waiting<N: Net>(
    host: &N,
    alloc: Global,
    address: SocketAddr,
) -> io::Result<(Guards, Poll, Events, Acceptor)> {
    let guards = Guards::new(host, alloc)?;
    let poll = Poll::new(host)?;
    let events = Events::with_capacity(alloc, EVENTS)?;
    let acceptor = acceptor_at(host, address, &poll)?;
    Ok((guards, poll, events, acceptor))
}

impl<'a, C: Net + Clock, I: Read + AsRawFd + Drop> LiveTcp<'a, C, I> {
    /// Listens at an address. No socket takes the descriptor of a standard stream that is closed.
    ///
    /// # Errors
    ///
    /// Where the system refuses it, or there is too little memory.
    pub fn bind(
        host: &'a C,
        alloc: Global,
        plan: LivePlan,
        input: I,
    ) -> io::Result<LiveTcp<'a, C, I>>
        ensures { IfOk result (λ t. happened t ≡ []) }
    {
        let (guards, poll, events, acceptor) = waiting(host, alloc, plan.address)?;
        let (slots, draining, round) = slots_for(alloc, plan.clients)?;
        let input = Input::new(input, &guards, poll.registry());
        Ok(LiveTcp {
            clock: host,
            guards,
            poll,
            events,
            input,
            acceptor,
            timeout: plan.timeout,
            slots,
            draining,
            round,
            cursor: 0,
            is_busy: false,
            looked_at: None,
            has_failed: false,
            log: Log::new(),
        })
    }
}

impl<C: Clock, I: Read + AsRawFd + Drop> LiveTcp<'_, C, I> {
    /// Returns the address and port at which links dial.
    ///
    /// # Errors
    ///
    /// Where the system doesn't say.
    pub fn address(&self) -> io::Result<SocketAddr> {
        self.acceptor.address()
    }

    /// Returns whether the system failed to say what is ready, so that nothing comes any more.
    pub fn has_failed(&self) -> bool
        ensures { result ≡ has_failed self.now }
    {
        self.has_failed
    }

    /// Waits until each link that was closed has what was written to it, or was given time to: before the program ends.
    pub fn finish(&mut self)
        ensures { happened self.new ≡ happened self.old }
    {
        for round in 0..u64::MAX {
            if self.draining.is_empty() || self.ask().is_err() {
                return;
            }
        }
    }

    /// What can be done next: in this round, or in one that follows once the system has said what is ready.
    fn next_event(&mut self) -> Event
        ensures log { self.new.log ≡ self.old.log }
        ensures failed { result ≡ Event.Nothing → has_failed self.new ≡ true }
    {
        for round in 0..u64::MAX {
            if let Some(event) = self.in_round() {
                return event;
            }
            if self.ask().is_err() {
                break;
            }
        }
        self.has_failed = true;
        Event::Nothing
    }

    /// What can be done in the rest of the round.
    fn in_round(&mut self) -> Option<Event>
        ensures log { self.new.log ≡ self.old.log }
        ensures some { IfSome result (λ event. event ≡ Event.Nothing → ⊥) }
    {
        for turn in 0..u64::MAX {
            let token = self.round.next(self.cursor)?;
            self.cursor = token.saturating_add(1);
            let event = self.at(token);
            if event.is_some() {
                self.is_busy = true;
                return event;
            }
            self.round.remove(token);
        }
        None
    }

    /// Returns what can be done with a token of the round: that of the input, of the listener or of a slot.
    fn at(&mut self, token: usize) -> Option<Event>
        ensures log { self.new.log ≡ self.old.log }
        ensures some { IfSome result (λ event. event ≡ Event.Nothing → ⊥) }
    {
        if token == INPUT {
            return self.input.readiness();
        }
        if token == LISTENER {
            return self.acceptor.is_dialled().then_some(Event::Dialled);
        }
        let slot = token - FIRST;
        match self.slots.get(slot)?.readiness() {
            Readiness::None => None,
            Readiness::Readable => Some(Event::Readable(slot)),
            Readiness::Writable => Some(Event::Writable(slot)),
            Readiness::Gone => Some(Event::Gone(slot)),
        }
    }

    /// How long the system may wait: not at all where the round found something, else up to the next look at the time.
    fn wait(&self) -> Option<Duration> {
        if self.is_busy {
            return Some(Duration::ZERO);
        }
        let is_timed = self.timeout.is_some() && self.slots.iter().any(|slot| slot.is_timed());
        if is_timed || !self.draining.is_empty() || self.acceptor.is_short() {
            Some(Duration::from_millis(TICK))
        } else {
            None
        }
    }

    /// Asks the system what is ready, and waits for it where the round found nothing.
    ///
    /// # Errors
    ///
    /// Where the system doesn't say, or the clock fails.
    fn ask(&mut self) -> io::Result<()>
        ensures { self.new.log ≡ self.old.log }
    {
        let wait = self.wait();
        self.cursor = 0;
        self.is_busy = false;
        self.poll.poll(&mut self.events, wait)?;
        self.take_events();
        self.look_at_time()
    }

    /// Takes note of what is ready.
    fn take_events(&mut self)
        ensures { self.new.log ≡ self.old.log }
    {
        for event in self.events.iter() {
            let Token(token) = event.token();
            if token == INPUT {
                self.input.set_ready();
            } else if token == LISTENER {
                self.acceptor.set_ready();
            } else if token - FIRST < self.slots.len() {
                let reads = event.is_readable() || event.is_read_closed() || event.is_error();
                let writes = event.is_writable() || event.is_write_closed();
                self.slots[token - FIRST].set_ready(reads, writes);
            } else {
                self.draining.set_ready(token);
            }
            self.round.add(token);
        }
    }

    /// Lets go of links that have left, and now and then gives up those that wait for too long.
    ///
    /// # Errors
    ///
    /// Where the clock fails.
    fn look_at_time(&mut self) -> io::Result<()>
        ensures { self.new.log ≡ self.old.log }
    {
        if self.timeout.is_none() && self.draining.is_empty() && !self.acceptor.is_short() {
            return Ok(());
        }
        let now = Instant::now(self.clock)?;
        if !self.draining.is_empty() {
            self.draining.drain(now);
        }
        if self.is_due(now) {
            self.looked_at = Some(now);
            self.acceptor.try_again();
            self.round.add(LISTENER);
            self.give_up(now);
        }
        Ok(())
    }

    /// Whether the last look is long enough ago.
    fn is_due(&self, now: Instant) -> bool {
        match self.looked_at {
            Some(last) => now.saturating_duration_since(last) >= Duration::from_millis(TICK),
            None => true,
        }
    }

    /// Gives up the links that wait for too long.
    fn give_up(&mut self, now: Instant)
        ensures { self.new.log ≡ self.old.log }
    {
        if let Some(limit) = self.timeout {
            for slot in 0..self.slots.len() {
                if self.slots[slot].look_at(now, limit) {
                    self.round.add(slot.saturating_add(FIRST));
                }
            }
        }
    }

    /// Takes a link that dials into a slot.
    fn accept_once(&mut self, slot: usize) -> bool
        ensures { self.new.log ≡ self.old.log }
    {
        if slot >= self.slots.len() {
            return false;
        }
        let Some(mut stream) = self.acceptor.accept() else {
            return false;
        };
        let token = slot.saturating_add(FIRST);
        let both = mio::Interest::READABLE | mio::Interest::WRITABLE;
        if self
            .poll
            .registry()
            .register(&mut stream, Token(token), both)
            .is_err()
        {
            return false;
        }
        self.slots[slot].open(stream);
        self.round.add(token);
        true
    }

    /// Closes the link in a slot so that what was written to it comes through.
    fn retire(&mut self, slot: usize)
        ensures { self.new.log ≡ self.old.log }
    {
        if slot < self.slots.len()
            && let Some(stream) = self.slots[slot].leave()
            && let Ok(now) = Instant::now(self.clock)
        {
            self.draining.add(stream, self.poll.registry(), now);
        }
    }
}

impl<C: Clock, I: Read + AsRawFd + Drop> Ready for LiveTcp<'_, C, I> {
    ghost log = { happened };

    ghost has_failed = { has_failed };

    fn next(&mut self) -> Event {
        let event = self.next_event();
        self.log.next(event);
        event
    }

    fn read_input(&mut self, buf: &mut [u8]) -> usize {
        let count = self.input.read(self.poll.registry(), buf);
        self.log.input(&buf[..count]);
        count
    }

    fn leave_input(&mut self) {
        self.input.leave(self.poll.registry());
        self.log.left();
    }

    fn accept(&mut self, slot: usize) -> bool {
        let is_open = self.accept_once(slot);
        if is_open {
            self.log.opened(slot);
        } else {
            self.log.missed(slot);
        }
        is_open
    }

    fn read(&mut self, slot: usize, buf: &mut [u8]) -> usize {
        let count = if slot < self.slots.len() {
            self.slots[slot].read(buf)
        } else {
            0
        };
        self.log.received(slot, &buf[..count]);
        count
    }

    fn write(&mut self, slot: usize, bytes: &[u8]) -> usize {
        let count = if slot < self.slots.len() {
            self.slots[slot].write(bytes)
        } else {
            0
        };
        self.log.handed(slot, bytes);
        self.log.emitted(slot, &bytes[..count]);
        count
    }

    fn close(&mut self, slot: usize) {
        self.retire(slot);
        self.log.gone(slot);
    }

    fn wants(&mut self, slot: usize, interest: Interest) {
        if slot < self.slots.len() && self.slots[slot].wants(interest) {
            self.round.add(slot.saturating_add(FIRST));
        }
        self.log.wants(slot, interest);
    }

    fn wants_links(&mut self, wanted: bool) {
        self.acceptor.wants(wanted);
        self.round.add(LISTENER);
        self.log.wants_links(wanted);
    }
}
