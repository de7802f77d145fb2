//! Links in memory, which a server serves without a socket.
ghost use Rattle.std.specs.Prelude.{◌≡◌, ◌≢◌, ◌≤◌, [], length, true, IfSome};

use crate::digest::Digest;
use crate::failure::Failure;
use slink_live::{Event, Interest, Log, Ready};
use std::alloc::Global;

/// An input and links in memory. All links dial before the input comes; what a link accepts goes into a digest.
#[derive(Drop)]
pub(crate) struct Links<'a> {
    input: &'a [u8],
    // So many links dial, and so many have.
    most: usize,
    dialled: usize,
    // What the links have to say, from the first of `fast` on and from the first of the others on.
    fast: usize,
    requests: [&'a [u8]; 2],
    // So many bytes a link accepts at a time.
    bite: usize,
    // How many bytes each has said, and what is wanted of it.
    said: Vec<usize>,
    interest: Vec<Interest>,
    // The slot that is looked at first, and whether the input has ended.
    first: usize,
    is_ended: bool,
    has_failed: bool,
    digest: Digest,
    log: Log,
}

/// Nothing is wanted.
const IDLE: Interest = Interest {
    reads: false,
    writes: false,
    is_streaming: false,
};

impl<'a> Links<'a> {
    /// `most` links over an input: the first `fast` of them say the first request, the others the second, and each
    /// accepts `bite` bytes at a time. `Memory` where there is no room for them.
    pub(crate) fn new(
        alloc: Global,
        input: &'a [u8],
        (fast, most): (usize, usize),
        requests: [&'a [u8]; 2],
        bite: usize,
    ) -> Result<Links<'a>, Failure> {
        let mut said = Vec::new(alloc);
        said.resize(most, 0)?;
        let mut interest = Vec::new(alloc);
        interest.resize(most, IDLE)?;
        Ok(Links {
            input,
            most,
            dialled: 0,
            fast,
            requests,
            bite,
            said,
            interest,
            first: 0,
            is_ended: false,
            has_failed: false,
            digest: Digest::new(),
            log: Log::new(),
        })
    }

    /// The digest of all that the links accepted so far, with the slot of each.
    pub(crate) fn value(&self) -> u64 {
        self.digest.value()
    }

    /// What the link in a slot hasn't said yet of its request.
    fn left(&self, slot: usize) -> &'a [u8] {
        let request = if slot < self.fast {
            self.requests[0]
        } else {
            self.requests[1]
        };
        let said = self.said.get(slot).copied().unwrap_or(0);
        request.get(said..).unwrap_or(&[])
    }

    /// What can be done next: a link dials while some haven't, then links are read and written, then the input comes,
    /// then it ends, and then nothing comes any more.
    fn any_event(&mut self) -> Event
        ensures log { self.new.log ≡ self.old.log }
        ensures failed { result ≡ Event.Nothing → self.new.has_failed ≡ true }
    {
        if self.dialled < self.most {
            return Event::Dialled;
        }
        if let Some(event) = self.next_event() {
            return event;
        }
        if !self.input.is_empty() {
            return Event::Input;
        }
        if !self.is_ended {
            self.is_ended = true;
            return Event::InputEnded;
        }
        self.has_failed = true;
        Event::Nothing
    }

    /// What a link is ready for, from the one that was last on.
    fn next_event(&mut self) -> Option<Event>
        ensures event { IfSome result (λ event. event ≢ Event.Nothing) }
        ensures log { self.new.log ≡ self.old.log }
        ensures failed { self.new.has_failed ≡ self.old.has_failed }
    {
        let (slot, event) = self.ready_slot()?;
        self.first = slot;
        Some(event)
    }

    /// The first slot from the one that was last on whose link is ready, and for what.
    fn ready_slot(&self) -> Option<(usize, Event)>
        ensures { IfSome result (λ x. x.1 ≢ Event.Nothing) }
    {
        for slot in self.first..self.most {
            if let Some(event) = self.event_of(slot) {
                return Some((slot, event));
            }
        }
        for slot in 0..self.first {
            if let Some(event) = self.event_of(slot) {
                return Some((slot, event));
            }
        }
        None
    }

    /// What the link in a slot is ready for.
    fn event_of(&self, slot: usize) -> Option<Event>
        ensures { IfSome result (λ event. event ≢ Event.Nothing) }
    {
        let interest = self.interest.get(slot).copied().unwrap_or(IDLE);
        if interest.writes {
            return Some(Event::Writable(slot));
        }
        if interest.reads && !self.left(slot).is_empty() {
            return Some(Event::Readable(slot));
        }
        None
    }
}

impl Ready for Links<'_> {
    ghost log = { λ s. s.log.all };

    ghost has_failed = { λ s. s.has_failed };

    fn next(&mut self) -> Event {
        let event = self.any_event();
        self.log.next(event);
        event
    }

    fn read_input(&mut self, buf: &mut [u8]) -> usize {
        let count = self.input.len().min(buf.len());
        let (given, rest) = self.input.split_at(count);
        buf[..count].copy_from_slice(given);
        self.input = rest;
        self.log.input(given);
        count
    }

    fn leave_input(&mut self) {
        self.log.left();
    }

    fn accept(&mut self, slot: usize) -> bool {
        self.dialled = self.dialled.saturating_add(1);
        self.log.opened(slot);
        true
    }

    fn read(&mut self, slot: usize, buf: &mut [u8]) -> usize {
        let left = self.left(slot);
        let count = left.len().min(buf.len());
        buf[..count].copy_from_slice(&left[..count]);
        if let Some(said) = self.said.get_mut(slot) {
            *said = said.saturating_add(count);
        }
        self.log.received(slot, &buf[..count]);
        count
    }

    fn write(&mut self, slot: usize, bytes: &[u8]) -> usize {
        let count = bytes.len().min(self.bite);
        self.digest.number(slot as u64);
        self.digest.number(bytes.len() as u64);
        self.digest.bytes(&bytes[..count]);
        self.log.handed(slot, bytes);
        self.log.emitted(slot, &bytes[..count]);
        count
    }

    fn close(&mut self, slot: usize) {
        if let Some(interest) = self.interest.get_mut(slot) {
            *interest = IDLE;
        }
        self.digest.number(slot as u64);
        self.log.gone(slot);
    }

    fn wants(&mut self, slot: usize, interest: Interest) {
        if let Some(place) = self.interest.get_mut(slot) {
            *place = interest;
        }
        self.log.wants(slot, interest);
    }

    fn wants_links(&mut self, wanted: bool) {
        self.log.wants_links(wanted);
    }
}
