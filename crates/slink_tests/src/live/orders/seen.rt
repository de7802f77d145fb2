//! What is seen of a server from its device: whether it does what it has to, at each event.
ghost use Rattle.std.specs.Prelude.{◌≤◌, length};

use super::held::{Held, Reason};
use super::input::Input;
use crate::noise::Noise;
use mseed_stream::StreamFault;
use slink_feed::InputFault;
use slink_live::Event;
use std::alloc::Global;

/// So many links stand at once.
pub(crate) const SLOTS: usize = 6;

/// What a server did wrong.
#[derive(Clone, Copy, Debug, PartialEq, Eq)]
pub(crate) enum Wrong {
    /// It did nothing about what could be done.
    Idle,
    /// It did what couldn't be done.
    Uncalled,
    /// It handed a link too much, or too little.
    Handed,
    /// A link accepted other bytes than it has to hold.
    Sent,
    /// It closed a link without a reason.
    Closed,
    /// A link stood on that was to be closed.
    Stood,
}

/// An input, links, and what was seen.
#[derive(Drop)]
pub(crate) struct Seen {
    input: Input,
    links: [Option<Held>; SLOTS],
    // The event that came last, and whether something has to be done about it, and wasn't yet.
    event: Event,
    is_owed: bool,
    // For which reasons links were closed.
    reasons: [bool; 5],
    // What is wrong with the input once it has ended.
    answer: Result<(), InputFault>,
    // What was wrong first.
    wrong: Option<Wrong>,
}

impl Seen {
    /// Nothing was seen yet.
    pub(crate) fn new(alloc: Global, capacity: usize) -> Seen {
        Seen {
            input: Input::new(alloc, capacity),
            links: [None, None, None, None, None, None],
            event: Event::Nothing,
            is_owed: false,
            reasons: [false; 5],
            answer: Ok(()),
            wrong: None,
        }
    }

    /// What was wrong first.
    pub(crate) fn wrong(&self) -> Option<Wrong> {
        self.wrong
    }

    /// What a server answers at the end of the input.
    pub(crate) fn answer(&self) -> Result<(), InputFault> {
        self.answer
    }

    /// Whether the input has ended, no link streams any more, and links were closed for each reason.
    pub(crate) fn has_all(&self) -> bool {
        let mut links = self.links.iter();
        let streams = links.any(|link| link.as_ref().is_some_and(Held::streams));
        self.input.has_ended() && !streams && self.reasons == [true; 5]
    }

    /// Whether the input is still to be read.
    fn reads(&self) -> bool {
        !self.input.has_ended()
    }

    /// Something is wrong, unless this is so.
    fn demand(&mut self, is_so: bool, wrong: Wrong) {
        if !is_so && self.wrong.is_none() {
            self.wrong = Some(wrong);
        }
    }

    /// The link in a slot.
    fn link(&self, slot: usize) -> Option<&Held> {
        self.links.get(slot)?.as_ref()
    }

    /// A server asks what can be done next, and is told: what was to be done is done.
    pub(crate) fn next(&mut self, event: Event) {
        self.demand(!self.is_owed, Wrong::Idle);
        for slot in 0..SLOTS {
            let stands = match self.link(slot) {
                Some(link) => link.must_close(&self.input),
                None => false,
            };
            self.demand(!stands, Wrong::Stood);
        }
        self.event = event;
        self.is_owed = self.is_owed_at(event);
    }

    /// Whether something has to be done about an event.
    fn is_owed_at(&self, event: Event) -> bool {
        match event {
            Event::Input | Event::InputEnded => self.reads(),
            Event::Dialled => self.reads() && self.links.iter().any(Option::is_none),
            Event::Readable(slot) | Event::Gone(slot) => self.link(slot).is_some(),
            Event::Writable(slot) => match self.link(slot) {
                Some(link) => link.is_due(&self.input),
                None => false,
            },
            Event::InputFailed | Event::Nothing => false,
        }
    }

    /// Something is done that is right after one event alone.
    fn answers(&mut self, event: Event) {
        let last = self.event;
        self.demand(last == event, Wrong::Uncalled);
        self.is_owed = false;
    }

    /// The input is read.
    pub(crate) fn read_input(&mut self, noise: &mut Noise, buf: &mut [u8]) -> usize
        ensures { result ≤ length buf.new }
    {
        self.answers(Event::Input);
        self.demand(self.reads(), Wrong::Uncalled);
        self.input.give(noise, buf)
    }

    /// The input isn't read any more.
    pub(crate) fn leave_input(&mut self) {
        self.answers(Event::InputEnded);
        let (records, rest) = self.input.end();
        if rest > 0 {
            let fault = StreamFault::Truncated(512 * u64::from(records), rest);
            self.answer = Err(InputFault::Stream(fault));
        }
    }

    /// A link of a client of this kind is put into a slot.
    pub(crate) fn accept(&mut self, slot: usize, kind: usize) {
        self.answers(Event::Dialled);
        let is_free = slot < SLOTS && self.link(slot).is_none();
        self.demand(is_free && self.reads(), Wrong::Uncalled);
        if let Some(link) = self.links.get_mut(slot) {
            *link = Some(Held::new(kind));
        }
    }

    /// The link in a slot is read.
    pub(crate) fn read(&mut self, slot: usize, noise: &mut Noise, buf: &mut [u8]) -> usize
        ensures { result ≤ length buf.new }
    {
        self.answers(Event::Readable(slot));
        match self.links.get_mut(slot) {
            Some(Some(link)) => link.say(noise, &self.input, buf),
            _ => {
                self.demand(false, Wrong::Uncalled);
                0
            }
        }
    }

    /// The link in a slot is handed bytes, and accepts some of them.
    pub(crate) fn write(&mut self, slot: usize, handed: &[u8], accepted: &[u8]) {
        self.answers(Event::Writable(slot));
        let (can_be, is_right) = match self.links.get_mut(slot) {
            Some(Some(link)) => (
                link.can_be_handed(handed, &self.input),
                link.accept(handed.len(), accepted, &self.input),
            ),
            _ => (false, false),
        };
        self.demand(can_be, Wrong::Handed);
        self.demand(is_right, Wrong::Sent);
    }

    /// The link in a slot is closed. Where it is gone, none need stand there.
    pub(crate) fn close(&mut self, slot: usize) {
        let is_gone = self.event == Event::Gone(slot);
        let reason = match self.link(slot) {
            Some(link) => link.reason(self.event == Event::Input, &self.input),
            None => None,
        };
        match reason {
            _ if is_gone => self.reasons[0] = true,
            Some(Reason::Ended) => self.reasons[1] = true,
            Some(Reason::Left) => self.reasons[2] = true,
            Some(Reason::Lost) => self.reasons[3] = true,
            Some(Reason::Finished) => self.reasons[4] = true,
            None => self.demand(false, Wrong::Closed),
        }
        if let Some(link) = self.links.get_mut(slot) {
            *link = None;
        }
        if is_gone {
            self.is_owed = false;
        }
    }
}
