//! What happens to a device and its clients, at random.

use super::{KEPT, PATIENCE, World};
use crate::tcp_events::peer::{Received, Stage};
use slink_live::{Event, Interest, Ready};
use std::net::Net;

/// A client says fewer bytes than these at a time.
const SAID: usize = 600;

impl<N: Net> World<'_, N> {
    /// The first round, before which the device has neither asked the system nor looked at the clock.
    pub(crate) fn begin(&mut self) {
        if self.feed.is_always_ready() {
            self.be_quiet();
        }
    }

    /// Something happens.
    pub(crate) fn act(&mut self) {
        let count = self.peers.len();
        let index = self.random(count);
        match self.random(24) {
            0 | 1 if count < self.setting.clients => self.dial(),
            2..5 => self.say(index),
            5..8 => {
                self.receive(index);
            }
            8 => self.shut(index),
            9 => self.leave(index),
            10 | 11 => self.wish_anything(),
            12 => self.want_links(),
            13 => self.pass(),
            14 => self.feed_on(),
            15 => self.close_any(),
            16 if self.random(4) == 0 => self.catch_up(),
            _ => self.turn_lazily(),
        }
    }

    /// Something happens where links are to be full: all is wanted, and clients seldom receive.
    pub(crate) fn press(&mut self) {
        let count = self.peers.len();
        let index = self.random(count);
        match self.random(64) {
            0..4 if count < self.setting.clients => self.dial(),
            4 => self.say(index),
            5 => self.pass(),
            6 => {
                self.receive(index);
            }
            7 => self.shut(index),
            _ => {
                self.wish_all(true, true);
                self.turn_lazily();
            }
        }
    }

    /// The device is asked, if it won't wait.
    fn turn_lazily(&mut self) {
        if self.may_ask() {
            self.turn(false);
        }
    }

    /// A client says something.
    fn say(&mut self, index: usize) {
        let count = self.random(SAID);
        if let Some(peer) = self.peers.get_mut(index) {
            peer.say(self.pattern, count);
        }
    }

    /// Whether something happens by which a link ends.
    fn is_ending(&mut self) -> bool {
        self.random(2) == 0
    }

    /// A client may say nothing more.
    fn shut(&mut self, index: usize) {
        if self.is_ending()
            && let Some(peer) = self.peers.get_mut(index)
        {
            peer.shut();
        }
    }

    /// A client may leave.
    fn leave(&mut self, index: usize) {
        if self.is_ending()
            && let Some(peer) = self.peers.get_mut(index)
        {
            peer.leave();
        }
    }

    /// Something is wanted of the link in a slot.
    fn wish_anything(&mut self) {
        let count = self.slots.len();
        let slot = self.random(count);
        let wanted = self.random(16);
        if let Some(peer) = self.peer(slot) {
            let interest = Interest {
                reads: wanted % 4 > 0,
                writes: wanted / 4 % 2 > 0,
                is_streaming: wanted / 8 > 0 || peer.interest.is_streaming,
            };
            self.wish(slot, interest);
        }
    }

    /// Links are wanted, or not.
    fn want_links(&mut self) {
        self.wants_links = self.random(3) > 0;
        self.tcp.wants_links(self.wants_links);
    }

    /// The clock is moved on.
    fn pass(&mut self) {
        let millis = self.random(700);
        self.host.pass(millis as u64);
        let now = self.host.now();
        for peer in self.peers.iter_mut() {
            if peer.stage == Stage::Closed && now.saturating_sub(peer.closed) >= KEPT {
                peer.is_sure = false;
            }
        }
    }

    /// A pipe is written to, or ended.
    fn feed_on(&mut self) {
        let count = self.random(SAID);
        if self.random(8) == 0 {
            self.feed.end();
        } else {
            self.feed.write(self.pattern, count);
        }
    }

    /// The link in a slot may be closed.
    fn close_any(&mut self) {
        let count = self.slots.len();
        let slot = self.random(count);
        if self.is_ending() {
            self.close(slot);
        }
    }

    /// A client receives once. None sees its link end that stands.
    fn receive(&mut self, index: usize) -> Received {
        let Some(peer) = self.peers.get_mut(index) else {
            return Received::Nothing;
        };
        let received = peer.receive(self.pattern, self.room.as_mut_slice());
        let is_closed = peer.stage == Stage::Closed;
        match received {
            Received::Others => self.complain("a client receives other bytes than were sent"),
            Received::End | Received::Failure if !is_closed => {
                self.complain("a client sees the end of a link that wasn't closed");
            }
            _ => {}
        }
        received
    }

    /// All clients receive what was sent to them.
    fn receive_all(&mut self) -> bool {
        let mut has_all = true;
        for index in 0..self.peers.len() {
            if let Some(peer) = self.peers.get(index)
                && peer.stage == Stage::Standing
                && peer.is_open()
                && peer.lacks_some()
            {
                has_all = false;
                self.receive(index);
            }
        }
        has_all
    }

    /// Links are wanted, and each is to be read, and written or not; and each streams, or goes on as it is.
    fn wish_all(&mut self, writes: bool, streams: bool) {
        self.wants_links = true;
        self.tcp.wants_links(true);
        for slot in 0..self.slots.len() {
            if let Some(peer) = self.peer(slot) {
                let interest = Interest {
                    reads: true,
                    writes,
                    is_streaming: streams || peer.interest.is_streaming,
                };
                if interest != peer.interest {
                    self.wish(slot, interest);
                }
            }
        }
    }

    /// As many clients as there may be dial at once, and wait for longer than their time. None of them is given up once
    /// it streams; and then all say something at once.
    pub(crate) fn wait_long(&mut self) {
        for client in 0..self.setting.clients {
            self.dial();
        }
        self.bring_all_due(false);
        self.wish_all(false, true);
        for tick in 0..20 {
            self.pass();
            self.turn(true);
        }
        self.rest();
        for index in 0..self.peers.len() {
            self.say(index);
        }
    }

    /// All is wanted, and then whatever is due comes.
    pub(crate) fn bring_all_due(&mut self, writes: bool) {
        self.wish_all(writes, false);
        self.catch_up();
    }

    /// Whatever is due is reported and done, and all that was sent is received.
    pub(crate) fn catch_up(&mut self) {
        for turn in 0..PATIENCE {
            let has_all = self.receive_all();
            if self.wrong.is_some() || has_all && !self.is_due() {
                return;
            }
            if self.may_ask() {
                self.turn(true);
            }
        }
        self.complain("something is due, and isn't told");
    }

    /// Where nothing is due, nothing is reported but an input that is always ready.
    pub(crate) fn rest(&mut self) {
        if self.free().is_none() {
            self.wants_links = false;
            self.tcp.wants_links(false);
        }
        for turn in 0..self.slots.len().saturating_mul(3).saturating_add(6) {
            if self.feed.is_always_ready() {
                self.turn(true);
            }
        }
        for turn in 0..3 {
            if self.feed.is_always_ready() {
                self.be_quiet();
            }
        }
    }

    /// The device reports its input, and nothing else.
    fn be_quiet(&mut self) {
        match self.tcp.next() {
            Event::Input => {}
            Event::Dialled => self.complain("somebody dials, though nothing is due"),
            Event::Readable(_) => self.complain("a link is readable, though nothing is due"),
            Event::Writable(_) => self.complain("a link is writable, though nothing is due"),
            _ => self.complain("it tells something, though nothing is due"),
        }
    }

    /// All links are closed, what was written comes through, and the device lets go of them.
    pub(crate) fn part(&mut self) {
        for slot in 0..self.slots.len() {
            self.close(slot);
        }
        for index in 0..self.peers.len() {
            self.receive_to_the_end(index);
            if let Some(peer) = self.peers.get_mut(index) {
                peer.leave();
            }
        }
        self.tcp.finish();
        if self.tcp.has_failed() {
            self.complain("it has failed");
        }
    }

    /// A client of a link that was closed receives all that was written to it, and the end.
    fn receive_to_the_end(&mut self, index: usize) {
        let mut last = Received::Nothing;
        for turn in 0..PATIENCE {
            match self.peers.get(index) {
                Some(peer) if peer.stage == Stage::Closed && peer.is_open() => {}
                _ => return,
            }
            last = self.receive(index);
            if last == Received::End || last == Received::Failure {
                break;
            }
        }
        if let Some(peer) = self.peers.get(index)
            && peer.is_sure
            && (peer.lacks_some() || last != Received::End)
        {
            self.complain("what was written to a link that was closed doesn't come through");
        }
    }
}
