//! A device, its clients, and what it may report.

mod schedule;

use super::feed::Feed;
use super::host::{Input, Still};
use super::pattern::Pattern;
use super::peer::{Peer, Stage};
use crate::noise::Noise;
use slink_links::{LivePlan, LiveTcp};
use slink_live::{Event, Interest, Ready};
use std::alloc::{AllocError, Global};
use std::io;
use std::net::{Ipv4Addr, Net, SocketAddr};
use std::os::unix::net::UnixStream;
use std::time::Duration;

/// So often the device is asked at most until it has reported what it has to.
const PATIENCE: u32 = 100_000;

/// So often it is looked at the clock, in milliseconds.
const TICK: u64 = 250;

/// So long a link that was closed is kept for what its client says, in milliseconds.
const KEPT: u64 = 2_000;

/// How a device is made.
#[derive(Clone, Copy, Debug)]
pub(crate) struct Setting {
    pub(crate) seed: u64,
    pub(crate) slots: usize,
    pub(crate) limit: Option<u64>,
    /// So often its input is a file that has bytes, or else a pipe.
    pub(crate) reads: Option<u32>,
    /// The most bytes that are sent at a time.
    pub(crate) most: usize,
    /// The most clients.
    pub(crate) clients: usize,
    /// So many things happen, or else all clients wait.
    pub(crate) steps: u32,
    /// Whether its clients seldom receive, so that links are full.
    pub(crate) is_full: bool,
}

/// How often things of a kind happened.
#[derive(Clone, Copy, Debug, Default)]
pub(crate) struct Seen {
    /// A link accepted a part of what was written.
    pub(crate) in_part: u32,
    /// A link accepted nothing.
    pub(crate) full: u32,
    /// A link was gone whose client said nothing more, and went on to receive.
    pub(crate) halved: u32,
    /// A link was gone whose client had left.
    pub(crate) left: u32,
    /// A link was given up.
    pub(crate) given_up: u32,
}

impl Seen {
    /// Both together.
    pub(crate) fn and(self, other: Seen) -> Seen {
        Seen {
            in_part: self.in_part.saturating_add(other.in_part),
            full: self.full.saturating_add(other.full),
            halved: self.halved.saturating_add(other.halved),
            left: self.left.saturating_add(other.left),
            given_up: self.given_up.saturating_add(other.given_up),
        }
    }
}

/// A device over the loopback, its clients, and what it may report.
#[derive(Drop)]
pub(crate) struct World<'a, N: Net> {
    host: &'a Still<'a, N>,
    pattern: &'a Pattern,
    tcp: LiveTcp<'a, Still<'a, N>, Input>,
    setting: Setting,
    address: SocketAddr,
    noise: Noise,
    feed: Feed,
    peers: Vec<Peer<N::Stream>>,
    // Which client's link stands in each slot.
    slots: Vec<Option<usize>>,
    // So many of the clients were accepted, in the order in which they dialled.
    accepted: usize,
    wants_links: bool,
    // Whether a link may be had: one was the last time, or somebody has dialled since.
    may_dial: bool,
    // So many links that were closed may be kept.
    kept: usize,
    looked: Option<u64>,
    room: Vec<u8>,
    pub(crate) seen: Seen,
    /// What the device did first that it may not.
    pub(crate) wrong: Option<&'static str>,
}

/// A device's input, and its other end.
fn feed_of<N: Net>(host: &Still<'_, N>, setting: Setting) -> io::Result<(Feed, Input)> {
    match setting.reads {
        Some(reads) => Ok(Feed::of_file(reads, setting.seed % 2 == 0)),
        None => {
            let (near, far) = UnixStream::pair(host)?;
            Ok(Feed::of_pipe(near, far))
        }
    }
}

/// So many slots without a link.
fn slots(alloc: Global, count: usize) -> Result<Vec<Option<usize>>, AllocError> {
    let mut slots = Vec::new(alloc);
    for slot in 0..count {
        slots.push(None)?;
    }
    Ok(slots)
}

/// Room for so many bytes.
fn room(alloc: Global, count: usize) -> Result<Vec<u8>, AllocError> {
    let mut room = Vec::with_capacity(alloc, count)?;
    for byte in 0..count {
        room.push(0)?;
    }
    Ok(room)
}

impl<'a, N: Net> World<'a, N> {
    /// A device without a client. It listens at an address of its own, so that no port is lacking for clients.
    pub(crate) fn new(
        host: &'a Still<'a, N>,
        alloc: Global,
        pattern: &'a Pattern,
        setting: Setting,
    ) -> io::Result<World<'a, N>> {
        let plan = LivePlan {
            address: SocketAddr::from((Ipv4Addr::new(127, 0, 0, 2), 0)),
            clients: setting.slots,
            timeout: setting.limit.map(Duration::from_millis),
        };
        let (feed, input) = feed_of(host, setting)?;
        let tcp = LiveTcp::bind(host, alloc, plan, input)?;
        let address = tcp.address()?;
        Ok(World {
            host,
            pattern,
            tcp,
            setting,
            address,
            noise: Noise::new(setting.seed),
            feed,
            peers: Vec::new(alloc),
            slots: slots(alloc, setting.slots)?,
            accepted: 0,
            wants_links: true,
            may_dial: true,
            kept: 0,
            looked: None,
            room: room(alloc, setting.most)?,
            seen: Seen::default(),
            wrong: None,
        })
    }

    /// Takes note of what the device did that it may not.
    fn complain(&mut self, what: &'static str) {
        if self.wrong.is_none() {
            self.wrong = Some(what);
        }
    }

    /// A number below `most`, or 0.
    fn random(&mut self, most: usize) -> usize {
        self.noise.below(most.max(1))
    }

    /// Whether a client waits for its link to be accepted.
    fn is_dialled(&self) -> bool {
        self.accepted < self.peers.len()
    }

    /// A slot without a link.
    fn free(&self) -> Option<usize> {
        for slot in 0..self.slots.len() {
            if self.slots[slot].is_none() {
                return Some(slot);
            }
        }
        None
    }

    /// The client whose link stands in a slot.
    fn in_slot(&self, slot: usize) -> Option<usize> {
        match self.slots.get(slot) {
            Some(index) => *index,
            None => None,
        }
    }

    /// The client whose link stands in a slot.
    fn peer(&self, slot: usize) -> Option<&Peer<N::Stream>> {
        self.peers.get(self.in_slot(slot)?)
    }

    /// A client dials.
    pub(crate) fn dial(&mut self) {
        let number = self.peers.len();
        if let Ok(stream) = self.host.connect(self.address)
            && self.peers.push(Peer::new(stream, number)).is_ok()
        {
            self.may_dial = true;
        } else {
            self.complain("a client can't dial");
        }
    }

    /// Whether the device may be asked: it won't wait.
    fn may_ask(&self) -> bool {
        self.feed.is_always_ready() || self.is_due()
    }

    /// Whether the device has to report something.
    fn is_due(&self) -> bool {
        self.feed.is_due()
            || self.wants_links && self.is_dialled() && self.free().is_some()
            || self.peers.iter().any(|peer| peer.is_due())
    }

    /// Asks the device what can be done next, judges that, and does it: at once, or perhaps later.
    fn turn(&mut self, is_eager: bool) {
        self.bound();
        let event = self.tcp.next();
        if !self.may_tell(event) {
            self.complain(match event {
                Event::Input | Event::InputEnded | Event::InputFailed =>
                    "of its input it tells what isn't so",
                Event::Dialled => "somebody dials, and nobody did, or is wanted",
                Event::Readable(_) => "a link is readable that isn't, or isn't to be read",
                Event::Writable(_) => "a link is writable that isn't, or isn't to be written",
                Event::Gone(_) => "a link is gone whose client isn't, nor its time",
                Event::Nothing => "nothing comes any more",
            });
        }
        match event {
            Event::Input if self.feed.is_always_ready() => self.look(),
            Event::InputEnded | Event::InputFailed => self.feed.report_end(),
            Event::Gone(slot) => self.see_gone(slot),
            _ => {}
        }
        if is_eager || self.random(4) > 0 {
            self.carry_out(event, is_eager);
        }
    }

    /// Takes note of the links that may be given up by now.
    fn bound(&mut self) {
        let now = self.host.now();
        if let Some(limit) = self.setting.limit {
            for peer in self.peers.iter_mut() {
                peer.bound(now, limit);
            }
        }
    }

    /// Takes note of why a link is gone.
    fn see_gone(&mut self, slot: usize) {
        match self.peer(slot) {
            Some(peer) if !peer.is_open() => self.seen.left = self.seen.left.saturating_add(1),
            Some(peer) if peer.is_halved() => self.seen.halved = self.seen.halved.saturating_add(1),
            _ => self.seen.given_up = self.seen.given_up.saturating_add(1),
        }
    }

    /// Takes note of how much a link accepted.
    fn see_accepted(&mut self, count: usize, most: usize, is_open: bool) {
        if count == 0 && is_open {
            self.seen.full = self.seen.full.saturating_add(1);
        } else if count > 0 && count < most {
            self.seen.in_part = self.seen.in_part.saturating_add(1);
        }
    }

    /// Whether the device may report this.
    fn may_tell(&self, event: Event) -> bool {
        match event {
            Event::Dialled => self.wants_links && self.may_dial,
            Event::Readable(slot) => match self.peer(slot) {
                Some(peer) => peer.may_be_readable(),
                None => false,
            },
            Event::Writable(slot) => match self.peer(slot) {
                Some(peer) => peer.may_be_writable(),
                None => false,
            },
            Event::Gone(slot) => match self.peer(slot) {
                Some(peer) => peer.may_be_gone(),
                None => false,
            },
            event => self.feed.may_be(event),
        }
    }

    /// Before it reports an input that is always ready, the device has asked the system, and looked at the clock.
    fn look(&mut self) {
        let now = self.host.now();
        self.kept = 0;
        for peer in self.peers.iter() {
            if peer.stage == Stage::Closed && peer.is_open() {
                self.kept = self.kept.saturating_add(1);
            }
        }
        let Some(limit) = self.setting.limit else {
            return;
        };
        if let Some(looked) = self.looked
            && now.saturating_sub(looked) < TICK
        {
            return;
        }
        self.looked = Some(now);
        for peer in self.peers.iter_mut() {
            if peer.stage == Stage::Standing {
                peer.look(now, limit);
            }
        }
    }

    /// Does what can be done: all of it, or some.
    fn carry_out(&mut self, event: Event, is_eager: bool) {
        match event {
            Event::Input => self.take_input(is_eager),
            Event::InputEnded | Event::InputFailed => self.end(),
            Event::Dialled => self.accept(),
            Event::Readable(slot) => self.read(slot, is_eager),
            Event::Writable(slot) => self.write(slot, is_eager),
            Event::Gone(slot) => self.close(slot),
            Event::Nothing => {}
        }
    }

    /// So many bytes as are read or written at a time.
    fn bite(&mut self, is_eager: bool) -> usize {
        if is_eager {
            self.setting.most
        } else {
            let most = self.setting.most;
            self.random(most).saturating_add(1)
        }
    }

    /// Reads the input once.
    fn take_input(&mut self, is_eager: bool) {
        let room = self.bite(is_eager).min(self.room.len());
        let count = self.tcp.read_input(&mut self.room.as_mut_slice()[..room]);
        if !self.feed.bring(
            self.pattern,
            self.room.as_slice().get(..count).unwrap_or(b""),
        ) {
            self.complain("the input brings other bytes");
        }
    }

    /// Takes note that the input has ended, and leaves it.
    fn end(&mut self) {
        self.feed.leave();
        self.tcp.leave_input();
    }

    /// Takes a link into the first free slot.
    fn accept(&mut self) {
        let Some(slot) = self.free() else {
            return;
        };
        let now = self.host.now();
        if !self.tcp.accept(slot) {
            self.may_dial = false;
            return;
        }
        match self.peers.get_mut(self.accepted) {
            Some(peer) => {
                peer.open(now);
                self.put(slot, Some(self.accepted));
                self.accepted = self.accepted.saturating_add(1);
            }
            None => self.complain("a link is accepted that nobody dialled"),
        }
    }

    /// Whose link stands in a slot now.
    fn put(&mut self, slot: usize, index: Option<usize>) {
        if let Some(slot) = self.slots.get_mut(slot) {
            *slot = index;
        }
    }

    /// Reads once from the link in a slot.
    fn read(&mut self, slot: usize, is_eager: bool) {
        let room = self.bite(is_eager).min(self.room.len());
        let count = self.tcp.read(slot, &mut self.room.as_mut_slice()[..room]);
        let Some(index) = self.in_slot(slot) else {
            return;
        };
        if let Some(peer) = self.peers.get_mut(index)
            && !peer.bring(
                self.pattern,
                self.room.as_slice().get(..count).unwrap_or(b""),
            )
        {
            self.complain("a link brings other bytes than its client said");
        }
    }

    /// Writes once to the link in a slot, and then, perhaps, no more.
    fn write(&mut self, slot: usize, is_eager: bool) {
        let most = self.bite(is_eager);
        let now = self.host.now();
        let Some(index) = self.in_slot(slot) else {
            return;
        };
        let Some(peer) = self.peers.get_mut(index) else {
            return;
        };
        let sent = peer.sent(self.pattern, most);
        let count = self.tcp.write(slot, sent);
        let (is_right, is_open) = (peer.accept(count, now), peer.is_open());
        let interest = Interest {
            writes: false,
            ..peer.interest
        };
        self.see_accepted(count, sent.len(), is_open);
        if !is_right {
            self.complain("a link accepts nothing, though its client received all");
        }
        if is_eager && count > 0 || self.random(4) == 0 {
            self.wish(slot, interest);
        }
    }

    /// Tells the device what is wanted of the link in a slot.
    fn wish(&mut self, slot: usize, interest: Interest) {
        let now = self.host.now();
        let Some(index) = self.in_slot(slot) else {
            return;
        };
        if let Some(peer) = self.peers.get_mut(index) {
            self.tcp.wants(slot, interest);
            peer.wish(interest, now);
        }
    }

    /// Closes the link in a slot.
    fn close(&mut self, slot: usize) {
        let now = self.host.now();
        let is_sure = self.kept < self.setting.slots;
        let Some(index) = self.in_slot(slot) else {
            return;
        };
        self.tcp.close(slot);
        self.kept = self.kept.saturating_add(1);
        self.put(slot, None);
        if let Some(peer) = self.peers.get_mut(index) {
            peer.close(now, is_sure);
        }
    }
}
