//! Orders and pieces chosen at random, in memory.
ghost use Rattle.std.specs.Prelude.{◌≡◌, ◌≢◌, ◌≤◌, [], length, true};
ghost use Rattle.slink_live.specs.Served.{IsSound};

mod orders;

use crate::noise::Noise;
use mseed_stream::StreamFault;
use slink_feed::{Feed, Ring};
use slink_live::{Event, InputFault, Interest, Log, Ready, Server};
use slink_wire::Place;
use std::alloc::Global;
use std::process::Abort;

const SLOTS: usize = 3;

/// A client: what it says, how many bytes of that it has said, what it received, and after how many whole records of
/// the input its link was closed.
#[derive(Drop)]
struct Peer {
    says: Vec<u8>,
    said: usize,
    received: Vec<u8>,
    closed: Option<usize>,
}

/// A device in memory.
#[derive(Drop)]
struct Script {
    input: Vec<u8>,
    given: usize,
    peers: Vec<Peer>,
    dialled: usize,
    places: [Option<usize>; 3],
    // Whether its clients take nothing.
    is_deaf: bool,
    // With so many events left the input begins.
    begins: u32,
    noise: Noise,
    left: u32,
    is_left: bool,
    has_failed: bool,
    log: Log,
}

impl Script {
    /// What can be done next.
    fn next_event(&mut self) -> Event
        ensures log { self.new.log ≡ self.old.log }
        ensures failed { result ≡ Event.Nothing → self.new.has_failed ≡ true }
    {
        if self.left == 0 {
            self.has_failed = true;
            return Event::Nothing;
        }
        self.left -= 1;
        let choice = self.noise.below(8);
        match choice {
            0 => self.input_event(),
            1 => Event::Dialled,
            2 => Event::Readable(0),
            3 => Event::Readable(1),
            4 => Event::Readable(2),
            5 => Event::Writable(0),
            6 => Event::Writable(1),
            _ => Event::Writable(2),
        }
    }

    /// What comes of the input, which doesn't end before each client has a link.
    fn input_event(&self) -> Event
        ensures { result ≢ Event.Nothing }
    {
        if self.left > self.begins {
            Event::Dialled
        } else if self.given < self.input.len() && !self.is_left {
            Event::Input
        } else if self.dialled < self.peers.len() {
            Event::Dialled
        } else {
            Event::InputEnded
        }
    }

    /// The client in a slot.
    fn peer(&self, slot: usize) -> Option<usize> {
        if slot < SLOTS {
            self.places[slot]
        } else {
            None
        }
    }

    /// Gives a client's next bytes.
    fn give(&mut self, slot: usize, buf: &mut [u8]) -> usize
        ensures bound { result ≤ length buf.new }
        ensures log { self.new.log ≡ self.old.log }
    {
        let most = self.noise.below(9);
        match self.peer(slot) {
            Some(k) if k < self.peers.len() => {
                let said = self.peers[k].said.min(self.peers[k].says.len());
                let count = copy(&self.peers[k].says[said..], most, buf);
                self.peers[k].said = said.saturating_add(count);
                count
            }
            _ => 0,
        }
    }

    /// Has a client take a prefix of the bytes.
    fn take(&mut self, slot: usize, bytes: &[u8]) -> usize
        ensures bound { result ≤ length bytes.now }
        ensures log { self.new.log ≡ self.old.log }
    {
        let count = self.noise.below(900).min(bytes.len());
        match self.peer(slot) {
            Some(k) if k < self.peers.len() && !self.is_deaf => {
                match self.peers[k].received.extend_from_slice(&bytes[..count]) {
                    Ok(()) => count,
                    Err(_) => 0,
                }
            }
            _ => 0,
        }
    }

    /// Parts a slot from its client.
    fn part(&mut self, slot: usize)
        ensures log { self.new.log ≡ self.old.log }
    {
        if let Some(k) = self.peer(slot)
            && let Some(peer) = self.peers.get_mut(k)
        {
            peer.closed = Some(self.given / 512);
        }
        if slot < SLOTS {
            self.places[slot] = None;
        }
    }
}

/// Copies at most so many bytes, and counts them.
fn copy(from: &[u8], most: usize, to: &mut [u8]) -> usize
    ensures most { result ≤ length to.new }
    ensures from { result ≤ length from.now }
{
    let count = most.min(from.len()).min(to.len());
    to[..count].copy_from_slice(&from[..count]);
    count
}

impl Ready for Script {
    ghost log = { λ s. s.log.all };

    ghost has_failed = { λ s. s.has_failed };

    fn next(&mut self) -> Event {
        let event = self.next_event();
        self.log.next(event);
        event
    }

    fn read_input(&mut self, buf: &mut [u8]) -> usize {
        let most = self.noise.below(700);
        let given = self.given.min(self.input.len());
        let count = copy(&self.input[given..], most, buf);
        self.given = given.saturating_add(count);
        self.log.input(&buf[..count]);
        count
    }

    fn leave_input(&mut self) {
        self.is_left = true;
        self.log.left();
    }

    fn accept(&mut self, slot: usize) -> bool {
        let is_open = slot < SLOTS && self.dialled < self.peers.len();
        if is_open {
            self.places[slot] = Some(self.dialled);
            self.dialled = self.dialled.saturating_add(1);
            self.log.opened(slot);
        } else {
            self.log.missed(slot);
        }
        is_open
    }

    fn read(&mut self, slot: usize, buf: &mut [u8]) -> usize {
        let count = self.give(slot, buf);
        self.log.received(slot, &buf[..count]);
        count
    }

    fn write(&mut self, slot: usize, bytes: &[u8]) -> usize {
        let count = self.take(slot, bytes);
        self.log.handed(slot, bytes);
        self.log.emitted(slot, &bytes[..count]);
        count
    }

    fn close(&mut self, slot: usize) {
        self.part(slot);
        self.log.gone(slot);
    }

    fn wants(&mut self, slot: usize, interest: Interest) {
        self.log.wants(slot, interest);
    }

    fn wants_links(&mut self, wanted: bool) {
        self.log.wants_links(wanted);
    }
}

/// A record of 512 bytes of the network XX.
fn blank() -> [u8; 512] {
    let mut bytes = [0; 512];
    bytes[..20].copy_from_slice(b"000001D STA  00BHZXX");
    bytes[20..24].copy_from_slice(&[7, 232, 0, 1]);
    bytes[44..56].copy_from_slice(&[0, 64, 0, 48, 3, 232, 0, 0, 10, 1, 9, 0]);
    bytes
}

/// A record of a station in the network XX, with its number.
pub(crate) fn record(station: &[u8; 3], number: u32) -> [u8; 512] {
    let mut bytes = blank();
    bytes[8..11].copy_from_slice(station);
    bytes[508..].copy_from_slice(&number.to_be_bytes());
    bytes
}

/// Adds bytes to others.
pub(crate) fn push(rt: &impl Abort, bytes: &mut Vec<u8>, more: &[u8]) {
    bytes.extend_from_slice(more).expect(rt, "memory")
}

/// Records of the station STA, one after another.
fn records(rt: &impl Abort, alloc: Global, count: u32) -> Vec<u8> {
    let mut bytes = Vec::new(alloc);
    for number in 0..count {
        push(rt, &mut bytes, &record(b"STA", number));
    }
    bytes
}

/// What is owed to a client whose first request is refused, and the second granted from the first record on.
fn owed(rt: &impl Abort, alloc: Global, count: u32) -> Vec<u8> {
    let mut bytes = Vec::new(alloc);
    push(rt, &mut bytes, b"OK\r\nERROR\r\nOK\r\n");
    for number in 0..count {
        push(rt, &mut bytes, b"SL00000");
        push(rt, &mut bytes, &[b'0' + (number % 10) as u8]);
        push(rt, &mut bytes, &record(b"STA", number));
    }
    bytes
}

/// What each client says.
const SAYS: &[u8] = b"STATION STA XX\r\nDATA 999\r\nDATA 0\r\nEND\r\n";

/// Three clients of one station.
fn three_peers(rt: &impl Abort, alloc: Global) -> Vec<Peer> {
    let mut peers = Vec::new(alloc);
    for _ in 0..3 {
        let mut says = Vec::new(alloc);
        push(rt, &mut says, SAYS);
        let peer = Peer {
            says,
            said: 0,
            received: Vec::new(alloc),
            closed: None,
        };
        peers.push(peer).expect(rt, "memory");
    }
    peers
}

/// A server of one ring of so many records.
pub(crate) fn server_of(rt: &impl Abort, alloc: Global, capacity: usize) -> Server
    ensures { IsSound result }
{
    let place = Place::new(b"STA", b"XX").expect(rt, "a place");
    let ring = Ring::new(alloc, place, capacity, 0).expect(rt, "a ring");
    let mut feed = Feed::new();
    feed.add_other(ring);
    Server::new(alloc, feed, SLOTS).expect(rt, "memory")
}

/// Three clients, an input, and an order of this seed.
fn script_of(rt: &impl Abort, alloc: Global, input: Vec<u8>, seed: u64) -> Script
    ensures { result.log.all ≡ [] }
{
    Script {
        input,
        given: 0,
        peers: three_peers(rt, alloc),
        dialled: 0,
        places: [None; 3],
        is_deaf: false,
        begins: 100_000,
        noise: Noise::new(seed),
        left: 100_000,
        is_left: false,
        has_failed: false,
        log: Log::new(),
    }
}

/// Whether each of these clients received all that is owed to it.
fn have_what_is_owed(peers: &[Peer], owed: &[u8]) -> bool {
    let mut peers = peers.iter();
    peers.all(|peer| peer.received.as_slice() == owed)
}

/// Whether a server answers so by an order, and well if it goes on, with something of the order left.
fn serves(server: &mut Server, script: &mut Script, answer: Result<(), InputFault>) -> bool
    requires { IsSound server.old }
{
    server.serve(script) == answer && server.serve(script).is_ok() && script.left > 0
}

/// Three clients by an order of this seed: whether each accepted all that is owed to it, and the server answered so.
fn went_well(
    rt: &impl Abort,
    alloc: Global,
    input: Vec<u8>,
    seed: u64,
    answer: Result<(), InputFault>,
) -> bool {
    let mut script = script_of(rt, alloc, input, seed);
    let owed = owed(rt, alloc, 9);
    let mut server = server_of(rt, alloc, 100);
    serves(&mut server, &mut script, answer) && have_what_is_owed(&script.peers, &owed)
}

#[test]
fn each_takes_what_is_owed_in_any_order(rt: HostRuntime) {
    for seed in 0..20 {
        let input = records(&rt, rt.alloc(), 9);
        assert!(rt; went_well(&rt, rt.alloc(), input, seed, Ok(())), "{seed}");
    }
}

#[test]
fn a_record_that_is_cut_off_is_reported(rt: HostRuntime) {
    let mut input = records(&rt, rt.alloc(), 9);
    push(&rt, &mut input, b"000001D ");
    let fault = InputFault::Stream(StreamFault::Truncated(4608, 8));
    assert!(rt; went_well(&rt, rt.alloc(), input, 7, Err(fault)));
}

/// Three clients that take nothing, and 40 records that come once they are there.
fn deaf_script(rt: &impl Abort, alloc: Global) -> Script
    ensures { result.log.all ≡ [] }
{
    let mut script = script_of(rt, alloc, records(rt, alloc, 40), 3);
    script.is_deaf = true;
    script.begins = 98_000;
    script
}

/// Whether a server ends well before an order does, and closes each link that accepts nothing once its next record has
/// left a ring of two: its replies and the packets of eleven records wait for it, and the fourteenth record drives out
/// the twelfth. A read may bring the fifteenth one with it.
fn loses_all(server: &mut Server, script: &mut Script) -> bool
    requires { IsSound server.old }
{
    let is_well = server.serve(script).is_ok() && script.left > 0;
    let mut peers = script.peers.iter();
    is_well && peers.all(|peer| peer.received.is_empty() && matches!(peer.closed, Some(14 | 15)))
}

#[test]
fn a_link_that_takes_nothing_loses_its_place(rt: HostRuntime) {
    let mut script = deaf_script(&rt, rt.alloc());
    let mut server = server_of(&rt, rt.alloc(), 2);
    assert!(rt; loses_all(&mut server, &mut script));
}
