//! Orders of events chosen at random, of many links and several stations: whatever the order, each link has to hold the
//! records of its stations from its number on, each once, in order, and is closed by right.
ghost use Rattle.std.specs.Prelude.{◌≡◌, ◌≤◌, ◌^◌, [], length, true};
ghost use Rattle.std.specs.List.{AllByRecursion};
ghost use Rattle.slink_live.specs.Served.{IsSound};

mod held;
mod input;
mod seen;

use crate::noise::Noise;
use held::KINDS;
use input::FIRST;
use seen::{SLOTS, Seen};
use slink_feed::{Feed, Ring};
use slink_live::{Event, Interest, Log, Ready, Server};
use slink_wire::Place;
use std::alloc::Global;
use std::process::Abort;

/// So many events has an order, of which these many come after the end of the input.
const EVENTS: u32 = 30_000;

const LAST: u32 = 1_000;

/// So much is accepted at a time.
const BITES: [usize; 9] = [0, 1, 519, 520, 521, 5_719, 5_720, 5_721, 1 << 16];

/// An order of events, and what is seen of the server that is told them.
#[derive(Drop)]
struct Order {
    noise: Noise,
    left: u32,
    seen: Seen,
    has_failed: bool,
    log: Log,
}

impl Order {
    /// An order of this seed, for rings of so many records.
    fn new(alloc: Global, seed: u64, capacity: usize) -> Order
        ensures { result.log.all ≡ [] }
    {
        Order {
            noise: Noise::new(seed),
            left: EVENTS,
            seen: Seen::new(alloc, capacity),
            has_failed: false,
            log: Log::new(),
        }
    }

    /// What can be done next.
    fn next_event(&mut self) -> Event
        ensures log { self.new.log ≡ self.old.log }
        ensures failed { result ≡ Event.Nothing → self.new.has_failed ≡ true }
    {
        if self.left == 0 {
            self.has_failed = true;
            return Event::Nothing;
        }
        self.left -= 1;
        if self.left == LAST {
            return Event::InputEnded;
        }
        let slot = self.noise.below(SLOTS);
        match self.noise.below(64) {
            0 => Event::Gone(slot),
            1..8 => Event::Dialled,
            8..24 => Event::Input,
            24..40 => Event::Readable(slot),
            _ => Event::Writable(slot),
        }
    }
}

impl Ready for Order {
    ghost log = { λ o. o.log.all };

    ghost has_failed = { λ o. o.has_failed };

    fn next(&mut self) -> Event {
        let event = self.next_event();
        self.seen.next(event);
        self.log.next(event);
        event
    }

    fn read_input(&mut self, buf: &mut [u8]) -> usize {
        let count = self.seen.read_input(&mut self.noise, buf);
        self.log.input(&buf[..count]);
        count
    }

    fn leave_input(&mut self) {
        self.seen.leave_input();
        self.log.left();
    }

    fn accept(&mut self, slot: usize) -> bool {
        self.seen.accept(slot, self.noise.below(KINDS));
        self.log.opened(slot);
        true
    }

    fn read(&mut self, slot: usize, buf: &mut [u8]) -> usize {
        let count = self.seen.read(slot, &mut self.noise, buf);
        self.log.received(slot, &buf[..count]);
        count
    }

    fn write(&mut self, slot: usize, bytes: &[u8]) -> usize {
        let count = BITES[self.noise.below(BITES.len())].min(bytes.len());
        self.seen.write(slot, bytes, &bytes[..count]);
        self.log.handed(slot, bytes);
        self.log.emitted(slot, &bytes[..count]);
        count
    }

    fn close(&mut self, slot: usize) {
        self.seen.close(slot);
        self.log.gone(slot);
    }

    fn wants(&mut self, slot: usize, interest: Interest) {
        self.log.wants(slot, interest);
    }

    fn wants_links(&mut self, wanted: bool) {
        self.log.wants_links(wanted);
    }
}

/// An empty ring of a station, whose numbers soon begin again.
fn ring_of(rt: &impl Abort, alloc: Global, station: &[u8], capacity: usize) -> Ring
    ensures { result.next ≤ 2 ^ 62 }
{
    let place = Place::new(station, b"XX").expect(rt, "a place");
    Ring::new(alloc, place, capacity, FIRST).expect(rt, "a ring")
}

/// Adds a ring of a new station.
fn add(rt: &impl Abort, feed: &mut Feed, ring: Ring)
    requires all { AllByRecursion (λ w. w.next ≤ 2 ^ 62) feed.old }
    requires few { ring.next ≤ 2 ^ 62 }
    ensures { AllByRecursion (λ w. w.next ≤ 2 ^ 62) feed.new }
{
    match feed.add(ring) {
        Ok(()) => {}
        Err(_) => panic!(rt; "a place stands twice"),
    }
}

/// A server of four rings of so many records.
fn server_of(rt: &impl Abort, alloc: Global, capacity: usize) -> Server
    ensures { IsSound result }
{
    let mut feed = Feed::new();
    add(rt, &mut feed, ring_of(rt, alloc, b"AAA", capacity));
    add(rt, &mut feed, ring_of(rt, alloc, b"BBB", capacity));
    add(rt, &mut feed, ring_of(rt, alloc, b"CCC", capacity));
    add(rt, &mut feed, ring_of(rt, alloc, b"DDD", capacity));
    Server::new(alloc, feed, SLOTS).expect(rt, "memory")
}

/// Whether a server answers what is wrong with the input, and then serves the links on.
fn serves(server: &mut Server, order: &mut Order) -> bool
    requires { IsSound server.old }
{
    let answer = server.serve(order);
    answer == order.seen.answer() && server.serve(order).is_ok()
}

#[test]
fn each_link_holds_its_records_in_any_order(rt: HostRuntime) {
    for capacity in [1, 2, 3, 12, 100, 1_000] {
        let mut order = Order::new(rt.alloc(), capacity as u64, capacity);
        let mut server = server_of(&rt, rt.alloc(), capacity);
        assert!(rt; serves(&mut server, &mut order), "{capacity}");
        assert!(rt;
            order.seen.wrong().is_none(),
            "{capacity}: {:?}",
            order.seen.wrong()
        );
        assert!(rt; order.seen.has_all(), "{capacity}");
    }
}
