//! Schedules: pushes, deliveries, cuts and reconnections in any order.
ghost use Rattle.std.specs.Prelude.{◌≡◌, ◌^◌, ◌<◌, ◌≤◌, ℕ, [], All, IfOk, None, Some, length, map};
ghost use Rattle.slink_wire.specs.Place.{AreNumbers, IsField};
ghost use Rattle.slink_model.specs.Calling.{AreAnswered};
ghost use Rattle.slink_model.specs.Counted.{IsCounted, counted_after, counted_opening};
ghost use Rattle.slink_feed.specs.Fault.{IsCapacity};
ghost use Rattle.slink_wire.specs.declared.limits.TheConstants.{STATIONS};
ghost use Rattle.slink_model.specs.Going.{GoesOn};
ghost use Rattle.slink_feed.specs.Listening.{IsLinked};
ghost use Rattle.slink_model.specs.Running.{IsRunning};
ghost use Rattle.slink_model.specs.Spared.{HaveCodes, IsSpared};
ghost use Rattle.slink_model.specs.Slice.{HoldsSlices, IsCarried, LackFew, Resumes};
ghost use Rattle.slink_model.specs.World.{AllHappen, Differ, Happens, IsOf, LinkState, WorldState, empty_window};
ghost use Rattle.slink_model.specs.World.{lists_of, opening, seen};

use crate::world::{Memory, Setup, Step, World};
use slink_feed::{Client, Feed, Ring};
use slink_wire::Place;
use std::alloc::Global;

/// A station has a station code and a network code.
fn has_codes(place: &Place)
    ensures { IsField 5 place.now.station × IsField 2 place.now.network }
{
    // The prover learns from these two that the fields are filled by codes.
    let _station = place.station();
    let _network = place.network();
}

/// Each station has them.
fn have_codes(setup: &Setup)
    ensures { HaveCodes setup.now.places.items }
{
    for (place, _) in setup.places.as_slice() {
        has_codes(place);
    }
}

/// The empty rings of the stations.
fn feed_of(alloc: Global, setup: &Setup) -> Result<Feed, Memory>
    requires capacity { IsCapacity setup.now.capacity }
    requires first { setup.now.first < 2 ^ 24 }
    requires count { length setup.now.places.items ≤ STATIONS }
    requires differ { Differ setup.now.places.items }
    ensures { IfOk result (λ f. f ≡ map (empty_window setup.now) setup.now.places.items) }
{
    let mut feed = Feed::new();
    for (place, _) in setup.places.as_slice() {
        let Ok(ring) = Ring::new(alloc, *place, setup.capacity, setup.first) else {
            return Err(Memory);
        };
        feed.add_other(ring);
    }
    Ok(feed)
}

/// An empty list for each station.
fn lists(alloc: Global, setup: &Setup) -> Result<Vec<Vec<[u8; 512]>>, Memory>
    ensures { IfOk result (λ v. lists_of v ≡ map (λ p. []) setup.now.places.items) }
{
    let mut lists = Vec::new(alloc);
    for _ in setup.places.as_slice() {
        lists.push(Vec::new(alloc)).map_err(|_| Memory)?;
    }
    Ok(lists)
}

/// No number for each station.
fn numbers(alloc: Global, setup: &Setup) -> Result<Vec<Option<u64>>, Memory>
    ensures { IfOk result (λ v. v.items ≡ map (λ p. None) setup.now.places.items) }
{
    let mut numbers = Vec::new(alloc);
    for _ in setup.places.as_slice() {
        numbers.push(None).map_err(|_| Memory)?;
    }
    Ok(numbers)
}

/// The world before the first step.
fn open(alloc: Global, setup: &Setup) -> Result<World, Memory>
    requires capacity { IsCapacity setup.now.capacity }
    requires first { setup.now.first < 2 ^ 24 }
    requires numbers { AreNumbers setup.now.places.items }
    requires count { length setup.now.places.items ≤ STATIONS }
    requires differ { Differ setup.now.places.items }
    ensures opening { IfOk result (λ w. seen w ≡ opening setup.now) }
    ensures running { IfOk result (λ w. IsRunning (seen w)) }
{
    Ok(World {
        feed: feed_of(alloc, setup)?,
        pushed: lists(alloc, setup)?,
        client: Client::new(setup.places.as_slice(), setup.mode),
        held: lists(alloc, setup)?,
        start: numbers(alloc, setup)?,
        link: None,
    })
}

/// Returns the world that the steps of a schedule lead to: pushes, deliveries, cuts and reconnections in any order.
///
/// The stations are different, at most sixteen. The capacity is from 1 to 1,000,000 records, the first number and those
/// that the client wants first are below 2^24. There are fewer than 2^40 steps: a step names one of the stations, and a
/// record that is pushed is of the station that it is pushed to.
///
/// # Errors
///
/// `Memory` where an allocation was refused.
pub fn run_schedule(alloc: Global, setup: &Setup, steps: &[Step]) -> Result<World, Memory>
    requires capacity { IsCapacity setup.now.capacity }
    requires first { setup.now.first < 2 ^ 24 }
    requires numbers { AreNumbers setup.now.places.items }
    requires count { length setup.now.places.items ≤ STATIONS }
    requires differ { Differ setup.now.places.items }
    requires few { length steps.now < 2 ^ 40 }
    requires steps { All (IsOf setup.now.places.items) steps.now }
    // The world is what the steps make of the opening.
    ensures happen { IfOk result (λ w. AllHappen (opening setup.now) steps.now (seen w)) }
    // It is the counted world: what whole lines, replies and packets give, with the counts of the bytes that were
    // taken.
    ensures counted { IfOk result (λ w. 0 < length setup.now.places.items
        → IsCounted setup.now (counted_after setup.now (counted_opening setup.now) steps.now) (seen w)) }
    // Of each station one slice of its records is held, in order and each once, where at no moment 2^24 of them or more
    // are lacking.
    ensures slices { IfOk result (λ w. (run : AllHappen (opening setup.now) steps.now (seen w))
        → LackFew setup.now.first (opening setup.now) steps.now (seen w) run
        → HoldsSlices setup.now.places.items setup.now.first (seen w)) }
    // So it is after fewer than 2^24 steps.
    ensures brief { IfOk result (λ w. AllHappen (opening setup.now) steps.now (seen w) → length steps.now < 2 ^ 24
        → HoldsSlices setup.now.places.items setup.now.first (seen w)) }
    // A client that comes again is then granted the record after the last one held exactly where it can be, and no
    // other.
    ensures resumes { IfOk result (λ w. (run : AllHappen (opening setup.now) steps.now (seen w))
        → LackFew setup.now.first (opening setup.now) steps.now (seen w) run → Resumes (seen w)) }
    // While a client takes from its link, what is on its way of a station is then a slice of its records, up to the
    // position of its grant.
    ensures carried { IfOk result (λ w. (run : AllHappen (opening setup.now) steps.now (seen w))
        → LackFew setup.now.first (opening setup.now) steps.now (seen w) run → (l : LinkState) → (seen w).link ≡ Some l
        → IsCarried setup.now.places.items setup.now.first (seen w) l) }
    // Bytes that come to the server next answer a client that awaits the grant of a station by the number that it
    // wants.
    ensures answers { IfOk result (λ w. (run : AllHappen (opening setup.now) steps.now (seen w))
        → LackFew setup.now.first (opening setup.now) steps.now (seen w) run → 0 < length setup.now.places.items
        → (n : ℕ) (next : WorldState) (l m : LinkState) → Happens (seen w) (Step.ToServer n) next
        → (seen w).link ≡ Some l → next.link ≡ Some m → AreAnswered (seen w) l m) }
    // The first packet of a station on its way is that of the record after the last one held.
    ensures goes_on { IfOk result (λ w. (run : AllHappen (opening setup.now) steps.now (seen w))
        → LackFew setup.now.first (opening setup.now) steps.now (seen w) run → 0 < length setup.now.places.items
        → (l : LinkState) → (seen w).link ≡ Some l → IsLinked (seen w).client.talk.stage
        → GoesOn setup.now.places.items (seen w) l) }
    // The client is informed of no gap, and of nothing that it can't read, whatever is lacking.
    ensures spared { IfOk result (λ w. 0 < length setup.now.places.items → IsSpared (seen w).client.talk.stage) }
    // No other world comes of the steps.
    ensures only { IfOk result (λ w. 0 < length setup.now.places.items
        → (other : WorldState) → AllHappen (opening setup.now) steps.now other → other ≡ seen w) }
{
    have_codes(setup);
    let mut world = open(alloc, setup)?;
    for step in steps {
        world.step(alloc, step)?;
    }
    Ok(world)
}
