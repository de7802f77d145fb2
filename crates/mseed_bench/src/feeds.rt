//! A live feed: an input that is served to many links in memory.
ghost use Rattle.std.specs.Prelude.{◌≡◌, IfOk};
ghost use Rattle.slink_live.specs.Served.{IsSound};

use crate::archive::{USUAL, packed};
use crate::bench::Bench;
use crate::failure::Failure;
use crate::links::Links;
use crate::shape::date;
use slink_feed::{Feed, Ring};
use slink_live::Server;
use slink_wire::Place;
use std::alloc::Global;

/// How many records a ring keeps.
const CAPACITY: usize = 4_096;

/// What a client says that wants each record of the input, and one that wants those of a station that sends none.
const ALL: &[u8] = b"STATION STA XX\r\nDATA\r\nEND\r\n";

const NONE: &[u8] = b"STATION STB XX\r\nDATA\r\nEND\r\n";

/// How many links there are: those that want each record, and all. How much each accepts at a time, and the number
/// whose year the input of its first round has.
#[derive(Clone, Copy)]
struct Crowd {
    fast: usize,
    most: usize,
    bite: usize,
    first: usize,
}

/// Serves an input to links that accept all at once, to one beside a thousand that wait, and to slow ones.
pub(crate) fn run(bench: &mut Bench) -> Result<(), Failure> {
    let samples = bench.scale.of(1_600_000, 20_000);
    let mut input = packed(bench, USUAL, samples, 9)?;
    let eager = Crowd {
        fast: 64,
        most: 64,
        bite: 1 << 16,
        first: 0,
    };
    serve_often(bench, &mut input, eager, (10, 1))?;
    let waiting = Crowd {
        fast: 1,
        most: bench.scale.of(1_001, 20),
        bite: 1 << 16,
        first: 30,
    };
    serve_often(bench, &mut input, waiting, (6, 1))?;
    let slow = Crowd {
        fast: 64,
        most: 64,
        bite: 300,
        first: 60,
    };
    serve_often(bench, &mut input, slow, (4, 1))
}

/// Serves an input to a crowd in so many rounds of the full scale and of the small one, each time of another year.
fn serve_often(
    bench: &mut Bench,
    input: &mut [u8],
    crowd: Crowd,
    (full, small): (usize, usize),
) -> Result<(), Failure> {
    for round in 0..bench.scale.of(full, small) {
        date(input, 512, crowd.first.saturating_add(round));
        bench.digest.number(serve(bench.alloc, input, crowd)?);
    }
    Ok(())
}

/// Serves an input to a crowd, and answers the digest of what its links accepted.
fn serve(alloc: Global, input: &[u8], crowd: Crowd) -> Result<u64, Failure> {
    let mut server = server_of(alloc, crowd.most)?;
    let requests = [ALL, NONE];
    let mut links = Links::new(alloc, input, (crowd.fast, crowd.most), requests, crowd.bite)?;
    match server.serve(&mut links) {
        Ok(()) => Ok(links.value()),
        Err(_) => Err(Failure::Refused),
    }
}

/// A ring of a station of the network XX.
fn ring_of(alloc: Global, station: &[u8]) -> Result<Ring, Failure>
    ensures { IfOk result (λ ring. ring.next ≡ 0) }
{
    let Ok(place) = Place::new(station, b"XX") else {
        return Err(Failure::Refused);
    };
    match Ring::new(alloc, place, CAPACITY, 0) {
        Ok(ring) => Ok(ring),
        Err(_) => Err(Failure::Memory),
    }
}

/// A server of the rings of two stations, with so many slots.
fn server_of(alloc: Global, links: usize) -> Result<Server, Failure>
    ensures { IfOk result IsSound }
{
    let mut feed = Feed::new();
    feed.add_other(ring_of(alloc, b"STA")?);
    if feed.add(ring_of(alloc, b"STB")?).is_err() {
        return Err(Failure::Refused);
    }
    Ok(Server::new(alloc, feed, links)?)
}
