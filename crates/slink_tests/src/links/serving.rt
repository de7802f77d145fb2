//! Worked rows of serving.
ghost use Rattle.slink_links.specs.Out.{AreOut};

use super::{ALL, Links, REQUEST, line_of, output, serve_plan_of, taken_by, two_packets};
use crate::model::three_pushed;
use slink_feed::Feed;
use slink_links::{serve_all, serve_planned};
use std::alloc::Global;
use std::process::Abort;

/// A link whose client lacks records 1 and 2, and takes all.
const ASKING: Option<(&[u8], usize)> = Some((REQUEST, ALL));

/// How many connections, the links that come, the status, and how many of all bytes each link accepted.
type Served = (
    u64,
    &'static [Option<(&'static [u8], usize)>],
    u8,
    &'static [usize],
);

static SERVED: [Served; 8] = [
    (0, &[ASKING], 0, &[]),
    (1, &[ASKING], 0, &[1051]),
    (1, &[ASKING, ASKING], 0, &[1051]),
    (2, &[ASKING, ASKING], 0, &[1051, 1051]),
    (2, &[Some((b"", ALL)), ASKING], 0, &[0, 1051]),
    (2, &[None, ASKING], 2, &[1051]),
    (2, &[Some((REQUEST, 8 + 519)), ASKING], 2, &[527, 1051]),
    (
        3,
        &[Some((REQUEST, 3)), None, Some((REQUEST, 1050))],
        2,
        &[3, 1050],
    ),
];

/// Whether links accepted so many of all bytes.
fn are_of(taken: &[Vec<u8>], all: &[u8], counts: &[usize]) -> bool {
    let mut is_well = taken.len() == counts.len();
    for (bytes, count) in taken.iter().zip(counts) {
        is_well = is_well && all.get(..*count) == Some(bytes.as_slice());
    }
    is_well
}

/// The status of a server of so many of these links, and what it reports.
fn served(alloc: Global, feed: &Feed, connections: u64, links: &mut Links) -> (u8, Vec<u8>)
    requires { AreOut 0 links.old.tally.calls links.old.tally.failures links.old.given_back.all }
{
    let mut errors = output(alloc, ALL);
    let status = serve_all(feed, connections, links, &mut errors);
    (status, taken_by(errors))
}

/// Whether a feed is served as a row says, where these are all bytes.
fn is_served(rt: &impl Abort, alloc: Global, feed: &Feed, all: &[u8], row: &Served) -> bool {
    let mut links = Links::new(rt, alloc, row.1);
    let (status, line) = served(alloc, feed, row.0, &mut links);
    status == row.2 && line.as_slice() == line_of(status) && are_of(&links.taken, all, row.3)
}

#[test]
fn serves_each_connection(rt: HostRuntime) {
    let all = two_packets(&rt, rt.alloc());
    let feed = three_pushed(&rt, rt.alloc(), 0);
    for (index, row) in SERVED.iter().enumerate() {
        assert!(rt; is_served(&rt, rt.alloc(), &feed, &all, row), "row {index}");
    }
}

/// How many of three links are left after a planned server of so many connections, if all goes well.
fn links_left(rt: &impl Abort, alloc: Global, connections: u32) -> Option<usize> {
    let mut links = Links::new(rt, alloc, &[ASKING, ASKING, ASKING]);
    let plan = serve_plan_of(three_pushed(rt, alloc, 0), connections, 600);
    let mut errors = output(alloc, ALL);
    let status = serve_planned(&plan, &mut links, &mut errors);
    (status == 0).then_some(links.coming.len())
}

#[test]
fn serves_as_planned(rt: HostRuntime) {
    assert!(rt; links_left(&rt, rt.alloc(), 1) == Some(2));
    assert!(rt; links_left(&rt, rt.alloc(), 2) == Some(1));
}
