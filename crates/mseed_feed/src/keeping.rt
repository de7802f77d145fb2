//! What is reported of the rings of a feed that is filled. The lines are built without the heap.
ghost use Rattle.std.specs.Prelude.{◌≡◌};
ghost use Rattle.slink_feed.specs.Reporter.{AreReported};
ghost use Rattle.mseed_feed.specs.Plans.{keeps_line, keeps_lines, ring_lines};

use mseed_stream::{Sink, report};
use mseed_text::Line;
use mseed_words::Serving;
use slink_feed::{Feed, Ring};
use slink_wire::Place;
use std::alloc::Allocator;

/// Reports each station of which more records came than its ring keeps, in the order of the stations.
pub(crate) fn report_kept<A: Allocator, E: Sink>(feed: &Feed<A>, serving: &Serving, errors: &mut E)
    ensures { AreReported (keeps_lines serving.now feed.now) (E.written errors.old) (E.written errors.new) }
{
    for k in 0..feed.len() {
        report_ring(feed.ring(k), serving, errors);
    }
}

/// Reports the station of a ring, where more records came than the ring keeps.
fn report_ring<A: Allocator, E: Sink>(ring: &Ring<A>, serving: &Serving, errors: &mut E)
    ensures { AreReported (ring_lines serving.now ring.now) (E.written errors.old) (E.written errors.new) }
{
    let came = ring.next().saturating_sub(u64::from(serving.first));
    if came > u64::from(serving.capacity) {
        report(
            errors,
            keeps_line(ring.place(), serving.capacity, came).as_slice(),
        );
    }
}

/// The line of a station of which more records came than its ring keeps.
fn keeps_line(place: Place, capacity: u32, came: u64) -> Line
    ensures { result ≡ keeps_line place capacity came }
{
    let mut line = Line::new();
    line.put(b"mseed: ");
    line.put(place.label().as_slice());
    line.put_labelled(b" keeps the last ", u64::from(capacity));
    line.put_labelled(b" of ", came);
    line.put(b" records\n");
    line
}
