//! Worked rows of fetching.
ghost use Rattle.slink_links.specs.Out.{AreOut};

use super::{
    ALL, Clockless, FROM_1, Links, client, output, packets, plan_of, taken_by, two_packets,
    two_records,
};
use slink_links::{FetchPlan, FetchTerms, Server, fetch_all, fetch_planned};
use slink_wire::{Address, Host};
use std::alloc::Global;
use std::process::Abort;

/// What the client says from record 2 on.
const FROM_2: &[u8] = b"STATION STA XX\r\nFETCH 000002\r\nEND\r\n";

/// The lines of a fetch whose last try failed: there was no link, or it was closed.
const UNDIALLED: &[u8] =
    b"mseed: link failed\nmseed: cannot connect to 127.0.0.1:18000: connection refused\n";

const CUT_OFF: &[u8] = b"mseed: link failed\n\
mseed: lost the connection to 127.0.0.1:18000: closed by the server before the end\n";

/// What comes of a fetch.
#[derive(Drop)]
struct Fetched {
    status: u8,
    line: Vec<u8>,
    records: Vec<u8>,
    written: Vec<Vec<u8>>,
    coming: usize,
    pauses: Vec<u8>,
}

/// A fetch over links, to an output with so much room.
fn fetch_from(
    rt: &impl Abort,
    alloc: Global,
    tries: u64,
    links: &[Option<(&[u8], usize)>],
    room: usize,
    tell_next: bool,
) -> Fetched {
    let mut links = Links::new(rt, alloc, links);
    let mut waits = Clockless::new(alloc);
    let mut records = output(alloc, room);
    let mut errors = output(alloc, ALL);
    let terms = FetchTerms {
        server: Server {
            host: Host::Address(Address::local()),
            port: 18_000,
        },
        tries,
        report_next: tell_next,
    };
    let status = fetch_all(
        &mut client(rt),
        &terms,
        &mut links,
        &mut waits,
        &mut records,
        &mut errors,
    );
    Fetched {
        status,
        line: taken_by(errors),
        records: taken_by(records),
        coming: links.coming.len(),
        written: links.taken,
        pauses: waits.tenths,
    }
}

/// A fetch over links that give so many of these bytes.
fn fetch_over(
    rt: &impl Abort,
    alloc: Global,
    tries: u64,
    all: &[u8],
    counts: &[Option<usize>],
) -> Fetched {
    let mut links = Vec::new(alloc);
    for count in counts {
        let link = count.map(|n| (all.get(..n).unwrap_or(all), ALL));
        links.push(link).expect(rt, "memory");
    }
    fetch_from(rt, alloc, tries, links.as_slice(), ALL, false)
}

/// Whether so many links accepted the lines of a client that lacks record 1.
fn are_from_1(written: &[Vec<u8>], links: usize) -> bool {
    written.len() == links && written.iter().all(|lines| lines.as_slice() == FROM_1)
}

/// Whether a fetch ended so, with these lines and records.
fn ended(fetched: &Fetched, status: u8, lines: &[u8], records: Option<&[u8]>) -> bool {
    fetched.status == status
        && fetched.line.as_slice() == lines
        && Some(fetched.records.as_slice()) == records
}

/// At most so many tries; of the links that come, how many bytes each gives; the status and the lines; how many bytes
/// of records 1 and 2 are written; and how many links accepted the lines of the client.
type Fetch = (
    u64,
    &'static [Option<usize>],
    u8,
    &'static [u8],
    usize,
    usize,
);

static FETCHES: [Fetch; 8] = [
    (1, &[Some(1051)], 0, b"", 1024, 1),
    // Cut off in the packet of record 1, and then after it.
    (2, &[Some(8 + 519), Some(1051)], 0, b"", 1024, 2),
    (2, &[Some(8 + 519), Some(8 + 520)], 2, CUT_OFF, 512, 2),
    (1, &[None, Some(1051)], 2, UNDIALLED, 0, 0),
    (2, &[None, Some(1051)], 0, b"", 1024, 1),
    // What went wrong is that of the last try.
    (3, &[None, Some(8 + 520), None], 2, UNDIALLED, 512, 1),
    (3, &[Some(8), None, Some(8 + 520)], 2, CUT_OFF, 512, 2),
    (0, &[Some(1051)], 2, b"mseed: link failed\n", 0, 0),
];

/// Whether a fetch of these bytes goes as a row says, and brings a part of these records.
fn is_fetched(rt: &impl Abort, alloc: Global, all: &[u8], records: &[u8], row: &Fetch) -> bool {
    let (tries, counts, status, lines, length, links) = *row;
    let fetched = fetch_over(rt, alloc, tries, all, counts);
    ended(&fetched, status, lines, records.get(..length)) && are_from_1(&fetched.written, links)
}

#[test]
fn fetches_over_one_link_after_another(rt: HostRuntime) {
    let all = two_packets(&rt, rt.alloc());
    let records = two_records(&rt, rt.alloc());
    for row in &FETCHES {
        let is_fetched = is_fetched(&rt, rt.alloc(), &all, &records, row);
        assert!(rt; is_fetched, "{:?}", row.1);
    }
}

/// The status of a planned fetch of two tries over links, and what is written.
fn planned(alloc: Global, plan: &mut FetchPlan, links: &mut Links) -> (u8, Vec<u8>)
    requires { AreOut 0 links.old.tally.calls links.old.tally.failures links.old.given_back.all }
{
    let mut waits = Clockless::new(alloc);
    let mut records = output(alloc, ALL);
    let mut errors = output(alloc, ALL);
    let status = fetch_planned(plan, links, &mut waits, &mut records, &mut errors);
    (status, taken_by(records))
}

/// Whether a planned fetch brings these records, and its client wants record 3 next.
fn brings(alloc: Global, plan: &mut FetchPlan, links: &mut Links, records: &[u8]) -> bool
    requires { AreOut 0 links.old.tally.calls links.old.tally.failures links.old.given_back.all }
{
    let (status, written) = planned(alloc, plan, links);
    status == 0 && written.as_slice() == records && plan.client.next(0) == Some(3)
}

/// Whether two links accepted the lines of a client, from record 1 on and from record 2 on.
fn are_from_1_and_2(written: &[Vec<u8>]) -> bool {
    match written {
        [first, second] => first.as_slice() == FROM_1 && second.as_slice() == FROM_2,
        _ => false,
    }
}

/// Whether the fetch goes on over a second link that gives this where the first one has given that.
fn goes_on(rt: &impl Abort, alloc: Global, first: &[u8], second: &[u8]) -> bool {
    let records = two_records(rt, alloc);
    let mut links = Links::new(rt, alloc, &[Some((first, ALL)), Some((second, ALL))]);
    let mut plan = plan_of(client(rt), 2, 600);
    brings(alloc, &mut plan, &mut links, &records) && are_from_1_and_2(&links.taken)
}

#[test]
fn goes_on_after_the_last_record(rt: HostRuntime) {
    let all = two_packets(&rt, rt.alloc());
    let second = packets(&rt, rt.alloc(), 2..3);
    let first = all.as_slice().get(..8 + 520 + 100).unwrap_or(b"");
    assert!(rt; goes_on(&rt, rt.alloc(), first, &second));
}

/// The lines of a fetch whose station is refused, and of one that is answered otherwise.
const REFUSED: &[u8] = b"mseed: refused\nmseed: XX_STA from 000001: the server refuses it\n";

const BUSY: &[u8] =
    b"mseed: refused\nmseed: XX_STA from 000001: the server refuses it: ERROR busy\n";

const UNANSWERED: &[u8] =
    b"mseed: bad feed\nmseed: XX_STA from 000001: the reply is neither OK nor ERROR: OKAY\n";

const EMPTY: &[u8] =
    b"mseed: bad feed\nmseed: XX_STA from 000001: the reply is neither OK nor ERROR\n";

const GARBAGE: &[u8] =
    b"mseed: bad feed\nmseed: bytes came that are neither a packet nor the end, after 0 packets\n";

/// What the first of two links gives, or both packets; the room of the output, and the lines.
static ENDS: [(Option<&[u8]>, usize, &[u8]); 6] = [
    (Some(b"ERROR\r\n"), ALL, REFUSED),
    (Some(b"OK\r\nERROR busy\r\n"), ALL, BUSY),
    (Some(b"OKAY\r\n"), ALL, UNANSWERED),
    (Some(b"OK\r\n\r\n"), ALL, EMPTY),
    (Some(b"OK\r\nOK\r\nENX"), ALL, GARBAGE),
    (None, 511, b"mseed: write failed\n"),
];

/// Whether a fetch ended with this line over the first of two links, and didn't wait.
fn ended_at_once(fetched: &Fetched, line: &[u8]) -> bool {
    fetched.status == 2
        && fetched.line.as_slice() == line
        && fetched.coming == 1
        && fetched.pauses.is_empty()
}

/// What comes of so many tries over a link that gives this, or else both packets, and one that gives both.
fn fetched_from_two(
    rt: &impl Abort,
    alloc: Global,
    tries: u64,
    first: Option<&[u8]>,
    room: usize,
    tell_next: bool,
) -> Fetched {
    let packets = two_packets(rt, alloc);
    let second = packets.as_slice();
    let links = [Some((first.unwrap_or(second), ALL)), Some((second, ALL))];
    fetch_from(rt, alloc, tries, &links, room, tell_next)
}

#[test]
fn ends_at_once_where_no_try_helps(rt: HostRuntime) {
    for (first, room, line) in &ENDS {
        let fetched = fetched_from_two(&rt, rt.alloc(), 2, *first, *room, false);
        assert!(rt; ended_at_once(&fetched, line), "{line:?}");
    }
}

/// Whether a fetch that lacks record 1 ends so where record 2 comes.
fn ends_at_a_gap(rt: &impl Abort, alloc: Global, lines: &[u8]) -> bool {
    let first = packets(rt, alloc, 2..3);
    ended_at_once(
        &fetched_from_two(rt, alloc, 2, Some(&first), ALL, false),
        lines,
    )
}

#[test]
fn tells_which_record_was_wanted(rt: HostRuntime) {
    let lines = b"mseed: bad feed\nmseed: XX_STA: record 000001 was wanted, and 000002 came\n";
    assert!(rt; ends_at_a_gap(&rt, rt.alloc(), lines));
}

/// How many bytes each link gives, and the pauses in tenths of a second. After 528 bytes a record is whole.
static PAUSES: [(&[Option<usize>], &[u8]); 5] = [
    (&[], b""),
    (&[None], b""),
    (
        &[None, Some(8), Some(527), None, None, None, None, None, None],
        &[1, 2, 4, 8, 16, 32, 50, 50],
    ),
    (&[None, None, Some(528), None, None], &[1, 2, 1, 2]),
    (&[Some(528), Some(1051), None], &[1]),
];

/// Whether a fetch of these bytes waits so.
fn waits(
    rt: &impl Abort,
    alloc: Global,
    all: &[u8],
    counts: &[Option<usize>],
    pauses: &[u8],
) -> bool {
    let fetched = fetch_over(rt, alloc, counts.len() as u64, all, counts);
    fetched.pauses.as_slice() == pauses
}

#[test]
fn waits_between_tries(rt: HostRuntime) {
    let all = two_packets(&rt, rt.alloc());
    for (counts, pauses) in &PAUSES {
        assert!(rt; waits(&rt, rt.alloc(), &all, counts, pauses), "{pauses:?}");
    }
}

/// What the first link gives, or both packets; the room of the output, and the lines.
static TOLD: [(Option<&[u8]>, usize, &[u8]); 3] = [
    (
        None,
        ALL,
        b"mseed: first XX_STA:000001\nmseed: next --network XX --station STA --from 000003\n",
    ),
    (
        None,
        1023,
        b"mseed: first XX_STA:000001\nmseed: write failed\n\
          mseed: next --network XX --station STA --from 000002\n",
    ),
    (
        Some(b"ERROR\r\n"),
        ALL,
        b"mseed: refused\nmseed: XX_STA from 000001: the server refuses it\n\
          mseed: next --network XX --station STA --from 000001\n",
    ),
];

/// Whether a fetch by one try from such a link reports these lines.
fn tells(rt: &impl Abort, alloc: Global, first: Option<&[u8]>, room: usize, lines: &[u8]) -> bool {
    let fetched = fetched_from_two(rt, alloc, 1, first, room, true);
    fetched.line.as_slice() == lines
}

#[test]
fn tells_where_to_go_on(rt: HostRuntime) {
    for (first, room, lines) in &TOLD {
        assert!(rt; tells(&rt, rt.alloc(), *first, *room, lines), "{lines:?}");
    }
}
