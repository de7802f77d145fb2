//! Worked rows of schedules.
use super::{place, record};
use slink_feed::Mode;
use slink_model::{Setup, Step, World, run_schedule};
use std::alloc::Global;
use std::process::Abort;

/// Client and server shake hands on a new link.
const SHAKE: [Step; 6] = [
    Step::Connect,
    Step::ToServer(64),
    Step::ToClient(64),
    Step::ToServer(64),
    Step::ToClient(64),
    Step::ToServer(64),
];

/// The records in the first of these lists.
fn first(lists: &[Vec<[u8; 512]>]) -> &[[u8; 512]] {
    match lists.first() {
        Some(list) => list.as_slice(),
        None => &[],
    }
}

/// The world of these steps: the station STA of XX, of which the client wants record 0 first, in a ring of two records.
fn world_of(rt: &impl Abort, alloc: Global, steps: &[Step]) -> World {
    let places = vec![in alloc; (place(rt, b"STA"), Some(0))].expect(rt, "memory");
    let setup = Setup {
        places,
        capacity: 2,
        first: 0,
        mode: Mode::Data,
    };
    assert!(rt; setup.has_steps(steps) && steps.len() <= 1000);
    run_schedule(alloc, &setup, steps).expect(rt, "memory")
}

/// Three records of the station.
fn records() -> [[u8; 512]; 3] {
    [
        record(b"STA  ", 0),
        record(b"STA  ", 1),
        record(b"STA  ", 2),
    ]
}

/// Adds steps to a schedule.
fn add(rt: &impl Abort, steps: &mut Vec<Step>, more: &[Step]) {
    steps.extend_from_slice(more).expect(rt, "memory")
}

/// The first record is pushed, and comes whole.
fn one_comes(rt: &impl Abort, alloc: Global, records: &[[u8; 512]; 3]) -> Vec<Step> {
    let mut steps = Vec::new(alloc);
    add(rt, &mut steps, &[Step::Append(0, records[0])]);
    add(rt, &mut steps, &SHAKE);
    add(rt, &mut steps, &[Step::Send(0), Step::ToClient(520)]);
    steps
}

/// Two more are pushed.
fn two_are_pushed(rt: &impl Abort, steps: &mut Vec<Step>, records: &[[u8; 512]; 3]) {
    let both = [Step::Append(0, records[1]), Step::Append(0, records[2])];
    add(rt, steps, &both)
}

/// Two packets come over a new link.
fn two_come(rt: &impl Abort, steps: &mut Vec<Step>) {
    add(rt, steps, &SHAKE);
    let both = [Step::Send(0), Step::Send(0), Step::ToClient(1040)];
    add(rt, steps, &both)
}

/// Whether a client holds these records after these steps, and wants this number next.
fn holds(rt: &impl Abort, alloc: Global, steps: &[Step], held: &[[u8; 512]], next: u32) -> bool {
    let world = world_of(rt, alloc, steps);
    first(&world.held) == held && world.client.next(0) == Some(next)
}

/// Whether these records were pushed in these steps, after the start.
fn was_pushed(rt: &impl Abort, alloc: Global, steps: &[Step], pushed: &[[u8; 512]]) -> bool {
    let world = world_of(rt, alloc, steps);
    first(&world.pushed) == pushed && world.start.as_slice() == [Some(0)].as_slice()
}

/// Whether the client goes on at a new link, where the first one is cut within the packet of the second record.
fn goes_on(
    rt: &impl Abort,
    alloc: Global,
    steps: &mut Vec<Step>,
    records: &[[u8; 512]; 3],
) -> bool {
    two_are_pushed(rt, steps, records);
    // The next packet comes but for its last byte.
    add(rt, steps, &[Step::Send(0), Step::ToClient(519), Step::Cut]);
    let is_well = holds(rt, alloc, steps, &records[..1], 1);
    two_come(rt, steps);
    is_well && holds(rt, alloc, steps, records, 3) && was_pushed(rt, alloc, steps, records)
}

#[test]
fn goes_on_after_the_last_record(rt: HostRuntime) {
    let records = records();
    let mut steps = one_comes(&rt, rt.alloc(), &records);
    assert!(rt; holds(&rt, rt.alloc(), &steps, &records[..1], 1));
    assert!(rt; goes_on(&rt, rt.alloc(), &mut steps, &records));
}

/// What comes of the second link: so many bytes to the server, or else to the client, by turns.
const TURNS: [(bool, usize); 6] = [
    (true, 16),
    (false, 4),
    (true, 13),
    (false, 4),
    (true, 5),
    (false, 1040),
];

/// The first so many bytes of these turns come, and the link is cut.
fn cut_after(rt: &impl Abort, steps: &mut Vec<Step>, count: usize) {
    let mut left = count;
    add(rt, steps, &[Step::Connect]);
    for (to_server, length) in TURNS {
        let some = left.min(length);
        left -= some;
        let comes = if to_server {
            Step::ToServer(some)
        } else {
            Step::ToClient(some)
        };
        add(rt, steps, &[Step::Send(0), Step::Send(0), comes]);
    }
    add(rt, steps, &[Step::Cut])
}

/// The steps of a link that is cut after so many bytes, and of one that goes on.
fn cut_and_gone_on(
    rt: &impl Abort,
    alloc: Global,
    records: &[[u8; 512]; 3],
    count: usize,
) -> Vec<Step> {
    let mut steps = one_comes(rt, alloc, records);
    two_are_pushed(rt, &mut steps, records);
    cut_after(rt, &mut steps, count);
    two_come(rt, &mut steps);
    steps
}

#[test]
fn goes_on_wherever_a_link_is_cut(rt: HostRuntime) {
    let records = records();
    for count in 0..1083 {
        let steps = cut_and_gone_on(&rt, rt.alloc(), &records, count);
        let goes_on = holds(&rt, rt.alloc(), &steps, &records, 3);
        assert!(rt; goes_on, "cut after {count} bytes");
    }
}
