//! A device over TCP against a model of what it may report, event by event: many short schedules of what its clients,
//! its server and the clock do, chosen at random.
//!
//! Of each event it is judged whether it may come: a link is readable, writable or gone, and somebody dials, only where
//! something was done that makes it so, and where that is wanted. What has to come does, after a bounded number of
//! others. The bytes of each link are those that its client said, each once and in order; and its client receives those
//! that were accepted, also where the link is closed then.
//!
//! Where the input is a pipe and nothing is reported of what is due, the device waits for ever, and the test runs out
//! of time.

mod feed;
mod host;
mod pattern;
mod peer;
mod world;

use host::Still;
use pattern::Pattern;
use std::alloc::Global;
use std::io;
use std::net::Net;
use std::process::Abort;
use world::{Seen, Setting, World};

/// The setting of a schedule of this seed: at most four slots, for six clients.
fn setting_of(seed: u64) -> Setting {
    Setting {
        seed,
        slots: 1 + (seed / 2 % 4) as usize,
        limit: if seed % 3 == 0 { None } else { Some(500) },
        reads: match seed % 5 {
            0 | 1 => None,
            2 => Some((seed / 5 % 16) as u32),
            _ => Some(u32::MAX),
        },
        most: 600,
        clients: 6,
        steps: 8 + (seed % 53) as u32,
        is_full: false,
    }
}

/// What happened in a schedule, and what the device did first that it may not.
fn outcome<N: Net>(
    host: &N,
    alloc: Global,
    pattern: &Pattern,
    setting: Setting,
) -> io::Result<(Seen, Option<&'static str>)> {
    let host = Still::new(host);
    let mut world = World::new(&host, alloc, pattern, setting)?;
    world.begin();
    if setting.steps == 0 {
        world.wait_long();
    }
    for step in 0..setting.steps {
        if setting.is_full {
            world.press();
        } else {
            world.act();
        }
    }
    world.catch_up();
    world.bring_all_due(false);
    world.bring_all_due(true);
    world.rest();
    world.part();
    Ok((world.seen, world.wrong))
}

/// Whether the device does nothing in a schedule that it may not: what happened in it.
fn seen_in<N: Net>(
    rt: &impl Abort,
    host: &N,
    alloc: Global,
    pattern: &Pattern,
    setting: Setting,
) -> Seen {
    let (seen, wrong) = outcome(host, alloc, pattern, setting).expect(rt, "a device");
    if let Some(wrong) = wrong {
        panic!(rt; "{}: {wrong}", setting.seed);
    }
    seen
}

/// What happens in the schedules of these seeds.
fn seen_from<N: Net>(rt: &impl Abort, host: &N, alloc: Global, from: u64, to: u64) -> Seen {
    let pattern = Pattern::new(alloc).expect(rt, "memory");
    let mut seen = Seen::default();
    for seed in from..to {
        seen = seen.and(seen_in(rt, host, alloc, &pattern, setting_of(seed)));
    }
    seen
}

/// Whether the device does nothing in the schedules of these seeds that it may not, with all kinds of ends among them.
fn is_so_from<N: Net>(rt: &impl Abort, host: &N, alloc: Global, from: u64, to: u64) {
    let seen = seen_from(rt, host, alloc, from, to);
    assert!(rt;
        seen.halved > 0 && seen.left > 0 && seen.given_up > 0,
        "{seen:?}"
    );
}

// Four tests, since each connection keeps its port for a minute, by which the next ones take longer.
#[test]
fn tells_what_is_so(rt: HostRuntime) {
    is_so_from(&rt, &rt, rt.alloc(), 0, 6_000);
}

#[test]
fn tells_what_is_so_in_more(rt: HostRuntime) {
    is_so_from(&rt, &rt, rt.alloc(), 6_000, 12_000);
}

#[test]
fn tells_what_is_so_in_others(rt: HostRuntime) {
    is_so_from(&rt, &rt, rt.alloc(), 12_000, 18_000);
}

#[test]
fn tells_what_is_so_in_the_last(rt: HostRuntime) {
    is_so_from(&rt, &rt, rt.alloc(), 18_000, 24_000);
}

#[test]
fn tells_what_is_so_where_links_are_full(rt: HostRuntime) {
    let pattern = Pattern::new(rt.alloc()).expect(&rt, "memory");
    let mut seen = Seen::default();
    for seed in 0..20 {
        let setting = Setting {
            most: 1 << 18,
            slots: 2,
            clients: 3,
            steps: 400,
            reads: Some(u32::MAX),
            is_full: true,
            ..setting_of(seed)
        };
        seen = seen.and(seen_in(&rt, &rt, rt.alloc(), &pattern, setting));
    }
    assert!(rt;
        seen.in_part > 0 && seen.full > 0 && seen.given_up > 0,
        "{seen:?}"
    );
}

#[test]
fn tells_what_is_so_of_300_that_wait(rt: HostRuntime) {
    let pattern = Pattern::new(rt.alloc()).expect(&rt, "memory");
    let setting = Setting {
        slots: 300,
        clients: 300,
        steps: 0,
        ..setting_of(4)
    };
    let seen = seen_in(&rt, &rt, rt.alloc(), &pattern, setting);
    assert!(rt; seen.given_up == 0, "{seen:?}");
}
