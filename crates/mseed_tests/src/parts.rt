//! Two archives of a record each, the second 25,001 microseconds late: their parts joined.

use crate::records::{LATE_START, START, alone, both};
use mseed_audit::Channel;
use mseed_join::{Part, PartFault};
use mseed_record::Codes;
use std::alloc::Global;
use std::process::Abort;

const BHZ: [u8; 12] = *b"XXSTA    BHZ";

const BHN: [u8; 12] = *b"XXSTA    BHN";

/// Adds a channel of one record, which there is room for.
fn add(rt: &impl Abort, part: &mut Part, key: [u8; 12], start: i64) {
    assert!(rt; part.add_channel(Codes::of_key(key), &alone(rt, start)) == Ok(None));
}

/// The part of the first archive.
fn first_part(rt: &impl Abort, alloc: Global) -> Part {
    let mut part = Part::new(alloc);
    add(rt, &mut part, BHZ, START);
    assert!(rt; part.add_counts(1, 128) == Ok(()));
    assert!(rt; part.add_counts(u64::MAX >> 1, 0) == Err(PartFault::Limit));
    part
}

/// That of the second, which has another channel too.
fn second_part(rt: &impl Abort, alloc: Global) -> Part {
    let mut part = Part::new(alloc);
    add(rt, &mut part, BHZ, LATE_START);
    add(rt, &mut part, BHN, LATE_START);
    assert!(rt; part.add_counts(2, 256) == Ok(()));
    part
}

/// Whether the second of two channels is the one of both records.
fn are_joined(channels: &[(Codes, Channel)], wanted: &Channel) -> bool {
    match channels {
        [_, (codes, channel)] => *codes == Codes::of_key(BHZ) && channel == wanted,
        _ => false,
    }
}

/// Whether a part counts the records and the bytes of both archives.
fn counts_both(part: &Part) -> bool {
    part.records() == 3 && part.bytes() == 384
}

#[test]
fn joins_two_parts(rt: HostRuntime) {
    let second = second_part(&rt, rt.alloc());
    let part = first_part(&rt, rt.alloc())
        .join(&second)
        .expect(&rt, "a part");
    assert!(rt; counts_both(&part));
    let channels = part.into_channels(rt.alloc()).expect(&rt, "memory");
    assert!(rt; are_joined(&channels, &both(&rt)));
}
