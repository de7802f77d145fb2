//! What an audit keeps of channels.

use crate::records::{
    BHN, FIRST, LATE, LATE_START, NEXT, NEXT_START, START, head, tail, view, with,
};
use mseed_audit::{Audit, Channel, Channels, Finding, Findings, Head, Tail, Why};
use std::alloc::Global;
use std::process::Abort;

/// Adds a record of 128 bytes to an audit of few. Answers where the next one stands.
fn add(rt: &impl Abort, audit: &mut Audit, offset: u64, bytes: &[u8; 128]) -> u64 {
    assert!(rt; audit.added() < 1000 && offset < 1000);
    let view = view(rt, bytes);
    assert!(rt; audit.add(&view, offset).is_ok());
    offset + 128
}

/// What is kept of the channels of three records of 128 bytes that stand one after another.
fn kept(rt: &impl Abort, alloc: Global, records: &[[u8; 128]; 3]) -> Channels {
    let mut audit = Audit::new(alloc);
    let mut offset = 0;
    for record in records {
        offset = add(rt, &mut audit, offset, record);
    }
    audit.into_channels(alloc).expect(rt, "memory")
}

/// No finding, between these ends.
fn nothing(head: Head, tail: Tail) -> Findings {
    Findings::Nothing { head, tail }
}

/// Whether so many records are kept of a channel, with 16 samples each, and these findings.
fn has(channel: &Channel, records: u64, findings: Findings) -> bool {
    channel.records == records
        && channel.samples == records.saturating_mul(16)
        && channel.findings == findings
}

#[test]
fn keeps_beginnings_and_ends(rt: HostRuntime) {
    let channels = kept(&rt, rt.alloc(), &[FIRST, with(BHN), with(NEXT)]);
    let [(north, one), (vertical, two)] = channels.as_slice() else {
        panic!(rt; "two channels");
    };
    assert!(rt; north.key() < vertical.key());
    let alone = nothing(head(&rt, 2, 128, START), tail(&rt, START));
    let both = nothing(head(&rt, 1, 0, START), tail(&rt, NEXT_START));
    assert!(rt; has(one, 1, alone));
    assert!(rt; has(two, 2, both));
}

#[test]
fn keeps_the_first_finding(rt: HostRuntime) {
    // The first record has no rate; the third begins late after the second.
    let no_rate = with(&[(33, &[0])]);
    let channels = kept(&rt, rt.alloc(), &[no_rate, FIRST, with(LATE)]);
    let [(_, channel)] = channels.as_slice() else {
        panic!(rt; "one channel");
    };
    let findings = Findings::Counted {
        count: 2,
        first: Finding {
            number: 1,
            offset: 0,
            why: Why::Rate,
        },
        head: None,
        tail: Some(tail(&rt, LATE_START)),
    };
    assert!(rt; has(channel, 3, findings));
}
