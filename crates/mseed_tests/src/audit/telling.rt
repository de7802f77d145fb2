//! Audits that tell each record with a finding: rows computed by hand, outputs that fail and memory that is refused.

use super::devices::{Filling, assert_refusals, sink_with};
use crate::records::{BHN, FIRST, LATE, put, summary, two, with};
use linked_list_allocator::LocalHeap;
use mseed_audit::{EachFault, Summary, audit_each};
use mseed_stream::{Counted, StreamFault};
use std::alloc::{Allocator, Global};
use std::process::Abort;

/// What is reported of the first record and one that begins half a sample and a microsecond late.
static GAP: &str = "128 XX_STA__BHZ record 2 start 2024-01-01T00:00:00.825001 gap 25001\n\
    XX_STA__BHZ broken findings 1 first record 2 offset 128 gap 25001\n\
    records 2 channels 1\n";

/// What is reported of two channels, with a silent record, a start that is no time, and no rate.
static MANY: &str = "0 XX_STA__BHZ record 1 start fault hour time hour\n\
    384 XX_STA__BHN record 4 start 2024-01-01T00:00:00.000000 overlap 800000\n\
    640 XX_STA__BHZ record 6 start 2024-01-01T00:00:00.000000 norate\n\
    XX_STA__BHN broken findings 1 first record 4 offset 384 overlap 800000\n\
    XX_STA__BHZ broken findings 2 first record 1 offset 0 time hour\n\
    records 6 channels 2\n\
    fault at 768 truncated 1\n";

/// A start whose hour is no hour.
const BAD_HOUR: (usize, &[u8]) = (24, &[24]);

/// The records of the second row, and a byte after them.
pub(super) fn many() -> [u8; 769] {
    let mut bytes = [b'0'; 769];
    put(&mut bytes, 0, &with(&[BAD_HOUR]));
    put(&mut bytes, 128, &with(BHN));
    put(&mut bytes, 256, &with(&[BAD_HOUR, (30, &[0, 0])]));
    put(&mut bytes, 384, &with(BHN));
    put(&mut bytes, 512, &FIRST);
    put(&mut bytes, 640, &with(&[(32, &[0, 0])]));
    bytes
}

/// Whether the audit of these bytes is answered so, and this text is written where there is so much room.
fn is_reported(
    alloc: Global,
    bytes: &[u8],
    room: usize,
    wanted: Result<Summary, EachFault>,
    text: &[u8],
) -> bool {
    let (answer, reported) = told(alloc, alloc, bytes, room);
    answer == wanted && reported.taken.as_slice() == text
}

#[test]
fn tells_each_finding(rt: HostRuntime) {
    let one = summary(2, 1, 1, None);
    let bytes = two(&with(LATE));
    assert!(rt; is_reported(rt.alloc(), &bytes, 1 << 20, Ok(one), GAP.as_bytes()));
    let both = summary(6, 2, 2, Some(StreamFault::Truncated(768, 1)));
    assert!(rt; is_reported(rt.alloc(), &many(), 1 << 20, Ok(both), MANY.as_bytes()));
}

#[test]
fn tells_what_there_is_room_for(rt: HostRuntime) {
    let bytes = many();
    for room in 0..MANY.len() {
        let text = &MANY.as_bytes()[..room];
        let fails = is_reported(rt.alloc(), &bytes, room, Err(EachFault::Write), text);
        assert!(rt; fails, "{room}");
    }
}

/// The first record a thousand times.
fn thousand(rt: &impl Abort, alloc: Global) -> Vec<u8> {
    let mut bytes = Vec::new(alloc);
    for _ in 0..1000 {
        bytes.extend_from_slice(&FIRST).expect(rt, "memory");
    }
    bytes
}

/// What is reported of them.
fn thousand_reported(rt: &impl Abort, alloc: Global) -> Vec<u8> {
    let mut text = Vec::new(alloc);
    for number in 1..1000u32 {
        let line = format!(in alloc;
            "{} XX_STA__BHZ record {} start 2024-01-01T00:00:00.000000 overlap 800000\n",
            number * 128,
            number + 1
        )
        .expect(rt, "memory");
        text.extend_from_slice(line.as_bytes()).expect(rt, "memory");
    }
    text.extend_from_slice(
        b"XX_STA__BHZ broken findings 999 first record 2 offset 128 overlap 800000\n\
        records 1000 channels 1\n",
    )
    .expect(rt, "memory");
    text
}

/// Whether the audit of these bytes fills this room with what the text begins with, in some writes where there is
/// room for many lines, and has no fault where there is room for the whole text.
fn fills(alloc: Global, bytes: &[u8], text: &[u8], room: usize) -> bool {
    let (answer, reported) = told(alloc, alloc, bytes, room);
    answer.is_ok() == (room == text.len())
        && reported.taken.len() == room
        && text.starts_with(reported.taken.as_slice())
        && (room == 1000 || reported.writes > 1)
}

#[test]
fn tells_as_records_come(rt: HostRuntime) {
    let bytes = thousand(&rt, rt.alloc());
    let text = thousand_reported(&rt, rt.alloc());
    for room in [text.len(), 70_000, 1000] {
        assert!(rt; fills(rt.alloc(), &bytes, &text, room), "{room}");
    }
}

/// What is answered and reported of an audit with this memory.
fn told<A: Allocator + Copy>(
    alloc: Global,
    memory: A,
    bytes: &[u8],
    room: usize,
) -> (Result<Summary, EachFault>, Filling) {
    let mut sink = sink_with(alloc, room);
    let answer = audit_each(memory, &mut Counted::new(bytes), &mut sink);
    (answer, sink.into_inner())
}

/// Audits with the memory of a heap, and says whether it was enough. Where it wasn't, a prefix is reported.
fn reports(rt: &impl Abort, alloc: Global, heap: &LocalHeap, bytes: &[u8]) -> bool {
    let (answer, reported) = told(alloc, heap, bytes, 1 << 20);
    let taken = reported.taken.as_slice();
    assert!(rt; MANY.as_bytes().starts_with(taken));
    if answer.is_ok() {
        assert!(rt; taken.len() == MANY.len());
    } else {
        assert!(rt; answer == Err(EachFault::Memory));
    }
    answer.is_ok()
}

#[test]
fn tells_a_prefix_where_memory_is_refused(rt: HostRuntime) {
    let bytes = many();
    let is_reported = |heap: &LocalHeap| reports(&rt, rt.alloc(), heap, &bytes);
    assert_refusals(&rt, rt.alloc(), 0..400, 16, is_reported);
}
