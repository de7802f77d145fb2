//! Samples that memory lacks for.

use super::record::{Row, STEIM_1, record};
use linked_list_allocator::LocalHeap;
use mseed_record::RecordView;
use mseed_steim::{ReadFault, read_samples};
use std::process::Abort;

/// Keeps a record's samples in a heap, and says whether memory lacked. Else they are these, or this fault is answered.
fn lacks_memory(
    rt: &impl Abort,
    heap: &LocalHeap,
    bytes: &[u8],
    wanted: Result<&[i32], ReadFault>,
) -> bool {
    let view = RecordView::of(bytes).expect(rt, "a record");
    assert!(rt; view.samples() != 0);
    match read_samples(heap, &view) {
        Ok(samples) => assert!(rt; wanted == Ok(samples.as_slice())),
        Err(ReadFault::Memory) => return true,
        Err(fault) => assert!(rt; wanted == Err(fault)),
    }
    false
}

/// Thirteen words of four differences of 0, and 40 samples of them.
const LEVEL: Row = Row {
    samples: 40,
    frames: &[&[0x0155_5555, 7, 7]],
    ..STEIM_1
};

/// One sample more than they spell.
const SHORT: Row = Row {
    samples: 53,
    ..LEVEL
};

#[test]
fn answers_memory_behind_each_other_fault(rt: HostRuntime) {
    let level = record(&LEVEL);
    let short = record(&SHORT);
    let mut was_refused = false;
    let mut was_kept = false;
    for size in 0..32 {
        let heap = LocalHeap::new(rt.alloc(), size * 16).expect(&rt, "memory");
        let is_refused = lacks_memory(&rt, &heap, &level, Ok(&[7; 40]));
        assert!(rt; !(is_refused && was_kept), "more memory, and less is kept");
        was_refused = was_refused || is_refused;
        was_kept = !is_refused;
        assert!(rt; !lacks_memory(&rt, &heap, &short, Err(ReadFault::Short(52))));
    }
    assert!(rt; was_refused && was_kept);
}
