//! A cutter and an audit that go on where they were once memory that was refused is given.
ghost use Rattle.std.specs.Prelude.{◌≡◌};
ghost use Rattle.mseed_stream.specs.Cutting.{IsAlong};
ghost use Rattle.mseed_stream.specs.Device.{nothing_read};

use super::cutting::blocks_of;
use crate::records::{NEXT, two, with};
use linked_list_allocator::LocalHeap;
use mseed_audit::{Audit, Memory, Verdict};
use mseed_record::{Codes, RecordView};
use mseed_stream::{Counted, Cutter, Source, StreamFault};
use std::alloc::Allocator;
use std::process::Abort;

/// Adds a record to an audit of few.
fn add<A: Allocator + Copy>(
    rt: &impl Abort,
    audit: &mut Audit<A>,
    view: &RecordView,
    offset: u64,
) -> Result<(), Memory> {
    assert!(rt; audit.added() < 1000);
    audit.add(view, offset)
}

/// Adds a record, where each time that memory is refused one more block is given back. Answers how often
/// it was.
fn add_in_turn<A: Allocator + Copy, B: Drop>(
    rt: &impl Abort,
    audit: &mut Audit<A>,
    view: &RecordView,
    offset: u64,
    blocks: &mut Vec<B>,
) -> Option<usize> {
    for refusals in 0..300 {
        let added = audit.added();
        match add(rt, audit, view, offset) {
            Ok(()) => return Some(refusals),
            Err(Memory) => drop(blocks.pop()),
        }
        assert!(rt; audit.added() == added);
    }
    None
}

/// Cuts and adds the next record, likewise. Answers how often the cutter and the audit had no memory.
fn cut_in_turn<A: Allocator + Copy, R: Source, B: Drop>(
    rt: &impl Abort,
    cutter: &mut Cutter<A>,
    audit: &mut Audit<A>,
    source: &mut R,
    blocks: &mut Vec<B>,
) -> Option<(usize, usize)>
    requires { IsAlong (R.read source.old) cutter.old }
    ensures { IsAlong (R.read source.new) cutter.new }
{
    for refusals in 0..300 {
        let offset = cutter.offset();
        match cutter.next(source) {
            Ok(Some(view)) => {
                return match add_in_turn(rt, audit, &view, offset, blocks) {
                    Some(added) => Some((refusals, added)),
                    None => None,
                };
            }
            Err(StreamFault::Memory) => drop(blocks.pop()),
            _ => return None,
        }
    }
    None
}

/// Whether the verdict is that of one channel of two records, continuous.
fn is_continuous(verdicts: &[(Codes, Verdict)]) -> bool {
    match verdicts {
        [
            (
                _,
                Verdict::Continuous {
                    records,
                    samples,
                    ..
                },
            ),
        ] => *records == 2 && *samples == 32,
        _ => false,
    }
}

/// Asserts that a cutter and an audit with this memory go on after more than one refusal each, and then need no more
/// for a second record.
fn assert_goes_on<A: Allocator + Copy, R: Source, B: Drop>(
    rt: &impl Abort,
    memory: A,
    source: &mut R,
    blocks: &mut Vec<B>,
)
    requires { R.read source.old ≡ nothing_read }
{
    let mut cutter = Cutter::new(memory);
    let mut audit = Audit::new(memory);
    let first = cut_in_turn(rt, &mut cutter, &mut audit, source, blocks);
    let (cuts, adds) = first.expect(rt, "a record");
    assert!(rt; cuts > 1 && adds > 1);
    let second = cut_in_turn(rt, &mut cutter, &mut audit, source, blocks);
    assert!(rt; second == Some((0, 0)));
    assert!(rt; audit.added() == 2);
    assert!(rt; is_continuous(audit.finish().as_slice()));
}

#[test]
fn goes_on_where_memory_is_refused(rt: HostRuntime) {
    let bytes = two(&with(NEXT));
    let heap = LocalHeap::new(rt.alloc(), 8192).expect(&rt, "memory");
    let mut blocks = blocks_of(&rt, rt.alloc(), &heap, 256);
    assert_goes_on(&rt, &heap, &mut Counted::new(bytes.as_slice()), &mut blocks);
}
