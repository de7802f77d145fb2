//! Records cut out of small readers: lengths, places and ends are those of the header's fields and of
// blockette 1000.
ghost use Rattle.std.specs.Prelude.{◌≡◌};
ghost use Rattle.mseed_stream.specs.Counted.{read_by};
ghost use Rattle.mseed_stream.specs.Cutting.{IsAlong};
ghost use Rattle.mseed_stream.specs.Device.{nothing_read};

use super::devices::{NEVER, Pieces, assert_refusals};
use crate::records::FIRST;
use linked_list_allocator::LocalHeap;
use mseed_stream::{Buffered, Counted, Cutter, Source, StreamFault, split, split_in};
use std::alloc::{Allocator, Global};
use std::io;
use std::io::BufReader;
use std::process::Abort;

/// Where blockette 1000 has the length exponent.
const EXPONENT: usize = 54;

/// The bytes in pieces, of which a read after so many others is interrupted.
fn pieces(rest: &[u8], most: usize, calls_before_failure: usize) -> Pieces<'_> {
    Pieces {
        rest,
        most,
        calls_before_failure,
        kind: io::ErrorKind::Interrupted,
    }
}

/// The bytes in pieces, of which nothing was read yet.
fn in_pieces(rest: &[u8], most: usize) -> Counted<Pieces<'_>>
    ensures { read_by result ≡ nothing_read }
{
    Counted::new(pieces(rest, most, NEVER))
}

/// What a cutter answered.
#[derive(Clone, Copy, PartialEq, Eq)]
enum Answer {
    /// A record of so many bytes, and where it begins.
    Record(u64, usize),
    End,
    Fault(StreamFault),
}

/// The next answer. The cutter can be called again, whatever it was.
fn next_answer<A: Allocator, R: Source>(cutter: &mut Cutter<A>, source: &mut R) -> Answer
    requires { IsAlong (R.read source.old) cutter.old }
    ensures { IsAlong (R.read source.new) cutter.new }
{
    let offset = cutter.offset();
    match cutter.next(source) {
        Ok(Some(record)) => Answer::Record(offset, record.bytes().len()),
        Ok(None) => Answer::End,
        Err(fault) => Answer::Fault(fault),
    }
}

/// The next answer, where a record that the source holds whole is looked at there.
fn answer_where_it_lies<A: Allocator, R: Source>(cutter: &mut Cutter<A>, source: &mut R) -> Answer
    requires { IsAlong (R.read source.old) cutter.old }
    ensures { IsAlong (R.read source.new) cutter.new }
{
    let offset = cutter.offset();
    if let Some(record) = cutter.peek(source) {
        let size = record.bytes().len();
        cutter.pass(source, size);
        return Answer::Record(offset, size);
    }
    next_answer(cutter, source)
}

/// How often memory was refused before the first record came, where each time one more block is given back.
fn refusals_before_record<A: Allocator, R: Source, B: Drop>(
    cutter: &mut Cutter<A>,
    source: &mut R,
    blocks: &mut Vec<B>,
) -> Option<usize>
    requires { IsAlong (R.read source.old) cutter.old }
    ensures { IsAlong (R.read source.new) cutter.new }
{
    for refusals in 0..100 {
        match next_answer(cutter, source) {
            Answer::Fault(StreamFault::Memory) => drop(blocks.pop()),
            Answer::Record(0, 512) => return Some(refusals),
            _ => return None,
        }
    }
    None
}

/// The first four answers of a cutter.
fn answers<R: Source>(alloc: Global, source: &mut R) -> [Answer; 4]
    requires { R.read source.old ≡ nothing_read }
{
    let mut cutter = Cutter::new(alloc);
    let first = next_answer(&mut cutter, source);
    let second = next_answer(&mut cutter, source);
    let third = next_answer(&mut cutter, source);
    [first, second, third, next_answer(&mut cutter, source)]
}

/// Appends a record of 2^exponent bytes, with zeros for its integers.
fn push_record(rt: &impl Abort, bytes: &mut Vec<u8>, exponent: u8) {
    let mut head = FIRST;
    head[EXPONENT] = exponent;
    let end = bytes.len().saturating_add(1 << (exponent % 21));
    bytes.extend_from_slice(&head[..64]).expect(rt, "memory");
    bytes.resize(end, 0).expect(rt, "memory");
}

/// Records of these exponents, one after another.
fn records(rt: &impl Abort, alloc: Global, exponents: &[u8]) -> Vec<u8> {
    let mut bytes = Vec::new(alloc);
    for exponent in exponents {
        push_record(rt, &mut bytes, *exponent);
    }
    bytes
}

#[test]
fn cuts_records_in_any_pieces(rt: HostRuntime) {
    let bytes = records(&rt, rt.alloc(), &[8, 7, 9]);
    let wanted = [
        Answer::Record(0, 256),
        Answer::Record(256, 128),
        Answer::Record(384, 512),
        Answer::End,
    ];
    for most in [1, 3, 48, 256, 900] {
        let found = answers(rt.alloc(), &mut in_pieces(&bytes, most));
        assert!(rt; found == wanted, "{most}");
    }
}

/// Whether a record of so many bytes is looked at where it lies, or else copied, and the cutter has so much room then.
fn lends<A: Allocator, R: Source>(
    cutter: &mut Cutter<A>,
    source: &mut R,
    record: Answer,
    room: usize,
) -> bool
    requires { IsAlong (R.read source.old) cutter.old }
    ensures { IsAlong (R.read source.new) cutter.new }
{
    answer_where_it_lies(cutter, source) == record && cutter.room() == room
}

/// Whether a cutter lends records of 128, 256 and 512 bytes. It copies the first, and the last, which comes in two
/// pieces.
fn lends_three<R: Source>(alloc: Global, source: &mut R) -> bool
    requires { R.read source.old ≡ nothing_read }
{
    let mut cutter = Cutter::new(alloc);
    lends(&mut cutter, source, Answer::Record(0, 128), 128)
        && lends(&mut cutter, source, Answer::Record(128, 256), 128)
        && lends(&mut cutter, source, Answer::Record(384, 512), 512)
        && lends(&mut cutter, source, Answer::End, 512)
}

#[test]
fn lends_records_where_they_lie(rt: HostRuntime) {
    let bytes = records(&rt, rt.alloc(), &[7, 8, 9]);
    let pieces = pieces(&bytes, 700, NEVER);
    let reader = BufReader::with_capacity(rt.alloc(), 4096, pieces).expect(&rt, "memory");
    assert!(rt; lends_three(rt.alloc(), &mut Buffered::new(reader)));
}

#[test]
fn keeps_the_fault_of_a_read(rt: HostRuntime) {
    let bytes = records(&rt, rt.alloc(), &[7, 7]);
    let fault = Answer::Fault(StreamFault::Read(128));
    let mut source = Counted::new(pieces(&bytes, 1, 200));
    let wanted = [Answer::Record(0, 128), fault, fault, fault];
    assert!(rt; answers(rt.alloc(), &mut source) == wanted);
    assert!(rt; source.get_ref().rest.len() == 56, "the reader would go on");
}

/// As many blocks of 32 bytes as a heap has, or so many.
pub(super) fn blocks_of<'a>(
    rt: &impl Abort,
    alloc: Global,
    heap: &'a LocalHeap,
    most: usize,
) -> Vec<Vec<u8, &'a LocalHeap>> {
    let mut blocks = Vec::new(alloc);
    for _ in 0..most {
        if let Ok(block) = Vec::with_capacity(heap, 32) {
            blocks.push(block).expect(rt, "memory");
        }
    }
    blocks
}

/// Asserts that a cutter goes on after more than three refusals, and cuts two records.
fn assert_cut<A: Allocator, R: Source, B: Drop>(
    rt: &impl Abort,
    cutter: &mut Cutter<A>,
    source: &mut R,
    blocks: &mut Vec<B>,
)
    requires { IsAlong (R.read source.old) cutter.old }
{
    let refusals = refusals_before_record(cutter, source, blocks);
    assert!(rt; refusals.expect(rt, "a record") > 3);
    assert!(rt; next_answer(cutter, source) == Answer::Record(512, 128));
    assert!(rt; next_answer(cutter, source) == Answer::End);
}

#[test]
fn goes_on_where_memory_is_refused_in_turn(rt: HostRuntime) {
    let bytes = records(&rt, rt.alloc(), &[9, 7]);
    let heap = LocalHeap::new(rt.alloc(), 2048).expect(&rt, "memory");
    let mut blocks = blocks_of(&rt, rt.alloc(), &heap, 64);
    let mut cutter = Cutter::new(&heap);
    assert_cut(&rt, &mut cutter, &mut in_pieces(&bytes, 100), &mut blocks);
}

/// Splits twenty records with the memory of a heap, and says whether it was enough.
fn splits(rt: &impl Abort, heap: &LocalHeap, bytes: &[u8]) -> bool {
    let split = split_in(heap, bytes);
    match &split {
        Ok(views) => assert!(rt; views.len() == 20),
        Err(fault) => assert!(rt; *fault == StreamFault::Memory),
    }
    split.is_ok()
}

#[test]
fn answers_memory_of_a_slice(rt: HostRuntime) {
    let bytes = records(&rt, rt.alloc(), &[7; 20]);
    assert_refusals(&rt, rt.alloc(), 0..64, 64, |heap| splits(&rt, heap, &bytes));
    assert!(rt; split(rt.alloc(), &bytes).expect(&rt, "records").len() == 20);
}

/// Asserts that a record of all bytes is cut, and the cutter has room for it then, and stands after it.
fn assert_longest<R: Source>(rt: &impl Abort, alloc: Global, source: &mut R, bytes: &[u8])
    requires { R.read source.old ≡ nothing_read }
{
    let mut cutter = Cutter::new(alloc);
    assert!(rt; cutter.room() == 0);
    match cutter.next(source) {
        Ok(Some(record)) => assert!(rt; record.bytes() == bytes),
        _ => assert!(rt; false, "a record"),
    }
    assert!(rt; cutter.room() == 1_048_576 && cutter.offset() == 1_048_576);
}

#[test]
fn lends_the_longest_record(rt: HostRuntime) {
    let bytes = records(&rt, rt.alloc(), &[20]);
    assert_longest(&rt, rt.alloc(), &mut in_pieces(&bytes, 4096), &bytes);
}
