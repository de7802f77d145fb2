//! Small devices that tell, take and fail by turns, and heaps that are too small.
ghost use Rattle.std.specs.Prelude.{◌≡◌, IfOk, IfSome};
ghost use Rattle.mseed_stream.specs.Device.{accepted, nothing_read, nothing_written};

use linked_list_allocator::LocalHeap;
use mseed_stream::{
    Buffered, Counted, Failed, Sink, Source, StreamFault, read_all, read_all_in, write_all_of,
};
use std::alloc::Global;
use std::io;
use std::io::{BufReader, Read, Write};
use std::ops::Range;
use std::process::Abort;

/// After more calls than there are.
pub(super) const NEVER: usize = usize::MAX;

/// Tells pieces of at most so many bytes, and fails once after so many calls.
#[derive(Drop)]
pub(super) struct Pieces<'a> {
    pub(super) rest: &'a [u8],
    pub(super) most: usize,
    pub(super) calls_before_failure: usize,
    pub(super) kind: io::ErrorKind,
}

impl Read for Pieces<'_> {
    fn read(&mut self, buf: &mut [u8]) -> io::Result<usize> {
        if self.calls_before_failure == 0 {
            self.calls_before_failure = NEVER;
            return Err(self.kind.into());
        }
        self.calls_before_failure -= 1;
        let n = self.most.min(buf.len()).min(self.rest.len());
        buf[..n].copy_from_slice(&self.rest[..n]);
        self.rest = &self.rest[n..];
        Ok(n)
    }
}

/// Tells one byte a call, and fails once after so many calls.
fn dripping(calls_before_failure: usize) -> Pieces<'static> {
    Pieces {
        rest: b"hello",
        most: 1,
        calls_before_failure,
        kind: io::ErrorKind::Other,
    }
}

fn hello_failing_behind(calls_before_failure: usize) -> Counted<Pieces<'static>> {
    Counted::new(dripping(calls_before_failure))
}

/// Says that it is at its end, and tells a byte when it is called again.
#[derive(Drop)]
struct Waking {
    calls: u8,
}

impl Read for Waking {
    fn read(&mut self, buf: &mut [u8]) -> io::Result<usize> {
        self.calls = self.calls.saturating_add(1);
        if self.calls == 1 || buf.is_empty() {
            return Ok(0);
        }
        buf[0] = b'x';
        Ok(1)
    }
}

/// Takes so many bytes a call at most while there is room, and then fails or takes none. Counts its writes.
#[derive(Drop)]
pub(crate) struct Filling {
    pub(crate) taken: Vec<u8>,
    room: usize,
    most: usize,
    fails: bool,
    pub(crate) writes: usize,
}

impl Write for Filling {
    fn write(&mut self, bytes: &[u8]) -> io::Result<usize> {
        if self.room == 0 && self.fails {
            return Err(io::ErrorKind::Other.into());
        }
        let n = bytes.len().min(self.room).min(self.most);
        if self.taken.extend_from_slice(&bytes[..n]).is_err() {
            return Err(io::ErrorKind::OutOfMemory.into());
        }
        self.room -= n;
        self.writes = self.writes.saturating_add(1);
        Ok(n)
    }

    fn flush(&mut self) -> io::Result<()> {
        Ok(())
    }
}

/// A sink that takes so many bytes, and fails from then on.
pub(crate) fn sink_with(alloc: Global, room: usize) -> Counted<Filling> {
    Counted::new(Filling {
        taken: Vec::new(alloc),
        room,
        most: usize::MAX,
        fails: true,
        writes: 0,
    })
}

/// Asserts that memory is enough at some time, and refused at another: in heaps of so many blocks of this many bytes.
pub(crate) fn assert_refusals<F: FnMut(&LocalHeap) -> bool>(
    rt: &impl Abort,
    alloc: Global,
    blocks: Range<usize>,
    bytes: usize,
    mut is_enough: F,
)
    requires { F.IsAlwaysCallable is_enough }
{
    let (mut was_enough, mut was_refused) = (false, false);
    for count in blocks {
        let heap = LocalHeap::new(alloc, count.saturating_mul(bytes)).expect(rt, "memory");
        if is_enough(&heap) {
            was_enough = true;
        } else {
            was_refused = true;
        }
    }
    assert!(rt; was_enough && was_refused);
}

// ---- what callers prove of a new `Counted`, with no proof of their own

/// All that a reader is known to have.
fn read_new<T: Read + Drop>(alloc: Global, reader: T) -> Result<Vec<u8>, StreamFault>
    ensures { IfOk result (λ bytes. IfSome (T.remaining reader) (λ xs. bytes.items ≡ xs)) }
{
    let mut source = Counted::new(reader);
    expect_nothing_read(&mut source);
    read_all(alloc, &mut source)
}

fn expect_nothing_read<R: Source>(source: &mut R)
    requires read { R.read source.old ≡ nothing_read }
    requires beside { R.beside source.old ≡ accepted nothing_written }
    ensures read { R.read source.new ≡ R.read source.old }
    ensures remaining { R.remaining source.new ≡ R.remaining source.old }
{
    let _ = source;
}

#[test]
fn reads_one_byte_a_call(rt: HostRuntime) {
    let bytes = read_all(rt.alloc(), &mut hello_failing_behind(NEVER)).expect(&rt, "bytes");
    assert!(rt; bytes.as_slice() == b"hello".as_slice());
    let bytes = read_new(rt.alloc(), b"hello".as_slice()).expect(&rt, "bytes");
    assert!(rt; bytes.as_slice() == b"hello".as_slice());
}

/// Whether a reader that fails once is read so far, and then to its end.
fn fails_after(rt: &impl Abort, alloc: Global, reported: usize, rest: &[u8]) -> bool {
    let mut source = hello_failing_behind(reported);
    let fault = read_all(alloc, &mut source).err();
    let bytes = read_all(alloc, &mut source).expect(rt, "bytes");
    fault == Some(StreamFault::Read(reported as u64)) && bytes.as_slice() == rest
}

#[test]
fn says_where_a_read_failed(rt: HostRuntime) {
    let hello = b"hello".as_slice();
    for reported in 0..6 {
        let fails = fails_after(&rt, rt.alloc(), reported, &hello[reported..]);
        assert!(rt; fails, "behind {reported} bytes");
    }
}

/// Whether a source answers so.
fn pulls<R: Source>(source: &mut R, buf: &mut [u8], wanted: Result<usize, Failed>) -> bool {
    source.pull(buf) == wanted
}

/// Whether a source that fails after its first byte goes on after the failure.
fn fails_once<R: Source>(source: &mut R, buf: &mut [u8]) -> bool {
    pulls(source, buf, Ok(1)) && pulls(source, buf, Err(Failed)) && pulls(source, buf, Ok(1))
}

/// Whether a reader is asked once that says that it is at its end, though its source is asked three times.
fn is_asked_once(buf: &mut [u8]) -> bool {
    let mut source = Counted::new(Waking { calls: 0 });
    let mut is_well = true;
    for _ in 0..3 {
        is_well = is_well && pulls(&mut source, buf, Ok(0)) && source.get_ref().calls == 1;
    }
    is_well
}

#[test]
fn asks_no_reader_behind_its_end(rt: HostRuntime) {
    let mut buf = [0; 4];
    assert!(rt; is_asked_once(&mut buf));
    let mut source = hello_failing_behind(1);
    assert!(rt; pulls(&mut source, &mut [], Ok(0)), "no room is no end");
    assert!(rt; pulls(&mut source, &mut buf, Err(Failed)));
    assert!(rt; pulls(&mut source, &mut buf, Ok(1)));
    assert!(rt; source.into_inner().rest == b"ello".as_slice());
}

#[test]
fn asks_a_buffered_reader_once_a_call(rt: HostRuntime) {
    let reader = BufReader::with_capacity(rt.alloc(), 4, dripping(1)).expect(&rt, "memory");
    let mut source = Buffered::new(reader);
    let mut buf = [0; 3];
    assert!(rt; fails_once(&mut source, &mut buf));
    assert!(rt; buf[0] == b'e');
}

/// Whether hello is written as far as there is room, and no bytes are written then.
fn writes(alloc: Global, room: usize, fails: bool) -> bool {
    let mut sink = Counted::new(Filling {
        taken: Vec::new(alloc),
        room,
        most: 2,
        fails,
        writes: 0,
    });
    let answer = write_all_of(&mut sink, b"hello");
    answer == (if room < 5 { Err(room) } else { Ok(()) })
        && sink.get_ref().taken.as_slice() == &b"hello"[..room.min(5)]
        && write_all_of(&mut sink, b"") == Ok(())
}

#[test]
fn writes_what_there_is_room_for(rt: HostRuntime) {
    for room in 0..7 {
        assert!(rt; writes(rt.alloc(), room, false), "{room}");
        assert!(rt; writes(rt.alloc(), room, true), "fails {room}");
    }
}

/// Reads bytes with the memory of a heap, and says whether it was enough.
fn reads(rt: &impl Abort, heap: &LocalHeap, bytes: &[u8]) -> bool {
    let read = read_all_in(heap, &mut Counted::new(bytes));
    match &read {
        Ok(read) => assert!(rt; read.as_slice() == bytes),
        Err(fault) => assert!(rt; *fault == StreamFault::Memory),
    }
    read.is_ok()
}

#[test]
fn answers_memory_where_a_allocation_is_refused(rt: HostRuntime) {
    let is_read = |heap: &LocalHeap| reads(&rt, heap, &[7; 600]);
    assert_refusals(&rt, rt.alloc(), 0..100, 16, is_read);
}

/// Fails at its first write, and takes all bytes from then on.
#[derive(Drop)]
struct Stumbling {
    has_failed: bool,
}

impl Write for Stumbling {
    fn write(&mut self, bytes: &[u8]) -> io::Result<usize> {
        if self.has_failed {
            return Ok(bytes.len());
        }
        self.has_failed = true;
        Err(io::ErrorKind::Interrupted.into())
    }

    fn flush(&mut self) -> io::Result<()> {
        Ok(())
    }
}

#[test]
fn asks_a_writer_once_a_call(rt: HostRuntime) {
    let mut sink = Counted::new(Stumbling { has_failed: false });
    assert!(rt; sink.put(b"h") == Err(Failed));
    assert!(rt; sink.put(b"h") == Ok(1));
}

#[test]
fn takes_an_empty_write_unless_its_writer_fails(rt: HostRuntime) {
    let mut sink = Counted::new(Stumbling { has_failed: false });
    assert!(rt; sink.put(b"") == Err(Failed));
    assert!(rt; sink.put(b"") == Ok(0));
}
