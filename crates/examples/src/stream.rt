//! Calls of `mseed_stream`.
ghost use Rattle.std.specs.Prelude.{◌≡◌, IfOk};
ghost use Rattle.mseed_stream.specs.Cutting.{IsAlong};
ghost use Rattle.mseed_stream.specs.Device.{HasRecordAt, nothing_read};

use mseed_stream::{
    Buffered, Counted, Cutter, Exchanges, Failed, Sink, Source, StreamFault, Tally, read_all,
    read_all_in, read_all_into, report, split, split_in, split_read, write_all_of, write_beyond,
};
use std::alloc::{Allocator, Global};
use std::io::{self, BufReader};

/// How many records a slice holds, where nothing is left after them.
pub fn count_records(alloc: Global, bytes: &[u8]) -> Result<usize, StreamFault> {
    Ok(split(alloc, bytes)?.len())
}

/// How many records a slice holds, where nothing is left after them, with memory of any allocator.
pub fn count_records_in<A: Allocator + Drop>(alloc: A, bytes: &[u8]) -> Result<usize, StreamFault> {
    Ok(split_in(alloc, bytes)?.len())
}

/// All bytes of a slice, read as a source.
pub fn copy_of(alloc: Global, bytes: &[u8]) -> Result<Vec<u8>, StreamFault>
    ensures { IfOk result (λ copy. copy.items ≡ bytes.now) }
{
    let mut source = Counted::new(bytes);
    read_all(alloc, &mut source)
}

/// All bytes of a slice, read as a source, with memory of any allocator.
pub fn copy_in<A: Allocator + Drop>(alloc: A, bytes: &[u8]) -> Result<Vec<u8, A>, StreamFault> {
    let mut source = Counted::new(bytes);
    read_all_in(alloc, &mut source)
}

/// As many bytes of a source as there are up to its end, or before it fails.
pub fn copy_as_far<R: Source>(alloc: Global, source: &mut R) -> Vec<u8> {
    let mut bytes = Vec::new(alloc);
    match read_all_into(source, &mut bytes) {
        Ok(()) | Err(_) => bytes,
    }
}

/// Writes a line into memory; where it fails, the number of bytes that were taken.
pub fn line_in_memory(alloc: Global) -> Result<Vec<u8>, usize> {
    let mut sink = Counted::new(Vec::new(alloc));
    write_all_of(&mut sink, b"a line\n")?;
    Ok(sink.into_inner())
}

/// Writes a line as far as the device takes it, and says how much memory it accepted.
pub fn report_line(alloc: Global) -> usize {
    let mut sink = Counted::new(Vec::new(alloc));
    report(&mut sink, b"a line\n");
    sink.get_ref().len()
}

/// Writes the lines that were gathered, once they have more than 1,024 bytes; where the sink fails, the number of bytes
/// that were taken.
pub fn write_lines<W: Sink>(sink: &mut W, lines: &mut Vec<u8>) -> Result<(), usize> {
    write_beyond(sink, lines, 1_024)
}

/// How many records a source has, where nothing is left after them.
pub fn count_read<R: Source>(alloc: Global, source: &mut R) -> Result<usize, StreamFault>
    requires { R.read source.old ≡ nothing_read }
{
    let bytes = read_all(alloc, source)?;
    Ok(split_read(alloc, &bytes, source)?.len())
}

/// Tells a source of the record with which the bytes begin that were read of it.
pub fn note_first<R: Source>(source: &mut R, size: usize)
    requires { HasRecordAt (R.read source.old).bytes 0 size }
{
    source.note_record(0, size);
}

/// The length of the first record of a stream.
pub fn first_length(alloc: Global, bytes: &[u8]) -> Result<Option<usize>, StreamFault> {
    let mut source = Counted::new(bytes);
    let mut cutter = Cutter::new(alloc);
    match cutter.next(&mut source)? {
        Some(record) => Ok(Some(record.bytes().len())),
        None => Ok(None),
    }
}

/// How many samples the first thousand records of a source have.
pub fn count_samples<R: Source>(alloc: Global, source: &mut R) -> Result<u64, StreamFault>
    requires { R.read source.old ≡ nothing_read }
{
    let mut cutter = Cutter::new(alloc);
    let mut samples = 0u64;
    for _record in 0..1_000u32 {
        match cutter.next(source)? {
            Some(record) => samples = samples.saturating_add(u64::from(record.samples())),
            None => return Ok(samples),
        }
    }
    Ok(samples)
}

/// Passes over the next record where the source holds it whole, and copies it else; where the next one begins.
pub fn pass_one<A: Allocator, R: Source>(
    cutter: &mut Cutter<A>,
    source: &mut R,
) -> Result<u64, StreamFault>
    requires { IsAlong (R.read source.old) cutter.old }
{
    if let Some(record) = cutter.peek(source) {
        let length = record.bytes().len();
        cutter.pass(source, length);
        return Ok(cutter.offset());
    }
    cutter.next(source)?;
    Ok(cutter.offset())
}

/// How many bytes a cutter's buffer takes after a stream's first record.
pub fn room_after_first(alloc: Global, bytes: &[u8]) -> Result<usize, StreamFault> {
    let mut source = Counted::new(bytes);
    let mut cutter = Cutter::new(alloc);
    cutter.next(&mut source)?;
    Ok(cutter.room())
}

/// A source that lends what stands in a buffer of 65,536 bytes.
pub fn buffered(alloc: Global, bytes: &[u8]) -> io::Result<Buffered<&[u8]>> {
    match BufReader::with_capacity(alloc, 65_536, bytes) {
        Ok(reader) => Ok(Buffered::new(reader)),
        Err(fault) => Err(fault),
    }
}

/// Takes what a source holds already, at most 100 bytes of it, without asking the device.
pub fn take_held<R: Source>(source: &mut R) -> usize {
    let held = source.lend().len().min(100);
    source.consume(held);
    held
}

/// Asks a source once, for at most four bytes.
pub fn ask_once<R: Source>(source: &mut R) -> Result<usize, Failed> {
    let mut bytes = [0; 4];
    source.pull(&mut bytes)
}

/// Hands a sink up to four bytes, and says how many it accepted.
pub fn put_once<W: Sink>(sink: &mut W, bytes: &[u8; 4]) -> Result<usize, Failed> {
    sink.put(bytes)
}

/// A record of calls for proofs, with one call that failed.
pub fn one_failure() -> Tally {
    let mut calls = Tally::new();
    calls.record(b"", true);
    calls
}

/// What went over one link.
pub fn one_exchange<T>(link: &Counted<T>) -> Exchanges {
    let mut exchanges = Exchanges::new();
    exchanges.record(link);
    exchanges
}
