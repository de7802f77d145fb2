//! Reading a source to its end, writing all of a slice, and writing a text that is gathered some at a time.
ghost use Rattle.std.specs.Prelude.{◌≡◌, ◌≤◌, ◌+◌, ◌++◌, ◌<◌, [], length, take, Err, IsOk, OnOk, IfErr, OnErr};
ghost use Rattle.std.specs.Prelude.{MatchResult};
ghost use Rattle.std.specs.Io.KnownBytes.{Appends};
ghost use Rattle.mseed_stream.specs.Calls.{ReadsOn, WritesOn};
ghost use Rattle.mseed_stream.specs.Gathered.{AreGathered, IsCutOff};
ghost use Rattle.mseed_stream.specs.Whole.{LacksTheLast, ReadsAll, ReadsInto};

use crate::device::{Failed, READS, Sink, Source};
use crate::fault::StreamFault;
use std::alloc::{Allocator, Global};

/// The bytes for which one read has room.
const ROOM: usize = 4096;

/// Returns the bytes of the source from here to its end, which it reads.
///
/// # Errors
///
/// `Read` where the source failed, with the number of bytes read before; `Turns` where it wasn't at its end after 2^40
/// reads; `Memory` where memory for what was read was refused. The bytes that were read in the call are lost then.
pub fn read_all<R: Source>(alloc: Global, source: &mut R) -> Result<Vec<u8>, StreamFault>
    ensures all { ReadsAll result (R.read source.old) (R.read source.new) (R.remaining source.old) (R.beside source.old)
        (R.beside source.new) }

    // What the source is known to have left is what was read of it, up to its end where it is at its end.
    ensures reads { ReadsOn (R.read source.old) (R.read source.new) (R.remaining source.old) (R.remaining source.new)
        (R.beside source.old) (R.beside source.new) }
{
    read_all_in(alloc, source)
}

/// Returns the bytes of the source from here to its end, as [`read_all`] does, with memory of any allocator, as one
/// that refuses.
///
/// # Errors
///
/// Those of [`read_all`].
pub fn read_all_in<A: Allocator, R: Source>(
    alloc: A,
    source: &mut R,
) -> Result<Vec<u8, A>, StreamFault>
    ensures all { ReadsAll result (R.read source.old) (R.read source.new) (R.remaining source.old) (R.beside source.old)
        (R.beside source.new) }

    // What the source is known to have left is what was read of it, up to its end where it is at its end.
    ensures reads { ReadsOn (R.read source.old) (R.read source.new) (R.remaining source.old) (R.remaining source.new)
        (R.beside source.old) (R.beside source.new) }
{
    let mut bytes = Vec::new(alloc);
    match read_all_into(source, &mut bytes) {
        Ok(()) => Ok(bytes),
        Err(fault) => Err(fault),
    }
}

/// Reads the source from here to its end, and puts the bytes into a list, which is empty. Where the source fails, or
/// isn't at its end after 2^40 reads, the list has what was read before.
///
/// # Errors
///
/// Those of [`read_all`]. Where memory was refused, the list lacks the last bytes that were read, of which there are
/// some.
pub fn read_all_into<A: Allocator, R: Source>(
    source: &mut R,
    bytes: &mut Vec<u8, A>,
) -> Result<(), StreamFault>
    requires { bytes.old.items ≡ [] }
    ensures all { ReadsInto result bytes.new.items (R.read source.old) (R.read source.new) (R.remaining source.old)
        (R.beside source.old) (R.beside source.new) }

    // Where memory was refused, the list lacks the last bytes that were read.
    ensures lost { result ≡ Err StreamFault.Memory → LacksTheLast bytes.new.items (R.read source.old)
        (R.read source.new) }

    // What the source is known to have left is what was read of it, up to its end where it is at its end.
    ensures reads { ReadsOn (R.read source.old) (R.read source.new) (R.remaining source.old) (R.remaining source.new)
        (R.beside source.old) (R.beside source.new) }
{
    let mut buf = [0; ROOM];
    for reads in 0..READS {
        match source.pull(&mut buf) {
            Ok(0) => return Ok(()),
            Ok(n) => match bytes.extend_from_slice(&buf[..n]) {
                Ok(()) => {}
                Err(_) => return Err(StreamFault::Memory),
            },
            Err(Failed) => return Err(StreamFault::Read(bytes.len() as u64)),
        }
    }
    Err(StreamFault::Turns(bytes.len() as u64))
}

/// Writes all of the bytes.
///
/// # Errors
///
/// How many of the bytes were accepted before the sink failed: fewer than there are. The sink isn't called again.
pub fn write_all_of<W: Sink>(sink: &mut W, bytes: &[u8]) -> Result<(), usize>
    ensures ok { OnOk result ((W.written sink.new).bytes ≡ (W.written sink.old).bytes ++ bytes.now) }
    ensures fine { OnOk result ((W.written sink.new).failures ≡ (W.written sink.old).failures) }
    ensures err { IfErr result (λ n.
        (W.written sink.new).bytes ≡ (W.written sink.old).bytes ++ take n bytes.now) }
    ensures within { IfErr result (λ n. n < length bytes.now) }
    ensures failed { OnErr result ((W.written sink.new).failures ≡ (W.written sink.old).failures + 1) }

    // What the sink is known to hold grew by what it accepted.
    ensures known { MatchResult result
        (λ _. Appends (W.contents sink.old) (W.contents sink.new) bytes.now)
        (λ n. Appends (W.contents sink.old) (W.contents sink.new) (take n bytes.now)) }
    ensures beside { W.beside sink.new ≡ W.beside sink.old }
    ensures writes { WritesOn (W.written sink.old) (W.written sink.new) (W.contents sink.old) (W.contents sink.new)
        (W.beside sink.old) (W.beside sink.new) }
{
    let mut at = 0;
    while at < bytes.len() {
        match sink.put(&bytes[at..]) {
            Ok(n) => at += n,
            Err(Failed) => return Err(at),
        }
    }
    Ok(())
}

/// The most bytes of a text that are gathered before they are written, whichever command gathers them.
pub const GATHERED: usize = (1 << 16) - 1;

/// Writes a text that was gathered, where it has more than `most` bytes, and empties it then: a text of `most` bytes or
/// fewer is left as it is, and the sink isn't called.
///
/// # Errors
///
/// How many bytes of the text were accepted before the sink failed: fewer than it has. The sink isn't called again.
pub fn write_beyond<A: Allocator, W: Sink>(
    sink: &mut W,
    text: &mut Vec<u8, A>,
    most: usize,
) -> Result<(), usize>
    ensures ok { OnOk result (AreGathered (W.written sink.old) (W.written sink.new) text.new.items text.old.items) }
    ensures most { OnOk result (length text.new.items ≤ most) }
    ensures fine { OnOk result ((W.written sink.new).failures ≡ (W.written sink.old).failures) }
    ensures err { IfErr result (λ taken. IsCutOff taken text.old.items (W.written sink.old) (W.written sink.new)) }

    // A text that isn't longer is answered Ok, and stays, as the sink does.
    ensures kept { length text.old.items ≤ most → (IsOk result × (text.new ≡ text.old) × (sink.new ≡ sink.old)) }

    // Of a longer one all is written, and nothing is left.
    ensures whole { most < length text.old.items → OnOk result ((text.new.items ≡ [])
        × ((W.written sink.new).bytes ≡ (W.written sink.old).bytes ++ text.old.items)) }

    // What the sink is known to hold grew by what it accepted.
    ensures writes { WritesOn (W.written sink.old) (W.written sink.new) (W.contents sink.old) (W.contents sink.new)
        (W.beside sink.old) (W.beside sink.new) }
{
    if text.len() <= most {
        return Ok(());
    }
    match write_all_of(sink, text) {
        Ok(()) => {
            text.clear();
            Ok(())
        }
        Err(taken) => Err(taken),
    }
}
