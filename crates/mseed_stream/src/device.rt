//! Sources and sinks of bytes.
ghost use Rattle.std.specs.Prelude.{◌≡◌, List, ℕ, IsTrue, ◌<◌, ◌≤◌, [], length, take, drop, IfOk, IfSome, Option, None};
ghost use Rattle.std.specs.Io.{StartsWith};
ghost use Rattle.std.specs.Io.KnownBytes.{Consumes, ReadConsumes, WriteAppends};
ghost use Rattle.mseed_stream.specs.Device.{Beside, BytesRead, BytesWritten, nothing_read, nothing_written, read_also};
ghost use Rattle.mseed_stream.specs.Device.{accepted, lent_also, written_also, ComesFirst, HasRecordAt};

/// One input is read at most so often: 2^40 times.
pub const READS: u64 = 1 << 40;

/// A device failed at a call, for whatever cause. No byte went through in that call.
#[derive(Debug, Clone, Copy, PartialEq, Eq)]
pub struct Failed;

/// Where bytes come from.
///
/// Contracts name four things of a source: `read`, the record of what was read of it so far;
/// `remaining`, the bytes that it has left, where they are known; `lent`, those of them that it
/// holds already; and `beside`, what a read leaves as it was: what it accepted, where it is a sink as
/// well, and the bytes of the files that it reads.
pub trait Source {
    // What was read of it so far.
    ghost read: { Self → BytesRead };

    // The bytes that it has left, where they are known.
    ghost remaining: { Self → Option (List ℕ) } = { λ _. None };

    // The bytes that it holds already, which are read next.
    ghost lent: { Self → List ℕ } = { λ _. [] };

    // What it accepted so far, where it is a sink as well, and which files it reads. A read leaves both as they were.
    ghost beside: { Self → Beside } = { λ _. accepted nothing_written };

    /// Returns how many bytes were read, by one read into the beginning of `buf`.
    ///
    /// The first 0 for a slice that isn't empty is the input's end. From then on each call returns `Ok(0)`, and the
    /// device isn't called. Fewer bytes than there is room for are no end.
    ///
    /// # Errors
    ///
    /// `Failed` where the device failed. No byte is lost by it, and the next call calls the device again.
    fn pull(&mut self, buf: &mut [u8]) -> Result<usize, Failed>
        ensures bound { IfOk result (λ n. n ≤ length buf.new) }
        ensures read { read self.new ≡ read_also (read self.old) result buf.new }
        ensures silent { IsTrue (read self.old).is_at_end → result ≡ Ok 0 }
        ensures known { ReadConsumes (remaining self.old) (remaining self.new) result buf.new }
        ensures first { ComesFirst (lent self.old) result buf.new }
        ensures beside { beside self.new ≡ beside self.old };

    /// Returns the bytes that it holds already, which are read next: none, where it holds none. The device isn't
    /// called.
    fn lend(&self) -> &[u8]
        ensures bytes { result.now ≡ lent self.now }
        ensures known { IfSome (remaining self.now) (λ left. StartsWith left (lent self.now)) };

    /// Goes past `amount` of the bytes that it holds: they count as read, by one call that didn't fail.
    fn consume(&mut self, amount: usize)
        requires { amount ≤ length (lent self.old) }
        ensures read { read self.new ≡ lent_also (read self.old) (take amount (lent self.old)) }
        ensures rest { lent self.new ≡ drop amount (lent self.old) }
        ensures known { Consumes (remaining self.old) (remaining self.new) (take amount (lent self.old)) }
        ensures beside { beside self.new ≡ beside self.old };

    /// Is told by a cutter, of each record that was read, at which offset it begins and how many bytes it has. A source
    /// that has no use for that leaves it.
    #[inline(always)]
    fn note_record(&mut self, _offset: u64, _size: usize)
        requires { HasRecordAt (read self.old).bytes _offset _size }
        ensures read { read self.new ≡ read self.old }
        ensures remaining { remaining self.new ≡ remaining self.old }
        ensures lent { lent self.new ≡ lent self.old }
        ensures beside { beside self.new ≡ beside self.old }
    {}
}

/// Where bytes go to.
///
/// Contracts name three things of a sink: `written`, the record of what it accepted so far; `contents`,
/// the bytes that it holds, where they are known; and `beside`, what was read of it, where it is a source
/// as well.
pub trait Sink {
    // What it accepted so far.
    ghost written: { Self → BytesWritten };

    // The bytes that it holds, where they are known.
    ghost contents: { Self → Option (List ℕ) } = { λ _. None };

    // What was read of it so far, where it is a source as well. A write leaves it as it was.
    ghost beside: { Self → BytesRead } = { λ _. nothing_read };

    /// Returns how many bytes were accepted, by one write from the beginning of `bytes`: at least one, where there are
    /// any.
    ///
    /// # Errors
    ///
    /// `Failed` where the device failed, or accepted none of the bytes, of which there was one at least.
    fn put(&mut self, bytes: &[u8]) -> Result<usize, Failed>
        ensures bound { IfOk result (λ n. n ≤ length bytes.now) }
        ensures progress { IfOk result (λ n. 0 < length bytes.now → 0 < n) }
        ensures written { written self.new ≡ written_also (written self.old) result bytes.now }
        ensures known { WriteAppends (contents self.old) (contents self.new) result bytes.now }
        ensures beside { beside self.new ≡ beside self.old };
}

/// A source and a sink in one, as a socket is, of which a read writes nothing and a write reads
/// nothing.
pub trait Duplex: Source + Sink {
    // What a read leaves as it was is what it accepted.
    ghost reads_apart: { (s : Self) → Self.Source.beside s ≡ accepted (Self.Sink.written s) };

    // What a write leaves as it was is what was read of it.
    ghost writes_apart: { (s : Self) → Self.Sink.beside s ≡ Self.Source.read s };
}
