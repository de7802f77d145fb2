//! A reader or writer of `std::io` as a source or sink.
ghost use Rattle.std.specs.Prelude.{◌≡◌, refl};
ghost use Rattle.mseed_stream.specs.Counted.{contents_of, inner_of, read_by, remaining_of, written_by};
ghost use Rattle.mseed_stream.specs.Device.{accepted, nothing_read, nothing_written};

use crate::device::{Duplex, Failed, Sink, Source};
use crate::tally::Tally;
use std::io::{Read, Write};

/// A reader or writer as a [`Source`] or [`Sink`]: it counts the bytes that go through, the calls, and those that
/// failed. It lends nothing.
///
/// One that both reads and writes is both. A reader that returned 0 for a slice that isn't empty is at its end, and
/// isn't called again. An error of any kind counts as a failure, and the call isn't repeated here.
#[derive(Drop)]
pub struct Counted<T> {
    pub(crate) inner: T,
    pub(crate) is_at_end: bool,
    pub(crate) reads: Tally,
    pub(crate) writes: Tally,
}

impl<T> Counted<T> {
    /// Returns the reader or writer as a source or sink, of which nothing was called yet.
    pub fn new(inner: T) -> Counted<T>
        ensures read { read_by result ≡ nothing_read }
        ensures written { written_by result ≡ nothing_written }
        ensures inner { inner_of result ≡ inner }
    {
        Counted {
            inner,
            is_at_end: false,
            reads: Tally::new(),
            writes: Tally::new(),
        }
    }

    /// Returns the reader or writer.
    pub fn get_ref(&self) -> &T
        ensures { result.now ≡ inner_of self.now }
    {
        &self.inner
    }

    /// Returns the reader or writer, as the calls left it.
    pub fn into_inner(self) -> T
        ensures { result ≡ inner_of self }
    {
        self.inner
    }
}

impl<T: Read> Source for Counted<T> {
    ghost read = { read_by };

    ghost remaining = { remaining_of T.remaining };

    ghost beside = { λ c. accepted (written_by c) };

    fn pull(&mut self, buf: &mut [u8]) -> Result<usize, Failed> {
        if self.is_at_end {
            self.reads.record(&[], false);
            return Ok(0);
        }
        match self.inner.read(buf) {
            Ok(n) => {
                self.is_at_end = n == 0 && !buf.is_empty();
                self.reads.record(&buf[..n], false);
                Ok(n)
            }
            Err(_) => {
                self.reads.record(&[], true);
                Err(Failed)
            }
        }
    }

    fn lend(&self) -> &[u8] {
        &[]
    }

    fn consume(&mut self, _amount: usize) {
        self.reads.record(&[], false);
    }
}

impl<T: Write> Sink for Counted<T> {
    ghost written = { written_by };

    ghost contents = { contents_of T.contents };

    ghost beside = { read_by };

    fn put(&mut self, bytes: &[u8]) -> Result<usize, Failed> {
        match self.inner.write(bytes) {
            Ok(n) if n > 0 || bytes.is_empty() => {
                self.writes.record(&bytes[..n], false);
                Ok(n)
            }
            _ => {
                self.writes.record(&[], true);
                Err(Failed)
            }
        }
    }
}

impl<T: Read + Write> Duplex for Counted<T> {
    ghost reads_apart = { λ s. refl };

    ghost writes_apart = { λ s. refl };
}
