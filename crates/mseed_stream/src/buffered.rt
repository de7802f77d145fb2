//! A buffered reader as a source that lends what it holds.
ghost use Rattle.std.specs.Prelude.{◌≡◌};
ghost use Rattle.mseed_stream.specs.Buffered.{left_of, lent_by, read_through, reader_of};
ghost use Rattle.mseed_stream.specs.Device.{nothing_read};

use crate::counted::Counted;
use crate::device::{Failed, Source};
use std::alloc::{Allocator, Global};
use std::io::{BufRead, BufReader, Read};

/// A buffered reader as a [`Source`] that lends what stands in the buffer. Its ends and failures are those of
/// a [`Counted`] reader.
#[derive(Drop)]
pub struct Buffered<T, A: Allocator = Global> {
    counted: Counted<BufReader<T, A>>,
}

impl<T: Read, A: Allocator> Buffered<T, A> {
    /// Returns the reader as a source, of which nothing was read yet: what stands in its buffer is lent first.
    pub fn new(reader: BufReader<T, A>) -> Buffered<T, A>
        ensures read { read_through result ≡ nothing_read }
        ensures reader { reader_of result ≡ reader }
    {
        Buffered {
            counted: Counted::new(reader),
        }
    }
}

impl<T: Read, A: Allocator> Source for Buffered<T, A> {
    ghost read = { read_through };

    ghost remaining = { left_of T.remaining };

    ghost lent = { lent_by };

    fn pull(&mut self, buf: &mut [u8]) -> Result<usize, Failed> {
        let held = self.lend();
        if held.is_empty() {
            return self.counted.pull(buf);
        }
        let n = held.len().min(buf.len());
        buf[..n].copy_from_slice(&held[..n]);
        self.consume(n);
        Ok(n)
    }

    fn lend(&self) -> &[u8] {
        if self.counted.is_at_end {
            &[]
        } else {
            self.counted.inner.buffer()
        }
    }

    fn consume(&mut self, amount: usize) {
        self.counted
            .reads
            .record(&self.counted.inner.buffer()[..amount], false);
        self.counted.inner.consume(amount);
    }
}
