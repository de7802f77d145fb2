//! A sink in memory.
ghost use Rattle.std.specs.Prelude.{◌≡◌};
ghost use Rattle.mseed_stream.specs.Device.{nothing_written};
ghost use Rattle.slink_model.specs.private.Keeping.{written_by};

use mseed_stream::{Failed, Sink, Tally};
use std::alloc::Allocator;

/// What was written, kept in memory. A write fails where memory was refused.
#[derive(Drop)]
pub(crate) struct MemorySink<A: Allocator> {
    /// All bytes that were written, in order.
    pub(crate) bytes: Vec<u8, A>,
    pub(crate) calls: Tally,
}

impl<A: Allocator> MemorySink<A> {
    /// Returns a sink to which nothing was written.
    pub(crate) fn new(alloc: A) -> MemorySink<A>
        ensures { written_by result ≡ nothing_written }
    {
        MemorySink {
            bytes: Vec::new(alloc),
            calls: Tally::new(),
        }
    }
}

impl<A: Allocator> Sink for MemorySink<A> {
    ghost written = { written_by };

    fn put(&mut self, bytes: &[u8]) -> Result<usize, Failed> {
        match self.bytes.extend_from_slice(bytes) {
            Ok(()) => {
                self.calls.record(&[], false);
                Ok(bytes.len())
            }
            Err(_) => {
                self.calls.record(&[], true);
                Err(Failed)
            }
        }
    }
}
