//! Bytes that lie in memory, as a source.
ghost use Rattle.std.specs.Prelude.{◌≡◌, Some};
ghost use Rattle.mseed_stream.specs.Device.{nothing_read};

use mseed_stream::{Failed, Source, Tally};

/// Bytes that lie in memory, as a [`Source`] that lends all that are left of them, so that none is copied. No read
/// fails.
#[derive(Drop)]
pub struct Lent<'a> {
    bytes: &'a [u8],
    is_at_end: bool,
    reads: Tally,
}

impl<'a> Lent<'a> {
    ghost use Rattle.mseed_c.specs.Lent.{read_by, left_of};

    /// Returns these bytes as a source, of which none was read yet.
    pub fn new(bytes: &'a [u8]) -> Lent<'a>
        ensures read { read_by result ≡ nothing_read }
        ensures left { left_of result ≡ Some bytes.now }
    {
        Lent {
            bytes,
            is_at_end: false,
            reads: Tally::new(),
        }
    }
}

impl Source for Lent<'_> {
    ghost use Rattle.mseed_c.specs.Lent.{read_by, left_of, lent_by};

    ghost read = { read_by };

    ghost remaining = { left_of };

    ghost lent = { lent_by };

    fn pull(&mut self, buf: &mut [u8]) -> Result<usize, Failed> {
        let held = self.lend();
        let n = held.len().min(buf.len());
        buf[..n].copy_from_slice(&held[..n]);
        let is_end = n == 0 && !buf.is_empty();
        self.consume(n);
        self.is_at_end = self.is_at_end || is_end;
        Ok(n)
    }

    fn lend(&self) -> &[u8] {
        if self.is_at_end { &[] } else { self.bytes }
    }

    fn consume(&mut self, amount: usize) {
        let held = self.bytes;
        if self.is_at_end {
            self.reads.record(&[], false);
        } else {
            self.reads.record(&held[..amount], false);
            self.bytes = &held[amount..];
        }
    }
}
