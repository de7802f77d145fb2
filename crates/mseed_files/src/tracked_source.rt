//! A source that knows where its last record is.
ghost use Rattle.std.specs.Prelude.{◌≡◌, IfSome};
ghost use Rattle.mseed_files.specs.TrackedSource.{IsRecordBefore};

use mseed_stream::{Failed, Source};
use std::marker::Model;

/// A source that knows where the last record begins that a cutter cut of it, and where it ends.
///
/// Contracts see it as the source that is tracked.
#[derive(Drop)]
pub struct TrackedSource<R: Source> {
    source: R,
    last: Option<Cut>,
}

/// A record that was cut: where it begins, in bytes from the input's beginning, and how many it has.
#[derive(Clone, Copy)]
struct Cut {
    offset: u64,
    size: usize,
}

impl<R: Source> Model for TrackedSource<R> {
    ghost use Rattle.std.specs.Prelude.{IfSome};
    ghost use Rattle.mseed_stream.specs.Device.{HasRecordAt};

    ghost Value = { R };

    ghost view = { λ w. w.source };

    ghost invariant = { λ w. IfSome w.last (λ cut. HasRecordAt (R.read w.source).bytes cut.offset cut.size) };
}

impl<R: Source> TrackedSource<R> {
    /// A source of which no record was cut yet.
    pub fn new(source: R) -> TrackedSource<R>
        ensures { result ≡ source }
    {
        TrackedSource { source, last: None }
    }

    /// Returns the source that is watched.
    pub fn source(&self) -> &R
        ensures { result.now ≡ self.now }
    {
        &self.source
    }

    /// Returns where the last record that was cut of the source begins, in bytes from the input's beginning, if it
    /// ends at an offset.
    pub fn record_before(&self, offset: u64) -> Option<u64>
        ensures { IfSome result (λ begin. IsRecordBefore (R.read self.now).bytes begin offset) }
    {
        let cut = self.last?;
        if offset >= cut.offset && offset - cut.offset == cut.size as u64 {
            Some(cut.offset)
        } else {
            None
        }
    }
}

impl<R: Source> Source for TrackedSource<R> {
    ghost read = { R.read };

    ghost remaining = { R.remaining };

    ghost lent = { R.lent };

    ghost beside = { R.beside };

    fn pull(&mut self, buf: &mut [u8]) -> Result<usize, Failed> {
        self.source.pull(buf)
    }

    fn lend(&self) -> &[u8] {
        self.source.lend()
    }

    #[inline(always)]
    fn consume(&mut self, amount: usize) {
        self.source.consume(amount);
    }

    #[inline(always)]
    fn note_record(&mut self, offset: u64, size: usize) {
        self.source.note_record(offset, size);
        self.last = Some(Cut { offset, size });
    }
}
