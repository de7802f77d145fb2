//! What went over links, one after another, for proofs: it has no bytes, and its functions do nothing at run time.
ghost use Rattle.std.specs.Prelude.{◌≡◌, List, [], ◌∷◌, ◌++◌};
ghost use base.Fml.{ftrue};
ghost use Rattle.mseed_stream.specs.Exchanges.{Exchange, exchange_over, exchanges_code};

use crate::counted::Counted;
use crate::tally::Tally;
use std::marker::{Model, PhantomData};

/// What each link gave and accepted, in order.
#[derive(Drop)]
pub struct Exchanges {
    marker: PhantomData<u8>,
    /// Of each link, the bytes that it gave and those that it accepted.
    pub ghost all: { List Exchange } by { exchanges_code },
}

impl Model for Exchanges {
    ghost also_owns = { λ _. ftrue };
}

impl Exchanges {
    /// Returns the exchanges of no link.
    pub fn new() -> Exchanges
        ensures { result.all ≡ [] }
    {
        Exchanges {
            marker: PhantomData,
        }
    }

    /// Adds one more link, by what went over it.
    pub fn record<T>(&mut self, link: &Counted<T>)
        ensures { self.new.all ≡ self.old.all ++ exchange_over link.now ∷ [] }
    {
        self.note(&link.reads, &link.writes, link.is_at_end);
    }

    /// Adds one more link, by the calls that were counted.
    fn note(&mut self, _reads: &Tally, _writes: &Tally, _is_at_end: bool)
        ensures { self.new.all ≡ self.old.all ++ (record {
          read = record {
            bytes = _reads.now.bytes;
            calls = _reads.now.calls;
            failures = _reads.now.failures;
            is_at_end = _is_at_end;
          };
          written = record {
            bytes = _writes.now.bytes;
            calls = _writes.now.calls;
            failures = _writes.now.failures;
          };
        }) ∷ [] }
    {}
}
