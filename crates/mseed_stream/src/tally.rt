//! What went through a device so far, for proofs: it has no bytes, and its functions do nothing at run time.
ghost use Rattle.std.specs.Prelude.{◌≡◌, List, ℕ, [], ◌+◌, ◌++◌, if◌then◌else◌};
ghost use base.Fml.{ftrue};

use std::marker::{Model, PhantomData};

/// The bytes that went through, how many calls were made, and how many of them failed.
#[derive(Drop)]
pub struct Tally {
    marker: PhantomData<u8>,
    /// The bytes that went through, in order.
    pub ghost bytes: { List ℕ },
    /// The number of calls that were made.
    pub ghost calls: { ℕ },
    /// The number of calls that failed.
    pub ghost failures: { ℕ },
}

impl Model for Tally {
    ghost also_owns = { λ _. ftrue };
}

impl Tally {
    /// Returns the record of no call.
    pub fn new() -> Tally
        ensures bytes { result.bytes ≡ [] }
        ensures calls { result.calls ≡ 0 }
        ensures failures { result.failures ≡ 0 }
    {
        Tally {
            marker: PhantomData,
        }
    }

    /// Adds one more call, by which these bytes went through, and whether it failed.
    pub fn record(&mut self, _bytes: &[u8], _failed: bool)
        ensures bytes { self.new.bytes ≡ self.old.bytes ++ _bytes.now }
        ensures calls { self.new.calls ≡ self.old.calls + 1 }
        ensures failures { self.new.failures ≡ self.old.failures + (if _failed then 1 else 0) }
    {}
}
