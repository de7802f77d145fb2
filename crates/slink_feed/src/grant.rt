//! Where the records that a client asks for begin.
ghost use Rattle.std.specs.Prelude.{◌≡◌, ◌≤◌, ◌==◌, ◌&&◌, IfSome};
ghost use Rattle.slink_feed.specs.Grant.{grant_of, is_fetch};

use crate::ring::Ring;
use std::alloc::Allocator;

/// Which records a client asks for.
#[derive(Clone, Copy, Debug, PartialEq, Eq)]
pub enum Mode {
    /// Records as they come: from the number that is requested on or, where none is, from the next one on.
    Data,
    /// Records that are there: from the number that is requested on or, where none is, from the oldest one on.
    Fetch,
}

/// What a client was granted of one station.
#[derive(Clone, Copy, Debug, PartialEq, Eq)]
pub struct Grant {
    /// Whether records that come later are sent too.
    pub mode: Mode,
    /// The number of the record that it is sent next.
    pub position: u64,
}

impl Grant {
    /// Whether all records before the next one were requested, and sent.
    pub(crate) fn is_fetched(self, next: u64) -> bool
        ensures { result ≡ (is_fetch self.mode && (self.position == next)) }
    {
        match self.mode {
            Mode::Fetch => self.position == next,
            Mode::Data => false,
        }
    }
}

/// Where a grant of a ring begins.
pub(crate) fn first_granted<A: Allocator>(
    ring: &Ring<A>,
    mode: Mode,
    number: Option<u32>,
) -> Option<u64>
    ensures value { result ≡ grant_of mode number ring.now }
    ensures at_most { IfSome result (λ g. g ≤ ring.now.next) }
{
    match (number, mode) {
        (Some(number), _) => ring.resolve(number),
        (None, Mode::Data) => Some(ring.next()),
        (None, Mode::Fetch) => Some(ring.oldest()),
    }
}
