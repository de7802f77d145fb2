//! Some of the stations of a feed.
ghost use Rattle.std.specs.Prelude.{◌≡◌, ◌≢◌, ◌↔◌, ◌/◌, ◌^◌, ◌<◌, ◌≤◌, ℕ, IfNone, IfSome};
ghost use Rattle.std.specs.Int.{bit_at};
ghost use Rattle.std.specs.Bool.{OnFalse};
ghost use Rattle.slink_wire.specs.declared.limits.TheConstants.{STATIONS};
ghost use Rattle.slink_live.specs.History.{IsEarlier};
ghost use Rattle.slink_live.specs.private.Granting.{Has};

/// Some of the stations of a feed, which has `STATIONS` at most.
#[derive(Clone, Copy, Debug, PartialEq, Eq)]
pub(crate) struct Places {
    // Bit k is of the station at index k, which is below 16.
    bits: u16,
}

/// The index of the lowest bit, where one is set.
fn lowest(bits: u32) -> Option<usize>
    ensures some { IfSome result (λ k. (bit_at bits k ≡ 1) × ((j : ℕ) → j < k → bit_at bits j ≡ 0)) }
    ensures few { IfSome result (λ k. k < 32) }
    ensures none { IfNone result (bits ≡ 0) }
{
    if bits == 0 {
        None
    } else {
        Some(bits.trailing_zeros() as usize)
    }
}

/// The bits from an index on, moved to the front.
fn bits_from(bits: u32, from: usize) -> u32
    ensures value { result ≡ bits / 2 ^ from }
    ensures none { 32 ≤ from → result ≡ 0 }
{
    if from < 32 { bits >> from } else { 0 }
}

impl Places {
    /// No stations.
    pub(crate) fn none() -> Places
        ensures { (k : ℕ) → ¬ (Has result k) }
    {
        Places { bits: 0 }
    }

    /// Returns these stations, and with them the one at an index.
    pub(crate) fn with(self, k: usize) -> Places
        requires { k < STATIONS }
        ensures here { Has result k }
        ensures others { (j : ℕ) → j ≢ k → Has result j ↔ Has self j }
    {
        Places {
            bits: self.bits | 1 << k,
        }
    }

    /// Returns these stations without the one at an index.
    pub(crate) fn without(self, k: usize) -> Places
        requires { k < STATIONS }
        ensures less { (j : ℕ) → Has result j → Has self j × (j ≢ k) }
        ensures others { (j : ℕ) → j < STATIONS → j ≢ k → Has self j → Has result j }
    {
        Places {
            bits: self.bits & !(1 << k),
        }
    }

    /// Returns the index of the first of these stations, in a round that begins at an index.
    pub(crate) fn first_from(self, from: usize) -> Option<usize>
        ensures some { IfSome result (Has self) }
        ensures first { IfSome result (λ k. (j : ℕ) → IsEarlier from j k → ¬ (Has self j)) }
        ensures none { IfNone result ((j : ℕ) → ¬ (Has self j)) }
    {
        let bits = u32::from(self.bits);
        let rest = bits_from(bits, from);
        match lowest(rest) {
            Some(k) => Some(from + k),
            None => lowest(bits),
        }
    }

    /// Returns whether one of these stations is one of others.
    pub(crate) fn meets(self, others: Places) -> bool
        ensures { OnFalse result ((k : ℕ) → Has self k → ¬ (Has others k)) }
    {
        self.bits & others.bits != 0
    }
}
