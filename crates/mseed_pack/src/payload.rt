//! What follows a record's header.

use crate::options::Encoding;

/// What was put into a payload: how many samples, in how many frames.
#[derive(Clone, Copy)]
pub(crate) struct Filled {
    pub(crate) samples: usize,
    pub(crate) frames: u8,
}

/// The samples from one on, up to an end: what is left to be put into payloads.
#[derive(Clone, Copy)]
pub(crate) struct Remaining {
    pub(crate) first: usize,
    pub(crate) end: usize,
}

/// How the samples of a series are put into payloads, one after another, from a supply.
pub(crate) trait Filler<S> {
    ghost use Rattle.std.specs.Prelude.{◌≡◌, ◌+◌, ℕ, ℤ, List};
    ghost use Rattle.mseed_steim.specs.declared.encoding.Encoding.{Encoding};
    ghost use Rattle.mseed_pack.specs.private.Filling.{AreFrames, AreRemaining, AreTaken, IsFilled};

    /// With this supply, it goes on in this encoding at this place of these samples.
    ghost stands: { Self → S → Encoding → List ℤ → ℕ → Type 0 };

    /// What a call leaves of the supply as it was.
    ghost beside: { S → ℕ } = { λ _. 0 };

    /// Writes the samples from one on, as many as there is room for, as the encoding has them.
    fn fill(
        &mut self,
        encoding: Encoding,
        left: Remaining,
        supply: &mut S,
        payload: &mut [u8],
    ) -> Filled
        requires frames { AreFrames payload.old }
        requires left { (samples : List ℤ) × (stands self.old supply.old encoding samples left.first
            × AreRemaining samples left) }
        ensures filled { (samples : List ℤ) → stands self.old supply.old encoding samples left.first
            → AreRemaining samples left → IsFilled encoding samples left result payload.new
            × stands self.new supply.new encoding samples (left.first + result.samples) }
        ensures taken { AreTaken left result.samples }
        ensures beside { beside supply.new ≡ beside supply.old };
}
