//! Samples of a list.
ghost use Rattle.std.specs.Prelude.{◌≡◌, ◌<◌, ◌≤◌, ◌+◌, length, pos, slice_index_or, slice_range, All};
ghost use Rattle.mseed_steim.specs.Spelling.{IsWithin};
ghost use Rattle.mseed_steim.specs.declared.encoding.Encoding.{Encoding};
ghost use Rattle.mseed_pack.specs.Fitting.{IsDifferenceOf};
ghost use Rattle.mseed_pack.specs.Options.{IsSteim};
ghost use Rattle.mseed_pack.specs.Stretches.{differences};

use crate::fitting::difference_at;
use crate::supply::Supply;

/// The samples of a list, as a supply, with how many of them were given.
#[derive(Clone, Copy)]
pub struct Listed<'a> {
    pub(crate) samples: &'a [i32],
    pub(crate) given: usize,
}

impl<'a> Listed<'a> {
    /// The samples of a list, of which none was given. It supplies them where either Steim holds their differences.
    pub fn of(samples: &'a [i32]) -> Listed<'a>
        ensures samples { result.samples.now ≡ samples.now }
        ensures given { result.given ≡ 0 }
        ensures supplies { (encoding : Encoding) → IsSteim encoding
            → All (IsDifferenceOf encoding) (differences samples.now)
            → ⟦<Listed<'static> as Supply>⟧.supplies result samples.now 0 }
    {
        Listed { samples, given: 0 }
    }
}

impl<'a> Supply for Listed<'a> {
    ghost use Rattle.mseed_pack.specs.private.Filling.{IsListed};

    ghost supplies = { λ s samples given. IsListed s samples given };

    fn fill(&mut self, out: &mut [i32]) -> usize {
        let count = (self.samples.len() - self.given).min(out.len());
        put_differences(self.samples, self.given, &mut out[..count]);
        self.given += count;
        count
    }
}

/// Writes the differences of the samples from one on.
fn put_differences(samples: &[i32], first: usize, out: &mut [i32])
    requires inside { first + length out.old ≤ length samples.now }
    requires fits { All (IsWithin 32) (differences samples.now) }
    ensures { out.new ≡ slice_range (differences samples.now) first (first + length out.old) }
{
    if out.is_empty() {
        return;
    }
    out[0] = difference_or_0(samples, first);
    for index in 1..out.len() {
        out[index] = difference_after(samples, first + index);
    }
}

/// The difference of a sample from the one before it; of the first one, 0.
fn difference_or_0(samples: &[i32], index: usize) -> i32
    requires inside { index < length samples.now }
    requires fits { IsWithin 32 (slice_index_or (differences samples.now) index (pos 0)) }
    ensures { result ≡ slice_index_or (differences samples.now) index (pos 0) }
{
    if index == 0 {
        0
    } else {
        difference_after(samples, index)
    }
}

/// The difference of a sample from the one that stands before it.
#[tactic(auto, using(crate::proofs::Rules::difference_after))]
fn difference_after(samples: &[i32], index: usize) -> i32
    requires some { 0 < index }
    requires inside { index < length samples.now }
    requires fits { IsWithin 32 (slice_index_or (differences samples.now) index (pos 0)) }
    ensures { result ≡ slice_index_or (differences samples.now) index (pos 0) }
{
    difference_at(samples, index) as i32
}
