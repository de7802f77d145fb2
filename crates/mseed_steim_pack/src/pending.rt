//! The differences that are to be packed, as they are given: in a list, or as the samples that they are of.

ghost use Rattle.std.specs.Prelude.{◌≡◌, ◌^◌, ◌+◌, ◌<◌, ◌≤◌, ◌∷◌, ℤ, List, length, drop, take, pos, slice_index_or};
ghost use Rattle.std.specs.Prelude.{IfOk, MatchResult};
ghost use Rattle.mseed_steim.specs.Spelling.{positional};
ghost use Rattle.mseed_steim_pack.specs.Lookahead.{IsLookahead};
ghost use Rattle.mseed_steim_pack.specs.Packing.{IsFullest, IsTooLargeAt};
ghost use Rattle.mseed_steim_pack.specs.private.Ahead.{IsLayoutOne};
ghost use Rattle.mseed_steim_pack.specs.private.Wrapped.{between, wrapped_from};

use crate::ahead::{AHEAD, Cut, Most, look_at, look_at_neighbours, look_at_samples};
use crate::layout::{LayoutOne, join_one, join_samples};
use crate::pack::{TooLarge, pack_sampled, pack_word};
use mseed_steim::Scheme;

/// The differences that are to be packed.
pub(crate) trait Pending {
    /// The differences, in their order.
    ghost differences: { Self → List ℤ };

    /// How many there are.
    fn count(&self) -> usize
        ensures value { result ≡ length (differences self.now) }
        ensures few { result < 2 ^ 63 };

    /// Looks ahead at those from one on.
    fn look(&self, from: usize, scheme: Scheme, most: &mut Most, cut: &mut Cut)
        requires { from ≤ length (differences self.now) }
        ensures { IsLookahead scheme (record { most = most.new; cut = cut.new; place = 0 })
            (drop from (differences self.now)) };

    /// The word that takes the largest number of those from one on, as `pack_word` makes it.
    fn word(&self, from: usize, scheme: Scheme) -> Result<(u8, u32, usize), TooLarge>
        requires { from < length (differences self.now) }
        ensures fullest { IfOk result
            (λ word. IsFullest scheme (drop from (differences self.now)) word.0 word.1 word.2) }
        ensures refused { MatchResult result (λ _. ¬ (IsTooLargeAt scheme (drop from (differences self.now)) 0))
            (λ _. IsTooLargeAt scheme (drop from (differences self.now)) 0) };

    /// As many of those from one on as a row of Steim-1 has, joined.
    fn join(&self, from: usize, layout: &LayoutOne) -> u32
        requires eight { from + 8 ≤ length (differences self.now) }
        requires layout { IsLayoutOne layout.now }
        ensures { result
            ≡ positional layout.now.row.width (take layout.now.row.count (drop from (differences self.now))) };
}

/// The differences of a list.
#[derive(Clone, Copy)]
pub(crate) struct Listed<'a> {
    pub(crate) differences: &'a [i32],
}

impl<'a> Pending for Listed<'a> {
    ghost differences = { λ p. p.differences.now };

    #[inline(always)]
    fn count(&self) -> usize {
        self.differences.len()
    }

    #[inline(always)]
    fn look(&self, from: usize, scheme: Scheme, most: &mut Most, cut: &mut Cut) {
        look_at(scheme, &self.differences[from..], most, cut);
    }

    #[inline(always)]
    fn word(&self, from: usize, scheme: Scheme) -> Result<(u8, u32, usize), TooLarge> {
        pack_word(scheme, &self.differences[from..])
    }

    #[inline(always)]
    fn join(&self, from: usize, layout: &LayoutOne) -> u32 {
        join_one(layout, &self.differences[from..])
    }
}

/// The differences of samples, each from the one before it, as far as 32 bits hold them.
#[derive(Clone, Copy)]
pub(crate) struct Sampled<'a> {
    /// The sample before the first.
    pub(crate) before: i32,
    pub(crate) samples: &'a [i32],
}

impl<'a> Sampled<'a> {
    /// Those from one on.
    #[inline(always)]
    fn after(&self, from: usize) -> Sampled<'a>
        requires { from ≤ length self.now.samples.now }
        ensures { wrapped_from result.before result.samples.now
            ≡ drop from (wrapped_from self.now.before self.now.samples.now) }
    {
        Sampled {
            before: sample_before(self.before, self.samples, from),
            samples: &self.samples[from..],
        }
    }
}

impl<'a> Pending for Sampled<'a> {
    ghost differences = { λ p. wrapped_from p.before p.samples.now };

    #[inline(always)]
    fn count(&self) -> usize {
        self.samples.len()
    }

    #[inline(always)]
    fn look(&self, from: usize, scheme: Scheme, most: &mut Most, cut: &mut Cut) {
        if 0 < from && AHEAD <= self.samples.len() - from {
            look_at_neighbours(scheme, &self.samples[from - 1..], most, cut);
        } else {
            let rest = self.after(from);
            look_at_samples(scheme, rest.before, rest.samples, most, cut);
        }
    }

    #[inline(always)]
    fn word(&self, from: usize, scheme: Scheme) -> Result<(u8, u32, usize), TooLarge> {
        let rest = self.after(from);
        pack_sampled(scheme, rest.before, rest.samples)
    }

    #[inline(always)]
    fn join(&self, from: usize, layout: &LayoutOne) -> u32 {
        let rest = self.after(from);
        join_samples(layout, rest.before, rest.samples)
    }
}

/// Differences that are looked at, one by one.
pub(crate) trait Steps {
    /// The differences, in their order.
    ghost differences: { Self → List ℤ };

    /// The one at an index.
    fn at(&self, index: usize) -> i32
        requires { index < length (differences self.now) }
        ensures { result ≡ slice_index_or (differences self.now) index (pos 0) };
}

impl<'a> Steps for Listed<'a> {
    ghost differences = { λ p. p.differences.now };

    #[inline(always)]
    fn at(&self, index: usize) -> i32 {
        self.differences[index]
    }
}

/// The differences between the neighbours of a list, as far as 32 bits hold them.
#[derive(Clone, Copy)]
pub(crate) struct Neighbours<'a> {
    pub(crate) samples: &'a [i32],
}

impl<'a> Steps for Neighbours<'a> {
    ghost differences = { λ p. between p.samples.now };

    #[inline(always)]
    fn at(&self, index: usize) -> i32 {
        self.samples[index + 1].wrapping_sub(self.samples[index])
    }
}

/// The sample before that of an index, or before the end; before the first, this one.
#[inline(always)]
fn sample_before(before: i32, samples: &[i32], index: usize) -> i32
    requires { index ≤ length samples.now }
    ensures { result ≡ slice_index_or (before ∷ samples.now) index (pos 0) }
{
    if index == 0 {
        before
    } else {
        samples[index - 1]
    }
}

/// Writes the differences of samples, each from the one before it, as far as 32 bits hold them.
#[inline(always)]
pub(crate) fn put_wrapped(before: i32, samples: &[i32], differences: &mut [i32])
    requires { length samples.now ≤ length differences.old }
    ensures { take (length samples.now) differences.new ≡ wrapped_from before samples.now }
{
    let mut last = before;
    for index in 0..samples.len() {
        differences[index] = samples[index].wrapping_sub(last);
        last = samples[index];
    }
}
