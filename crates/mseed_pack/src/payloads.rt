//! The samples of a list, in payloads of any encoding.
ghost use Rattle.std.specs.Prelude.{ℤ, List, ◌+◌};
ghost use Rattle.mseed_steim.specs.declared.scheme.Scheme.{Scheme};
ghost use Rattle.mseed_steim_pack.specs.Lookahead.{IsLookahead};
ghost use Rattle.mseed_pack.specs.private.Filling.{AreAhead, AreFrames, AreRemaining, AreTaken, Fills, HoldsInFrames};

use crate::frames::end_payload;
use crate::integers::{Width, fill_integers};
use crate::options::Encoding;
use crate::payload::{Filled, Filler, Remaining};
use mseed_steim::{Ends, Scheme};
use mseed_steim_pack::{Lookahead, Packed, pack_samples_ahead};

/// What payloads of any encoding are filled from, beside the list: what is known ahead of its next sample.
#[derive(Drop)]
pub(crate) struct Payloads {
    pub(crate) known: Lookahead,
}

impl Payloads {
    /// Before any samples.
    pub(crate) fn new() -> Payloads
        ensures { (scheme : Scheme) (ds : List ℤ) → IsLookahead scheme result.known ds }
    {
        Payloads {
            known: Lookahead::new(),
        }
    }
}

impl<'a> Filler<&'a [i32]> for Payloads {
    ghost use Rattle.mseed_pack.specs.private.Filling.{StandsInList};

    ghost stands = { λ s list encoding samples place. StandsInList s list encoding samples place };

    fn fill(
        &mut self,
        encoding: Encoding,
        left: Remaining,
        list: &mut &'a [i32],
        payload: &mut [u8],
    ) -> Filled {
        let known = &mut self.known;
        match encoding {
            Encoding::Int16 => fill_integers(Width::Two, *list, left, payload),
            Encoding::Int32 => fill_integers(Width::Four, *list, left, payload),
            Encoding::Steim1 => fill_listed(Scheme::One, *list, left, known, payload),
            Encoding::Steim2 => fill_listed(Scheme::Two, *list, left, known, payload),
        }
    }
}

/// Packs the samples from one on, as many as there is room for, into Steim frames.
fn fill_listed(
    scheme: Scheme,
    samples: &[i32],
    left: Remaining,
    known: &mut Lookahead,
    payload: &mut [u8],
) -> Filled
    requires frames { AreFrames payload.old }
    requires left { AreRemaining samples.now left }
    requires ahead { AreAhead known.old scheme samples.now left.first }
    ensures filled { HoldsInFrames scheme samples.now left result payload.new }
    ensures ahead { AreAhead known.new scheme samples.now (left.first + result.samples) }
    ensures taken { AreTaken left result.samples }
{
    let packed = pack_left(scheme, samples, left, known, payload);
    let ends = Ends {
        first: samples[left.first],
        last: samples[left.first + packed.used - 1],
    };
    end_payload(packed, ends, payload)
}

/// Packs the samples from one on, as many as there is room for, into Steim frames, but for the first and the last
/// sample, which it doesn't write. Before the first of all stands that one itself, so that its difference is 0.
fn pack_left(
    scheme: Scheme,
    samples: &[i32],
    left: Remaining,
    known: &mut Lookahead,
    payload: &mut [u8],
) -> Packed
    requires frames { AreFrames payload.old }
    requires left { AreRemaining samples.now left }
    requires ahead { AreAhead known.old scheme samples.now left.first }
    ensures packed { Fills scheme samples.now left left.end result payload.new }
    ensures ahead { AreAhead known.new scheme samples.now (left.first + result.used) }
    ensures taken { AreTaken left result.used }
{
    let before = samples[left.first.saturating_sub(1)];
    let rest = &samples[left.first..left.end];
    match pack_samples_ahead(scheme, before, rest, known, payload) {
        Ok(packed) => packed,
        // Each difference fits the scheme.
        Err(_) => unreachable!(),
    }
}
