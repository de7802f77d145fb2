//! A stretch while its records come.
ghost use Rattle.std.specs.Prelude.{◌≡◌, ◌↔◌, ◌<◌, ◌≤◌, ◌+◌, ◌*◌, ◌^◌, ◌≤ℤ◌, pos, neg_ℤ, List, [], ◌∷◌, ◌++◌};
ghost use Rattle.std.specs.Prelude.{IsTrue, IsSome, IfSome, IfNone, None, Some};
ghost use Rattle.mseed_time.specs.Rate.{SameRate};
ghost use Rattle.mseed_time.specs.Ratios.{ratio_of};
ghost use Rattle.mseed_record.specs.declared.leap.Leap.TheVariants.{Both};
ghost use Rattle.mseed_record.specs.Header.{factor_at, multiplier_at};
ghost use Rattle.mseed_record.specs.View.{View, leap_of, start_of};
ghost use Rattle.mseed_record.specs.Viewing.{view_of};
ghost use Rattle.mseed_audit.specs.Judging.{known_rate};

use crate::clock::is_on_time;
use mseed_record::{Codes, Leap, RecordView};
use mseed_time::{Micros, Rate, step_micros};

/// What is kept of a stretch: how its first record begins, and how far its records have come. No sample is read for it.
#[derive(Clone, Copy, Debug)]
pub struct Stretch {
    /// The channel.
    pub codes: Codes,
    /// The first sample's instant.
    pub start: Micros,
    /// The sample rate, as the first record's header has it.
    pub rate: Rate,
    /// How many records there are.
    pub records: u64,
    /// How many samples they have.
    pub samples: u64,
    /// The microseconds that their leap seconds add to the time between two readings of the clock.
    pub added: i64,
    /// Whether the last record has both leap flags: no record goes on with it.
    pub closed: bool,
    /// There are at most 2^40 records.
    pub ghost few: { records ≤ 2 ^ 40 },
    /// A record has at most 65,535 samples.
    pub ghost samples_bound: { samples ≤ records * 65_535 },
    /// At most one leap second happens during a record.
    pub ghost added_low: { neg_ℤ (pos (records * 1_000_000)) ≤ℤ added },
    /// At most one leap second is inserted during a record.
    pub ghost added_high: { added ≤ℤ pos (records * 1_000_000) },
}

impl Stretch {
    ghost use Rattle.mseed_repack.specs.Clocks.{IsStretchOf};
    ghost use Rattle.mseed_repack.specs.Stretches.{GoesOn};
    ghost use Rattle.mseed_repack.specs.private.Nexts.{IsNext};

    /// Returns the stretch that begins with a record whose time and rate are known.
    pub fn begin(view: &RecordView) -> Stretch
        requires { IsSome (known_rate (view_of view.now)) }
        ensures stretch { IsStretchOf result (view_of view.now ∷ []) }
        ensures one { result.records ≡ 1 }
    {
        let Some((start, rate)) = beginning_of(view) else {
            unreachable!();
        };
        Stretch {
            codes: view.codes(),
            start,
            rate,
            records: 1,
            samples: u64::from(view.samples()),
            added: step_micros(view.leap().step()),
            closed: has_both(view),
        }
    }

    /// Returns whether a record goes on with the stretch: it has the same rate and begins within a quarter of a sample
    /// period of where the stretch has its next sample, and the record before it doesn't have both leap flags.
    pub fn goes_on(&self, view: &RecordView) -> bool
        ensures { (vs : List View) → IsStretchOf self.now vs → (IsTrue result ↔ GoesOn vs (view_of view.now)) }
    {
        if self.closed {
            return false;
        }
        match beginning_of(view) {
            Some(next) => self.is_next(&next),
            None => false,
        }
    }

    /// Returns whether a record of this start and rate goes on, if the last one doesn't have both leap flags.
    fn is_next(&self, next: &(Micros, Rate)) -> bool
        ensures { IsTrue result ↔ IsNext self.now (ratio_of next.now.1) next.now.0 }
    {
        if !is_one_rate(self.rate, next.1) {
            return false;
        }
        let own = self.rate.ratio();
        is_on_time(self.start, self.samples, own, self.added, next.0)
    }

    /// Returns the stretch with one more record, where it has fewer than 2^40.
    pub fn with(&self, view: &RecordView) -> Stretch
        requires { self.now.records < 2 ^ 40 }
        ensures stretch { (vs : List View) → IsStretchOf self.now vs
            → IsStretchOf result (vs ++ view_of view.now ∷ []) }
        ensures more { result.records ≡ self.now.records + 1 }
    {
        Stretch {
            codes: self.codes,
            start: self.start,
            rate: self.rate,
            records: self.records + 1,
            samples: self.samples + u64::from(view.samples()),
            added: self.added + step_micros(view.leap().step()),
            closed: has_both(view),
        }
    }
}

/// Returns where a record begins and at what rate, where its time and its rate are known.
pub(crate) fn beginning_of(view: &RecordView) -> Option<(Micros, Rate)>
    ensures none { IfNone result (known_rate (view_of view.now) ≡ None) }
    ensures start { IfSome result (λ b. b.0 ≡ start_of (view_of view.now)) }
    ensures known { IfSome result (λ b. known_rate (view_of view.now) ≡ Some (ratio_of b.1)) }
    ensures factor { IfSome result (λ b. b.1.factor ≡ factor_at (view_of view.now).order (view_of view.now).bytes) }
    ensures multiplier { IfSome result (λ b.
        b.1.multiplier ≡ multiplier_at (view_of view.now).order (view_of view.now).bytes) }
{
    let Ok(start) = view.start() else {
        return None;
    };
    let Ok(rate) = view.rate() else {
        return None;
    };
    Some((start, rate))
}

/// Returns whether two rates are one. Mostly they are written alike.
fn is_one_rate(rate: Rate, next: Rate) -> bool
    ensures { IsTrue result ↔ SameRate (ratio_of rate) (ratio_of next) }
{
    if rate.factor == next.factor && rate.multiplier == next.multiplier {
        return true;
    }
    rate.same_as(next)
}

/// Returns whether a record has both leap flags, so that nobody can say which leap second happened.
fn has_both(view: &RecordView) -> bool
    ensures { IsTrue result ↔ (leap_of (view_of view.now).bytes ≡ Both) }
{
    matches!(view.leap(), Leap::Both)
}
