//! Whether a series can be packed.
ghost use Rattle.std.specs.Prelude.{◌≡◌, ◌↔◌, ◌<◌, ◌≤◌, ◌+◌, ◌*◌, ℕ, ℤ, IsTrue, OnOk, IfErr, IfSome, IfNone, None, All};
ghost use Rattle.std.specs.Prelude.{List, length, pos, slice_index_or, ◌^◌, nat_abs, ◌-◌, ◌+ℤ◌, ◌-ℤ◌, ◌≢◌, ◌⊎◌};
ghost use Rattle.std.specs.Prelude.{[], FitsSigned};
ghost use Rattle.std.specs.Int.{w16};
ghost use Rattle.mseed_time.specs.Btime.{IsInstant};
ghost use Rattle.mseed_time.specs.Naming.{IsOutside};
ghost use Rattle.mseed_time.specs.Rate.{IsRatio};
ghost use Rattle.mseed_time.specs.Ratios.{ratio_of};
ghost use Rattle.mseed_audit.specs.Series.{AreSteps};
ghost use Rattle.mseed_pack.specs.Clock.{periods, reading_at};
ghost use Rattle.mseed_pack.specs.Stretches.{differences};
ghost use Rattle.mseed_pack.specs.private.Filling.{AreFourUnder, IsUnder};
ghost use Rattle.mseed_pack.specs.Fitting.{Fits, IsDifferenceOf, IsFirstNot, IsMisfit, IsSampleOf, IsTooFast};
ghost use Rattle.mseed_pack.specs.Outcome.{IsTrace};
ghost use Rattle.mseed_pack.specs.declared.options.Options.{Options};
ghost use Rattle.mseed_pack.specs.Traces.{headed, trace_of};
ghost use Rattle.mseed_pack.specs.private.Heads.{IsHeadFit, IsSpanOutside};

use crate::clock::{moment_at, time_at};
use crate::fault::PackFault;
use crate::options::{Encoding, Options};
use crate::series_head::SeriesHead;
use crate::series_view::SeriesView;
use crate::span::{Span, first_span, next_span};
use mseed_audit::Series;
use mseed_time::{LeapStep, Micros, Rate};
use std::alloc::Allocator;

/// The most samples a second, at which half a period is a microsecond.
const FASTEST: u64 = 500_000;

/// The first number that has more than 16 bits.
const SHORT: u32 = 0x8000;

/// The first number that has more than 29 bits.
const NEAR: u32 = 0x1000_0000;

/// Whether a series can be packed with these options.
///
/// # Errors
///
/// The first reason why it can't: it's empty; it has more than 500,000 samples a second; a sample's instant, once it is
/// rounded to a ten-thousandth of a second, lies in no year from 1900 to 2100; a sample or a difference is too large
/// for the encoding, the first of those, with its value.
pub fn fit<A: Allocator + Copy>(series: &Series<A>, options: &Options) -> Result<(), PackFault>
    ensures fits { OnOk result (Fits series.now options.now) }
    ensures fault { IfErr result (λ fault. IsMisfit series.now options.now fault) }
    // What the types of its parts say of each series.
    ensures trace { IsTrace series.now }
{
    let view = SeriesView::of(series);
    fit_view(&view, options)
}

/// [`fit`] of a series where it lies. The numbers of samples before its leap seconds rise strictly, from 1 to at most
/// the number of samples.
///
/// # Errors
///
/// Those of [`fit`].
pub fn fit_view(series: &SeriesView, options: &Options) -> Result<(), PackFault>
    requires steps { AreSteps (length series.now.samples.now) series.now.steps.now }
    ensures fits { OnOk result (Fits (trace_of series.now) options.now) }
    ensures fault { IfErr result (λ fault. IsMisfit (trace_of series.now) options.now fault) }
    // What the types of its parts say of each series.
    ensures trace { IsTrace (trace_of series.now) }
{
    series_is_a_trace(series);
    match misfit(series, options) {
        Some(fault) => Err(fault),
        None => Ok(()),
    }
}

/// What the types of its parts say of each series.
pub(crate) fn series_is_a_trace(series: &SeriesView)
    requires { AreSteps (length series.now.samples.now) series.now.steps.now }
    ensures { IsTrace (trace_of series.now) }
{
    key_has_12_bytes(series.codes.key());
    start_is_an_instant(series.start);
    rate_has_16_bits(series.rate);
}

/// A key is 12 bytes.
fn key_has_12_bytes(key: &[u8; 12])
    ensures { length key.now ≡ 12 }
{}

/// An instant lies in the years 1800 to 2199.
fn start_is_an_instant(start: Micros)
    ensures { IsInstant start }
{
    let _micros = start.get();
}

/// A rate's factor and multiplier have 16 bits, and aren't 0.
fn rate_has_16_bits(rate: Rate)
    ensures factor { FitsSigned w16 rate.factor }
    ensures factor_counts { rate.factor ≢ pos 0 }
    ensures multiplier { FitsSigned w16 rate.multiplier }
    ensures multiplier_counts { rate.multiplier ≢ pos 0 }
{}

/// A rate is a number of samples in a number of seconds, each in 1..=2^30.
fn rate_is_a_ratio(rate: Rate)
    ensures { IsRatio (ratio_of rate) }
{
    let _ratio = rate.ratio();
}

/// Whether a series that begins so can be packed, but for its samples: with any that the encoding holds, it can.
///
/// # Errors
///
/// The first reason why it can't, whatever its samples are: it's empty; it has more than 500,000 samples a second; a
/// sample's instant, once it is rounded to a ten-thousandth of a second, lies in no year from 1900 to 2100.
pub fn fit_head(head: &SeriesHead) -> Result<(), PackFault>
    requires steps { AreSteps head.now.count head.now.steps.now }
    ensures fits { OnOk result ((samples : List ℤ) (options : Options) → length samples ≡ head.now.count
        → All (IsSampleOf options.encoding) samples → All (IsDifferenceOf options.encoding) (differences samples)
        → Fits (headed head.now samples) options) }
    ensures fault { IfErr result (λ fault. (samples : List ℤ) (options : Options) → length samples ≡ head.now.count
        → IsMisfit (headed head.now samples) options fault) }
{
    match head_misfit(head) {
        Some(fault) => Err(fault),
        None => Ok(()),
    }
}

/// The first reason why a series that begins so can't be packed, whatever its samples are.
#[tactic(auto, using(crate::proofs::Rules::head_misfit))]
fn head_misfit(head: &SeriesHead) -> Option<PackFault>
    requires { AreSteps head.now.count head.now.steps.now }
    ensures none { IfNone result ((samples : List ℤ) → length samples ≡ head.now.count
        → IsHeadFit (headed head.now samples)) }
    ensures some { IfSome result (λ fault. (samples : List ℤ) (options : Options) → length samples ≡ head.now.count
        → IsMisfit (headed head.now samples) options fault) }
{
    if head.count == 0 {
        return Some(PackFault::Empty);
    }
    if is_too_fast(head.rate) {
        return Some(PackFault::RateTooHigh(head.rate));
    }
    if let Some(span) = span_outside(head.start, head.rate, head.steps, head.count) {
        return Some(fault_in(head, span));
    }
    None
}

/// The first reason why a series can't be packed.
fn misfit(series: &SeriesView, options: &Options) -> Option<PackFault>
    requires { AreSteps (length series.now.samples.now) series.now.steps.now }
    ensures none { IfNone result (Fits (trace_of series.now) options.now) }
    ensures some { IfSome result (λ fault. IsMisfit (trace_of series.now) options.now fault) }
{
    if let Some(fault) = head_misfit(&series.head()) {
        return Some(fault);
    }
    if let Some(index) = first_large_sample(series.samples, options.encoding) {
        return Some(PackFault::SampleTooLarge {
            index,
            sample: series.samples[index],
        });
    }
    if let Some(index) = first_large_difference(series.samples, options.encoding) {
        return Some(PackFault::DifferenceTooLarge {
            index,
            difference: difference_at(series.samples, index),
        });
    }
    None
}

/// Whether half a period is less than a microsecond.
fn is_too_fast(rate: Rate) -> bool
    ensures { IsTrue result ↔ (500_000 * (ratio_of rate).den < (ratio_of rate).num) }
{
    FASTEST * u64::from(rate.den()) < u64::from(rate.num())
}

/// The first of the spans of `size` samples in which the instant of one can't be written. Between leap seconds the
/// instants rise, so that the first and the last one tell.
#[tactic(auto, using(crate::proofs::Times::span_out))]
fn span_outside(start: Micros, rate: Rate, steps: &[(u64, LeapStep)], size: usize) -> Option<Span>
    requires { AreSteps size steps.now }
    ensures none { IfNone result ((i : ℕ) → i < size → ¬ (IsOutside (reading_at start (ratio_of rate) steps.now i))) }
    ensures some { IfSome result (λ span. IsSpanOutside start (ratio_of rate) steps.now size span) }
{
    let mut span = first_span(steps, size);
    while span.begin < size {
        let early = is_outside_at(start, rate, span, span.begin);
        if early {
            return Some(span);
        }
        let late = is_outside_at(start, rate, span, span.end - 1);
        if late {
            return Some(span);
        }
        if span.end == size {
            return None;
        }
        span = next_span(steps, size, span);
    }
    None
}

/// The fault of the first sample whose instant can't be written, by the first span in which there is one.
#[cold]
fn fault_in(head: &SeriesHead, span: Span) -> PackFault
    requires steps { AreSteps head.now.count head.now.steps.now }
    requires outside { IsSpanOutside head.now.start (ratio_of head.now.rate) head.now.steps.now head.now.count span }
    ensures { (samples : List ℤ) (options : Options) → length samples ≡ head.now.count → samples ≢ []
        → ¬ (IsTooFast (headed head.now samples)) → IsMisfit (headed head.now samples) options result }
{
    start_is_an_instant(head.start);
    rate_is_a_ratio(head.rate);
    let index = first_outside(head.start, head.rate, span);
    let instant = moment_at(head.start, head.rate, span, index);
    PackFault::TimeOutOfRange { index, instant }
}

/// The index of the first sample of a span whose instant can't be written, where that of the span's first or of its
/// last one can't be.
fn first_outside(start: Micros, rate: Rate, span: Span) -> usize
    requires bound { nat_abs span.added ≤ 10 ^ 6 * 2 ^ 64 }
    requires some { span.begin < span.end }
    requires ends { IsOutside (start +ℤ pos (periods (ratio_of rate) span.begin) -ℤ span.added)
        ⊎ IsOutside (start +ℤ pos (periods (ratio_of rate) (span.end - 1)) -ℤ span.added) }
    ensures begin { span.begin ≤ result }
    ensures end { result < span.end }
    ensures outside { IsOutside (start +ℤ pos (periods (ratio_of rate) result) -ℤ span.added) }
    ensures before { (k : ℕ) → span.begin ≤ k → k < result
        → ¬ (IsOutside (start +ℤ pos (periods (ratio_of rate) k) -ℤ span.added)) }
{
    if is_outside_at(start, rate, span, span.begin) {
        return span.begin;
    }
    // The instants rise: from the one that can be written to the one that can't the distance is halved.
    let mut inside = span.begin;
    let mut outside = span.end - 1;
    while inside + 1 < outside {
        let middle = inside + (outside - inside) / 2;
        if is_outside_at(start, rate, span, middle) {
            outside = middle;
        } else {
            inside = middle;
        }
    }
    outside
}

/// Whether the instant of the sample at an index of a span can't be written.
fn is_outside_at(start: Micros, rate: Rate, span: Span, index: usize) -> bool
    requires { nat_abs span.added ≤ 10 ^ 6 * 2 ^ 64 }
    ensures { IsTrue result
        ↔ IsOutside (start +ℤ pos (periods (ratio_of rate) index) -ℤ span.added) }
{
    match time_at(start, rate, span, index) {
        Some(_) => false,
        None => true,
    }
}

/// The first sample that the encoding doesn't hold.
fn first_large_sample(samples: &[i32], encoding: Encoding) -> Option<usize>
    ensures none { IfNone result (All (IsSampleOf encoding) samples.now) }
    ensures some { IfSome result (λ index. IsFirstNot (IsSampleOf encoding) samples.now index) }
{
    match encoding {
        // All are looked at before one is looked for.
        Encoding::Int16 if are_within(samples, SHORT) => None,
        _ => find_large_sample(samples, encoding),
    }
}

/// The first sample that the encoding doesn't hold, looked for sample by sample.
fn find_large_sample(samples: &[i32], encoding: Encoding) -> Option<usize>
    ensures none { IfNone result (All (IsSampleOf encoding) samples.now) }
    ensures some { IfSome result (λ index. IsFirstNot (IsSampleOf encoding) samples.now index) }
{
    for (index, sample) in samples.iter().enumerate() {
        if !is_sample(encoding, *sample) {
            return Some(index);
        }
    }
    None
}

/// Whether the encoding holds a number as a sample.
fn is_sample(encoding: Encoding, number: i32) -> bool
    ensures { IsTrue result ↔ IsSampleOf encoding number }
{
    match encoding {
        Encoding::Int16 => -0x8000 <= number && number < 0x8000,
        Encoding::Int32 | Encoding::Steim1 | Encoding::Steim2 => true,
    }
}

/// The first sample whose difference the encoding doesn't hold.
fn first_large_difference(samples: &[i32], encoding: Encoding) -> Option<usize>
    ensures none { IfNone result (All (IsDifferenceOf encoding) (differences samples.now)) }
    ensures some { IfSome result (λ index. IsFirstNot (IsDifferenceOf encoding) (differences samples.now) index) }
{
    match encoding {
        // No differences are written.
        Encoding::Int16 | Encoding::Int32 => None,
        Encoding::Steim1 | Encoding::Steim2 => first_wide_difference(samples, encoding),
    }
}

/// The first sample whose difference the encoding doesn't hold. Samples that aren't too far apart are looked for
/// first.
#[tactic(auto, using(crate::proofs::Misfits::near_differences))]
fn first_wide_difference(samples: &[i32], encoding: Encoding) -> Option<usize>
    ensures none { IfNone result (All (IsDifferenceOf encoding) (differences samples.now)) }
    ensures some { IfSome result (λ index. IsFirstNot (IsDifferenceOf encoding) (differences samples.now) index) }
{
    // No two of such samples are too far apart for any encoding.
    if are_within(samples, NEAR) {
        return None;
    }
    find_large_difference(samples, encoding)
}

/// Whether each sample is less than a limit, a power of two, and no less than its negative. Eight parts of the list are
/// gone through side by side, so that memory is asked for at eight places at once.
fn are_within(samples: &[i32], limit: u32) -> bool
    requires some { 0 < limit }
    requires power { (k : ℕ) × (2 * limit ≡ 2 ^ k) }
    requires half { limit < 2 ^ 31 }
    ensures { IsTrue result ↔ All (IsUnder (pos limit)) samples.now }
{
    let part = samples.len() / 8;
    let mut bits = 0;
    for index in 0..part {
        bits |= bits_of_four(samples, index, part, limit);
        bits |= bits_of_four(samples, index + 4 * part, part, limit);
    }
    for last in 8 * part..samples.len() {
        bits |= raised(samples[last], limit);
    }
    bits < 2 * limit
}

/// The bits that any of four samples has, `part` places apart, each raised by a limit, a power of two.
#[inline(always)]
fn bits_of_four(samples: &[i32], index: usize, part: usize, limit: u32) -> u32
    requires power { (k : ℕ) × (2 * limit ≡ 2 ^ k) }
    requires half { limit < 2 ^ 31 }
    requires inside { index + 3 * part < length samples.now }
    ensures { (result < 2 * limit) ↔ AreFourUnder (pos limit) samples.now index part }
{
    let first = raised(samples[index], limit);
    let second = raised(samples[index + part], limit);
    let third = raised(samples[index + 2 * part], limit);
    let fourth = raised(samples[index + 3 * part], limit);
    first | second | third | fourth
}

/// A sample and a limit added up, modulo 2^32: less than twice the limit exactly where the sample is less than the
/// limit, and no less than its negative.
#[tactic(auto, using(crate::proofs::Rules::raised))]
fn raised(sample: i32, limit: u32) -> u32
    requires { limit < 2 ^ 31 }
    ensures { (result < 2 * limit) ↔ IsUnder (pos limit) sample }
{
    sample.cast_unsigned().wrapping_add(limit)
}

/// The first sample whose difference the encoding doesn't hold, looked for sample by sample.
#[tactic(auto, using(crate::proofs::Rules::large_difference))]
fn find_large_difference(samples: &[i32], encoding: Encoding) -> Option<usize>
    ensures none { IfNone result (All (IsDifferenceOf encoding) (differences samples.now)) }
    ensures some { IfSome result (λ index. IsFirstNot (IsDifferenceOf encoding) (differences samples.now) index) }
{
    for index in 1..samples.len() {
        if !is_difference(encoding, difference_at(samples, index)) {
            return Some(index);
        }
    }
    None
}

/// The difference of a sample from the one before it.
pub(crate) fn difference_at(samples: &[i32], index: usize) -> i64
    requires some { 0 < index }
    requires inside { index < length samples.now }
    ensures { result ≡ slice_index_or (differences samples.now) index (pos 0) }
{
    i64::from(samples[index]) - i64::from(samples[index - 1])
}

/// Whether the encoding holds a number as a difference.
fn is_difference(encoding: Encoding, number: i64) -> bool
    ensures { IsTrue result ↔ IsDifferenceOf encoding number }
{
    match encoding {
        Encoding::Int16 | Encoding::Int32 => true,
        Encoding::Steim1 => -0x8000_0000 <= number && number < 0x8000_0000,
        Encoding::Steim2 => -0x2000_0000 <= number && number < 0x2000_0000,
    }
}
