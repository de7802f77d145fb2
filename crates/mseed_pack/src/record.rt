//! One record of a packing.
ghost use Rattle.std.specs.Prelude.{◌≡◌, ◌+◌, ◌^◌, ◌%◌, ◌<◌, ◌≤◌, length, List, ℕ, ℤ};
ghost use Rattle.mseed_record.specs.Fields.{header_of};
ghost use Rattle.mseed_pack.specs.declared.record.TheConstants.{LONGEST, SHORTEST};
ghost use Rattle.mseed_pack.specs.Fitting.{HasTimeOutside};
ghost use Rattle.mseed_pack.specs.Packing.{IsHeaderOf};
ghost use Rattle.mseed_pack.specs.Traces.{headed};
ghost use Rattle.mseed_pack.specs.private.Spans.{CanGoOn, IsRecorded, IsSpan};
ghost use Rattle.mseed_pack.specs.Stretches.{flags_of, step_after};

use crate::batch::{Job, PackedSoFar};
use crate::clock::time_at;
use crate::options::Options;
use crate::payload::{Filled, Filler, Remaining};
use crate::series_head::SeriesHead;
use crate::span::Span;
use mseed_record::{Fields, WRITTEN_HEADER, write_header};
use mseed_time::LeapStep;

/// The bytes of the shortest record.
pub(crate) const SHORTEST: usize = 128;

/// The bytes of the longest record.
pub(crate) const LONGEST: usize = 4096;

/// The bytes of a record.
pub(crate) fn length_of(options: &Options) -> usize
    ensures value { result ≡ 2 ^ options.now.exponent }
    ensures long { SHORTEST ≤ result }
    ensures short { result ≤ LONGEST }
    ensures whole { result % 64 ≡ 0 }
{
    1 << options.exponent
}

/// The activity flags of a record of a span, which ends before the sample at `end`: the leap second at its end.
#[tactic(auto, using(crate::proofs::Steps::kind_some, crate::proofs::Steps::none_after, crate::proofs::Steps::one_after))]
fn flags_at(head: &SeriesHead, span: Span, end: usize) -> u8
    requires standing { IsSpan head.now.steps.now head.now.count span }
    requires begin { span.begin < end }
    requires within { end ≤ span.end }
    ensures { (samples : List ℤ) → length samples ≡ head.now.count
        → result ≡ flags_of (step_after (headed head.now samples) end) }
{
    if end < span.end {
        return 0;
    }
    if span.passed >= head.steps.len() {
        return 0;
    }
    match head.steps[span.passed].1 {
        LeapStep::Plus => 16,
        LeapStep::Minus => 32,
    }
}

/// What the header of a record says that holds the samples that were filled in, from a place on.
fn fields_at(job: &Job, place: PackedSoFar, filled: Filled) -> Fields
    requires timed { (samples : List ℤ) × ((length samples ≡ job.now.head.now.count)
        × ¬ (HasTimeOutside (headed job.now.head.now samples))) }
    requires standing { IsSpan job.now.head.now.steps.now job.now.head.now.count place.span }
    requires begin { place.span.begin ≤ place.first }
    requires some { 0 < filled.samples }
    requires within { place.first + filled.samples ≤ place.span.end }
    requires few { filled.samples < 2 ^ 16 }
    ensures { (all samples : List ℤ) (bytes : List ℕ)
        → length all ≡ job.now.head.now.count → length samples ≡ filled.samples
        → IsHeaderOf (headed job.now.head.now all) job.now.options.now
        (record { number = place.number; first = place.first; samples = samples; bytes = bytes })
        filled.frames (header_of result) }
{
    let head = job.head;
    let options = job.options;
    let Some((start, usec)) = time_at(head.start, head.rate, place.span, place.first) else {
        // Each instant can be written.
        unreachable!()
    };
    let activity = flags_at(head, place.span, place.first + filled.samples);
    Fields {
        sequence: options.after(place.number).first_sequence,
        codes: head.codes,
        start,
        usec,
        samples: filled.samples as u16,
        rate: head.rate,
        encoding: options.encoding.code(),
        exponent: options.exponent,
        frames: filled.frames,
        activity,
    }
}

/// Writes the record at a place, and returns how many samples it holds.
pub(crate) fn write_record<S, F: Filler<S>>(
    job: &Job,
    place: PackedSoFar,
    filler: &mut F,
    supply: &mut S,
    out: &mut [u8],
) -> usize
    requires on { (samples : List ℤ) × CanGoOn F.stands job.now filler.old supply.old place samples }
    requires end { place.first < place.span.end }
    requires size { length out.old ≡ 2 ^ job.now.options.now.exponent }
    requires long { SHORTEST ≤ length out.old }
    requires short { length out.old ≤ LONGEST }
    requires whole { length out.old % 64 ≡ 0 }
    ensures recorded { (samples : List ℤ) → CanGoOn F.stands job.now filler.old supply.old place samples
        → IsRecorded F.stands job.now filler.new supply.new place result out.new samples }
    ensures some { 0 < result }
    ensures within { place.first + result ≤ place.span.end }
    ensures beside { F.beside supply.new ≡ F.beside supply.old }
{
    let left = Remaining {
        first: place.first,
        end: place.span.end,
    };
    let filled = filler.fill(
        job.options.encoding,
        left,
        supply,
        &mut out[WRITTEN_HEADER..],
    );
    let fields = fields_at(job, place, filled);
    match write_header(out, &fields) {
        Ok(()) => filled.samples,
        // A record is longer than its header.
        Err(_) => unreachable!(),
    }
}
