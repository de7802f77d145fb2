//! Records that are gathered, to be written at once.
ghost use Rattle.std.specs.Prelude.{◌≡◌, ◌^◌, ◌<◌, ◌≤◌, ℤ, List, length, take, drop};
ghost use Rattle.mseed_audit.specs.Series.{AreSteps};
ghost use Rattle.mseed_pack.specs.declared.record.TheConstants.{LONGEST};
ghost use Rattle.mseed_pack.specs.private.Spans.{CanGoOn, ComesTo, StandsAt, IsSpan};

use crate::options::Options;
use crate::payload::Filler;
use crate::record::{length_of, write_record};
use crate::series_head::SeriesHead;
use crate::span::{Span, first_span, next_span};

/// How far a packing has come: `number` records hold the samples before `first`. The next record stands in the span, or
/// after it.
#[derive(Clone, Copy)]
pub(crate) struct PackedSoFar {
    pub(crate) span: Span,
    pub(crate) number: u64,
    pub(crate) first: usize,
}

/// A series, and how it is packed.
#[derive(Clone, Copy)]
pub(crate) struct Job<'a> {
    pub(crate) head: &'a SeriesHead<'a>,
    pub(crate) options: &'a Options,
}

/// What was gathered: how many bytes of records, and the place after them.
#[derive(Clone, Copy)]
pub(crate) struct Batch {
    pub(crate) bytes: usize,
    pub(crate) next: PackedSoFar,
}

/// The place before the first record.
pub(crate) fn first_place(head: &SeriesHead) -> PackedSoFar
    requires { AreSteps head.now.count head.now.steps.now }
    ensures standing { StandsAt head.now.steps.now head.now.count result }
    ensures number { result.number ≡ 0 }
    ensures first { result.first ≡ 0 }
{
    PackedSoFar {
        span: first_span(head.steps, head.count),
        number: 0,
        first: 0,
    }
}

/// Gathers records from a place on, one after another, until no sample is left or no room for a record.
#[tactic(auto, using(crate::proofs::Rules::gather))]
pub(crate) fn gather<S, F: Filler<S>>(
    job: &Job,
    place: PackedSoFar,
    filler: &mut F,
    supply: &mut S,
    out: &mut [u8],
) -> Batch
    requires on { (samples : List ℤ) × CanGoOn F.stands job.now filler.old supply.old place samples }
    requires long { LONGEST ≤ length out.old }
    ensures to { (samples : List ℤ) → CanGoOn F.stands job.now filler.old supply.old place samples
        → ComesTo F.stands job.now filler.new supply.new place result.next (take result.bytes out.new) samples }
    ensures standing { StandsAt job.now.head.now.steps.now job.now.head.now.count result.next }
    ensures some { place.first < result.next.first }
    ensures beside { F.beside supply.new ≡ F.beside supply.old }
    ensures within { result.bytes ≤ length out.new }
    ensures behind { drop result.bytes out.new ≡ drop result.bytes out.old }
{
    let length = length_of(job.options);
    let mut next = place;
    let mut bytes = 0;
    while length <= out.len() - bytes {
        if next.first == job.head.count {
            return Batch { bytes, next };
        }
        next = put_record(job, next, filler, supply, &mut out[bytes..bytes + length]);
        bytes += length;
    }
    Batch { bytes, next }
}

/// Puts the record at a place, and returns the place after it.
fn put_record<S, F: Filler<S>>(
    job: &Job,
    place: PackedSoFar,
    filler: &mut F,
    supply: &mut S,
    out: &mut [u8],
) -> PackedSoFar
    requires on { (samples : List ℤ) × CanGoOn F.stands job.now filler.old supply.old place samples }
    requires size { length out.old ≡ 2 ^ job.now.options.now.exponent }
    ensures to { (samples : List ℤ) → CanGoOn F.stands job.now filler.old supply.old place samples
        → ComesTo F.stands job.now filler.new supply.new place result out.new samples }
    ensures standing { StandsAt job.now.head.now.steps.now job.now.head.now.count result }
    ensures some { place.first < result.first }
    ensures beside { F.beside supply.new ≡ F.beside supply.old }
{
    let span = span_at(job.head, place.span, place.first);
    let place = PackedSoFar { span, ..place };
    let count = write_record(job, place, filler, supply, out);
    PackedSoFar {
        span,
        number: place.number + 1,
        first: place.first + count,
    }
}

/// The span in which a sample stands: this one, or where it stands at this one's end, the next.
fn span_at(head: &SeriesHead, span: Span, first: usize) -> Span
    requires standing { IsSpan head.now.steps.now head.now.count span }
    requires begun { span.begin ≤ first }
    requires inside { first ≤ span.end }
    requires more { first < head.now.count }
    ensures standing { IsSpan head.now.steps.now head.now.count result }
    ensures begun { result.begin ≤ first }
    ensures inside { first < result.end }
    ensures most { result.end ≤ head.now.count }
{
    if first == span.end {
        next_span(head.steps, head.count, span)
    } else {
        span
    }
}
