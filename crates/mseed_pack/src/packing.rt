//! Packing a series.
ghost use Rattle.std.specs.Prelude.{◌≡◌, ◌^◌, ◌<◌, ◌≤◌, IfErr, IfOk, List, length, ℤ};
ghost use Rattle.mseed_stream.specs.Calls.{WritesOn};
ghost use Rattle.mseed_audit.specs.Series.{AreSteps};
ghost use Rattle.mseed_pack.specs.declared.record.TheConstants.{LONGEST};
ghost use Rattle.mseed_pack.specs.Fitting.{Fits};
ghost use Rattle.mseed_pack.specs.FewestWords.{EachHasFewestWords};
ghost use Rattle.mseed_pack.specs.Outcome.{IsOutcome, EmittedAll, EmittedPrefix};
ghost use Rattle.mseed_pack.specs.ReadBack.{EachReadsBack};
ghost use Rattle.mseed_pack.specs.Options.{IsSteim};
ghost use Rattle.mseed_pack.specs.Supplies.{SuppliesFitting};
ghost use Rattle.mseed_pack.specs.Traces.{headed, trace_of};
ghost use Rattle.mseed_pack.specs.private.Spans.{CanBegin};

use crate::batch::{Job, first_place, gather};
use crate::fault::PackFault;
use crate::fitting::{fit_view, series_is_a_trace};
use crate::frames::Frames;
use crate::law::{fewest_words, reads_back};
use crate::options::Options;
use crate::payload::Filler;
use crate::payloads::Payloads;
use crate::record::length_of;
use crate::series_head::SeriesHead;
use crate::series_view::SeriesView;
use crate::supply::Supply;
use mseed_audit::Series;
use mseed_stream::{Sink, write_all_of};
use std::alloc::Allocator;

/// The bytes that are gathered before they are written: whole records of any length.
const GATHERED: usize = 1 << 14;

/// Packs a series into records, which it writes one after another. Returns how many there are. It takes no memory.
///
/// # Errors
///
/// Those of [`fit`](crate::fit), before anything is written; or `Write` where the sink failed, once it had taken so
/// many bytes.
pub fn pack<A: Allocator + Copy, W: Sink>(
    series: &Series<A>,
    options: &Options,
    sink: &mut W,
) -> Result<u64, PackFault>
    ensures outcome { IsOutcome result series.now options.now (W.written sink.old) (W.written sink.new) }

    // What the sink is known to hold grew by what it accepted.
    ensures writes { WritesOn (W.written sink.old) (W.written sink.new) (W.contents sink.old) (W.contents sink.new)
        (W.beside sink.old) (W.beside sink.new) }

    // What a series that fits is packed into reads back as the series: a continuous channel.
    ensures reads_back { EachReadsBack series.now options.now }

    // In Steim-2 no fewer words hold the differences of any of its records.
    ensures fewest { EachHasFewestWords series.now options.now }
{
    let view = SeriesView::of(series);
    pack_view(&view, options, sink)
}

/// [`pack`] of a series where it lies. The numbers of samples before its leap seconds rise strictly, from 1 to at most
/// the number of samples.
///
/// # Errors
///
/// Those of [`pack`].
#[tactic(auto, using(crate::proofs::OneMisfit::refused, mseed_stream::proofs::Calls::writes_none))]
pub fn pack_view<W: Sink>(
    series: &SeriesView,
    options: &Options,
    sink: &mut W,
) -> Result<u64, PackFault>
    requires steps { AreSteps (length series.now.samples.now) series.now.steps.now }
    ensures outcome { IsOutcome result (trace_of series.now) options.now (W.written sink.old) (W.written sink.new) }

    // What the sink is known to hold grew by what it accepted.
    ensures writes { WritesOn (W.written sink.old) (W.written sink.new) (W.contents sink.old) (W.contents sink.new)
        (W.beside sink.old) (W.beside sink.new) }

    // What a series that fits is packed into reads back as the series: a continuous channel.
    ensures reads_back { EachReadsBack (trace_of series.now) options.now }

    // In Steim-2 no fewer words hold the differences of any of its records.
    ensures fewest { EachHasFewestWords (trace_of series.now) options.now }
{
    packings_read_back(series, options);
    if let Err(fault) = fit_view(series, options) {
        return Err(fault);
    }
    let mut packer = Packer::new();
    match packer.pack_fitting(series, options, sink) {
        Ok(count) => Ok(count),
        Err(taken) => Err(PackFault::Write(taken)),
    }
}

/// What a series that fits is packed into reads back as it, and no fewer words hold its differences.
fn packings_read_back(series: &SeriesView, options: &Options)
    requires { AreSteps (length series.now.samples.now) series.now.steps.now }
    ensures reads_back { EachReadsBack (trace_of series.now) options.now }
    ensures fewest { EachHasFewestWords (trace_of series.now) options.now }
{
    series_is_a_trace(series);
    reads_back();
    fewest_words();
}

/// The room that packing works in, for one series after another: it is cleared once.
#[derive(Drop)]
pub struct Packer {
    records: [u8; GATHERED],
    frames: Frames,
}

impl Packer {
    /// Room for records and differences.
    pub fn new() -> Packer {
        Packer {
            records: [0; GATHERED],
            frames: Frames::new(),
        }
    }

    /// [`pack_view`] of a series that is known to fit, as [`fit_view`] says: nothing of it is checked again. The
    /// numbers of samples before its leap seconds rise strictly, from 1 to at most the number of samples. Whatever was
    /// packed in this room before is forgotten.
    ///
    /// # Errors
    ///
    /// How many bytes the sink accepted before it failed.
    pub fn pack_fitting<W: Sink>(
        &mut self,
        series: &SeriesView,
        options: &Options,
        sink: &mut W,
    ) -> Result<u64, u128>
        requires fits { Fits (trace_of series.now) options.now }
        requires steps { AreSteps (length series.now.samples.now) series.now.steps.now }
        ensures ok { IfOk result (λ count.
            EmittedAll (trace_of series.now) options.now count (W.written sink.old) (W.written sink.new)) }
        ensures err { IfErr result (λ taken.
            EmittedPrefix (trace_of series.now) options.now taken (W.written sink.old) (W.written sink.new)) }
        ensures writes { WritesOn (W.written sink.old) (W.written sink.new) (W.contents sink.old) (W.contents sink.new)
            (W.beside sink.old) (W.beside sink.new) }
    {
        let head = series.head();
        let job = Job {
            head: &head,
            options,
        };
        let mut payloads = Payloads::new();
        let mut list = series.samples;
        write_records(&job, &mut payloads, &mut list, &mut self.records, sink)
    }

    /// [`Packer::pack_fitting`] in either Steim, of a series whose samples come from a supply, from the first on: what
    /// is written is the same, and no list holds the samples. The numbers of samples before its leap seconds rise
    /// strictly, from 1 to at most the number of samples.
    ///
    /// # Errors
    ///
    /// How many bytes the sink accepted before it failed.
    pub fn pack_supplied<S: Supply, W: Sink>(
        &mut self,
        head: &SeriesHead,
        options: &Options,
        supply: &mut S,
        sink: &mut W,
    ) -> Result<u64, u128>
        requires steim { IsSteim options.now.encoding }
        requires steps { AreSteps head.now.count head.now.steps.now }
        // There are samples that it supplies, and that are a series that fits.
        requires supplied { (samples : List ℤ)
            × SuppliesFitting S.supplies supply.old head.now options.now samples }
        ensures ok { IfOk result (λ count. (samples : List ℤ)
            → SuppliesFitting S.supplies supply.old head.now options.now samples
            → EmittedAll (headed head.now samples) options.now count (W.written sink.old) (W.written sink.new)) }
        ensures err { IfErr result (λ taken. (samples : List ℤ)
            → SuppliesFitting S.supplies supply.old head.now options.now samples
            → EmittedPrefix (headed head.now samples) options.now taken (W.written sink.old) (W.written sink.new)) }
        ensures writes { WritesOn (W.written sink.old) (W.written sink.new) (W.contents sink.old) (W.contents sink.new)
            (W.beside sink.old) (W.beside sink.new) }
        ensures beside { S.beside supply.new ≡ S.beside supply.old }
    {
        count_has_64_bits(head.count);
        let job = Job { head, options };
        self.frames.begin(head.first);
        write_records(&job, &mut self.frames, supply, &mut self.records, sink)
    }
}

/// A number of samples has 64 bits.
fn count_has_64_bits(count: usize)
    ensures { count < 2 ^ 64 }
{}

/// Writes the records of a series to a sink, gathered in a room, and returns how many there are.
///
/// # Errors
///
/// How many bytes the sink accepted before it failed.
fn write_records<S, F: Filler<S>, W: Sink>(
    job: &Job,
    filler: &mut F,
    supply: &mut S,
    room: &mut [u8],
    sink: &mut W,
) -> Result<u64, u128>
    requires steps { AreSteps job.now.head.now.count job.now.head.now.steps.now }
    requires begins { (samples : List ℤ) × CanBegin F.stands job.now filler.old supply.old samples }
    requires long { LONGEST ≤ length room.old }
    ensures ok { (samples : List ℤ) → CanBegin F.stands job.now filler.old supply.old samples → IfOk result (λ count.
        EmittedAll (headed job.now.head.now samples) job.now.options.now count (W.written sink.old)
        (W.written sink.new)) }
    ensures err { (samples : List ℤ) → CanBegin F.stands job.now filler.old supply.old samples → IfErr result (λ taken.
        EmittedPrefix (headed job.now.head.now samples) job.now.options.now taken (W.written sink.old)
        (W.written sink.new)) }
    ensures writes { WritesOn (W.written sink.old) (W.written sink.new) (W.contents sink.old) (W.contents sink.new)
        (W.beside sink.old) (W.beside sink.new) }
    ensures beside { F.beside supply.new ≡ F.beside supply.old }
{
    let length = length_of(job.options);
    let mut place = first_place(job.head);
    while place.first < job.head.count {
        let batch = gather(job, place, filler, supply, room);
        if let Err(taken) = write_all_of(sink, &room[..batch.bytes]) {
            return Err(u128::from(place.number) * length as u128 + taken as u128);
        }
        place = batch.next;
    }
    Ok(place.number)
}
