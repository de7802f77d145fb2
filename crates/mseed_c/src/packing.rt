//! Packing a series that lies in memory.
ghost use Rattle.std.specs.Prelude.{◌≡◌, length};
ghost use Rattle.mseed_audit.specs.Series.{AreSteps};
ghost use Rattle.mseed_pack.specs.Traces.{trace_of};
ghost use Rattle.mseed_c.specs.Packed.{IsPackedInto, IsPackOutcome};
ghost use Rattle.mseed_c.specs.private.Parts.{AreParts};

use crate::codes::{OK, code_of_misfit, code_of_refusal, index_of};
use crate::heading::{Heading, Parts, parts_of};
use mseed_pack::{Options, SeriesView, fit_view, pack_into};
use mseed_record::Codes;

/// What packing came to.
#[repr(C)]
#[derive(Clone, Copy)]
pub struct Packed {
    /// How many records the series is packed into; 0 where it doesn't fit.
    pub records: u64,
    /// The index of the first sample that the encoding doesn't hold, or whose difference from the one before it
    /// doesn't; 0 where there is none.
    pub index: usize,
}

/// Packs a series into records of the heading's length, each with blockettes 1000 and 1001, big-endian (SEED Reference
/// Manual 2.4, chapter 8). The room gets as many bytes of them as it has; what lies after them stays. `reported` gets
/// how many records there are in all.
///
/// Returns 0, or the code of why there are none: 64 to 69 where the heading is refused, and then `reported` stays; 48
/// to 52 where the series can't be packed. Nothing is written then, and no memory is ever requested.
#[unsafe(no_mangle)]
pub extern "C" fn mseed_pack(
    heading: &Heading,
    samples: &[i32],
    room: &mut [u8],
    reported: &mut Packed,
) -> u32
    ensures { IsPackOutcome heading.now samples.now room.old room.new reported.old reported.new result }
{
    match parts_of(heading, samples.len()) {
        Ok(parts) => pack_parts(heading, &parts, samples, room, reported),
        Err(refusal) => code_of_refusal(refusal),
    }
}

/// Packs the series of a heading whose values are known, and returns the code.
fn pack_parts(
    heading: &Heading,
    parts: &Parts,
    samples: &[i32],
    room: &mut [u8],
    reported: &mut Packed,
) -> u32
    requires { AreParts heading.now (length samples.now) parts.now }
    ensures { IsPackOutcome heading.now samples.now room.old room.new reported.old reported.new result }
{
    let series = SeriesView {
        codes: Codes::of_key(heading.key),
        start: parts.start,
        rate: parts.rate,
        samples,
        steps: parts.step.as_slice(),
    };
    pack_series(&series, &parts.options, room, reported)
}

/// Packs a series by these options, and returns 0 or the code of why it can't be packed.
fn pack_series(
    series: &SeriesView,
    options: &Options,
    room: &mut [u8],
    reported: &mut Packed,
) -> u32
    requires { AreSteps (length series.now.samples.now) series.now.steps.now }
    ensures { IsPackedInto (trace_of series.now) options.now room.old room.new reported.old reported.new result }
{
    if let Err(fault) = fit_view(series, options) {
        *reported = Packed {
            records: 0,
            index: index_of(&fault),
        };
        return code_of_misfit(&fault);
    }
    let records = pack_into(series, options, room);
    *reported = Packed { records, index: 0 };
    OK
}
