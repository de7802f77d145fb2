//! The samples of one record.
ghost use Rattle.std.specs.Prelude.{◌≡◌, ℕ, Result, IfOk, IfErr};
ghost use Rattle.mseed_record.specs.Viewing.{view_of};
ghost use Rattle.mseed_c.specs.Codes.{code_of, detail_of};
ghost use Rattle.mseed_c.specs.Decoded.{IsDecoded, IsFirst, IsStopAt, IsTaken};
ghost use Rattle.mseed_c.specs.declared.codes.SampleFault.{SampleFault};

use crate::codes::{Detail, SampleFault, Stop, code_of, detail_of};
use mseed_record::{RecordView, ViewFault};
use mseed_steim::fill_samples;

/// Returns the record with which the bytes begin.
///
/// # Errors
///
/// `Not` with the reason why they begin none, or `Short` with how many bytes are needed before that is known.
#[inline(always)]
pub(crate) fn view_at(bytes: &[u8]) -> Result<RecordView<'_>, Stop>
    ensures first { IfOk result (λ view. IsFirst bytes.now (view_of view)) }
    ensures stop { IfErr result (λ stop. IsStopAt bytes.now stop) }
{
    match RecordView::of(bytes) {
        Ok(view) => Ok(view),
        Err(ViewFault::Not(fault)) => Err(Stop::Not(fault)),
        Err(ViewFault::Short(bytes)) => Err(Stop::Short(bytes)),
    }
}

/// Writes the samples of a record to the first places of `out`, and returns how many there are.
///
/// # Errors
///
/// `Stop` with [`Stop::Room`] where there are fewer places than samples: then nothing is written. `Read` where the
/// samples can't be read: then as many places as it has samples may have been written to.
#[inline(always)]
pub(crate) fn fill(view: &RecordView<'_>, out: &mut [i32]) -> Result<usize, SampleFault>
    ensures { IsTaken (view_of view.now) out.old out.new result }
{
    let samples = usize::from(view.samples());
    if out.len() < samples {
        return Err(SampleFault::Stop(Stop::Room(samples)));
    }
    if samples == 0 {
        return Ok(0);
    }
    match fill_samples(view, &mut out[..samples]) {
        Ok(()) => Ok(samples),
        Err(fault) => Err(SampleFault::Read(fault)),
    }
}

/// Writes the samples of the record with which the bytes begin to the first places of `out`, and returns how many there
/// are.
///
/// # Errors
///
/// Why there are none: `Stop` where no record begins the bytes or `out` is too short, `Read` where the samples can't be
/// read.
fn decode(bytes: &[u8], out: &mut [i32]) -> Result<usize, SampleFault>
    ensures { IsDecoded bytes.now out.old out.new result }
{
    match view_at(bytes) {
        Ok(view) => fill(&view, out),
        Err(stop) => Err(SampleFault::Stop(stop)),
    }
}

/// Writes the samples of the record with which the bytes begin to the first places of `out`; places after as many as
/// the record has samples stay. `reported` gets how many there are, or the numbers of the reason why there are none.
///
/// Returns 0, or the code of why there are none: 5 where there are fewer places than samples, 6 where more bytes are
/// needed, 16 to 22 where the bytes begin no record, 32 to 39 where its samples can't be read.
#[unsafe(no_mangle)]
pub extern "C" fn mseed_samples(bytes: &[u8], out: &mut [i32], reported: &mut Detail) -> u32
    ensures { (answer : Result ℕ SampleFault) × (IsDecoded bytes.now out.old out.new answer
        × (reported.new ≡ detail_of answer) × (result ≡ code_of answer)) }
{
    let answer = decode(bytes, out);
    *reported = detail_of(&answer);
    code_of(&answer)
}
