//! The records of an archive that lies in memory, with their samples, in one call.
ghost use Rattle.std.specs.Prelude.{◌≡◌, ◌≤◌, length, take, drop, IfOk, IfErr, OnErr};
ghost use Rattle.mseed_record.specs.Viewing.{view_of};
ghost use Rattle.mseed_c.specs.Rows.{IsEnd, IsRead, IsRow};
ghost use Rattle.mseed_c.specs.private.Filled.{AreSamples, LacksRoom};

use crate::codes::{OK, SampleFault, Stop, code_of_read};
use crate::decoding::fill;
use crate::going::{Places, Progress, go_through};
use crate::row::Row;
use mseed_record::RecordView;

/// The samples are written to the caller's slice, one record's after another's.
struct Written;

impl Places for Written {
    ghost is_row = { IsRow };

    ghost room = { λ places. places };

    #[inline(always)]
    fn take(view: &RecordView<'_>, out: &mut [i32], filled: usize) -> Result<(usize, u32), usize> {
        match fill_row(view, out, filled) {
            Ok((samples, code)) => Ok((filled + samples, code)),
            Err(places) => Err(places),
        }
    }
}

/// Writes a record's samples from an index of `out` on. Returns how many, and 0; or 0, and the code of why there are
/// none.
///
/// # Errors
///
/// How many samples the record has, where there is room for fewer: then nothing is written.
#[inline(always)]
fn fill_row(view: &RecordView<'_>, out: &mut [i32], index: usize) -> Result<(usize, u32), usize>
    requires { index ≤ length out.old }
    ensures prefix { take index out.new ≡ take index out.old }
    ensures row { IfOk result (λ r. AreSamples (view_of view.now) (drop index out.new) r.0 r.1) }
    ensures stays { OnErr result (out.new ≡ out.old) }
    ensures full { IfErr result (λ places. LacksRoom (view_of view.now) (drop index out.new) places) }
{
    match fill(view, &mut out[index..]) {
        Ok(samples) => Ok((samples, OK)),
        Err(SampleFault::Read(fault)) => Ok((0, code_of_read(fault))),
        Err(SampleFault::Stop(Stop::Room(places))) => Err(places),
        Err(SampleFault::Stop(_)) => unreachable!(),
    }
}

/// Reads the records of an archive from an offset (in bytes) on: each gets a row, and its samples are written to `out`,
/// after those of the records before it. A record whose samples can't be read has its row with the code of the reason,
/// and adds no samples. Rows after those that are written stay. `progress` gets how far the archive was read.
///
/// Returns 0 at the end of the archive, else the code of why it stopped: 4 where no row is left, 5 where there are
/// fewer places than the next record has samples, 6 where more bytes are needed, 16 to 22 where the next bytes begin no
/// record.
#[unsafe(no_mangle)]
pub extern "C" fn mseed_read(
    bytes: &[u8],
    offset: usize,
    rows: &mut [Row],
    out: &mut [i32],
    progress: &mut Progress,
) -> u32
    ensures read { IsRead bytes.now offset rows.old rows.new out.new progress.new }
    ensures end { IsEnd bytes.now (length rows.new) (length out.new) progress.new result }
{
    go_through::<Written>(bytes, offset, rows, out, progress)
}
