//! The records of an archive that lies in memory, without their samples.
ghost use Rattle.std.specs.Prelude.{◌^◌, ◌-◌, length};
ghost use Rattle.mseed_c.specs.Rows.{IsEnd, IsHead, IsHeads};

use crate::codes::OK;
use crate::going::{Places, Progress, go_through};
use crate::row::Row;
use mseed_record::RecordView;

/// The samples are counted, and not read.
struct Unread;

impl Places for Unread {
    ghost is_row = { λ bytes filled out row. IsHead bytes filled row };

    ghost room = { λ places. 2 ^ 64 - 1 };

    #[inline(always)]
    fn take(view: &RecordView<'_>, out: &mut [i32], filled: usize) -> Result<(usize, u32), usize> {
        let samples = usize::from(view.samples());
        match filled.checked_add(samples) {
            Some(counted) => Ok((counted, OK)),
            None => Err(samples),
        }
    }
}

/// Writes a row for each record of an archive from an offset (in bytes) on, without reading their samples; rows after
/// those that are written stay. `progress` gets how far the archive was read. No memory is requested.
///
/// Returns 0 at the end of the archive, else the code of why it stopped: 4 where no row is left, 6 where more bytes are
/// needed, 16 to 22 where the next bytes begin no record.
#[unsafe(no_mangle)]
pub extern "C" fn mseed_rows(
    bytes: &[u8],
    offset: usize,
    rows: &mut [Row],
    progress: &mut Progress,
) -> u32
    ensures heads { IsHeads bytes.now offset rows.old rows.new progress.new }
    ensures end { IsEnd bytes.now (length rows.new) (2 ^ 64 - 1) progress.new result }
{
    go_through::<Unread>(bytes, offset, rows, &mut [], progress)
}
