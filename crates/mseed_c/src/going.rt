//! The walk through the records of an archive that lies in memory: a row for each.
ghost use Rattle.std.specs.Prelude.{◌≡◌, ◌≤◌, ◌<◌, ◌+◌, ◌^◌, List, ℕ, ℤ, length, drop, IfErr, IfOk, IfSome, IfNone};
ghost use Rattle.std.specs.Prelude.{OnOk, OnErr};
ghost use Rattle.mseed_record.specs.Viewing.{view_of};
ghost use Rattle.mseed_c.specs.Decoded.{IsFirst};
ghost use Rattle.mseed_c.specs.Rows.{EndsWalk, IsEnd, IsWalk};
ghost use Rattle.mseed_c.specs.private.Going.{GoesOn, HasNoRoom, TakesOn};
ghost use Rattle.mseed_c.specs.declared.row.Row.{Row};

use crate::codes::{OK, Stop, code_of_stop, needed_by};
use crate::decoding::view_at;
use crate::row::{Row, row_of};
use mseed_record::RecordView;

/// How far an archive was read.
#[repr(C)]
#[derive(Clone, Copy)]
pub struct Progress {
    /// How many rows were written.
    pub rows: usize,
    /// Where the next record begins, in bytes from the beginning of the archive.
    pub offset: usize,
    /// How many samples of these rows were written; by `mseed_rows`, how many their records say that they have.
    pub filled: usize,
    /// How many bytes, from there on, or places for samples are needed to go on; of a length that no record has, its
    /// exponent; else 0.
    pub needed: usize,
}

/// What is done with the samples of each record: they are read and written, or only counted.
pub(crate) trait Places {
    // What holds of a row of some bytes, by the number of samples that are counted, and those that `out` holds.
    ghost is_row: { List ℕ → ℕ → List ℤ → Row → Type 0 };

    // How many samples can be counted, where `out` is so long.
    ghost room: { ℕ → ℕ };

    /// Takes the samples of a record, after `filled` samples of the records before it. Returns how many samples there
    /// are then in all, and 0, or the code of why the record has none.
    ///
    /// # Errors
    ///
    /// How many samples the record has, where there is no room for them: then nothing is changed.
    fn take(view: &RecordView<'_>, out: &mut [i32], filled: usize) -> Result<(usize, u32), usize>
        requires { filled ≤ room (length out.old) }
        ensures taken { IfOk result (λ r. TakesOn is_row (view_of view.now) filled r.0 r.1 out.old out.new) }
        ensures inside { IfOk result (λ r. r.0 ≤ room (length out.new)) }
        ensures stays { OnErr result (out.new ≡ out.old) }
        ensures full { IfErr result (λ places. HasNoRoom (view_of view.now) (room (length out.new)) filled places) };
}

/// Writes the row of the next record, takes its samples, and goes past it.
///
/// # Errors
///
/// Why there is no next record, or how many places its samples need: then `progress` stays.
#[inline(always)]
fn row_next<P: Places>(
    bytes: &[u8],
    rows: &mut [Row],
    out: &mut [i32],
    progress: &mut Progress,
) -> Result<(), Stop>
    requires inside { progress.old.offset ≤ length bytes.now }
    requires more { progress.old.rows < length rows.old }
    requires room { progress.old.filled ≤ P.room (length out.old) }
    ensures goes { GoesOn P.is_row P.room bytes.now rows.old rows.new out.old out.new progress.old progress.new }
    ensures count { OnOk result (progress.new.rows ≡ progress.old.rows + 1) }
    ensures stays { OnErr result (progress.new ≡ progress.old) }
    ensures stopped { IfErr result (λ stop.
        EndsWalk stop bytes.now (length rows.new) (P.room (length out.new)) progress.new) }
{
    let view = match view_at(&bytes[progress.offset..]) {
        Ok(view) => view,
        Err(stop) => return Err(stop),
    };
    let (filled, code) = match P::take(&view, out, progress.filled) {
        Ok(taken) => taken,
        Err(places) => return Err(Stop::Room(places)),
    };
    rows[progress.rows] = row_of(&view, progress.offset, progress.filled, code);
    progress.rows += 1;
    progress.offset += view.bytes().len();
    progress.filled = filled;
    Ok(())
}

/// Writes rows as long as there are records, and rows to write to. Returns why no more are written; `None` at the end
/// of the archive.
fn rows_on<P: Places>(
    bytes: &[u8],
    rows: &mut [Row],
    out: &mut [i32],
    progress: &mut Progress,
) -> Option<Stop>
    requires no_row { progress.old.rows ≡ 0 }
    requires inside { progress.old.offset ≤ length bytes.now }
    requires room { progress.old.filled ≤ P.room (length out.old) }
    ensures goes { GoesOn P.is_row P.room bytes.now rows.old rows.new out.old out.new progress.old progress.new }
    ensures at_end { IfNone result (progress.new.offset ≡ length bytes.now) }
    ensures before { IfSome result (λ _. progress.new.offset < length bytes.now) }
    ensures stopped { IfSome result (λ stop.
        EndsWalk stop bytes.now (length rows.new) (P.room (length out.new)) progress.new) }
{
    for index in 0..rows.len() {
        if progress.offset >= bytes.len() {
            return None;
        }
        if let Err(stop) = row_next::<P>(bytes, rows, out, progress) {
            return Some(stop);
        }
    }
    if progress.offset < bytes.len() {
        Some(Stop::Rows)
    } else {
        None
    }
}

/// Writes a row for each record of an archive from an offset (in bytes) on, and takes their samples. `progress` gets
/// how far the archive was read. Returns 0 at the end of the archive, else the code of why it stopped.
pub(crate) fn go_through<P: Places>(
    bytes: &[u8],
    offset: usize,
    rows: &mut [Row],
    out: &mut [i32],
    progress: &mut Progress,
) -> u32
    ensures walk { IsWalk (λ filled. P.is_row bytes.now filled out.new) bytes.now offset rows.old rows.new
        progress.new }
    ensures room { progress.new.filled ≤ P.room (length out.new) }
    ensures end { IsEnd bytes.now (length rows.new) (P.room (length out.new)) progress.new result }
{
    *progress = Progress {
        rows: 0,
        offset: offset.min(bytes.len()),
        filled: 0,
        needed: 0,
    };
    match rows_on::<P>(bytes, rows, out, progress) {
        Some(stop) => {
            progress.needed = needed_by(stop);
            code_of_stop(stop)
        }
        None => OK,
    }
}
