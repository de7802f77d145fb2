//! Telling a source of the records that were read of it.
ghost use Rattle.std.specs.Prelude.{◌≡◌, ◌<◌, ◌^◌, [], length, IfOk, IfErr};
ghost use Rattle.std.specs.List.{AllByRecursion};
ghost use Rattle.mseed_record.specs.View.{IsView};
ghost use Rattle.mseed_record.specs.Viewing.{view_of};
ghost use Rattle.mseed_stream.specs.Archive.{IsArchive};
ghost use Rattle.mseed_stream.specs.Split.{bytes_of_each, IsSplitFault};

use crate::device::Source;
use crate::fault::StreamFault;
use crate::slices::split_in;
use mseed_record::RecordView;
use std::alloc::Allocator;

/// Returns all records of the bytes, as [`split_in`] does. They are all that was read of a source.
///
/// # Errors
///
/// Those of [`split`](crate::split). The source is told of the records before the fault ([`Source::note_record`]). No
/// clause says that it is told of each of them; what was read of it, and what it has left, stay.
pub fn split_read<'a, A: Allocator, R: Source>(
    alloc: A,
    bytes: &'a [u8],
    source: &mut R,
) -> Result<Vec<RecordView<'a>, A>, StreamFault>
    requires { (R.read source.old).bytes ≡ bytes.now }
    ensures archive { IfOk result (λ views. IsArchive bytes.now (bytes_of_each views.items) []) }
    ensures views { IfOk result (λ views. AllByRecursion (λ r. IsView (view_of r)) views.items) }
    ensures few { IfOk result (λ views. length views.items < 2 ^ 40) }
    ensures fault { IfErr result (λ fault. IsSplitFault fault bytes.now) }
    ensures read { R.read source.new ≡ R.read source.old }
    ensures remaining { R.remaining source.new ≡ R.remaining source.old }
    ensures beside { R.beside source.new ≡ R.beside source.old }
{
    match split_in(alloc, bytes) {
        Ok(views) => Ok(views),
        Err(fault) => {
            note_records(source, bytes);
            Err(fault)
        }
    }
}

/// Tells a source of the records with which the bytes begin that were read of it, one after another, up to where no
/// further one begins, as a [`Cutter`](crate::Cutter) does of those that it cuts.
fn note_records<R: Source>(source: &mut R, bytes: &[u8])
    requires { (R.read source.old).bytes ≡ bytes.now }
    ensures read { R.read source.new ≡ R.read source.old }
    ensures remaining { R.remaining source.new ≡ R.remaining source.old }
    ensures beside { R.beside source.new ≡ R.beside source.old }
{
    let mut offset = 0;
    while offset < bytes.len() {
        match RecordView::of(&bytes[offset..]) {
            Ok(record) => {
                let size = record.bytes().len();
                source.note_record(offset as u64, size);
                offset += size;
            }
            Err(_) => return,
        }
    }
}
