//! The records of a slice.
ghost use Rattle.std.specs.Prelude.{◌≡◌, ◌<◌, ◌^◌, List, ℕ, [], length, IfOk, IfErr};
ghost use Rattle.std.specs.List.{AllByRecursion};
ghost use Rattle.mseed_record.specs.View.{IsView};
ghost use Rattle.mseed_record.specs.Viewing.{view_of};
ghost use Rattle.mseed_stream.specs.Archive.{IsArchive, HasOneArchive, HasOneEnd};
ghost use Rattle.mseed_stream.specs.Split.{bytes_of_each, fault_at, IsSplitFault};

use crate::device::READS;
use crate::fault::StreamFault;
use mseed_record::{RecordView, ViewFault};
use std::alloc::{Allocator, Global};

/// The most records into which a slice is split: fewer than reads of one input.
const MOST: usize = READS as usize - 1;

/// Returns all records of the bytes, in their order, where nothing is left after them.
///
/// # Errors
///
/// As those of a [`Cutter`](crate::Cutter) over the bytes: `Frame` and `Truncated` with the offset after the records,
/// `Turns` at a 2^40th record, `Memory` where memory for a record's view was refused.
pub fn split(alloc: Global, bytes: &[u8]) -> Result<Vec<RecordView<'_>>, StreamFault>
    ensures archive { IfOk result (λ views. IsArchive bytes.now (bytes_of_each views.items) []) }
    ensures views { IfOk result (λ views. AllByRecursion (λ r. IsView (view_of r)) views.items) }
    ensures few { IfOk result (λ views. length views.items < 2 ^ 40) }
    ensures fault { IfErr result (λ fault. IsSplitFault fault bytes.now) }

    // So an archive's records, its rest and its end are the only ones.
    ensures one_archive { HasOneArchive bytes.now }
    ensures one_end { (rest : List ℕ) → HasOneEnd rest }
{
    split_in(alloc, bytes)
}

/// Returns all records of the bytes, as [`split`] does, with memory of any allocator, as one that refuses.
///
/// # Errors
///
/// Those of [`split`].
pub fn split_in<A: Allocator>(alloc: A, bytes: &[u8]) -> Result<Vec<RecordView<'_>, A>, StreamFault>
    ensures archive { IfOk result (λ views. IsArchive bytes.now (bytes_of_each views.items) []) }
    ensures views { IfOk result (λ views. AllByRecursion (λ r. IsView (view_of r)) views.items) }
    ensures few { IfOk result (λ views. length views.items < 2 ^ 40) }
    ensures fault { IfErr result (λ fault. IsSplitFault fault bytes.now) }
{
    let mut records = Vec::new(alloc);
    let mut offset = 0;
    while offset < bytes.len() {
        let record = match RecordView::of(&bytes[offset..]) {
            Ok(record) => record,
            Err(fault) => return Err(fault_at(bytes, offset, fault)),
        };
        if records.len() == MOST {
            return Err(StreamFault::Turns(offset as u64));
        }
        if records.push(record).is_err() {
            return Err(StreamFault::Memory);
        }
        offset += record.bytes().len();
    }
    Ok(records)
}

/// Returns the fault of bytes that begin no record at an offset (in bytes).
fn fault_at(bytes: &[u8], offset: usize, fault: ViewFault) -> StreamFault
    requires { offset < length bytes.now }
    ensures { result ≡ fault_at (length bytes.now) offset fault }
{
    match fault {
        ViewFault::Not(fault) => StreamFault::Frame(offset as u64, fault),
        ViewFault::Short(_) => StreamFault::Truncated(offset as u64, bytes.len() - offset),
    }
}
