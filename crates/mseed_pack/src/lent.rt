//! Packing into a room that the caller lends.
ghost use Rattle.std.specs.Prelude.{◌≡◌, ◌≤◌, ◌<◌, ◌++◌, List, ℤ, length, take, drop};
ghost use Rattle.mseed_audit.specs.Series.{AreSteps};
ghost use Rattle.mseed_pack.specs.declared.record.TheConstants.{LONGEST};
ghost use Rattle.mseed_pack.specs.Fitting.{Fits};
ghost use Rattle.mseed_pack.specs.Outcome.{FillsRoom};
ghost use Rattle.mseed_pack.specs.private.Filling.{StandsInList};
ghost use Rattle.mseed_pack.specs.private.Spans.{CanGoOn, IsFilledTo, StandsAt};
ghost use Rattle.mseed_pack.specs.Traces.{trace_of};

use crate::batch::{Batch, Job, PackedSoFar, first_place, gather};
use crate::options::Options;
use crate::payloads::Payloads;
use crate::record::LONGEST;
use crate::series_view::SeriesView;

/// [`Packer::pack_fitting`](crate::Packer::pack_fitting) into a room, which takes as many bytes of the records as it
/// has, and returns how many records there are. What lies after them stays as it was. The numbers of samples before
/// its leap seconds rise strictly, from 1 to at most the number of samples.
pub fn pack_into(series: &SeriesView, options: &Options, room: &mut [u8]) -> u64
    requires fits { Fits (trace_of series.now) options.now }
    requires steps { AreSteps (length series.now.samples.now) series.now.steps.now }
    ensures { FillsRoom (trace_of series.now) options.now result room.old room.new }
{
    let mut records = [0; LONGEST];
    let mut payloads = Payloads::new();
    let mut list = series.samples;
    let head = series.head();
    let job = Job {
        head: &head,
        options,
    };
    let mut place = first_place(&head);
    let mut filled = 0;
    while place.first < head.count {
        let left = &mut room[filled..];
        let batch = fill_on(&job, place, &mut payloads, &mut list, &mut records, left);
        filled += batch.bytes.min(room.len() - filled);
        place = batch.next;
    }
    place.number
}

/// Packs from a place on into what is left of the room; or through these bytes, where a record could be longer.
fn fill_on(
    job: &Job,
    place: PackedSoFar,
    payloads: &mut Payloads,
    list: &mut &[i32],
    records: &mut [u8],
    room: &mut [u8],
) -> Batch
    requires on { (samples : List ℤ) × CanGoOn StandsInList job.now payloads.old list.old place samples }
    requires long { LONGEST ≤ length records.old }
    ensures to { (samples : List ℤ) → CanGoOn StandsInList job.now payloads.old list.old place samples
        → IsFilledTo job.now payloads.new list.new place result room.old room.new samples }
    ensures standing { StandsAt job.now.head.now.steps.now job.now.head.now.count result.next }
    ensures some { place.first < result.next.first }
{
    if LONGEST <= room.len() {
        return gather(job, place, payloads, list, room);
    }
    let batch = gather(job, place, payloads, list, records);
    overwrite(&records[..batch.bytes], room);
    batch
}

/// Writes bytes over the beginning of a room, as many of them as there is room for. What lies after them stays.
pub fn overwrite(bytes: &[u8], room: &mut [u8])
    ensures { room.new ≡ take (length room.old) bytes.now ++ drop (length bytes.now) room.old }
{
    let shown = bytes.len().min(room.len());
    room[..shown].copy_from_slice(&bytes[..shown]);
}
