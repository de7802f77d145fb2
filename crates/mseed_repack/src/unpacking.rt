//! The differences of records of Steim frames, unpacked record by record.
ghost use Rattle.std.specs.Prelude.{◌≡◌, ◌↔◌, ◌-◌, ◌≤◌, ℤ, List, ◌-ℤ◌, IsTrue, drop, length, min, pos};
ghost use Rattle.std.specs.Prelude.{slice_index_or, take};
ghost use Rattle.std.specs.List.{AllByRecursion};
ghost use Rattle.mseed_record.specs.Viewing.{view_of};
ghost use Rattle.mseed_steim.specs.Reading.{IsSteim, IsWhole, count_of};
ghost use Rattle.mseed_steim.specs.Samples.{differences_from};
ghost use Rattle.mseed_steim.specs.Spelling.{IsWithin};
ghost use Rattle.mseed_audit.specs.Follows.{IsSound};
ghost use Rattle.mseed_audit.specs.Series.{AreJoined};
ghost use Rattle.mseed_repack.specs.private.Outline.{last_after};
ghost use Rattle.mseed_repack.specs.private.Reading.{IsSoundWalk};
ghost use Rattle.mseed_repack.specs.private.Supplying.{IsSupplied, IsUnpackable};

use crate::walk::Walk;
use mseed_pack::{MOST_DIFFERENCES, Supply};
use mseed_record::RecordView;
use mseed_steim::{ends_of, is_steim, unpack_differences};
use std::marker::PhantomData;

/// The bytes of a line of the cache.
const LINE: usize = 64;

/// How many lines of a record are touched before it is unpacked: all of one of 512 bytes. Of longer records the
/// processor fetches the others by itself.
const TOUCHED: usize = 8;

/// The differences of the samples of some records, each of Steim frames, of which no list is made. Each record is
/// unpacked where its differences are wanted, or, where there isn't place for all of them, in a room that is lent, from
/// which they are handed on.
#[derive(Drop)]
pub(crate) struct Unpacking<'r, 'a, R> {
    /// The records that weren't unpacked yet.
    pub(crate) rest: R,
    /// The last sample of those that were; or, where there is none, the first of those that come.
    pub(crate) last: i32,
    /// Room for the differences of any of the records.
    pub(crate) room: &'r mut [i32],
    /// Where the differences in the room begin that weren't handed on yet.
    pub(crate) at: usize,
    /// Where they end.
    pub(crate) end: usize,
    /// What was read of the next record.
    touched: u8,
    /// The records lie there.
    pub(crate) records: PhantomData<RecordView<'a>>,
}

impl<'r, 'a, R: Walk<'a>> Supply for Unpacking<'r, 'a, R> {
    ghost supplies = { λ s samples given.
        R.leads s.rest × IsSupplied (R.left s.rest) s.last s.room.now s.at s.end samples given };

    fn fill(&mut self, out: &mut [i32]) -> usize {
        let (at, end, last) = (self.at, self.end, self.last);
        if at < end {
            let count = self.hand_on(out);
            self.at = at + count;
            return count;
        }
        let Some(view) = self.rest.next() else {
            return 0;
        };
        self.touched = touch_next(self.rest);
        let count = usize::from(view.samples());
        if count <= out.len() {
            self.last = unpack(&view, last, &mut out[..count]);
            return count;
        }
        self.last = unpack_into(&view, last, count, self.room);
        self.at = 0;
        self.end = count;
        let begun = self.hand_on(out);
        self.at = begun;
        begun
    }

    fn last(&self) -> Option<i32> {
        if self.at < self.end {
            return None;
        }
        Some(self.last)
    }
}

impl<'r, 'a, R> Unpacking<'r, 'a, R> {
    /// The differences of some records, of which none was unpacked, with their first sample, and a room.
    pub(crate) fn of(rest: R, first: i32, room: &'r mut [i32]) -> Unpacking<'r, 'a, R>
        ensures rest { result.rest ≡ rest }
        ensures last { result.last ≡ first }
        ensures room { result.room.now ≡ room.entry.now }
        ensures at { result.at ≡ 0 }
        ensures end { result.end ≡ 0 }
    {
        Unpacking {
            rest,
            last: first,
            room,
            at: 0,
            end: 0,
            touched: 0,
            records: PhantomData,
        }
    }

    /// Hands on the differences in the room, as many as there are places for.
    fn hand_on(&self, out: &mut [i32]) -> usize
        requires order { self.now.at ≤ self.now.end }
        requires inside { self.now.end ≤ length self.now.room.now }
        ensures count { result ≡ min (length out.old) (self.now.end - self.now.at) }
        ensures items { take result out.new ≡ take result (drop self.now.at self.now.room.now) }
    {
        let count = out.len().min(self.end - self.at);
        out[..count].copy_from_slice(&self.room[self.at..self.at + count]);
        count
    }
}

/// Reads from each line of the next record, where there is one, so that these are fetched while another is unpacked:
/// records of one channel may stand far from one another. What it returns says nothing.
fn touch_next<'a, R: Walk<'a>>(records: R) -> u8
    requires { R.leads records }
{
    let mut rest = records;
    match rest.next() {
        Some(view) => touch(view.bytes()),
        None => 0,
    }
}

/// Reads from each of the first lines of some bytes. What it returns says nothing.
fn touch(bytes: &[u8]) -> u8 {
    let mut touched = 0;
    for line in 0..(bytes.len() / LINE).min(TOUCHED) {
        touched ^= bytes[LINE * line];
    }
    touched
}

/// Whether a record is of Steim frames, and has no more differences than there is room for.
pub(crate) fn is_unpackable(view: &RecordView) -> bool
    ensures { IsTrue result ↔ IsUnpackable (view_of view.now) }
{
    if usize::from(view.samples()) > MOST_DIFFERENCES {
        return false;
    }
    is_steim(view)
}

/// The first sample of some records.
pub(crate) fn first_sample<'a, R: Walk<'a>>(records: R) -> i32
    requires { IsSoundWalk R.leads R.left records }
    ensures { (xs : List ℤ) → AreJoined (R.left records) xs → slice_index_or xs 0 (pos 0) ≡ result }
{
    let mut rest = records;
    match rest.next() {
        Some(first) => ends_of(&first).first,
        None => unreachable!(),
    }
}

/// Unpacks the differences of a sound record's samples, the first one's from the sample before it, and returns the
/// last sample.
fn unpack(view: &RecordView<'_>, before: i32, out: &mut [i32]) -> i32
    requires sound { IsSound (view_of view.now) }
    requires steim { IsSteim (view_of view.now) }
    requires places { length out.old ≡ count_of (view_of view.now) }
    requires near { (s : List ℤ) → IsWhole (view_of view.now) s
        → AllByRecursion (IsWithin 30) (differences_from before s) }
    ensures differences { (s : List ℤ) → IsWhole (view_of view.now) s → out.new ≡ differences_from before s }
    ensures last { (s : List ℤ) → IsWhole (view_of view.now) s → last_after before s ≡ result }
{
    let last = unpack_differences(view, out).last;
    out[0] = difference_of(out[0], before);
    last
}

/// [`unpack`] to the beginning of a room, by how many samples the record has.
fn unpack_into(view: &RecordView<'_>, before: i32, count: usize, room: &mut [i32]) -> i32
    requires sound { IsSound (view_of view.now) }
    requires steim { IsSteim (view_of view.now) }
    requires count { count ≡ count_of (view_of view.now) }
    requires places { count ≤ length room.old }
    requires near { (s : List ℤ) → IsWhole (view_of view.now) s
        → AllByRecursion (IsWithin 30) (differences_from before s) }
    ensures differences { (s : List ℤ) → IsWhole (view_of view.now) s
        → take count room.new ≡ differences_from before s }
    ensures last { (s : List ℤ) → IsWhole (view_of view.now) s → last_after before s ≡ result }
{
    unpack(view, before, &mut room[..count])
}

/// How much a sample differs from the one before it.
fn difference_of(sample: i32, before: i32) -> i32
    requires { IsWithin 30 (sample -ℤ before) }
    ensures { result ≡ sample -ℤ before }
{
    sample - before
}
