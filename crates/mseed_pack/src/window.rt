//! A window over the differences of a series.

use crate::known_samples::{KnownSample, KnownSamples};
use crate::supply::Supply;

/// The most differences of a record in Steim frames: those of 1008 words, of which none holds more than seven.
pub const MOST_DIFFERENCES: usize = 7 * 1008;

/// The differences of samples that stand one after another, as many as are looked at for a record. What one record
/// doesn't take is kept for the next.
#[derive(Drop)]
pub(crate) struct Window {
    pub(crate) differences: [i32; MOST_DIFFERENCES],
    /// The sample whose difference is the first.
    pub(crate) first: usize,
    /// The sample after the one whose difference is the last.
    pub(crate) end: usize,
    /// Samples that are known without adding up differences.
    pub(crate) marks: KnownSamples,
}

impl Window {
    ghost use Rattle.std.specs.Prelude.{◌≡◌, ℤ, ◌+◌, ◌-ℤ◌, ◌^◌, ◌<◌, ◌≤◌, List, length, min, pos, slice_index_or, All};
    ghost use Rattle.std.specs.Int.{int_wrap, w32};
    ghost use Rattle.mseed_steim.specs.Spelling.{IsWithin};
    ghost use Rattle.mseed_pack.specs.declared.window.TheConstants.{MOST_DIFFERENCES};
    ghost use Rattle.mseed_pack.specs.private.Filling.{Draws, HoldsDifferences};
    ghost use Rattle.mseed_pack.specs.private.KnownSamples.{IsKnownSample, sample_before};

    /// A window that holds nothing.
    pub(crate) fn new() -> Window {
        Window {
            differences: [0; MOST_DIFFERENCES],
            first: 0,
            end: 0,
            marks: KnownSamples::of(0),
        }
    }

    /// Lets go of all, so that it holds none yet of a series that begins with a sample.
    pub(crate) fn begin(&mut self, first: i32)
        ensures held { (samples : List ℤ) → first ≡ slice_index_or samples 0 (pos 0)
            → HoldsDifferences samples self.new }
        ensures first { self.new.first ≡ 0 }
        ensures end { self.new.end ≡ 0 }
    {
        self.first = 0;
        self.end = 0;
        self.marks = KnownSamples::of(first);
    }

    /// Makes it hold the differences of `count` samples, from the one at `first` on. It takes what it lacks from the
    /// supply, from which its own differences came.
    pub(crate) fn hold<S: Supply>(&mut self, supply: &mut S, first: usize, count: usize)
        requires drawn { (samples : List ℤ) × (Draws S.supplies samples supply.old self.old first
            × (first + count ≤ length samples) × (length samples < 2 ^ 64)) }
        requires few { count ≤ MOST_DIFFERENCES }
        ensures drawn { (samples : List ℤ) → Draws S.supplies samples supply.old self.old first
            → first + count ≤ length samples
            → Draws S.supplies samples supply.new self.new first × (first + count ≤ self.new.end) }
        ensures beside { S.beside supply.new ≡ S.beside supply.old }
    {
        if first + count <= self.end {
            return;
        }
        self.begin_at(first);
        self.fill_up(supply);
    }

    /// Lets go of the differences before that of a sample.
    fn begin_at(&mut self, first: usize)
        requires few { self.old.end ≤ self.old.first + MOST_DIFFERENCES }
        requires low { self.old.first ≤ first }
        requires high { first ≤ self.old.end }
        ensures held { (samples : List ℤ) → HoldsDifferences samples self.old → HoldsDifferences samples self.new }
        ensures first { self.new.first ≡ first }
        ensures end { self.new.end ≡ self.old.end }
    {
        let kept = first - self.first..self.end - self.first;
        self.differences.copy_within(kept, 0);
        self.first = first;
    }

    /// Takes differences until it has no room for more, or none is left.
    fn fill_up<S: Supply>(&mut self, supply: &mut S)
        requires { (samples : List ℤ) × (HoldsDifferences samples self.old
            × S.supplies supply.old samples self.old.end × (length samples < 2 ^ 64)) }
        ensures first { self.new.first ≡ self.old.first }
        ensures held { (samples : List ℤ) → HoldsDifferences samples self.old
            → S.supplies supply.old samples self.old.end
            → HoldsDifferences samples self.new × S.supplies supply.new samples self.new.end
            × (self.old.end ≤ self.new.end)
            × (min (length samples) (self.old.first + MOST_DIFFERENCES) ≤ self.new.end) }
        ensures beside { S.beside supply.new ≡ S.beside supply.old }
    {
        while self.end - self.first < MOST_DIFFERENCES {
            if self.take(supply) == 0 {
                return;
            }
            self.mark_end(supply);
        }
    }

    /// Takes differences once, where there is room for any, and returns how many.
    fn take<S: Supply>(&mut self, supply: &mut S) -> usize
        requires supplied { (samples : List ℤ) × (HoldsDifferences samples self.old
            × S.supplies supply.old samples self.old.end × (length samples < 2 ^ 64)) }
        requires room { self.old.end < self.old.first + MOST_DIFFERENCES }
        ensures first { self.new.first ≡ self.old.first }
        ensures end { self.new.end ≡ self.old.end + result }
        ensures held { (samples : List ℤ) → HoldsDifferences samples self.old
            → S.supplies supply.old samples self.old.end → HoldsDifferences samples self.new }
        ensures supplied { (samples : List ℤ) → S.supplies supply.old samples self.old.end
            → S.supplies supply.new samples self.new.end × (self.old.end < length samples → 0 < result) }
        ensures beside { S.beside supply.new ≡ S.beside supply.old }
    {
        let held = self.end - self.first;
        let count = supply.fill(&mut self.differences[held..]);
        self.end += count;
        count
    }

    /// Marks the last sample whose difference was taken, where the supply has it at hand.
    fn mark_end<S: Supply>(&mut self, supply: &S)
        requires some { 0 < self.old.end }
        ensures held { (samples : List ℤ) → HoldsDifferences samples self.old
            → S.supplies supply.now samples self.old.end → HoldsDifferences samples self.new }
        ensures first { self.new.first ≡ self.old.first }
        ensures end { self.new.end ≡ self.old.end }
    {
        if let Some(sample) = supply.last() {
            let place = self.end;
            self.marks.put(KnownSample { place, sample });
        }
    }

    /// The nearer to a place of a mark that stands before it and of the marks that are kept, looked for from an index
    /// on; and the index of that.
    pub(crate) fn nearest(
        &self,
        mark: KnownSample,
        index: usize,
        place: usize,
    ) -> (KnownSample, usize)
        requires low { self.now.first ≤ mark.place }
        requires order { mark.place ≤ place }
        requires high { place ≤ self.now.end }
        ensures mark { (samples : List ℤ) → HoldsDifferences samples self.now → IsKnownSample samples mark
            → IsKnownSample samples result.0 }
        ensures low { self.now.first ≤ result.0.place }
        ensures high { result.0.place ≤ self.now.end }
    {
        let index = self.marks.nearest(index, place);
        let kept = self.marks.at(index);
        if kept.place <= self.end && kept.place.abs_diff(place) < place - mark.place {
            (kept, index)
        } else {
            (mark, index)
        }
    }

    /// The sample before a place, by a mark.
    pub(crate) fn sample_before(&self, place: usize, mark: KnownSample) -> i32
        requires low { self.now.first ≤ place }
        requires high { place ≤ self.now.end }
        requires mark_low { self.now.first ≤ mark.place }
        requires mark_high { mark.place ≤ self.now.end }
        requires some { 0 < place }
        requires held { (samples : List ℤ) × HoldsDifferences samples self.now }
        ensures { (samples : List ℤ) → HoldsDifferences samples self.now → All (IsWithin 32) samples
            → IsKnownSample samples mark → result ≡ sample_before samples place }
    {
        if mark.place <= place {
            mark.sample.wrapping_add(self.moved(mark.place, place))
        } else {
            mark.sample.wrapping_sub(self.moved(place, mark.place))
        }
    }

    /// How much the sample before a place differs from that before an earlier one, as far as 32 bits hold it.
    fn moved(&self, first: usize, end: usize) -> i32
        requires low { self.now.first ≤ first }
        requires order { first ≤ end }
        requires high { end ≤ self.now.end }
        requires held { (samples : List ℤ) × HoldsDifferences samples self.now }
        ensures { (samples : List ℤ) → HoldsDifferences samples self.now
            → result ≡ int_wrap w32 (sample_before samples end -ℤ sample_before samples first) }
    {
        let mut moved = 0i32;
        for difference in &self.differences[first - self.first..end - self.first] {
            moved = moved.wrapping_add(*difference);
        }
        moved
    }
}
