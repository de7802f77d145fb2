//! Samples that are known by their places.

/// The sample before a place of a series; at the first place, which has none before it, the first one.
#[derive(Clone, Copy)]
pub(crate) struct KnownSample {
    pub(crate) place: usize,
    pub(crate) sample: i32,
}

/// How many marks are kept.
const MARKS: usize = 32;

/// How far one is from the mark before it at least: marks in all of a window are fewer than are kept.
const APART: usize = 224;

/// Marks of a series by rising places. The oldest is written over.
#[derive(Drop)]
pub(crate) struct KnownSamples {
    pub(crate) marks: [KnownSample; MARKS],
    /// How many marks were put after the first, modulo 2^64; the last one stands at this number modulo `MARKS`.
    last: usize,
}

impl KnownSamples {
    ghost use Rattle.std.specs.Prelude.{◌≡◌, List, ℤ, pos, slice_index_or};
    ghost use Rattle.mseed_pack.specs.private.KnownSamples.{AreKnownSamples, IsKnownSample};

    /// The beginning of a series alone, by its first sample.
    pub(crate) fn of(first: i32) -> KnownSamples
        ensures { (samples : List ℤ) → first ≡ slice_index_or samples 0 (pos 0) → AreKnownSamples samples result }
    {
        KnownSamples {
            marks: [KnownSample {
                place: 0,
                sample: first,
            }; MARKS],
            last: 0,
        }
    }

    /// Keeps a mark, where it is far enough from the last one.
    pub(crate) fn put(&mut self, mark: KnownSample)
        ensures { (samples : List ℤ) → AreKnownSamples samples self.old → IsKnownSample samples mark
            → AreKnownSamples samples self.new }
    {
        if mark.place.abs_diff(self.at(self.last).place) < APART {
            return;
        }
        self.last = self.last.wrapping_add(1);
        self.marks[self.last % MARKS] = mark;
    }

    /// The mark at an index, counted round and round.
    pub(crate) fn at(&self, index: usize) -> KnownSample
        ensures { (samples : List ℤ) → AreKnownSamples samples self.now → IsKnownSample samples result }
    {
        self.marks[index % MARKS]
    }

    /// The index of the mark that is nearest to a place, looked for from an index on. Marks are found so where they are
    /// asked for one place after another; any other mark does as well, with more differences between.
    pub(crate) fn nearest(&self, index: usize, place: usize) -> usize {
        let mut near = index;
        for _ in 0..MARKS {
            let next = near.wrapping_add(1);
            if self.at(near).place.abs_diff(place) <= self.at(next).place.abs_diff(place) {
                return near;
            }
            near = next;
        }
        near
    }
}
