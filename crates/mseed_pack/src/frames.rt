//! Samples as Steim frames.
ghost use Rattle.std.specs.Prelude.{◌≡◌, ℕ, ℤ, List, ◌+◌, ◌-◌, ◌/◌, ◌<◌, ◌≤◌, length};
ghost use Rattle.std.specs.Prelude.{drop, min, slice_range, ◌++◌, All, Ok};
ghost use Rattle.mseed_steim.specs.Spelling.{IsWithin};
ghost use Rattle.mseed_steim_pack.specs.Lookahead.{IsLookahead};
ghost use Rattle.mseed_steim_pack.specs.Packed.{IsRunPacked};
ghost use Rattle.mseed_pack.specs.declared.window.TheConstants.{MOST_DIFFERENCES};
ghost use Rattle.mseed_pack.specs.private.Filling.{AreAhead, AreBegun, AreFrames, AreRemaining, AreRunEnds, AreSet};
ghost use Rattle.mseed_pack.specs.private.Filling.{AreTaken, GoesOn, Holds, HoldsDifferences, HoldsInFrames};
ghost use Rattle.mseed_pack.specs.private.Filling.{Fills, width_of};
ghost use Rattle.mseed_pack.specs.declared.payload.Remaining.{Remaining};
ghost use Rattle.mseed_pack.specs.private.KnownSamples.{sample_before};

use crate::known_samples::KnownSample;
use crate::options::Encoding;
use crate::payload::{Filled, Filler, Remaining};
use crate::supply::Supply;
use crate::window::Window;
use mseed_steim::{Ends, Scheme};
use mseed_steim_pack::{Lookahead, Packed, pack_words_ahead, write_word};

/// Bytes of a word.
const WORD: usize = 4;

/// The most differences that a word holds.
const MOST: usize = 7;

/// What frames are filled from: the differences that were taken, and the sample before the next one. Before all others
/// that is the first one itself, whose difference is 0.
#[derive(Drop)]
pub(crate) struct Frames {
    pub(crate) window: Window,
    pub(crate) before: i32,
    /// What is known ahead of the next difference.
    pub(crate) known: Lookahead,
    /// The index of the window's mark that was nearest to the last sample that was packed.
    near: usize,
}

impl Frames {
    /// Before any samples.
    pub(crate) fn new() -> Frames {
        Frames {
            window: Window::new(),
            before: 0,
            known: Lookahead::new(),
            near: 0,
        }
    }

    /// Begins with the first sample of a series, whatever was filled in before.
    pub(crate) fn begin(&mut self, first: i32)
        ensures { AreBegun self.new first }
    {
        self.window.begin(first);
        self.before = first;
        self.known = Lookahead::new();
        self.near = 0;
    }

    /// The first and the last of `count` samples from a place on, by their differences, which the window holds.
    fn add_ends(&mut self, place: usize, count: usize) -> Ends
        requires some { 0 < count }
        requires low { self.old.window.first ≤ place }
        requires high { place + count ≤ self.old.window.end }
        requires held { (samples : List ℤ) × HoldsDifferences samples self.old.window }
        ensures ends { (samples : List ℤ) → HoldsDifferences samples self.old.window → All (IsWithin 32) samples
            → self.old.before ≡ sample_before samples place → AreRunEnds result samples place count }
        ensures window { self.new.window ≡ self.old.window }
        ensures known { self.new.known ≡ self.old.known }
    {
        let before = KnownSample {
            place,
            sample: self.before,
        };
        let (near, index) = self.window.nearest(before, self.near, place + count);
        self.near = index;
        Ends {
            first: self.window.sample_before(place + 1, before),
            last: self.window.sample_before(place + count, near),
        }
    }
}

impl<S: Supply> Filler<S> for Frames {
    ghost use Rattle.mseed_pack.specs.private.Filling.{GoesOnIn};

    ghost stands = { λ s supply encoding samples place. GoesOnIn S.supplies s supply encoding samples place };

    ghost beside = { S.beside };

    fn fill(
        &mut self,
        encoding: Encoding,
        left: Remaining,
        supply: &mut S,
        payload: &mut [u8],
    ) -> Filled {
        match encoding {
            Encoding::Steim1 => fill_frames(Scheme::One, left, self, supply, payload),
            Encoding::Steim2 => fill_frames(Scheme::Two, left, self, supply, payload),
            Encoding::Int16 | Encoding::Int32 => unreachable!(),
        }
    }
}

/// Packs the samples from one on, as many as there is room for, into Steim frames. Their differences are taken through
/// the window.
fn fill_frames<S: Supply>(
    scheme: Scheme,
    left: Remaining,
    frames: &mut Frames,
    supply: &mut S,
    payload: &mut [u8],
) -> Filled
    requires frames { AreFrames payload.old }
    requires left { (samples : List ℤ) × (GoesOn S.supplies frames.old supply.old scheme samples left.first
        × AreRemaining samples left) }
    ensures filled { (samples : List ℤ) → GoesOn S.supplies frames.old supply.old scheme samples left.first
        → AreRemaining samples left → HoldsInFrames scheme samples left result payload.new
        × GoesOn S.supplies frames.new supply.new scheme samples (left.first + result.samples) }
    ensures taken { AreTaken left result.samples }
    ensures beside { S.beside supply.new ≡ S.beside supply.old }
{
    let count = (left.end - left.first).min(MOST * (payload.len() / WORD));
    frames.window.hold(supply, left.first, count);
    pack_held(scheme, left, frames, payload)
}

/// Packs what the window holds into a payload: of all samples that are left the differences, or of as many as there is
/// room for.
fn pack_held(scheme: Scheme, left: Remaining, frames: &mut Frames, payload: &mut [u8]) -> Filled
    requires frames { AreFrames payload.old }
    requires held { (samples : List ℤ) × Holds frames.old scheme samples left (length payload.old) }
    ensures filled { (samples : List ℤ) → Holds frames.old scheme samples left (length payload.old)
        → HoldsInFrames scheme samples left result payload.new
        × (frames.new.before ≡ sample_before samples (left.first + result.samples))
        × AreAhead frames.new.known scheme samples (left.first + result.samples) }
    ensures taken { AreTaken left result.samples }
    ensures few { left.first + result.samples ≤ frames.old.window.end }
    ensures window { frames.new.window ≡ frames.old.window }
{
    let packed = pack_window(scheme, left, frames, payload);
    let ends = frames.add_ends(left.first, packed.used);
    let filled = end_payload(packed, ends, payload);
    frames.before = ends.last;
    filled
}

/// Packs the differences that the window holds of those that are left, as many as there is room for.
fn pack_window(scheme: Scheme, left: Remaining, frames: &mut Frames, payload: &mut [u8]) -> Packed
    requires frames { AreFrames payload.old }
    requires held { (samples : List ℤ) × Holds frames.old scheme samples left (length payload.old) }
    ensures filled { (samples : List ℤ) → Holds frames.old scheme samples left (length payload.old)
        → Fills scheme samples left (min left.end frames.old.window.end) result payload.new
        × AreAhead frames.new.known scheme samples (left.first + result.used) }
    ensures window { frames.new.window ≡ frames.old.window }
    ensures before { frames.new.before ≡ frames.old.before }
{
    let window = &mut frames.window;
    let end = left.end.min(window.end);
    let known = &mut frames.known;
    pack_part(scheme, left.first, end, window, known, payload)
}

/// Packs the differences that the window holds from a place to another, as many as there is room for.
fn pack_part(
    scheme: Scheme,
    first: usize,
    end: usize,
    window: &mut Window,
    known: &mut Lookahead,
    payload: &mut [u8],
) -> Packed
    requires frames { AreFrames payload.old }
    requires low { window.old.first ≤ first }
    requires order { first ≤ end }
    requires high { end ≤ window.old.end }
    requires room { window.old.end ≤ window.old.first + MOST_DIFFERENCES }
    requires fit { All (IsWithin (width_of scheme))
        (slice_range window.old.differences (first - window.old.first) (end - window.old.first)) }
    requires known { (more : List ℤ) × IsLookahead scheme known.old
        (slice_range window.old.differences (first - window.old.first) (end - window.old.first) ++ more) }
    ensures packed { IsRunPacked scheme
        (slice_range window.old.differences (first - window.old.first) (end - window.old.first)) payload.new
        (Ok result) }
    ensures known { IsLookahead scheme known.new (drop result.used
        (slice_range window.old.differences (first - window.old.first) (end - window.old.first))) }
    ensures window { window.new ≡ window.old }
{
    let diffs = &window.differences[first - window.first..end - window.first];
    match pack_words_ahead(scheme, diffs, known, payload) {
        Ok(packed) => packed,
        // Each difference fits the scheme.
        Err(_) => unreachable!(),
    }
}

/// Writes the first and the last of the samples whose differences were packed into a payload.
pub(crate) fn end_payload(packed: Packed, ends: Ends, payload: &mut [u8]) -> Filled
    requires { (scheme : Scheme) × ((samples : List ℤ) × ((left : Remaining) × ((until : ℕ)
        × Fills scheme samples left until packed payload.old))) }
    ensures samples { result.samples ≡ packed.used }
    ensures filled { (scheme : Scheme) (samples : List ℤ) (left : Remaining) (until : ℕ)
        → Fills scheme samples left until packed payload.old → AreRunEnds ends samples left.first packed.used
        → HoldsInFrames scheme samples left result payload.new }
{
    put_constants(payload, ends.first, ends.last);
    Filled {
        samples: packed.used,
        frames: frames_of(packed.words),
    }
}

/// How many frames hold `words` data words: 15 each, the first one two fewer.
fn frames_of(words: usize) -> u8
    requires { words ≤ 1008 }
    ensures { result ≡ (words + 16) / 15 }
{
    ((words + 16) / 15) as u8
}

/// Writes the first and the last sample into the words 1 and 2 of some frames.
fn put_constants(frames: &mut [u8], first: i32, last: i32)
    requires { 64 ≤ length frames.old }
    ensures { AreSet frames.old frames.new first last }
{
    write_word(frames, 1, first.cast_unsigned());
    write_word(frames, 2, last.cast_unsigned());
}
