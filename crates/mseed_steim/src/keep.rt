//! What a walk over a record's frames keeps of its samples, and how it takes frames at once: in lanes where nothing is
//! kept of them, and else unpacked.

ghost use Rattle.std.specs.Prelude.{◌≡◌, ◌+◌, ◌-◌, ◌*◌, ◌/◌, ◌^◌, ◌≤◌, ◌<◌, ◌∷◌, [], ◌+ℤ◌, ℕ, List, ℤ, nat_abs};
ghost use Rattle.std.specs.Prelude.{IfNone, IfSome, Ok, None, true, Option, Result, Some, length, take};
ghost use Rattle.mseed_steim.specs.declared.differences.BadWordAt.{BadWordAt};
ghost use Rattle.mseed_steim.specs.Frames.{DataWord};
ghost use Rattle.mseed_steim.specs.private.Items.{items_of};
ghost use Rattle.mseed_steim.specs.private.Lanes.{span, total};
ghost use Rattle.mseed_steim.specs.private.Reads.{as_data};
ghost use Rattle.mseed_steim.specs.private.Sums.{AddsRun, CanTake, IsCounted, Puts, Takes, WalksOver, kept_along};
ghost use Rattle.mseed_steim.specs.private.Sums.{kept_at, places_for, the_difference, the_sample, with_first};

use crate::adding::put_sums;
use crate::data_words::{Word, first_word};
use crate::frame::{REACH, RUN, begin_in, moves_of};
use crate::group::group_of;
use crate::scheme::Scheme;
use crate::sum::{Sum, add_all, add_near};
use crate::unpack::{PLACES, Room, Widest, unpack_frame};
use crate::word::read_digit;

/// What is asked of a walk over a payload.
#[derive(Clone, Copy)]
pub(crate) struct Task {
    /// The scheme of its words.
    pub(crate) scheme: Scheme,
    /// How many samples are needed.
    pub(crate) samples: usize,
}

/// Frames that were taken at once.
#[derive(Clone, Copy)]
pub(crate) struct Taken {
    /// How many these are.
    pub(crate) frames: usize,
    /// The sum after them.
    pub(crate) sum: Sum,
}

/// What a walk keeps of the samples that it meets, one place for each.
pub(crate) trait Keeper {
    // Of a difference and the sample that it comes to, where anything is kept.
    ghost kept: { Option (ℤ → ℤ → ℤ) };

    /// Keeps a sample at its place, or its difference; of the first sample the sample itself.
    fn keep(place: usize, difference: i32, sample: i32, out: &mut [i32])
        requires inside { places_for kept (place + 1) ≤ length out.old }
        ensures put { Puts kept place (λ keep. kept_at keep place difference sample ∷ []) out.old out.new }
        ensures places { length out.new ≡ length out.old };

    /// Keeps the first `count` differences, or the samples that they come to, while the limits of 32 bits are out of
    /// reach, and returns the last sample.
    fn keep_near(differences: &mut Room, count: usize, sum: Sum, out: &mut [i32]) -> i32
        requires few { count ≤ 120 }
        requires counted { IsCounted sum.met (take count differences.old) }
        requires near { nat_abs sum.last + span (take count differences.old) < 2 ^ 31 }
        requires inside { places_for kept (sum.met + count) ≤ length out.old }
        ensures last { result ≡ sum.last +ℤ total (take count differences.old) }
        ensures put { Puts kept sum.met (λ keep. kept_along keep sum.met sum.last (take count differences.old))
            out.old out.new }
        ensures places { length out.new ≡ length out.old };

    /// Returns whether nothing is kept.
    fn keeps_nothing() -> bool
        ensures { result ≡ true → kept ≡ None };
}

/// Nothing is kept of the samples: they are added up alone.
pub(crate) struct Sums;

impl Keeper for Sums {
    ghost kept = { None };

    #[inline(always)]
    fn keep(_place: usize, _difference: i32, _sample: i32, _out: &mut [i32]) {}

    #[inline(always)]
    fn keep_near(differences: &mut Room, count: usize, sum: Sum, _out: &mut [i32]) -> i32 {
        add_all(&differences[..count], sum.last)
    }

    #[inline(always)]
    fn keeps_nothing() -> bool {
        true
    }
}

/// Each sample is kept.
pub(crate) struct Samples;

impl Keeper for Samples {
    ghost kept = { Some the_sample };

    #[inline(always)]
    fn keep(place: usize, _difference: i32, sample: i32, out: &mut [i32]) {
        out[place] = sample;
    }

    #[inline(always)]
    fn keep_near(differences: &mut Room, count: usize, sum: Sum, out: &mut [i32]) -> i32 {
        put_sums(differences, count, sum.last, &mut out[sum.met..])
    }

    #[inline(always)]
    fn keeps_nothing() -> bool {
        false
    }
}

/// Each difference is kept, and of the first sample itself.
pub(crate) struct Steps;

impl Keeper for Steps {
    ghost kept = { Some the_difference };

    #[inline(always)]
    fn keep(place: usize, difference: i32, sample: i32, out: &mut [i32]) {
        out[place] = if place == 0 { sample } else { difference };
    }

    #[inline(always)]
    fn keep_near(differences: &mut Room, count: usize, sum: Sum, out: &mut [i32]) -> i32 {
        let last = add_all(&differences[..count], sum.last);
        put_first(sum.met, sum.last, differences);
        out[sum.met..sum.met + count].copy_from_slice(&differences[..count]);
        last
    }

    #[inline(always)]
    fn keeps_nothing() -> bool {
        false
    }
}

/// Puts a number in place of the first sample's difference, where no sample was met before.
#[inline(always)]
fn put_first(met: usize, number: i32, differences: &mut Room)
    ensures { (count : ℕ) → take count differences.new ≡ with_first met number (take count differences.old) }
{
    if met == 0 {
        differences[0] = number;
    }
}

/// Keeps the first `count` differences, as far as they are needed, while the limits of 32 bits are out of reach, and
/// returns the sum after them.
#[inline(always)]
#[tactic(auto, using(crate::proofs::Continuing::first_span, crate::proofs::Continuing::span_needed))]
pub(crate) fn keep_needed<K: Keeper>(
    differences: &mut Room,
    count: usize,
    samples: usize,
    sum: Sum,
    out: &mut [i32],
) -> Sum
    requires few { count ≤ 120 }
    requires some { 0 < samples }
    requires met { sum.met ≤ samples }
    requires places { length out.old ≡ places_for K.kept samples }
    requires near { nat_abs sum.last + span (take count differences.old) < 2 ^ 31 }
    ensures { WalksOver K.kept samples sum out.old (take count differences.old) out.new (Ok result) }
{
    put_first(sum.met, 0, differences);
    let needed = count.min(samples - sum.met);
    Sum {
        met: sum.met + needed,
        last: K::keep_near(differences, needed, sum, out),
    }
}

/// Returns how many frames are added up at once after a sum: so many that none of their sums leaves 32 bits, as far as
/// they have no difference of 30 or 32 bits.
#[inline(always)]
fn frames_at_once(sum: Sum) -> usize
    ensures few { result ≤ RUN }
    ensures near { 0 < result → nat_abs sum.last + REACH * result < 2 ^ 31 }
{
    let size = sum.last.unsigned_abs();
    let room = i32::MAX.unsigned_abs().saturating_sub(size);
    RUN.min((room / REACH) as usize)
}

/// Returns the first difference of a word that has several, each of 16 bits at the most; `None` of another word.
#[inline(always)]
fn first_difference(scheme: Scheme, word: Word) -> Option<i32>
    ensures { IfSome result (λ d. (ws : List DataWord)
        → (more : List (Result ℤ BadWordAt)) × (items_of scheme (as_data word ∷ ws) ≡ Ok d ∷ more)) }
{
    let group = group_of(scheme, word.code, word.bits)?;
    if group.count < 2 {
        return None;
    }
    Some(read_digit(word.bits, group.width, group.count - 1))
}

/// Returns what isn't used of that which the frames from `index` on add up to: the first sample's difference, where
/// none was met before, and else 0. `None` where that difference doesn't stand in the payload's first data word, or has
/// more than 16 bits.
#[inline(always)]
#[tactic(auto, using(crate::proofs::FirstRun::moved_run))]
fn unused_in(task: Task, payload: &[u8], index: usize, sum: Sum) -> Option<i32>
    requires inside { index < length payload.now / 64 }
    requires left { sum.met < task.samples }
    ensures { IfSome result (λ unused. AddsRun task.scheme payload.now index sum unused) }
{
    if sum.met > 0 {
        return Some(0);
    }
    if index > 0 {
        return None;
    }
    first_difference(task.scheme, first_word(payload))
}

/// Adds up as many frames at once as it can, from frame `index` on, and returns how many these are and the sum after
/// them; `None` where that frame has to be decoded differently.
#[inline(always)]
fn add_frames(task: Task, payload: &[u8], index: usize, sum: Sum) -> Option<Taken>
    requires inside { index < length payload.now / 64 }
    requires left { sum.met < task.samples }
    ensures { IfSome result (Takes None task payload.now index sum [] []) }
{
    let unused = unused_in(task, payload, index, sum)?;
    let (frames, _) = payload.as_chunks::<64>();
    let some = &frames[index..frames.len().min(index + frames_at_once(sum))];
    let begin = begin_in(sum.met, index);
    let run = moves_of(task.scheme, some, begin, task.samples - sum.met);
    if run.frames == 0 {
        return None;
    }
    let by = run.by - unused;
    let sum = Sum {
        met: sum.met + run.count as usize,
        last: add_near(sum.last, by),
    };
    Some(Taken {
        frames: run.frames,
        sum,
    })
}

/// Takes frames at once, from frame `index` on: where nothing is kept, as many as it can; else one, unpacked in a room
/// for its differences, as far as these are needed. Returns how many these are and the sum after them. `None` where
/// frame `index` has to be decoded differently, since a word of it is bad or has a wide difference, or the limits of 32
/// bits are within its reach; nothing is kept then.
#[inline(always)]
#[tactic(auto, using(crate::proofs::Rules::take_frames))]
pub(crate) fn take_frames<K: Keeper>(
    task: Task,
    payload: &[u8],
    index: usize,
    sum: Sum,
    room: &mut [i32],
    out: &mut [i32],
) -> Option<Taken>
    requires { CanTake K.kept task payload.now index sum out.old }
    ensures taken { IfSome result (Takes K.kept task payload.now index sum out.old out.new) }
    ensures none { IfNone result (out.new ≡ out.old) }
{
    if K::keeps_nothing() {
        return add_frames(task, payload, index, sum);
    }
    if sum.last.unsigned_abs() >= (1 << 31) - REACH {
        return None;
    }
    let (frames, _) = payload.as_chunks::<64>();
    let begin = begin_in(sum.met, index);
    let differences = room.as_mut_array::<PLACES>()?;
    let count = unpack_frame(
        task.scheme,
        Widest::Bits16,
        &frames[index],
        begin,
        differences,
    )?;
    Some(Taken {
        frames: 1,
        sum: keep_needed::<K>(differences, count, task.samples, sum, out),
    })
}
