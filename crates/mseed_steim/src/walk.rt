//! One walk over a payload's frames, whatever is kept of its samples.

ghost use Rattle.std.specs.Prelude.{◌≡◌, ◌≤◌, ◌<◌, ◌+◌, ◌-◌, ◌*◌, ◌/◌, ℕ, List, ◌∷◌, ◌++◌, ℤ, Result, Ok, IfOk, OnOk};
ghost use Rattle.std.specs.Prelude.{length, take};
ghost use Rattle.std.specs.Bool.{OnTrue};
ghost use Rattle.mseed_steim.specs.Frames.{DataWord, data_words};
ghost use Rattle.mseed_steim.specs.private.Digits.{digits};
ghost use Rattle.mseed_steim.specs.private.Items.{Items, items_of};
ghost use Rattle.mseed_steim.specs.private.Reads.{as_data};
ghost use Rattle.mseed_steim.specs.private.Sums.{CanKeep, CanTake, Continues, Lacks, Walks, WalksFrame, WalksOver};
ghost use Rattle.mseed_steim.specs.private.Sums.{fold, in_places, kept_in, places_for};
ghost use Rattle.mseed_steim.specs.private.Unpacked.{left_from};

use crate::data_words::{FRAME, Word, Words, first_word};
use crate::fault::ReadFault;
use crate::frame::{begin_in, data_in};
use crate::group::{Group, group_of};
use crate::keep::{Keeper, Task, keep_needed, take_frames};
use crate::scheme::Scheme;
use crate::sum::{Sum, Walked, add_difference, all_met, next_difference, reach_of};
use crate::unpack::{FEW, PLACES, Room, Widest, unpack_frame};

/// Keeps one sample more, by its difference, and returns the sum after it; `Overflow` where 32 bits don't hold it. The
/// difference of the first sample isn't used.
#[inline(always)]
#[tactic(auto, using(crate::proofs::Rules::keep_difference))]
fn keep_difference<K: Keeper>(difference: i32, samples: usize, sum: Sum, out: &mut [i32]) -> Walked
    requires left { sum.met < samples }
    requires places { length out.old ≡ places_for K.kept samples }
    ensures walks { (more : Items)
        → Walks K.kept samples sum out.old (Ok difference ∷ more) more out.new result }
    ensures met { IfOk result (λ next. next.met ≡ sum.met + 1) }
    ensures places { length out.new ≡ places_for K.kept samples }
{
    let next = add_difference(difference, samples, sum)?;
    K::keep(sum.met, difference, next.last, out);
    Ok(next)
}

/// Keeps the differences of a group in the low bits of a word, as far as they are needed, and returns the sum after
/// them; `Overflow` of the first sample that 32 bits don't hold.
#[inline(always)]
#[tactic(auto, using(crate::proofs::Rules::keep_group))]
fn keep_group<K: Keeper>(
    word: u32,
    group: Group,
    samples: usize,
    sum: Sum,
    out: &mut [i32],
) -> Walked
    requires { CanKeep K.kept samples sum out.old }
    ensures { WalksOver K.kept samples sum out.old (digits group.width word group.count) out.new result }
{
    let mut sum = sum;
    for i in 0..group.count {
        if sum.met == samples {
            return Ok(sum);
        }
        sum = keep_difference::<K>(next_difference(word, group, i), samples, sum, out)?;
    }
    Ok(sum)
}

/// Keeps the differences of a word, as far as they are needed, and returns the sum after them, or what comes first in
/// place of a sample.
#[inline(always)]
#[tactic(auto, using(crate::proofs::Folds::bad_word))]
fn keep_word<K: Keeper>(
    scheme: Scheme,
    word: Word,
    samples: usize,
    sum: Sum,
    out: &mut [i32],
) -> Walked
    requires { CanKeep K.kept samples sum out.old }
    ensures { (rest : List DataWord) → Walks K.kept samples sum out.old (items_of scheme (as_data word ∷ rest))
        (items_of scheme rest) out.new result }
{
    if samples <= sum.met {
        return Ok(sum);
    }
    match group_of(scheme, word.code, word.bits) {
        Some(group) => keep_group::<K>(word.bits, group, samples, sum, out),
        None => Err(ReadFault::BadWord(word.frame, word.place)),
    }
}

/// Keeps the differences of some words, as far as they are needed, and returns the sum after them, or what comes first
/// in place of a sample.
#[cold]
#[tactic(auto, using(std::proofs::lemmas::Result::err_from_is_err_and))]
fn keep_words<K: Keeper>(
    scheme: Scheme,
    words: Words<'_>,
    samples: usize,
    sum: Sum,
    out: &mut [i32],
) -> Walked
    requires { CanKeep K.kept samples sum out.old }
    ensures { (rest : List DataWord) → Walks K.kept samples sum out.old (items_of scheme (words.entry ++ rest))
        (items_of scheme rest) out.new result }
{
    let mut sum = sum;
    for word in words {
        sum = keep_word::<K>(scheme, word, samples, sum, out)?;
    }
    Ok(sum)
}

/// Keeps differences that are all needed, and returns the sum after them; `Overflow` of the first sample that 32 bits
/// don't hold.
#[inline(always)]
#[tactic(auto, using(crate::proofs::Rules::keep_checked))]
fn keep_checked<K: Keeper>(differences: &[i32], samples: usize, sum: Sum, out: &mut [i32]) -> Walked
    requires left { sum.met + length differences.now ≤ samples }
    requires places { length out.old ≡ places_for K.kept samples }
    ensures walks { WalksOver K.kept samples sum out.old differences.now out.new result }
    ensures met { IfOk result (λ next. next.met ≡ sum.met + length differences.now) }
{
    let mut sum = sum;
    for i in 0..differences.len() {
        sum = keep_difference::<K>(differences[i], samples, sum, out)?;
    }
    Ok(sum)
}

/// Keeps the first `count` differences, of any width, as far as they are needed, and returns the sum after them;
/// `Overflow` of the first sample that 32 bits don't hold.
fn keep_unpacked<K: Keeper>(
    differences: &mut Room,
    count: usize,
    samples: usize,
    sum: Sum,
    out: &mut [i32],
) -> Walked
    requires few { count ≤ 120 }
    requires left { sum.met < samples }
    requires places { length out.old ≡ places_for K.kept samples }
    ensures { WalksOver K.kept samples sum out.old (take count differences.old) out.new result }
{
    if reach_of(&differences[..count]) < (1 << 31) - u64::from(sum.last.unsigned_abs()) {
        return Ok(keep_needed::<K>(differences, count, samples, sum, out));
    }
    let needed = count.min(samples - sum.met);
    keep_checked::<K>(&differences[..needed], samples, sum, out)
}

/// Keeps the differences of a frame that isn't taken at once, as far as they are needed: unpacked, or word by word
/// where few are needed or a word is bad. Returns the sum after them, or what comes first in place of a sample.
pub(crate) fn keep_in_room<K: Keeper>(
    task: Task,
    payload: &[u8],
    index: usize,
    sum: Sum,
    room: &mut Room,
    out: &mut [i32],
) -> Walked
    requires { CanTake K.kept task payload.now index sum out.old }
    ensures { WalksFrame K.kept task payload.now index sum out.old out.new result }
{
    let (frames, _) = payload.as_chunks::<64>();
    if task.samples - sum.met >= FEW {
        let begin = begin_in(sum.met, index);
        if let Some(count) = unpack_frame(
            task.scheme,
            Widest::Bits32,
            &frames[index],
            begin,
            room,
        ) {
            return keep_unpacked::<K>(room, count, task.samples, sum, out);
        }
    }
    let from = FRAME * index + data_in(sum.met, index);
    let words = Words::between(payload, from, FRAME * (index + 1));
    keep_words::<K>(task.scheme, words, task.samples, sum, out)
}

/// Keeps the differences of a frame that isn't taken at once, in a room of its own where there is none for them.
/// Returns the sum after them, or what comes first in place of a sample.
#[cold]
fn keep_other<K: Keeper>(
    task: Task,
    payload: &[u8],
    index: usize,
    sum: Sum,
    room: &mut [i32],
    out: &mut [i32],
) -> Walked
    requires { CanTake K.kept task payload.now index sum out.old }
    ensures { WalksFrame K.kept task payload.now index sum out.old out.new result }
{
    match room.as_mut_array::<PLACES>() {
        Some(room) => keep_in_room::<K>(task, payload, index, sum, room, out),
        None => keep_in_room::<K>(task, payload, index, sum, &mut [0; PLACES], out),
    }
}

/// Returns whether a word has one difference alone. It may have 30 or 32 bits, and no frame is taken at once that has
/// such a one.
#[inline(always)]
fn is_single(scheme: Scheme, word: Word) -> bool
    ensures { OnTrue result ((d : ℤ) × ((rest : List DataWord)
        → items_of scheme (as_data word ∷ rest) ≡ Ok d ∷ items_of scheme rest)) }
{
    match group_of(scheme, word.code, word.bits) {
        Some(group) => group.count == 1,
        None => false,
    }
}

/// Returns the sum at which a walk begins: before the first sample, or after it, where a word has its difference alone;
/// the sample is kept at once then.
#[inline(always)]
fn begin<K: Keeper>(task: Task, payload: &[u8], first: i32, out: &mut [i32]) -> Sum
    requires some { 0 < task.samples }
    requires framed { 64 ≤ length payload.now }
    requires places { length out.old ≡ places_for K.kept task.samples }
    ensures { Continues K.kept task.samples (record { met = 0; last = first }) out.old
        (items_of task.scheme (data_words payload.now))
        (items_of task.scheme (left_from payload.now result.met 0)) out.new result }
{
    let start = Sum {
        met: 0,
        last: first,
    };
    if is_single(task.scheme, first_word(payload)) {
        K::keep(0, 0, first, out);
        return Sum { met: 1, ..start };
    }
    start
}

/// Returns the sum of a task's samples, of which `first` is the first one, with what is kept of each put in its place;
/// or what comes first in place of one. Frames are taken at once, where that can't go wrong; else difference by
/// difference, and where a word is bad or few are needed, word by word.
#[inline(always)]
#[tactic(auto, using(crate::proofs::Rules::walk))]
pub(crate) fn walk<K: Keeper>(
    task: Task,
    payload: &[u8],
    first: i32,
    room: &mut [i32],
    out: &mut [i32],
) -> Walked
    requires some { 0 < task.samples }
    requires framed { 64 ≤ length payload.now }
    requires places { length out.old ≡ places_for K.kept task.samples }
    ensures folded { result ≡ fold task.samples (record { met = 0; last = first })
        (items_of task.scheme (data_words payload.now)) }
    ensures kept { OnOk result (in_places K.kept out.new
        ≡ kept_in K.kept task.samples (record { met = 0; last = first }) out.old
        (items_of task.scheme (data_words payload.now))) }
{
    let (frames, _) = payload.as_chunks::<64>();
    let mut sum = begin::<K>(task, payload, first, out);
    let mut next = 0;
    while next < frames.len() {
        if sum.met == task.samples {
            return Ok(sum);
        }
        match take_frames::<K>(task, payload, next, sum, room, out) {
            Some(taken) => {
                sum = taken.sum;
                next += taken.frames;
            }
            None => {
                sum = keep_other::<K>(task, payload, next, sum, room, out)?;
                next += 1;
            }
        }
    }
    all_met(task.samples, sum)
}

/// Returns what comes first in place of one of `samples` differences, whatever they add up to; `None` where nothing
/// does.
#[tactic(auto, using(crate::proofs::Walking::no_items))]
pub(crate) fn find_lack(payload: &[u8], scheme: Scheme, samples: usize) -> Option<ReadFault>
    requires { 0 < samples }
    ensures { Lacks samples (items_of scheme (data_words payload.now)) result }
{
    let mut met = 0;
    for word in Words::of(payload) {
        let Some(group) = group_of(scheme, word.code, word.bits) else {
            return Some(ReadFault::BadWord(word.frame, word.place));
        };
        let count = group.count as usize;
        if samples - met <= count {
            return None;
        }
        met += count;
    }
    Some(ReadFault::Short(met))
}
