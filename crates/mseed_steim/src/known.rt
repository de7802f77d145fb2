//! What is read of a record that is known to have a reading: differences alone, of which none is added up.

ghost use Rattle.std.specs.Prelude.{◌≡◌, ◌+◌, ◌-◌, ◌/◌, ◌<◌, ◌≤◌, ◌++◌, ℕ, List, [], ℤ, Result, Ok, IfSome};
ghost use Rattle.std.specs.Prelude.{length, map, min, take};
ghost use Rattle.std.specs.Bool.{OnTrue};
ghost use Rattle.mseed_record.specs.Viewing.{view_of};
ghost use Rattle.mseed_steim.specs.declared.differences.BadWordAt.{BadWordAt};
ghost use Rattle.mseed_steim.specs.Frames.{data_words, first_constant, last_constant};
ghost use Rattle.mseed_steim.specs.Reading.{count_of, IsSteim, IsWhole};
ghost use Rattle.mseed_steim.specs.Samples.{AreEnds, AreSums, steps_of};
ghost use Rattle.mseed_steim.specs.private.Items.{items_of};
ghost use Rattle.mseed_steim.specs.private.Lanes.{Begins};
ghost use Rattle.mseed_steim.specs.private.Unpacked.{AreUnpacked, left_from};

use crate::check::{constants_of, payload_of};
use crate::ends::ends_of;
use crate::fault::Ends;
use crate::form::Form;
use crate::frame::begin_in;
use crate::keep::{Steps, Task};
use crate::lanes::Rows;
use crate::read::fill_differences;
use crate::scheme::Scheme;
use crate::sum::Sum;
use crate::unpack::{PLACES, Room, Widest, unpack_frame};
use crate::walk::keep_in_room;
use mseed_record::RecordView;

/// Puts the differences of a frame in their places, as far as there are places, and returns how many were put; `None`
/// where a word is bad.
#[inline(always)]
#[tactic(auto, using(crate::proofs::Rules::unpack_some))]
fn unpack_some(
    scheme: Scheme,
    frame: &[u8; 64],
    begin: Rows,
    room: &mut Room,
    out: &mut [i32],
) -> Option<usize>
    requires begins { (from : ℕ) × Begins begin from }
    ensures places { length out.new ≡ length out.old }
    ensures unpacked { IfSome result (λ count. (ds : List ℤ) × (AreUnpacked scheme begin frame.now ds (length ds)
        × (count ≡ min (length ds) (length out.old)) × (take count out.new ≡ take count ds))) }
{
    if out.len() >= PLACES {
        return unpack_frame(scheme, Widest::Bits32, frame, begin, out);
    }
    let count = unpack_frame(scheme, Widest::Bits32, frame, begin, room)?;
    let some = count.min(out.len());
    out[..some].copy_from_slice(&room[..some]);
    Some(some)
}

/// Puts a frame's differences after the `met` of the frames before it, where it has a bad word: by the walk, which
/// stops at the last place. Returns whether they fill the places before that word comes.
#[cold]
fn unpack_rest(
    scheme: Scheme,
    payload: &[u8],
    index: usize,
    met: usize,
    room: &mut Room,
    out: &mut [i32],
) -> bool
    requires inside { (0 < index) × (index < length payload.now / 64) }
    requires left { (0 < met) × (met < length out.old) }
    ensures places { length out.new ≡ length out.old }
    ensures unpacked { OnTrue result ((more : List (Result ℤ BadWordAt)) × (map Ok (take met out.old)
        ++ items_of scheme (left_from payload.now 0 index) ≡ map Ok out.new ++ more)) }
{
    let samples = out.len();
    // The sample before isn't known: the sums count from 0.
    let sum = Sum { met, last: 0 };
    let task = Task { scheme, samples };
    match keep_in_room::<Steps>(task, payload, index, sum, room, out) {
        Ok(next) => next.met == samples,
        Err(_) => false,
    }
}

/// Unpacks the first differences of a payload's frames, as many as there are places, and returns whether all places are
/// filled: they aren't where a bad word comes before that, or in the first of these frames, or there are too few.
#[tactic(auto, using(crate::proofs::Summed::put_front, crate::proofs::Placed::rest_put))]
fn unpack_frames(scheme: Scheme, payload: &[u8], out: &mut [i32]) -> bool
    requires some { 0 < length out.old }
    ensures places { length out.new ≡ length out.old }
    ensures unpacked { OnTrue result ((more : List (Result ℤ BadWordAt))
        × (items_of scheme (data_words payload.now) ≡ map Ok out.new ++ more)) }
{
    let (frames, _) = payload.as_chunks::<64>();
    let mut room = [0; PLACES];
    let mut met = 0;
    for index in 0..frames.len() {
        let begin = begin_in(0, index);
        let Some(count) = unpack_some(scheme, &frames[index], begin, &mut room, &mut out[met..])
        else {
            if index == 0 || met == 0 {
                return false;
            }
            return unpack_rest(scheme, payload, index, met, &mut room, out);
        };
        met += count;
        if met == out.len() {
            return true;
        }
    }
    false
}

/// Fills in the steps of as many samples as there are places, and returns the constants for the first and the last of
/// them; `None` where a bad word comes before, or there are too few differences.
#[inline(always)]
#[tactic(auto, using(crate::proofs::Rules::fill_payload))]
fn fill_payload(scheme: Scheme, payload: &[u8], out: &mut [i32]) -> Option<Ends>
    requires some { 0 < length out.old }
    ensures places { length out.new ≡ length out.old }
    ensures steps { IfSome result (λ _. (s : List ℤ)
        → AreSums scheme payload.now (length out.old) s → out.new ≡ steps_of s) }
    ensures first { IfSome result (λ ends. ends.first ≡ first_constant payload.now) }
    ensures last { IfSome result (λ ends. ends.last ≡ last_constant payload.now) }
{
    let constants = constants_of(payload)?;
    if !unpack_frames(scheme, payload, out) {
        return None;
    }
    out[0] = constants.first;
    Some(constants)
}

/// Fills in the steps of the samples of a record of Steim frames, and returns the record's ends; `None` where a bad
/// word comes before, or there are too few differences, or the record isn't read as such frames.
#[inline(always)]
fn fill_known(view: &RecordView<'_>, out: &mut [i32]) -> Option<Ends>
    requires some { 0 < count_of (view_of view.now) }
    requires places { length out.old ≡ count_of (view_of view.now) }
    ensures places { length out.new ≡ length out.old }
    ensures steps { IfSome result (λ _. (s : List ℤ) → IsWhole (view_of view.now) s → out.new ≡ steps_of s) }
    ensures ends { IfSome result (λ ends. (s : List ℤ) → IsWhole (view_of view.now) s → AreEnds ends s) }
{
    match payload_of(view) {
        Ok((Form::Frames(scheme), payload)) => fill_payload(scheme, payload, out),
        _ => None,
    }
}

/// Fills in the steps of a record's samples, as [`fill_differences`] does: the first sample, and of each one after it
/// its difference from the one before. The record is one of Steim frames and is known to have a reading that ends on
/// its constants, so that none of its samples is added up or checked again; there are as many places as it has
/// samples. Returns the first and the last of them.
#[inline(never)]
pub fn unpack_differences(view: &RecordView<'_>, out: &mut [i32]) -> Ends
    requires whole { (s : List ℤ) × IsWhole (view_of view.now) s }
    requires steim { IsSteim (view_of view.now) }
    requires places { length out.old ≡ count_of (view_of view.now) }
    ensures steps { (s : List ℤ) → IsWhole (view_of view.now) s → out.new ≡ steps_of s }
    ensures ends { (s : List ℤ) → IsWhole (view_of view.now) s → AreEnds result s }
{
    if let Some(ends) = fill_known(view, out) {
        return ends;
    }
    // Where a record has a reading, a bad word stands after its last sample: the walk ends before it.
    match fill_differences(view, out) {
        Ok(()) => ends_of(view),
        Err(_) => unreachable!(),
    }
}
