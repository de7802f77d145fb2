//! What is known of a record's samples before they are read.

ghost use Rattle.std.specs.Prelude.{◌≡◌, ◌≢◌, ◌↔◌, ◌<◌, ◌≤◌, ◌+◌, ◌-◌, ◌*◌, ◌/◌, ◌%◌, ◌^◌, ℕ, List, ℤ, IfOk, IfErr};
ghost use Rattle.std.specs.Prelude.{length, IfSome, IsSome, IsTrue};
ghost use Rattle.std.specs.Bool.{OnTrue};
ghost use Rattle.mseed_record.specs.Viewing.{view_of};
ghost use Rattle.mseed_steim.specs.Frames.{AreOctets, word_at, word_count};
ghost use Rattle.mseed_steim.specs.Nearness.{AreNear, AreShort, IsNarrowAt, IsSurelyNear, ShowsNear};
ghost use Rattle.mseed_steim.specs.Reading.{count_of, IsFault, IsWhole};
ghost use Rattle.mseed_steim.specs.Samples.{AreEnds};
ghost use Rattle.mseed_steim.specs.Spelling.{IsWithin};

use crate::check::{check_integers, constants_of, payload_of};
use crate::data_words::{FRAME, WORD, code_in, read_word};
use crate::fault::{Ends, ReadFault};
use crate::form::{Form, Width, integer_at};
use crate::scheme::Scheme;
use mseed_record::RecordView;
use mseed_time::Order;

/// The lower bits of the codes of a frame's words 1 to 15.
const LOWER_BITS: u32 = 0x1555_5555;

/// Returns the first and the last of a record's samples, in counts, without decoding. The record is known to have a
/// reading that ends on its constants.
pub fn ends_of(view: &RecordView<'_>) -> Ends
    requires { (s : List ℤ) × IsWhole (view_of view.now) s }
    ensures { (s : List ℤ) → IsWhole (view_of view.now) s → AreEnds result s }
{
    match find_ends(view) {
        Ok(ends) => ends,
        Err(_) => unreachable!(),
    }
}

/// Returns the ends that the record's reading has, if it has one that ends on its constants; or the fault by which it
/// has none.
#[tactic(auto, using(crate::proofs::Constants::frameless))]
fn find_ends(view: &RecordView<'_>) -> Result<Ends, ReadFault>
    requires { 0 < count_of (view_of view.now) }
    ensures ends { IfOk result (λ ends. (s : List ℤ) → IsWhole (view_of view.now) s → AreEnds ends s) }
    ensures fault { IfErr result (λ fault. IsFault (view_of view.now) fault) }
{
    let (form, payload) = payload_of(view)?;
    let samples = usize::from(view.samples());
    match form {
        Form::Integers(width) => { check_integers(payload, width, view.payload_order(), samples) }
        Form::Frames(_) => match constants_of(payload) {
            Some(ends) => Ok(ends),
            None => Err(ReadFault::Short(0)),
        },
    }
}

/// Returns the first and the last of a record's samples, in counts, where its payload shows, without decoding, that
/// each sample is the one before it plus a difference of 30 bits: always in Steim-2, and of 16-bit integers; in Steim-1
/// where no word holds a wider difference; of 32-bit integers where each has 29 bits at the most. `None` where it
/// doesn't show that. The record is known to have a reading that ends on its constants.
#[inline(always)]
pub fn near_ends(view: &RecordView<'_>) -> Option<Ends>
    requires { (s : List ℤ) × IsWhole (view_of view.now) s }
    // The words or integers show it.
    ensures shown { IsSome result ↔ ShowsNear (view_of view.now) }
    // Where they do, these are the ends, and the samples are near one another.
    ensures ends { IfSome result (λ ends. (s : List ℤ) → IsWhole (view_of view.now) s → AreEnds ends s × AreNear s) }
{
    let Ok((form, payload)) = payload_of(view) else {
        return None;
    };
    let samples = usize::from(view.samples());
    let order = view.payload_order();
    if !shows_near(form, order, payload, samples) {
        return None;
    }
    match form {
        Form::Integers(width) => match check_integers(payload, width, order, samples) {
            Ok(ends) => Some(ends),
            Err(_) => unreachable!(),
        },
        Form::Frames(_) => match constants_of(payload) {
            Some(ends) => Some(ends),
            None => unreachable!(),
        },
    }
}

/// Returns whether the words or integers of a payload show, without decoding, that each of `samples` samples is the one
/// before it plus a difference of 30 bits.
fn shows_near(form: Form, order: Order, payload: &[u8], samples: usize) -> bool
    ensures shown { IsTrue result ↔ IsSurelyNear form order payload.now samples }
    ensures octets { AreOctets payload.now }
{
    match form {
        Form::Integers(Width::Two) => true,
        Form::Integers(Width::Four) => are_short(payload, order, samples),
        Form::Frames(Scheme::One) => are_narrow(payload),
        Form::Frames(Scheme::Two) => true,
    }
}

/// Returns whether `samples` 32-bit integers are there, and have 29 bits at the most.
#[tactic(auto, using(crate::proofs::Rules::are_short))]
fn are_short(payload: &[u8], order: Order, samples: usize) -> bool
    ensures { IsTrue result ↔ AreShort order payload.now samples }
{
    if payload.len() / WORD < samples {
        return false;
    }
    let mut highest = 0u32;
    for index in 0..samples {
        let number = integer_at(payload, Width::Four, order, WORD * index);
        highest = highest.max(above_least(number));
    }
    highest < 0x2000_0000
}

/// Returns how far a number lies above the least of 29 bits, modulo 2^32: less than 2^29 where it has 29 bits at the
/// most, and nowhere else.
#[inline(always)]
#[tactic(auto, using(crate::proofs::Rules::above_least))]
fn above_least(number: i32) -> u32
    ensures { (result < 2 ^ 29) ↔ IsWithin 29 number }
{
    number.wrapping_add(0x1000_0000).cast_unsigned()
}

/// Returns whether no Steim-1 word of the whole frames holds a difference of more than 30 bits.
fn are_narrow(payload: &[u8]) -> bool
    ensures { IsTrue result ↔ ((k : ℕ) → k < word_count payload.now → k % 16 ≢ 0 → IsNarrowAt payload.now k) }
{
    for frame in 0..payload.len() / (FRAME * WORD) {
        if !is_frame_narrow(payload, frame) {
            return false;
        }
    }
    true
}

/// Returns whether no Steim-1 word of a frame holds a difference of more than 30 bits.
fn is_frame_narrow(payload: &[u8], frame: usize) -> bool
    requires { 64 * (frame + 1) ≤ length payload.now }
    ensures { IsTrue result ↔ ((k : ℕ) → 16 * frame < k → k < 16 * (frame + 1) → IsNarrowAt payload.now k) }
{
    let codes = read_word(payload, FRAME * frame);
    has_no_code_3(codes) || are_words_narrow(payload, frame, codes)
}

/// Returns whether no word of a frame has the code 3, both bits of which are set, by the frame's codes.
#[tactic(auto, using(crate::proofs::Nearness::no_code_3))]
pub(crate) fn has_no_code_3(codes: u32) -> bool
    ensures { OnTrue result ((j : ℕ) → 0 < j → j < 16 → codes / 2 ^ (30 - 2 * j) % 4 ≢ 3) }
{
    codes & (codes >> 1) & LOWER_BITS == 0
}

/// Returns whether no Steim-1 word of a frame holds a difference of more than 30 bits, by a look at each of those that
/// have one difference alone.
#[cold]
#[tactic(auto, using(crate::proofs::Rules::are_words_narrow))]
fn are_words_narrow(payload: &[u8], frame: usize, codes: u32) -> bool
    requires inside { 64 * (frame + 1) ≤ length payload.now }
    requires codes { codes ≡ word_at payload.now (16 * frame) }
    ensures { IsTrue result ↔ ((k : ℕ) → 16 * frame < k → k < 16 * (frame + 1) → IsNarrowAt payload.now k) }
{
    for place in 1..FRAME {
        let index = FRAME * frame + place;
        if code_in(codes, index) == 3 && !is_narrow(read_word(payload, index).cast_signed()) {
            return false;
        }
    }
    true
}

/// Returns whether a difference has 30 bits at the most.
fn is_narrow(difference: i32) -> bool
    ensures { IsTrue result ↔ IsWithin 30 difference }
{
    (-0x2000_0000..0x2000_0000).contains(&difference)
}
