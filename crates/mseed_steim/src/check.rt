//! Payloads that are checked, with what is kept of their samples or without keeping any.

ghost use Rattle.std.specs.Prelude.{◌≡◌, ◌↔◌, ◌<◌, ◌≤◌, ℕ, List, [], ℤ, None, IfOk, IfErr, IfSome, IfNone, IsOkAnd};
ghost use Rattle.std.specs.Prelude.{Err, OnOk, length};
ghost use Rattle.mseed_record.specs.Viewing.{view_of};
ghost use Rattle.mseed_time.specs.declared.order.Order.TheVariants.{Big};
ghost use Rattle.mseed_steim.specs.declared.form.Form.TheVariants.{Integers, Frames};
ghost use Rattle.mseed_steim.specs.Frames.{first_constant, last_constant};
ghost use Rattle.mseed_steim.specs.Samples.{AnswersPayload, AreEnds, IsFrameFault};
ghost use Rattle.mseed_steim.specs.private.Sums.{IsKept, places_for, walk};
ghost use Rattle.mseed_steim.specs.declared.fault.ReadFault.{ReadFault};
ghost use Rattle.mseed_steim.specs.Reading.{count_of, IsReading, EndsOnConstants, IsFault, Denies, HoldsIn};
ghost use Rattle.mseed_steim.specs.Reading.{AnswersRecord, is_little_steim};

use crate::data_words::read_word;
use crate::fault::{Ends, ReadFault};
use crate::form::{Form, Width, form_of, integer_at};
use crate::keep::{Keeper, Sums, Task};
use crate::scheme::Scheme;
use crate::sum::Walked;
use crate::walk::{find_lack, walk};
use mseed_record::RecordView;
use mseed_time::Order;

/// Returns the payload's constants for the first and the last sample; `None` where it has no whole frame, which would
/// hold them.
pub(crate) fn constants_of(payload: &[u8]) -> Option<Ends>
    ensures none { IfNone result (length payload.now < 64) }
    ensures first { IfSome result (λ ends. ends.first ≡ first_constant payload.now) }
    ensures last { IfSome result (λ ends. ends.last ≡ last_constant payload.now) }
    ensures framed { IfSome result (λ _. 64 ≤ length payload.now) }
{
    if payload.len() < 64 {
        return None;
    }
    Some(Ends {
        first: read_word(payload, 1).cast_signed(),
        last: read_word(payload, 2).cast_signed(),
    })
}

/// Returns the constants, where all samples were added up from the first of them and end on the last; else the fault
/// that comes first.
#[inline(always)]
fn ends_of_walk(
    payload: &[u8],
    scheme: Scheme,
    samples: usize,
    constants: Ends,
    walked: Walked,
) -> Result<Ends, ReadFault>
    requires some { 0 < samples }
    requires last { constants.last ≡ last_constant payload.now }
    requires walked { walked ≡ walk scheme payload.now samples }
    ensures ends { IfOk result (λ ends. ends ≡ constants) }
    ensures met { OnOk result (IsOkAnd walked (λ sum. sum.last ≡ last_constant payload.now)) }
    ensures fault { IfErr result (λ fault. IsFrameFault scheme payload.now samples fault) }
{
    match walked {
        Ok(sum) if sum.last == constants.last => Ok(constants),
        Ok(sum) => Err(ReadFault::LastDiffers(sum.last, constants.last)),
        Err(fault) => match find_lack(payload, scheme, samples) {
            Some(earlier) => Err(earlier),
            None => Err(fault),
        },
    }
}

/// Returns the ends of `samples` samples of Steim frames, with what is kept of each put in its place; or why they can't
/// be read. Frames are unpacked in the room.
#[tactic(auto, using(crate::proofs::Ended::no_frame))]
#[inline(always)]
pub(crate) fn walk_frames<K: Keeper>(
    payload: &[u8],
    scheme: Scheme,
    samples: usize,
    room: &mut [i32],
    out: &mut [i32],
) -> Result<Ends, ReadFault>
    requires some { 0 < samples }
    requires places { length out.old ≡ places_for K.kept samples }
    ensures { IsKept K.kept (Frames scheme) Big payload.now samples out.new result }
{
    let Some(constants) = constants_of(payload) else {
        return Err(ReadFault::Short(0));
    };
    let walked = walk::<K>(
        Task { scheme, samples },
        payload,
        constants.first,
        room,
        out,
    );
    ends_of_walk(payload, scheme, samples, constants, walked)
}

/// Returns the ends of `samples` samples of Steim frames, of which none is kept; or why they can't be read.
#[inline(never)]
fn check_frames(payload: &[u8], scheme: Scheme, samples: usize) -> Result<Ends, ReadFault>
    requires { 0 < samples }
    ensures { IsKept None (Frames scheme) Big payload.now samples [] result }
{
    walk_frames::<Sums>(payload, scheme, samples, &mut [], &mut [])
}

/// Returns the ends of `samples` integers; `Short` where the payload has fewer.
#[inline(always)]
pub(crate) fn check_integers(
    payload: &[u8],
    width: Width,
    order: Order,
    samples: usize,
) -> Result<Ends, ReadFault>
    requires { 0 < samples }
    ensures { AnswersPayload (Integers width) order payload.now samples AreEnds result }
{
    let found = payload.len() / width.bytes();
    if found < samples {
        return Err(ReadFault::Short(found));
    }
    Ok(Ends {
        first: integer_at(payload, width, order, 0),
        last: integer_at(payload, width, order, width.bytes() * (samples - 1)),
    })
}

/// Returns whether these are Steim frames of little-endian words.
fn is_little_steim(form: Form, order: Order) -> bool
    ensures { result ≡ is_little_steim form order }
{
    matches!((form, order), (Form::Frames(_), Order::Little))
}

/// Returns how a record holds its samples, and the bytes that do; or the fault that comes before its payload is read.
#[inline(always)]
pub(crate) fn payload_of<'a>(view: &RecordView<'a>) -> Result<(Form, &'a [u8]), ReadFault>
    ensures held { IfOk result (λ found. HoldsIn (view_of view.now) found.0 found.1.now) }
    ensures not_held { IfErr result (λ _. (form : Form) → (payload : List ℕ)
        → ¬ (HoldsIn (view_of view.now) form payload)) }
    ensures fault { IfErr result (λ fault. IsFault (view_of view.now) fault) }
{
    if view.has_rate_blockette() {
        return Err(ReadFault::Blockette100);
    }
    let code = view.encoding();
    let Some(form) = form_of(code) else {
        return Err(ReadFault::Encoding(code));
    };
    if is_little_steim(form, view.payload_order()) {
        return Err(ReadFault::LittleSteim);
    }
    match view.payload() {
        Ok(payload) => Ok((form, payload)),
        Err(_) => Err(ReadFault::DataOffset),
    }
}

/// Returns the ends of a record's samples, or why it has none: one relation, from which the clauses of
/// [`check_samples`] follow.
#[inline(always)]
#[tactic(auto, using(crate::proofs::Laws::payload_answers))]
fn check_record(view: &RecordView<'_>) -> Result<Ends, ReadFault>
    requires { 0 < count_of (view_of view.now) }
    ensures { AnswersRecord (view_of view.now) AreEnds result }
{
    let (form, payload) = payload_of(view)?;
    let samples = usize::from(view.samples());
    match form {
        Form::Integers(width) => check_integers(payload, width, view.payload_order(), samples),
        Form::Frames(scheme) => check_frames(payload, scheme, samples),
    }
}

/// Returns the first and the last of a record's samples, in counts, without keeping any: those of its one reading,
/// where it ends on the payload's constant. The record has at least one sample.
///
/// # Errors
///
/// The first reason, in the order of [`ReadFault`], why the record has no such reading.
#[inline(always)]
#[tactic(auto, using(crate::proofs::Laws::answers_denies, crate::proofs::Laws::answers_fault))]
pub fn check_samples(view: &RecordView<'_>) -> Result<Ends, ReadFault>
    requires { 0 < count_of (view_of view.now) }
    // What is answered are the ends of a reading.
    ensures ends { IfOk result (λ ends. (s : List ℤ)
        × (IsReading (view_of view.now) s × EndsOnConstants (view_of view.now) s × AreEnds ends s)) }
    // There's no other, and where there is one, its ends are answered.
    ensures only { (s : List ℤ) → IsReading (view_of view.now) s → EndsOnConstants (view_of view.now) s
        → IsOkAnd result (λ ends. AreEnds ends s) }
    // A fault is answered exactly where it is the first.
    ensures fault { (f : ReadFault) → (result ≡ Err f) ↔ IsFault (view_of view.now) f }
    // A fault says that there's no reading, or that the only one ends elsewhere.
    ensures denied { IfErr result (λ f. Denies (view_of view.now) f) }
{
    check_record(view)
}
