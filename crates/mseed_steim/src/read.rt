//! Samples that are kept.

ghost use Rattle.std.specs.Prelude.{◌≡◌, ◌≢◌, ◌↔◌, ◌<◌, List, ℤ, Err, IsOk, IfOk, IfErr, IsTrue, OnOk, MatchResult};
ghost use Rattle.std.specs.Prelude.{length};
ghost use Rattle.mseed_record.specs.Viewing.{view_of};
ghost use Rattle.mseed_time.specs.declared.order.Order.TheVariants.{Big};
ghost use Rattle.mseed_steim.specs.declared.form.Form.TheVariants.{Integers, Frames};
ghost use Rattle.mseed_steim.specs.declared.fault.ReadFault.{ReadFault};
ghost use Rattle.mseed_steim.specs.declared.fault.ReadFault.TheVariants.{Memory};
ghost use Rattle.mseed_steim.specs.Reading.{AnswersRecord, count_of, IsFault, IsSteim, IsWhole, IsRefusal, Denies};
ghost use Rattle.mseed_steim.specs.Samples.{AnswersPayload, steps_of};
ghost use Rattle.mseed_steim.specs.private.Sums.{AreKept, places_for};

use crate::check::{check_samples, payload_of, walk_frames};
use crate::fault::ReadFault;
use crate::form::{Form, Width, form_of, integer_at};
use crate::keep::{Keeper, Samples, Steps};
use crate::scheme::Scheme;
use crate::unpack::PLACES;
use mseed_record::RecordView;
use mseed_time::Order;
use std::alloc::{AllocError, Allocator};

/// Fills in what is kept of `samples` samples of Steim frames, or returns why they can't be read. It stands apart, so
/// that its room is cleared for frames alone.
#[inline(never)]
fn fill_frames<K: Keeper>(
    payload: &[u8],
    scheme: Scheme,
    samples: usize,
    out: &mut [i32],
) -> Result<(), ReadFault>
    requires some { 0 < samples }
    requires places { length out.old ≡ places_for K.kept samples }
    ensures { AnswersPayload (Frames scheme) Big payload.now samples (λ _ s. AreKept K.kept s out.new) result }
{
    walk_frames::<K>(payload, scheme, samples, &mut [0; PLACES], out)?;
    Ok(())
}

/// Fills in `samples` integers, or returns `Short` where the payload has fewer.
fn fill_integers(
    payload: &[u8],
    width: Width,
    order: Order,
    samples: usize,
    out: &mut [i32],
) -> Result<(), ReadFault>
    requires { length out.old ≡ samples }
    ensures { AnswersPayload (Integers width) order payload.now samples (λ _ s. out.new ≡ s) result }
{
    let bytes = width.bytes();
    let found = payload.len() / bytes;
    if found < samples {
        return Err(ReadFault::Short(found));
    }
    for i in 0..samples {
        out[i] = integer_at(payload, width, order, bytes * i);
    }
    Ok(())
}

/// Fills in a record's samples, or returns why it has none: one relation, from which the clauses of [`fill_samples`]
/// follow.
#[inline(always)]
#[tactic(auto, using(crate::proofs::Laws::payload_answers, crate::proofs::Folded::samples_are))]
fn fill_record(view: &RecordView<'_>, out: &mut [i32]) -> Result<(), ReadFault>
    requires some { 0 < count_of (view_of view.now) }
    requires room { length out.old ≡ count_of (view_of view.now) }
    ensures { AnswersRecord (view_of view.now) (λ _ s. out.new ≡ s) result }
{
    let (form, payload) = payload_of(view)?;
    let samples = usize::from(view.samples());
    match form {
        Form::Integers(width) => fill_integers(payload, width, view.payload_order(), samples, out),
        Form::Frames(scheme) => fill_frames::<Samples>(payload, scheme, samples, out),
    }
}

/// Fills in a record's samples: those of its one reading, where it ends on the payload's constant. The record
/// has at least one sample, and there are as many places as it has.
///
/// # Errors
///
/// The first reason, in the order of [`ReadFault`], why the record has no such reading. What the places hold is
/// then open.
// Within its caller, the loop over frames would lack registers.
#[inline(never)]
#[tactic(auto, using(crate::proofs::Laws::answers_denies, crate::proofs::Laws::answers_fault))]
pub fn fill_samples(view: &RecordView<'_>, out: &mut [i32]) -> Result<(), ReadFault>
    requires some { 0 < count_of (view_of view.now) }
    requires places { length out.old ≡ count_of (view_of view.now) }
    // What is filled in is a reading that ends on its constants.
    ensures reading { OnOk result (IsWhole (view_of view.now) out.new) }
    // There's no other, and where there is one, it's filled in.
    ensures only { (s : List ℤ) → IsWhole (view_of view.now) s → IsOk result × (out.new ≡ s) }
    // A fault is answered exactly where it is the first.
    ensures fault { (f : ReadFault) → (result ≡ Err f) ↔ IsFault (view_of view.now) f }
    // A fault says that there's no reading, or that the only one ends elsewhere.
    ensures denied { IfErr result (λ fault. Denies (view_of view.now) fault) }
{
    fill_record(view, out)
}

/// Returns whether a record's samples stand in Steim frames, by its encoding.
pub fn is_steim(view: &RecordView<'_>) -> bool
    ensures { IsTrue result ↔ IsSteim (view_of view.now) }
{
    matches!(form_of(view.encoding()), Some(Form::Frames(_)))
}

/// Fills in the steps of the samples of a record of Steim frames, or returns why it has none: one relation, from which
/// the clauses of [`fill_differences`] follow.
#[inline(always)]
#[tactic(auto, using(crate::proofs::Laws::payload_answers, crate::proofs::Folded::steps_are))]
fn fill_steps(view: &RecordView<'_>, out: &mut [i32]) -> Result<(), ReadFault>
    requires some { 0 < count_of (view_of view.now) }
    requires steim { IsSteim (view_of view.now) }
    requires places { length out.old ≡ count_of (view_of view.now) }
    ensures { AnswersRecord (view_of view.now) (λ _ s. out.new ≡ steps_of s) result }
{
    let (form, payload) = payload_of(view)?;
    let Form::Frames(scheme) = form else {
        unreachable!()
    };
    let samples = usize::from(view.samples());
    fill_frames::<Steps>(payload, scheme, samples, out)
}

/// Fills in the steps of a record's samples: the first sample, and of each one after it its difference from the one
/// before. The samples are those of the record's one reading, where it ends on the payload's constant. The record is
/// one of Steim frames, whose differences have 32 bits at the most, and has at least one sample, and there are as many
/// places as it has.
///
/// # Errors
///
/// Those of [`fill_samples`]: the first reason, in the order of [`ReadFault`], why the record has no such reading.
/// What the places hold is then open.
#[inline(never)]
#[tactic(auto, using(crate::proofs::Laws::answers_denies, crate::proofs::Laws::answers_fault))]
pub fn fill_differences(view: &RecordView<'_>, out: &mut [i32]) -> Result<(), ReadFault>
    requires some { 0 < count_of (view_of view.now) }
    requires steim { IsSteim (view_of view.now) }
    requires places { length out.old ≡ count_of (view_of view.now) }
    // What is filled in are the steps of a reading that ends on its constants.
    ensures reading { OnOk result ((s : List ℤ) × (IsWhole (view_of view.now) s × (out.new ≡ steps_of s))) }
    // There's no other, and where there is one, its steps are filled in.
    ensures only { (s : List ℤ) → IsWhole (view_of view.now) s → IsOk result × (out.new ≡ steps_of s) }
    // A fault is answered exactly where it is the first.
    ensures fault { (f : ReadFault) → (result ≡ Err f) ↔ IsFault (view_of view.now) f }
    // A fault says that there's no reading, or that the only one ends elsewhere.
    ensures denied { IfErr result (λ fault. Denies (view_of view.now) fault) }
{
    fill_steps(view, out)
}

/// Returns a list of `count` zeros, or `AllocError` where there is no memory for it.
fn zeros<A: Allocator + Drop>(alloc: A, count: usize) -> Result<Vec<i32, A>, AllocError>
    ensures { IfOk result (λ samples. length samples.items ≡ count) }
{
    Ok(vec![in alloc; 0; count]?)
}

/// Returns a record's samples, or why they aren't kept: two relations, from which the clauses of [`read_samples`]
/// follow.
fn read_record<A: Allocator + Drop>(
    alloc: A,
    view: &RecordView<'_>,
) -> Result<Vec<i32, A>, ReadFault>
    requires { 0 < count_of (view_of view.now) }
    ensures reading { IfOk result (λ samples. IsWhole (view_of view.now) samples.items) }
    ensures refused { IfErr result (λ fault. IsRefusal (view_of view.now) fault) }
{
    let samples = usize::from(view.samples());
    let mut out = match zeros(alloc, samples) {
        Ok(out) => out,
        Err(_) => {
            check_samples(view)?;
            return Err(ReadFault::Memory);
        }
    };
    fill_record(view, &mut out)?;
    Ok(out)
}

/// Returns a record's samples, in counts: those of its one reading, where it ends on the payload's constant. The record
/// has at least one sample.
///
/// # Errors
///
/// The first reason, in the order of [`ReadFault`], why the record has no such reading. Where it has one, `Memory`
/// where there is no memory for it.
#[tactic(auto, using(crate::proofs::Laws::refused_denies))]
pub fn read_samples<A: Allocator + Drop>(
    alloc: A,
    view: &RecordView<'_>,
) -> Result<Vec<i32, A>, ReadFault>
    requires { 0 < count_of (view_of view.now) }
    // What is answered is a reading that ends on its constants.
    ensures reading { IfOk result (λ samples. IsWhole (view_of view.now) samples.items) }
    // There's no other, and where there is one, it's answered unless memory lacks.
    ensures only { (s : List ℤ) → IsWhole (view_of view.now) s
        → MatchResult result (λ samples. samples.items ≡ s) (λ fault. fault ≡ Memory) }
    // A fault is answered where it is the first, and no other; memory lacks only where there's a reading.
    ensures fault { (f : ReadFault) → IsFault (view_of view.now) f → result ≡ Err f }
    ensures refused { IfErr result (λ fault. IsRefusal (view_of view.now) fault) }
    // A fault says that there's no reading, or that the only one ends elsewhere.
    ensures denied { IfErr result (λ fault. fault ≢ Memory → Denies (view_of view.now) fault) }
{
    read_record(alloc, view)
}
