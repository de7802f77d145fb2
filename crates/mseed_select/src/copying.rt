//! Writing the records of an input that are asked for.
ghost use Rattle.std.specs.Prelude.{◌≡◌, ◌++◌, List, [], IfOk, None, OnOk};
ghost use Rattle.mseed_record.specs.View.{View};
ghost use Rattle.mseed_record.specs.Viewing.{view_of};
ghost use Rattle.mseed_stream.specs.Calls.{ReadsOn};
ghost use Rattle.mseed_stream.specs.Cutting.{IsAlong};
ghost use Rattle.mseed_stream.specs.Device.{BytesWritten, nothing_read};
ghost use Rattle.mseed_stream.specs.Walk.{HasHandedOut};
ghost use Rattle.mseed_select.specs.Formatted.{IsFormatted};
ghost use Rattle.mseed_select.specs.Select.{IsSelected};
ghost use Rattle.mseed_record.specs.Selection.{answer_of};
ghost use Rattle.mseed_select.specs.private.Copying.{IsCopying, IsHeld, IsNext, text_by};

use crate::counts::Counts;
use crate::fault::SelectFault;
use crate::format::{Format, Verbatim};
use crate::selected::Selected;
use mseed_record::{Answer, Choice, RecordView};
use mseed_stream::{Cutter, GATHERED, Sink, Source, StreamFault, write_all_of, write_beyond};
use std::alloc::{AllocError, Allocator};

/// What was read next of an input.
#[derive(Clone, Copy)]
pub(crate) enum Step {
    /// A record, whose text was gathered where it is asked for.
    Judged(Answer),
    /// Its end, with the fault by which it ended, if by one.
    Ended(Option<StreamFault>),
}

/// Writes the records of the input that are asked for, byte for byte and in their order, and returns how many there
/// were, and the fault with which the input ended, if with one. Their samples aren't read. Records are written as they
/// come, at most 64 KiB and a record at a time, and before the input is called where it holds no whole record; a record
/// before a fault is written. Nothing may have been read of the input before.
///
/// # Errors
///
/// `Write` where the output failed, `Memory` where memory was refused. A prefix of the records' bytes was written then.
pub fn select<A: Allocator + Copy, C: Choice, R: Source, W: Sink>(
    alloc: A,
    choice: &C,
    input: &mut R,
    output: &mut W,
) -> Result<Selected, SelectFault>
    requires unread { R.read input.old ≡ nothing_read }
    ensures selected { IsSelected (C.selection choice.now) result (R.read input.new) (W.written output.old)
        (W.written output.new) }

    // What the input is known to have left is what was read of it, up to its end where it is at its end.
    ensures reads { ReadsOn (R.read input.old) (R.read input.new) (R.remaining input.old) (R.remaining input.new)
        (R.beside input.old) (R.beside input.new) }
{
    write_selected(alloc, choice, &Verbatim, input, output)
}

/// Writes the records of the input that are asked for, each in a format, and then the format's end, and returns how
/// many records there were, and the fault with which the input ended, if with one. Their samples aren't read. The text
/// is written as records come, at most 64 KiB and a record at a time, and before the input is called where it holds no
/// whole record; a record before a fault is written. Nothing may have been read of the input before.
///
/// # Errors
///
/// `Write` where the output failed, `Memory` where memory was refused. A prefix of the text was written then.
pub fn write_selected<A: Allocator + Copy, C: Choice, F: Format<A>, R: Source, W: Sink>(
    alloc: A,
    choice: &C,
    format: &F,
    input: &mut R,
    output: &mut W,
) -> Result<Selected, SelectFault>
    requires unread { R.read input.old ≡ nothing_read }
    ensures written { IsFormatted (F.texts format.now) (C.selection choice.now) result (R.read input.new)
        (W.written output.old) (W.written output.new) }

    // What the input is known to have left is what was read of it, up to its end where it is at its end.
    ensures reads { ReadsOn (R.read input.old) (R.read input.new) (R.remaining input.old) (R.remaining input.new)
        (R.beside input.old) (R.beside input.new) }
{
    let mut text = Vec::new(alloc);
    let found = copy(alloc, choice, format, input, output, &mut text)?;
    format.push_end(&found, &mut text)?;
    match write_all_of(output, &text) {
        Ok(()) => Ok(found),
        Err(_) => Err(SelectFault::Write),
    }
}

/// Writes the records that are asked for, each in a format, up to the input's end, and returns what was found. The last
/// of the text is left in `text`.
///
/// # Errors
///
/// Those of [`write_selected`].
fn copy<A: Allocator + Copy, C: Choice, F: Format<A>, R: Source, W: Sink>(
    alloc: A,
    choice: &C,
    format: &F,
    input: &mut R,
    output: &mut W,
    text: &mut Vec<u8, A>,
) -> Result<Selected, SelectFault>
    requires read { R.read input.old ≡ nothing_read }
    requires text { text.old.items ≡ [] }
    ensures copied { IsCopying (F.texts format.now) (C.selection choice.now) result (R.read input.new)
        (W.written output.old) (W.written output.new) text.new.items }
    ensures reads { ReadsOn (R.read input.old) (R.read input.new) (R.remaining input.old) (R.remaining input.new)
        (R.beside input.old) (R.beside input.new) }
{
    let mut cutter = Cutter::new(alloc);
    let mut counts = Counts::none();
    'records: loop {
        match push_next(&mut cutter, choice, format, input, output, text)? {
            Step::Judged(answer) => counts.add(answer),
            Step::Ended(end) => return Ok(counts.selected(end)),
        }
        match write_beyond(output, text, GATHERED) {
            Ok(()) => {}
            Err(_) => return Err(SelectFault::Write),
        }
    }
}

/// Gathers the text of the next record, where it is asked for, or finds the input's end. A record that the input holds
/// whole isn't copied. Where it holds none, what is gathered is written before it is called.
///
/// # Errors
///
/// Those of [`write_selected`].
fn push_next<A: Allocator, C: Choice, F: Format<A>, R: Source, W: Sink>(
    cutter: &mut Cutter<A>,
    choice: &C,
    format: &F,
    input: &mut R,
    output: &mut W,
    text: &mut Vec<u8, A>,
) -> Result<Step, SelectFault>
    requires { IsAlong (R.read input.old) cutter.old }
    ensures next { (first : BytesWritten) (views : List View) → HasHandedOut (R.read input.old) cutter.old views
        → IsHeld (F.texts format.now) (C.selection choice.now) first (W.written output.old) text.old.items views
        → IsNext (F.texts format.now) (C.selection choice.now) result views (R.read input.old) (R.read input.new)
        cutter.new first (W.written output.new) text.new.items }
    ensures reads { cutter.old.answer ≡ None → ReadsOn (R.read input.old) (R.read input.new) (R.remaining input.old)
        (R.remaining input.new) (R.beside input.old) (R.beside input.new) }
{
    let offset = cutter.offset();
    if let Some(view) = cutter.peek(input) {
        let answer = push_record(choice, format, offset, &view, text)?;
        let size = view.bytes().len();
        cutter.pass(input, size);
        return Ok(Step::Judged(answer));
    }
    match write_beyond(output, text, 0) {
        Ok(()) => ask_next(cutter, choice, format, input, text),
        Err(_) => Err(SelectFault::Write),
    }
}

/// Reads the next record and gathers its text, where it is asked for, or finds the input's end. All that was gathered
/// before has to be written.
///
/// # Errors
///
/// `Memory` where memory was refused.
#[tactic(auto, using(mseed_stream::proofs::Calls::reads_next))]
fn ask_next<A: Allocator, C: Choice, F: Format<A>, R: Source>(
    cutter: &mut Cutter<A>,
    choice: &C,
    format: &F,
    input: &mut R,
    text: &mut Vec<u8, A>,
) -> Result<Step, SelectFault>
    requires along { IsAlong (R.read input.old) cutter.old }
    requires written { text.old.items ≡ [] }
    ensures next { (first now : BytesWritten) (views : List View) → HasHandedOut (R.read input.old) cutter.old views
        → IsHeld (F.texts format.now) (C.selection choice.now) first now text.old.items views
        → IsNext (F.texts format.now) (C.selection choice.now) result views (R.read input.old) (R.read input.new)
        cutter.new first now text.new.items }
    ensures reads { cutter.old.answer ≡ None → ReadsOn (R.read input.old) (R.read input.new) (R.remaining input.old)
        (R.remaining input.new) (R.beside input.old) (R.beside input.new) }
{
    let offset = cutter.offset();
    match cutter.next(input) {
        Ok(Some(view)) => {
            let answer = push_record(choice, format, offset, &view, text)?;
            Ok(Step::Judged(answer))
        }
        Ok(None) => Ok(Step::Ended(None)),
        Err(StreamFault::Memory) => Err(SelectFault::Memory),
        Err(fault) => Ok(Step::Ended(Some(fault))),
    }
}

/// Gathers the text of a record, where it is asked for, and returns whether it is. `offset` is the record's in the
/// whole input, in bytes.
///
/// # Errors
///
/// `AllocError` where memory was refused.
#[inline(always)]
fn push_record<A: Allocator, C: Choice, F: Format<A>>(
    choice: &C,
    format: &F,
    offset: u64,
    view: &RecordView,
    text: &mut Vec<u8, A>,
) -> Result<Answer, AllocError>
    ensures ok { OnOk result (text.new.items ≡ text.old.items ++ text_by (F.texts format.now) (C.selection choice.now)
        offset (view_of view.now)) }
    ensures answer { IfOk result (λ a. a ≡ answer_of (C.selection choice.now) (view_of view.now)) }
{
    let answer = choice.answer(view);
    if let Answer::AskedFor = answer {
        format.push_record(offset, view, text)?;
    }
    Ok(answer)
}
