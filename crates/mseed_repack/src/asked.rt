//! The records of an archive that are asked for, and what is reported of those that lack a time.
ghost use Rattle.std.specs.Prelude.{◌≡◌, List, if◌then◌else◌, map};
ghost use Rattle.std.specs.List.{count_by, filter};
ghost use Rattle.mseed_record.specs.View.{View};
ghost use Rattle.mseed_record.specs.Viewing.{view_of};
ghost use Rattle.mseed_record.specs.Selection.{asks_for, lacks_time};
ghost use Rattle.mseed_repack.specs.ByStretches.{ReportsEach};
ghost use Rattle.mseed_repack.specs.Repack.{stream_fault};
ghost use Rattle.mseed_repack.specs.Selected.{AreRecordsOf, ReportsIfLeft, without_time_lines};
ghost use Rattle.mseed_repack.specs.private.Restretching.{ReportsAtFault, ReportsUnlessLeft};

use crate::fault::RepackFault;
use crate::refusing::LeftOut;
use mseed_record::{Answer, Choice, RecordView};
use mseed_stream::{Sink, StreamFault, report};
use mseed_text::Line;
use std::alloc::Allocator;

/// Lets go of the records that aren't asked for, and returns how many records of the channels that are asked for lack a
/// time.
pub(crate) fn keep_asked<A: Allocator, C: Choice>(
    views: &mut Vec<RecordView<'_>, A>,
    choice: &C,
) -> u64
    ensures kept { views.new.items ≡ filter (λ r. asks_for (C.selection choice.now) (view_of r)) views.old.items }
    ensures count { result ≡ count_by (lacks_time (C.selection choice.now)) (map view_of views.old.items) }
{
    let count = count_without_time(views, choice);
    views.retain(|view| matches!(choice.answer(view), Answer::AskedFor));
    count
}

/// Returns how many records of the channels that are asked for lack a time.
fn count_without_time<C: Choice>(views: &[RecordView], choice: &C) -> u64
    ensures { result ≡ count_by (lacks_time (C.selection choice.now)) (map view_of views.now) }
{
    let mut count = 0;
    for view in views {
        count += count_one(view, choice);
    }
    count
}

/// Returns how many records of the channels that are asked for lack a time, of those that some bytes begin with, one
/// after another.
fn count_in_bytes<C: Choice>(bytes: &[u8], choice: &C) -> u64
    ensures { (views : List View) × (AreRecordsOf bytes.now views
        × (result ≡ count_by (lacks_time (C.selection choice.now)) views)) }
{
    let mut count = 0;
    let mut offset = 0;
    while offset < bytes.len() {
        let view = match RecordView::of(&bytes[offset..]) {
            Ok(view) => view,
            Err(_) => return count,
        };
        count += count_one(&view, choice);
        offset += view.bytes().len();
    }
    count
}

/// Returns 1 for a record of a channel that is asked for that lacks a time, and 0 for any other.
fn count_one<C: Choice>(view: &RecordView, choice: &C) -> u64
    ensures { result ≡ (if lacks_time (C.selection choice.now) (view_of view.now) then 1 else 0) }
{
    match choice.answer(view) {
        Answer::NoTime => 1,
        Answer::AskedFor | Answer::Left => 0,
    }
}

/// Returns why an archive isn't packed of which these bytes were read before this fault. Where it is the input's, it is
/// reported how many records lack a time before it.
pub(crate) fn refuse_input<C: Choice, E: Sink>(
    fault: StreamFault,
    bytes: &[u8],
    choice: &C,
    errors: &mut E,
) -> RepackFault
    ensures fault { result ≡ stream_fault fault }
    ensures reported { ReportsAtFault (C.selection choice.now) fault bytes.now (E.written errors.old)
        (E.written errors.new) }
{
    match fault {
        StreamFault::Memory => RepackFault::Memory,
        fault => {
            report_without_time(count_in_bytes(bytes, choice), errors);
            RepackFault::Stream(fault)
        }
    }
}

/// Reports how many records lack a time before anything is written, where a channel is left out.
pub(crate) fn report_if_left<E: Sink>(left: LeftOut, without_time: u64, errors: &mut E)
    ensures { ReportsIfLeft left without_time (E.written errors.old) (E.written errors.new) }
{
    match left {
        LeftOut::Nothing => {}
        LeftOut::Broken | LeftOut::Misfit => report_without_time(without_time, errors),
    }
}

/// Reports it once an archive was packed, or refused for a channel, where no channel was left out; where the output
/// failed, or memory was refused, nothing.
pub(crate) fn report_unless_left<E: Sink>(
    outcome: &Result<LeftOut, RepackFault>,
    without_time: u64,
    errors: &mut E,
)
    ensures { ReportsUnlessLeft outcome.now without_time (E.written errors.old) (E.written errors.new) }
{
    match outcome {
        Ok(LeftOut::Broken | LeftOut::Misfit) | Err(RepackFault::Write | RepackFault::Memory) => {}
        _ => report_without_time(without_time, errors),
    }
}

/// Writes a line to `errors` that says how many records of the channels that are asked for lack a time, so that nobody
/// can say whether they lie in the window; where there are none, it writes nothing. A failure of `errors` is ignored.
pub fn report_without_time<E: Sink>(count: u64, errors: &mut E)
    ensures { ReportsEach (without_time_lines count) (E.written errors.old) (E.written errors.new) }
{
    if count > 0 {
        let mut line = Line::new();
        line.put_labelled(b"mseed: ", count);
        line.put(b" records without a time\n");
        report(errors, line.as_slice());
    }
}
