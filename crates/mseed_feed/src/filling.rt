//! Filling a feed with the records of an archive.
ghost use Rattle.std.specs.Prelude.{◌≡◌, ◌^◌, ◌<◌, ◌+◌, ℕ, List, [], length, IfErr, IfOk, OnOk, Some, Ok, Err, Result};
ghost use Rattle.std.specs.Prelude.{None, slice_get};
ghost use Rattle.mseed_record.specs.View.{View};
ghost use Rattle.mseed_stream.specs.Calls.{ReadsOn};
ghost use Rattle.mseed_stream.specs.Cutting.{IsAlong};
ghost use Rattle.mseed_stream.specs.Device.{nothing_read};
ghost use Rattle.mseed_stream.specs.declared.fault.StreamFault.{StreamFault};
ghost use Rattle.slink_feed.specs.Window.{Window};
ghost use Rattle.slink_feed.specs.declared.input.InputFault.{InputFault};
ghost use Rattle.mseed_feed.specs.Filling.{IsFilling, feed_of};
ghost use Rattle.mseed_words.specs.FeedWords.{CanServe};
ghost use Rattle.mseed_feed.specs.private.Pushing.{HasFilled, IsNextPushed};
ghost use Rattle.mseed_words.specs.declared.request.Serving.{Serving};

use mseed_stream::{Cutter, Source, StreamFault};
use mseed_words::Serving;
use slink_feed::{Feed, InputFault, Ring};
use std::alloc::Allocator;

/// What comes next of an input.
#[derive(Clone, Copy)]
pub(crate) enum Step {
    /// A record, which a ring accepted.
    Pushed,
    /// Its end, where a record ended.
    Ended,
}

/// Reads an archive to its end, and returns a feed that holds its records: for each place that was requested there is a
/// ring of the capacity that was requested, and each record is in the ring of its place, the first one under the first
/// number.
///
/// # Errors
///
/// What is wrong first in the input: `Foreign` where a record hasn't 512 bytes or is of none of the places, `Stream`
/// where the input failed, where it doesn't end where a record ends, or where an allocation was refused.
pub(crate) fn fill<A: Allocator + Copy, R: Source>(
    alloc: A,
    serving: &Serving,
    input: &mut R,
) -> Result<Feed<A>, InputFault>
    requires unread { R.read input.old ≡ nothing_read }
    requires called { CanServe serving.now }
    ensures filled { IsFilling serving.now result (R.read input.new) }

    // What the input is known to have left is what was read of it, up to its end where it is at its end.
    ensures reads { ReadsOn (R.read input.old) (R.read input.new) (R.remaining input.old) (R.remaining input.new)
        (R.beside input.old) (R.beside input.new) }
{
    let mut feed = open(alloc, serving)?;
    let mut cutter = Cutter::new(alloc);
    let mut records = 0;
    'records: loop {
        match push_next(&mut feed, &mut cutter, input, records + 1)? {
            Step::Pushed => records += 1,
            Step::Ended => return Ok(feed),
        }
    }
}

/// Gives the next record, which has this number, to the ring of its place, or returns that the input ended where a
/// record ended. A record that the input holds whole goes into its ring from there, and isn't copied before.
fn push_next<A: Allocator, R: Source>(
    feed: &mut Feed<A>,
    cutter: &mut Cutter<A>,
    input: &mut R,
    number: u64,
) -> Result<Step, InputFault>
    requires along { IsAlong (R.read input.old) cutter.old }
    requires room { (k : ℕ) (w : Window) → slice_get feed.old k ≡ Some w → w.next < 2 ^ 63 }
    ensures pushed { (serving : Serving) (views : List View) → CanServe serving
        → HasFilled serving (R.read input.old) cutter.old feed.old views → number ≡ length views + 1
        → IsNextPushed serving result views (R.read input.old) (R.read input.new) cutter.new feed.new }
    ensures reads { cutter.old.answer ≡ None → ReadsOn (R.read input.old) (R.read input.new) (R.remaining input.old)
        (R.remaining input.new) (R.beside input.old) (R.beside input.new) }
{
    if let Some(view) = cutter.peek(input) {
        let size = view.bytes().len();
        let taken = feed.take_record(view.bytes(), number);
        cutter.pass(input, size);
        return answer(taken);
    }
    match cutter.next(input)? {
        Some(view) => answer(feed.take_record(view.bytes(), number)),
        None => Ok(Step::Ended),
    }
}

/// What came of a record of which it is known whether a ring accepted it.
fn answer(taken: Result<usize, InputFault>) -> Result<Step, InputFault>
    ensures ok { OnOk taken (result ≡ Ok Step.Pushed) }
    ensures err { IfErr taken (λ fault. result ≡ Err fault) }
{
    match taken {
        Ok(_) => Ok(Step::Pushed),
        Err(fault) => Err(fault),
    }
}

/// The feed before the first record.
///
/// # Errors
///
/// `Stream` where an allocation was refused.
pub(crate) fn open<A: Allocator + Copy>(alloc: A, serving: &Serving) -> Result<Feed<A>, InputFault>
    requires { CanServe serving.now }
    ensures ok { IfOk result (λ feed. feed ≡ feed_of serving.now []) }
    ensures err { IfErr result (λ fault. fault ≡ InputFault.Stream StreamFault.Memory) }
{
    let mut feed = Feed::new();
    for (place, _) in serving.places.as_slice() {
        let Ok(ring) = Ring::new(alloc, *place, serving.capacity as usize, serving.first) else {
            return Err(InputFault::Stream(StreamFault::Memory));
        };
        feed.add_other(ring);
    }
    Ok(feed)
}
