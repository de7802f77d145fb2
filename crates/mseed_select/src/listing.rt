//! The listing of an input's records.
ghost use Rattle.std.specs.Prelude.{◌≡◌};
ghost use Rattle.mseed_stream.specs.Calls.{ReadsOn};
ghost use Rattle.mseed_stream.specs.Device.{nothing_read};
ghost use Rattle.mseed_select.specs.Show.{IsSelectedShown, IsShown, listing_texts};

use crate::copying::write_selected;
use crate::fault::SelectFault;
use crate::format::Format;
use crate::lines::{push_count_line, push_record_line};
use crate::selected::Selected;
use mseed_record::{All, Choice, RecordView};
use mseed_stream::{Sink, Source, StreamFault};
use mseed_text::push_fault_line;
use std::alloc::{AllocError, Allocator};

/// Lists the records of the input, and returns the fault with which it ended, if with one. The text is a line for each
/// record: its offset in bytes, its channel, quality, length in bytes, number of samples, start (UTC, to the
/// microsecond), rate in samples a second as a ratio, encoding and byte order (SEED manual, chapter 8: header and
/// blockettes 1000 and 100); then how many records there are, and the fault. Lines are written as records come, some
/// at a time. Nothing may have been read of the input before.
///
/// # Errors
///
/// `Write` where the output failed, `Memory` where memory was refused. A prefix of the text was written then.
pub fn show<A: Allocator + Copy, R: Source, W: Sink>(
    alloc: A,
    input: &mut R,
    output: &mut W,
) -> Result<Option<StreamFault>, SelectFault>
    requires unread { R.read input.old ≡ nothing_read }
    ensures shown { IsShown result (R.read input.new) (W.written output.old) (W.written output.new) }

    // What the input is known to have left is what was read of it, up to its end where it is at its end.
    ensures reads { ReadsOn (R.read input.old) (R.read input.new) (R.remaining input.old) (R.remaining input.new)
        (R.beside input.old) (R.beside input.new) }
{
    match show_selected(alloc, &All, input, output) {
        Ok(found) => Ok(found.end),
        Err(fault) => Err(fault),
    }
}

/// Lists those of the records of the input that are asked for, as [`show`] lists all, and returns how many records
/// there were, and the fault with which the input ended, if with one: the number that is listed is that of the lines,
/// and each offset, the fault's too, is that in the whole input. Nothing may have been read of the input before.
///
/// # Errors
///
/// `Write` where the output failed, `Memory` where memory was refused. A prefix of the text was written then.
pub fn show_selected<A: Allocator + Copy, C: Choice, R: Source, W: Sink>(
    alloc: A,
    choice: &C,
    input: &mut R,
    output: &mut W,
) -> Result<Selected, SelectFault>
    requires unread { R.read input.old ≡ nothing_read }
    ensures shown { IsSelectedShown (C.selection choice.now) result (R.read input.new) (W.written output.old)
        (W.written output.new) }

    // What the input is known to have left is what was read of it, up to its end where it is at its end.
    ensures reads { ReadsOn (R.read input.old) (R.read input.new) (R.remaining input.old) (R.remaining input.new)
        (R.beside input.old) (R.beside input.new) }
{
    write_selected(alloc, choice, &Listing, input, output)
}

/// The format of a listing: a line for each record, and at the end their number, and the fault, if there is one.
#[derive(Clone, Copy)]
pub(crate) struct Listing;

impl<A: Allocator> Format<A> for Listing {
    ghost texts = { λ _. listing_texts };

    #[inline(always)]
    fn push_record(
        &self,
        offset: u64,
        view: &RecordView,
        text: &mut Vec<u8, A>,
    ) -> Result<(), AllocError> {
        push_record_line(text, offset, view)
    }

    fn push_end(&self, found: &Selected, text: &mut Vec<u8, A>) -> Result<(), AllocError> {
        push_count_line(text, found.written)?;
        if let Some(fault) = &found.end {
            push_fault_line(text, fault)?;
        }
        Ok(())
    }
}
