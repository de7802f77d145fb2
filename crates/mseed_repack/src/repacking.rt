//! Packing an archive anew.
ghost use Rattle.std.specs.Prelude.{◌≡◌};
ghost use Rattle.mseed_stream.specs.Calls.{ReadsOn};
ghost use Rattle.mseed_stream.specs.Device.{nothing_read};
ghost use Rattle.mseed_repack.specs.Repack.{IsRepacking};
ghost use Rattle.mseed_repack.specs.Selected.{IsSelectedRepacking};

use crate::anew::pack_asked;
use crate::fault::RepackFault;
use crate::stretching::Cutting;
use mseed_pack::Options;
use mseed_record::{All, Choice};
use mseed_stream::{Counted, Sink, Source};
use std::alloc::Allocator;
use std::io::sink;

/// Packs the archive that is read from `input` anew: the series of its channels, in the order of their keys. All are
/// judged, and all memory is requested, before the first byte is written. Nothing may have been read of the input
/// before.
///
/// # Errors
///
/// `Stream` where the input failed or is no whole archive, `Broken` where a channel isn't continuous, `Misfit` where a
/// series can't be packed: each is checked of the whole archive before the next. `Write` where the output failed,
/// `Memory` where an allocation was refused.
pub fn repack<A: Allocator + Copy, R: Source, W: Sink>(
    alloc: A,
    options: &Options,
    input: &mut R,
    output: &mut W,
) -> Result<(), RepackFault>
    requires { R.read input.old ≡ nothing_read }
    ensures repacked { IsRepacking options.now result (R.read input.new) (W.written output.old) (W.written output.new) }

    // What the input is known to have left is what was read of it, up to its end where it is at its end.
    ensures reads { ReadsOn (R.read input.old) (R.read input.new) (R.remaining input.old) (R.remaining input.new)
        (R.beside input.old) (R.beside input.new) }
{
    // Where no window is given, nothing is reported.
    let mut errors = Counted::new(sink());
    repack_selected(alloc, &All, options, input, output, &mut errors)
}

/// Packs those records of the archive anew that are asked for, as [`repack`] does an archive of them alone: whole, and
/// whatever the others hold. Then it writes to `errors` how many lack a time, as
/// [`report_without_time`](crate::report_without_time) does: also where the archive is refused, and of an input with a
/// fault how many before it; but not where the output failed or memory was refused.
///
/// # Errors
///
/// Those of [`repack`]: `Stream` where the input, asked for or not, is no whole archive.
pub fn repack_selected<A: Allocator + Copy, C: Choice, R: Source, W: Sink, E: Sink>(
    alloc: A,
    choice: &C,
    options: &Options,
    input: &mut R,
    output: &mut W,
    errors: &mut E,
) -> Result<(), RepackFault>
    requires { R.read input.old ≡ nothing_read }
    ensures repacked { IsSelectedRepacking (C.selection choice.now) options.now result (R.read input.new)
        (W.written output.old) (W.written output.new) (E.written errors.old) (E.written errors.new) }

    // What the input is known to have left is what was read of it, up to its end where it is at its end.
    ensures reads { ReadsOn (R.read input.old) (R.read input.new) (R.remaining input.old) (R.remaining input.new)
        (R.beside input.old) (R.beside input.new) }
{
    match pack_asked(
        alloc,
        choice,
        Cutting::Whole,
        options,
        false,
        input,
        output,
        errors,
    ) {
        Ok(_) => Ok(()),
        Err(fault) => Err(fault),
    }
}
