//! Packing an archive anew by the stretches of its channels.
ghost use Rattle.std.specs.Prelude.{◌≡◌};
ghost use Rattle.mseed_stream.specs.Calls.{ReadsOn};
ghost use Rattle.mseed_stream.specs.Device.{nothing_read};
ghost use Rattle.mseed_repack.specs.ByStretches.{IsRestretching};
ghost use Rattle.mseed_repack.specs.Selected.{IsSelectedRestretching};

use crate::anew::pack_asked;
use crate::fault::RepackFault;
use crate::refusing::LeftOut;
use crate::stretching::Cutting;
use mseed_pack::Options;
use mseed_record::{All, Choice};
use mseed_stream::{Sink, Source};
use std::alloc::Allocator;

/// Packs the archive that is read from `input` anew, each channel as a list of stretches, in the order of their keys.
/// All are judged, and all memory is requested, before the first byte is written. An archive with a channel of which a
/// record has a finding of its own, or a stretch can't be packed, is refused; or else, where such channels are to be
/// left out, a line for each is written to `errors`, and the others are written as they would be alone. Returns the
/// worst of what was left out. Nothing may have been read of the input before.
///
/// # Errors
///
/// `Stream` where the input failed or is no whole archive, `Broken` where a record has a finding of its own, `Misfit`
/// where a stretch can't be packed: each is checked of the whole archive before the next. `Write` where the output
/// failed, `Memory` where an allocation was refused.
pub fn repack_stretches<A: Allocator + Copy, R: Source, W: Sink, E: Sink>(
    alloc: A,
    options: &Options,
    leave: bool,
    input: &mut R,
    output: &mut W,
    errors: &mut E,
) -> Result<LeftOut, RepackFault>
    requires { R.read input.old ≡ nothing_read }
    ensures repacked { IsRestretching options.now leave result (R.read input.new)
        (W.written output.old) (W.written output.new) (E.written errors.old) (E.written errors.new) }

    // What the input is known to have left is what was read of it, up to its end where it is at its end.
    ensures reads { ReadsOn (R.read input.old) (R.read input.new) (R.remaining input.old) (R.remaining input.new)
        (R.beside input.old) (R.beside input.new) }
{
    repack_selected_stretches(alloc, &All, options, leave, input, output, errors)
}

/// Packs those records of the archive anew that are asked for, as [`repack_stretches`] does an archive of them alone:
/// whole, and whatever the others hold. It writes to `errors` how many lack a time, as
/// [`report_without_time`](crate::report_without_time) does: before the lines of the channels that are left out, and so
/// before anything is written; and where none is left out, at the end, as
/// [`repack_selected`](crate::repack_selected) does.
///
/// # Errors
///
/// Those of [`repack_stretches`]: `Stream` where the input, asked for or not, is no whole archive.
pub fn repack_selected_stretches<A: Allocator + Copy, C: Choice, R: Source, W: Sink, E: Sink>(
    alloc: A,
    choice: &C,
    options: &Options,
    leave: bool,
    input: &mut R,
    output: &mut W,
    errors: &mut E,
) -> Result<LeftOut, RepackFault>
    requires { R.read input.old ≡ nothing_read }
    ensures repacked { IsSelectedRestretching (C.selection choice.now) options.now leave result (R.read input.new)
        (W.written output.old) (W.written output.new) (E.written errors.old) (E.written errors.new) }

    // What the input is known to have left is what was read of it, up to its end where it is at its end.
    ensures reads { ReadsOn (R.read input.old) (R.read input.new) (R.remaining input.old) (R.remaining input.new)
        (R.beside input.old) (R.beside input.new) }
{
    pack_asked(
        alloc,
        choice,
        Cutting::Stretches,
        options,
        leave,
        input,
        output,
        errors,
    )
}
