//! The input: those of its records that are asked for, where it is a whole archive.
ghost use Rattle.std.specs.Prelude.{◌≡◌, [], IfErr, IfOk, OnOk, map};
ghost use Rattle.mseed_record.specs.Viewing.{view_of};
ghost use Rattle.mseed_stream.specs.Calls.{ReadsOn};
ghost use Rattle.mseed_stream.specs.Device.{nothing_read};
ghost use Rattle.mseed_repack.specs.ReadBack.{IsReadOf};
ghost use Rattle.mseed_repack.specs.private.Restretching.{AreAsked, IsInputRefused};

use crate::asked::{keep_asked, refuse_input};
use crate::fault::RepackFault;
use mseed_record::{Choice, RecordView};
use mseed_stream::{Sink, Source, read_all_into, split_read};
use std::alloc::Allocator;

/// Those records of an archive that are asked for.
#[derive(Drop)]
pub(crate) struct Asked<'v, A: Allocator> {
    pub(crate) views: Vec<RecordView<'v>, A>,
    /// How many other records, of the channels that are asked for, lack a time.
    pub(crate) without_time: u64,
}

/// Reads an input, of which nothing was read yet, to its end, into a list, which is empty. Where it fails, it is
/// reported how many records before lack a time.
///
/// # Errors
///
/// `Stream` where the input failed, `Memory` where an allocation was refused.
pub(crate) fn read_input<A: Allocator, C: Choice, R: Source, E: Sink>(
    choice: &C,
    input: &mut R,
    archive: &mut Vec<u8, A>,
    errors: &mut E,
) -> Result<(), RepackFault>
    requires unread { R.read input.old ≡ nothing_read }
    requires none { archive.old.items ≡ [] }
    ensures read { OnOk result (IsReadOf archive.new.items (R.read input.new)) }
    ensures silent { OnOk result (E.written errors.new ≡ E.written errors.old) }
    ensures refused { IfErr result (λ fault. IsInputRefused (C.selection choice.now) fault (R.read input.new)
        (E.written errors.old) (E.written errors.new)) }
    ensures reads { ReadsOn (R.read input.old) (R.read input.new) (R.remaining input.old) (R.remaining input.new)
        (R.beside input.old) (R.beside input.new) }
{
    match read_all_into(input, archive) {
        Ok(()) => Ok(()),
        Err(fault) => Err(refuse_input(fault, archive, choice, errors)),
    }
}

/// Returns those records that are asked for of all that was read of an input. Where that is no whole archive, it is
/// reported how many records lack a time of those that it begins with.
///
/// # Errors
///
/// `Stream` where it isn't one, `Memory` where an allocation was refused.
pub(crate) fn split_asked<'v, A: Allocator, C: Choice, R: Source, E: Sink>(
    alloc: A,
    choice: &C,
    archive: &'v [u8],
    input: &mut R,
    errors: &mut E,
) -> Result<Asked<'v, A>, RepackFault>
    requires { IsReadOf archive.now (R.read input.old) }
    ensures asked { IfOk result (λ asked. AreAsked (C.selection choice.now) archive.now (R.read input.old)
        (map view_of asked.views.items) asked.without_time) }
    ensures silent { OnOk result (E.written errors.new ≡ E.written errors.old) }
    ensures refused { IfErr result (λ fault. IsInputRefused (C.selection choice.now) fault (R.read input.old)
        (E.written errors.old) (E.written errors.new)) }
    ensures read { R.read input.new ≡ R.read input.old }
    ensures remaining { R.remaining input.new ≡ R.remaining input.old }
    ensures beside { R.beside input.new ≡ R.beside input.old }
{
    let mut views = match split_read(alloc, archive, input) {
        Ok(views) => views,
        Err(fault) => return Err(refuse_input(fault, archive, choice, errors)),
    };
    let without_time = keep_asked(&mut views, choice);
    Ok(Asked {
        views,
        without_time,
    })
}
