//! Calls of `mseed_select`: lists.
ghost use Rattle.std.specs.Prelude.{◌≡◌};
ghost use Rattle.mseed_stream.specs.Device.{nothing_read};

use mseed_select::{SelectFault, Selector, show, show_selected};
use mseed_stream::{Counted, Sink, Source};
use std::alloc::Global;

/// The listing of a slice's records.
pub fn listing_of(alloc: Global, bytes: &[u8]) -> Result<Vec<u8>, SelectFault> {
    let mut source = Counted::new(bytes);
    let mut sink = Counted::new(Vec::new(alloc));
    show(alloc, &mut source, &mut sink)?;
    Ok(sink.into_inner())
}

/// Lists the records of an archive, and says whether it is whole.
pub fn is_whole<R: Source, W: Sink>(
    alloc: Global,
    source: &mut R,
    sink: &mut W,
) -> Result<bool, SelectFault>
    requires { R.read source.old ≡ nothing_read }
{
    let end = show(alloc, source, sink)?;
    Ok(end.is_none())
}

/// Lists the records of an archive that are asked for, and answers how many of their channels lack a time.
pub fn untimed_among<R: Source, W: Sink>(
    alloc: Global,
    selector: &Selector,
    source: &mut R,
    sink: &mut W,
) -> Result<u64, SelectFault>
    requires { R.read source.old ≡ nothing_read }
{
    let shown = show_selected(alloc, selector, source, sink)?;
    Ok(shown.without_time)
}
