//! Calls of `mseed_repack`.
ghost use Rattle.std.specs.Prelude.{◌≤◌, ◌^◌, length};

use mseed_pack::Options;
use mseed_record::RecordView;
use mseed_repack::{
    ChannelFault, RepackFault, misfit_number, put_misfit_more, repack, repack_channel,
    repack_selected, repack_selected_stretches, repack_stretches, report_broken, report_misfit,
    report_without_time,
};
use mseed_select::Selector;
use mseed_stream::Counted;
use mseed_text::Line;
use std::alloc::Global;

/// An archive packed anew.
pub fn packed_anew(
    alloc: Global,
    archive: &[u8],
    options: &Options,
) -> Result<Vec<u8>, RepackFault> {
    let mut input = Counted::new(archive);
    let mut output = Counted::new(Vec::new(alloc));
    repack(alloc, options, &mut input, &mut output)?;
    Ok(output.into_inner())
}

/// Whether packing an archive anew may be tried again: a device failed, or memory was refused.
pub fn may_be_retried(fault: &RepackFault) -> bool {
    match fault {
        RepackFault::Write | RepackFault::Memory => true,
        RepackFault::Stream(_) | RepackFault::Broken(..) | RepackFault::Misfit(..) => false,
    }
}

/// An archive packed anew by stretches, without the channels that can't be, and what says which these are.
pub fn packed_as_far(
    alloc: Global,
    archive: &[u8],
    options: &Options,
) -> Result<(Vec<u8>, Vec<u8>), RepackFault> {
    let mut input = Counted::new(archive);
    let mut output = Counted::new(Vec::new(alloc));
    let mut lines = Counted::new(Vec::new(alloc));
    repack_stretches(alloc, options, true, &mut input, &mut output, &mut lines)?;
    Ok((output.into_inner(), lines.into_inner()))
}

/// The records of an archive that are asked for, packed anew, and what says how many lack a time.
pub fn packed_of_selected(
    alloc: Global,
    selector: &Selector,
    archive: &[u8],
    options: &Options,
) -> Result<(Vec<u8>, Vec<u8>), RepackFault> {
    let mut input = Counted::new(archive);
    let mut output = Counted::new(Vec::new(alloc));
    let mut lines = Counted::new(Vec::new(alloc));
    repack_selected(
        alloc,
        selector,
        options,
        &mut input,
        &mut output,
        &mut lines,
    )?;
    Ok((output.into_inner(), lines.into_inner()))
}

/// The records that are asked for, packed anew by stretches without the channels that can't be packed, and the lines
/// about these.
pub fn packed_of_selected_as_far(
    alloc: Global,
    selector: &Selector,
    archive: &[u8],
    options: &Options,
) -> Result<(Vec<u8>, Vec<u8>), RepackFault> {
    let mut input = Counted::new(archive);
    let mut output = Counted::new(Vec::new(alloc));
    let mut lines = Counted::new(Vec::new(alloc));
    repack_selected_stretches(
        alloc,
        selector,
        options,
        true,
        &mut input,
        &mut output,
        &mut lines,
    )?;
    Ok((output.into_inner(), lines.into_inner()))
}

/// The line that says that three records lack a time.
pub fn line_of_three(alloc: Global) -> Vec<u8> {
    let mut line = Counted::new(Vec::new(alloc));
    report_without_time(3, &mut line);
    line.into_inner()
}

/// The lines that say for which channel an archive is refused, where it is for one.
pub fn line_of_refusal(alloc: Global, options: &Options, fault: &RepackFault) -> Vec<u8> {
    let mut line = Counted::new(Vec::new(alloc));
    match fault {
        RepackFault::Broken(channel, first) => report_broken(channel, first, &mut line),
        RepackFault::Misfit(channel, number, fault) => {
            report_misfit(channel, Some(*number), options.encoding, fault, &mut line)
        }
        RepackFault::Stream(_) | RepackFault::Write | RepackFault::Memory => {}
    }
    line.into_inner()
}

/// The number by which a line says why an archive can't be packed by stretches; none where it is refused for another
/// reason.
pub fn number_of_misfit(fault: &RepackFault) -> Option<u64> {
    match fault {
        RepackFault::Misfit(_channel, _stretch, fault) => Some(misfit_number(fault)),
        _ => None,
    }
}

/// The line that says in words why an archive can't be packed; none where it is refused for another reason.
pub fn words_of_misfit(options: &Options, fault: &RepackFault) -> Line {
    let mut line = Line::new();
    if let RepackFault::Misfit(_channel, _stretch, fault) = fault {
        put_misfit_more(&mut line, options.encoding, fault);
    }
    line
}

/// The records of a channel packed anew by its stretches.
pub fn packed_by_stretches(
    alloc: Global,
    records: &[RecordView],
    options: &Options,
) -> Result<Vec<u8>, ChannelFault>
    requires { length records.now ≤ 2 ^ 40 }
{
    let mut output = Counted::new(Vec::new(alloc));
    repack_channel(alloc, records, options, &mut output)?;
    Ok(output.into_inner())
}
