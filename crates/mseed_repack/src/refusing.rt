//! Channels that aren't packed: an archive is refused for them, or they are left out.
ghost use Rattle.std.specs.Prelude.{◌≡◌, ◌<◌, ◌≤◌, ◌+◌, ◌++◌, ℕ, List, [], length, map, take, false, All};
ghost use Rattle.std.specs.Prelude.{IfNone, IfSome, decimal};
ghost use Rattle.std.specs.Prelude.{slice_index_or};
ghost use Rattle.std.specs.List.{AllByRecursion};
ghost use Rattle.mseed_record.specs.Viewing.{view_of};
ghost use Rattle.mseed_stream.specs.LineWritten.{WritesLine};
ghost use Rattle.mseed_audit.specs.Channels.{Placed};
ghost use Rattle.mseed_pack.specs.declared.options.Options.{Options};
ghost use Rattle.mseed_repack.specs.ByStretches.{AreFound, AreReported, IsFit, IsReportOf, ReportsEach};
ghost use Rattle.mseed_repack.specs.ByStretches.{broken_line, broken_text, finding_line, left_out_of, worse_of};
ghost use Rattle.mseed_repack.specs.Misfits.{misfit_line, misfit_number, misfit_text, stretch_words};
ghost use Rattle.mseed_repack.specs.private.Archives.{IsAudited};
ghost use Rattle.mseed_repack.specs.private.Places.{ArePlaces};
ghost use Rattle.mseed_repack.specs.private.Planning.{IsPackabilityAs};
ghost use Rattle.mseed_repack.specs.private.Restretching.{AreFoundAs, IsFirstRefused, IsUnbroken};
ghost use Rattle.mseed_repack.specs.declared.packability.Packability.{Packability};
ghost use Rattle.mseed_repack.specs.declared.stretching.Cutting.{Cutting};

use crate::archive::Archive;
use crate::fault::RepackFault;
use crate::misfit::{misfit_number, put_misfit_more};
use crate::own::first_own;
use crate::packability::Packability;
use crate::places::Places;
use mseed_audit::{Finding, Verdict, put_why};
use mseed_pack::PackFault;
use mseed_record::{Choice, Codes};
use mseed_steim::Encoding;
use mseed_stream::{Sink, report};
use mseed_text::{LONGEST_LINE, Line};

/// What was left out, the worst of it.
#[derive(Clone, Copy, Debug, PartialEq, Eq)]
pub enum LeftOut {
    /// Nothing.
    Nothing,
    /// A channel of which a record has a finding of its own, and none of which a stretch can't be packed.
    Broken,
    /// A channel of which a stretch can't be packed.
    Misfit,
}

/// Returns why an archive with such channels is refused, unless these are left out: the first that is broken, else the
/// first that doesn't fit.
pub(crate) fn refusal_unless<C: Choice>(
    leave: bool,
    archive: &Archive<'_, '_>,
    packabilities: &[Packability],
    places: &Places<'_, C>,
) -> Option<RepackFault>
    requires audited { IsAudited archive.now }
    requires each { length packabilities.now ≡ length archive.now.channels.now }
    requires found { AreFoundAs (map view_of archive.now.views.now) archive.now.channels.now packabilities.now }
    ensures some { IfSome result (λ fault. (cutting : Cutting) (o : Options) (ps : List Placed)
        → ArePlaces (C.selection places.now.choice.now) places.now.bytes.now (map view_of archive.now.views.now) ps
        → AreFound (IsPackabilityAs cutting o) (map view_of archive.now.views.now)
        archive.now.channels.now packabilities.now
        → IsFirstRefused cutting o ps (map view_of archive.now.views.now) archive.now.channels.now fault) }
    ensures refuses { IfSome result (λ _. leave ≡ false) }
    ensures fit { IfNone result (leave ≡ false → AllByRecursion IsFit packabilities.now) }
{
    if leave {
        return None;
    }
    if let Some(number) = first_broken(packabilities) {
        let first = first_own(&archive.channel_walk(number), places);
        return Some(RepackFault::Broken(archive.channels[number].0, first));
    }
    match first_misfit(packabilities) {
        Some((number, stretch, fault)) => Some(RepackFault::Misfit(
            archive.channels[number].0,
            stretch,
            fault,
        )),
        None => None,
    }
}

/// Returns the index of the first channel that is broken.
fn first_broken(packabilities: &[Packability]) -> Option<usize>
    ensures inside { IfSome result (λ number. number < length packabilities.now) }
    ensures some { IfSome result (λ number. slice_index_or packabilities.now number Packability.Fit
        ≡ Packability.Broken) }
    ensures before { IfSome result (λ number. All IsUnbroken (take number packabilities.now)) }
    ensures none { IfNone result (All IsUnbroken packabilities.now) }
{
    for (number, packability) in packabilities.iter().enumerate() {
        if let Packability::Broken = packability {
            return Some(number);
        }
    }
    None
}

/// Returns the index of the first channel of which a stretch doesn't fit, with the stretch's number, from 1, and the
/// reason.
fn first_misfit(packabilities: &[Packability]) -> Option<(usize, u64, PackFault)>
    requires { All IsUnbroken packabilities.now }
    ensures inside { IfSome result (λ found. found.0 < length packabilities.now) }
    ensures some { IfSome result (λ found. slice_index_or packabilities.now found.0 Packability.Fit
        ≡ Packability.Misfit found.1 found.2) }
    ensures before { IfSome result (λ found. All IsFit (take found.0 packabilities.now)) }
    ensures none { IfNone result (All IsFit packabilities.now) }
{
    for (number, packability) in packabilities.iter().enumerate() {
        if let Packability::Misfit(stretch, fault) = *packability {
            return Some((number, stretch, fault));
        }
    }
    None
}

/// Writes a line to `errors` for each channel that is left out, which says why, in the order of their keys; where a
/// stretch of it can't be packed in the encoding, one more.
pub(crate) fn report_left_out<E: Sink>(
    channels: &[(Codes, Verdict)],
    packabilities: &[Packability],
    encoding: Encoding,
    errors: &mut E,
)
    requires { length packabilities.now ≡ length channels.now }
    ensures { AreReported encoding channels.now packabilities.now (E.written errors.old) (E.written errors.new) }
{
    for (number, channel) in channels.iter().enumerate() {
        report_packability(&channel.0, &packabilities[number], encoding, errors);
    }
}

/// Writes to `errors` why a channel is left out, where it is.
fn report_packability<E: Sink>(
    channel: &Codes,
    packability: &Packability,
    encoding: Encoding,
    errors: &mut E,
)
    ensures { (lines : List (List ℕ)) × (IsReportOf encoding channel.now packability.now lines
        × ReportsEach lines (E.written errors.old) (E.written errors.new)) }
{
    match *packability {
        Packability::Fit => {}
        Packability::Broken => report_left_broken(channel, errors),
        Packability::Misfit(stretch, fault) => {
            report_misfit(channel, Some(stretch), encoding, &fault, errors)
        }
    }
}

/// Writes a line to `errors` that says that a channel that is left out is broken. A failure of `errors` is ignored.
fn report_left_broken<E: Sink>(channel: &Codes, errors: &mut E)
    ensures { WritesLine (broken_line channel.now) (E.written errors.old) (E.written errors.new) }
{
    let mut line = Line::new();
    put_broken(&mut line, channel);
    report(errors, line.as_slice());
}

/// Writes a line to `errors` that says that a channel is broken, and one with a finding of a record of its, as an
/// audit's text has it. A failure of `errors` is ignored.
pub fn report_broken<E: Sink>(channel: &Codes, finding: &Finding, errors: &mut E)
    ensures { WritesLine (broken_text channel.now finding.now) (E.written errors.old) (E.written errors.new) }
{
    let mut line = Line::new();
    put_broken(&mut line, channel);
    put_finding(&mut line, finding);
    report(errors, line.as_slice());
}

/// Puts the line that says that a channel is broken into a line without text.
fn put_broken(line: &mut Line, channel: &Codes)
    requires { line.old ≡ [] }
    ensures text { line.new ≡ broken_line channel.now }
    ensures most { length line.new ≤ 64 }
{
    line.put(b"mseed: ");
    line.put_name(channel);
    line.put(b" is broken\n");
}

/// Puts the line with a finding at the end of a line.
fn put_finding(line: &mut Line, finding: &Finding)
    requires { length line.old + 118 ≤ LONGEST_LINE }
    ensures { line.new ≡ line.old ++ finding_line finding.now }
{
    line.put_labelled(b"mseed: record ", finding.number);
    line.put_labelled(b" offset ", finding.offset);
    line.put(b" ");
    put_why(line, &finding.why);
    line.put(b"\n");
}

/// Writes a line to `errors` that says that a channel can't be packed in an encoding, or which stretch of it can't, by
/// its number, from 1, and why, by [`misfit_number`]; and one that says it in words, as [`put_misfit_more`] does. A
/// failure of `errors` is ignored.
pub fn report_misfit<E: Sink>(
    channel: &Codes,
    stretch: Option<u64>,
    encoding: Encoding,
    fault: &PackFault,
    errors: &mut E,
)
    ensures { WritesLine (misfit_text encoding channel.now stretch fault.now) (E.written errors.old)
        (E.written errors.new) }
{
    let mut line = Line::new();
    put_misfit(&mut line, channel, stretch, fault);
    put_misfit_more(&mut line, encoding, fault);
    report(errors, line.as_slice());
}

/// Puts the line that says that a channel can't be packed, or which stretch of it can't, into a line without text.
fn put_misfit(line: &mut Line, channel: &Codes, stretch: Option<u64>, fault: &PackFault)
    requires { line.old ≡ [] }
    ensures text { line.new ≡ misfit_line channel.now stretch fault.now }
    ensures most { length line.new ≤ 67 }
{
    line.put(b"mseed: ");
    line.put_name(channel);
    line.put(b" does not fit ");
    put_number(line, fault);
    put_stretch(line, stretch);
    line.put(b"\n");
}

/// Puts the number of why a channel can't be packed, which is a digit, at the end of a line.
fn put_number(line: &mut Line, fault: &PackFault)
    requires { length line.old + 20 ≤ LONGEST_LINE }
    ensures text { line.new ≡ line.old ++ decimal (misfit_number fault.now) }
    ensures most { length line.new ≤ length line.old + 1 }
{
    line.put_count(misfit_number(fault));
}

/// Puts which stretch of a channel it is at the end of a line, where the channel is packed by stretches.
fn put_stretch(line: &mut Line, stretch: Option<u64>)
    requires { length line.old + 29 ≤ LONGEST_LINE }
    ensures text { line.new ≡ line.old ++ stretch_words stretch }
    ensures most { length line.new ≤ length line.old + 29 }
{
    if let Some(number) = stretch {
        line.put_labelled(b" stretch ", number);
    }
}

/// Returns the worst of what is left out, by what is found of each channel.
pub(crate) fn left_out_of(packabilities: &[Packability]) -> LeftOut
    ensures { result ≡ left_out_of packabilities.now }
{
    let mut left = LeftOut::Nothing;
    for turn in 0..packabilities.len() {
        left = worse_of(&packabilities[packabilities.len() - 1 - turn], left);
    }
    left
}

/// Returns the worse of what is left out for one channel, and for others.
fn worse_of(packability: &Packability, left: LeftOut) -> LeftOut
    ensures { result ≡ worse_of packability.now left }
{
    match (packability, left) {
        (Packability::Fit, left) => left,
        (Packability::Broken, LeftOut::Nothing) => LeftOut::Broken,
        (Packability::Broken, left) => left,
        (Packability::Misfit(_, _), _) => LeftOut::Misfit,
    }
}
