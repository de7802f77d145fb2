//! What is reported of the files that words name.
ghost use Rattle.std.specs.Prelude.{◌++◌, ◌≡◌, IfOk, map};
ghost use Rattle.mseed_files.specs.InputFiles.{IsReportedPlace, ReportsBlame, ReportsFault, ReportsFile, ReportsName};
ghost use Rattle.mseed_files.specs.InputFiles.{ReportsFailure, ReportsPlace, ReportsReason, cannot_read, failed_read};
ghost use Rattle.mseed_files.specs.InputFiles.{fault_in};
ghost use Rattle.mseed_text.specs.Shown.{shown_byte};

use crate::blame::Blame;
use crate::chain::Chain;
use crate::files::Files;
use crate::lines::report_no_memory;
use crate::place::Place;
use crate::reason::Reason;
use crate::tracked_source::TrackedSource;
use mseed_stream::{Sink, report};
use mseed_text::{Line, shown_byte};
use std::alloc::{AllocError, Global};

/// Reports what is wrong with the input that these files are, if something is: which of them can't be read, or in which
/// one the fault lies; but where a record was cut that ends where the fault lies, and reaches over the end of the file
/// in which it begins, it is that record that is reported.
pub fn report_blame<E: Sink, F: Files>(
    alloc: Global,
    errors: &mut E,
    names: &[&[u8]],
    input: &TrackedSource<Chain<F>>,
    blame: Blame,
)
    ensures { ReportsBlame blame names.now input.now (E.written errors.old) (E.written errors.new) }
{
    match blame {
        Blame::Nothing => {}
        Blame::Read => {
            let chain = input.source();
            report_failed_file(alloc, errors, names, chain.failed(), chain.reason());
        }
        Blame::Fault(offset) => report_faulty_file(alloc, errors, names, input, offset),
    }
}

/// Reports why a read of an input failed that has no name, if that is what is wrong with it. The line needs no memory.
pub fn report_reason<E: Sink, F: Files>(
    errors: &mut E,
    input: &TrackedSource<Chain<F>>,
    blame: Blame,
)
    ensures { ReportsReason blame input.now (E.written errors.old) (E.written errors.new) }
{
    match blame {
        Blame::Nothing => {}
        Blame::Read => {
            let chain = input.source();
            report_failure(errors, chain.failed(), chain.reason());
        }
        Blame::Fault(_) => {}
    }
}

/// Reports why a read failed, if one did.
fn report_failure<E: Sink>(errors: &mut E, failed: Option<usize>, reason: Reason)
    ensures { ReportsFailure failed (failed_read reason) (E.written errors.old) (E.written errors.new) }
{
    if failed.is_some() {
        let mut line = Line::new();
        line.put(b"mseed: ");
        line.put(reason.text().as_bytes());
        line.put(b"\n");
        report(errors, line.as_slice());
    }
}

/// Reports which file failed, if one did, and why.
fn report_failed_file<E: Sink>(
    alloc: Global,
    errors: &mut E,
    names: &[&[u8]],
    failed: Option<usize>,
    reason: Reason,
)
    ensures { ReportsFile failed names.now (cannot_read reason) (E.written errors.old) (E.written errors.new) }
{
    if let Some(file) = failed
        && let Some(word) = names.get(file)
    {
        report_unreadable(alloc, errors, word, reason);
    }
}

/// Reports in which file a fault lies that is found at an offset.
fn report_faulty_file<E: Sink, F: Files>(
    alloc: Global,
    errors: &mut E,
    names: &[&[u8]],
    input: &TrackedSource<Chain<F>>,
    offset: u64,
)
    ensures { ReportsFault offset names.now input.now (E.written errors.old) (E.written errors.new) }
{
    let place = place_to_report(input.source(), offset, input.record_before(offset));
    report_place(alloc, errors, names, place);
}

/// Where a fault is reported that lies at an offset: where the record before it begins, if that reaches over the end of
/// its file, and else where it lies. None where no file was opened.
fn place_to_report<F: Files>(chain: &Chain<F>, offset: u64, last: Option<u64>) -> Option<Place>
    ensures { IsReportedPlace chain.now.files offset last result }
{
    let own = chain.place_of(offset)?;
    let Some(last) = last else {
        return Some(own);
    };
    let before = chain.place_of(last)?;
    let end = chain.place_of(offset.saturating_sub(1))?;
    Some(if end.file == before.file { own } else { before })
}

/// Reports that a fault lies in a file, and where, if it lies in one.
fn report_place<E: Sink>(alloc: Global, errors: &mut E, names: &[&[u8]], place: Option<Place>)
    ensures { ReportsPlace place names.now (E.written errors.old) (E.written errors.new) }
{
    if let Some(place) = place
        && let Some(word) = names.get(place.file)
    {
        report_fault_in(alloc, errors, word, place.offset);
    }
}

/// Reports that the file that a word names can't be read, and why.
pub fn report_unreadable<E: Sink>(alloc: Global, errors: &mut E, word: &[u8], reason: Reason)
    ensures { ReportsName (cannot_read reason word.now) (E.written errors.old) (E.written errors.new) }
{
    let mut after = Line::new();
    after.put(b": ");
    after.put(reason.text().as_bytes());
    after.put(b"\n");
    report_named(
        alloc,
        errors,
        b"mseed: cannot read ",
        word,
        after.as_slice(),
    );
}

/// Reports that a fault lies in the file that a word names, after `offset` bytes of it.
fn report_fault_in<E: Sink>(alloc: Global, errors: &mut E, word: &[u8], offset: u64)
    ensures { ReportsName (fault_in offset word.now) (E.written errors.old) (E.written errors.new) }
{
    let mut after = Line::new();
    after.put_labelled(b" at ", offset);
    after.put(b"\n");
    report_named(alloc, errors, b"mseed: fault in ", word, after.as_slice());
}

/// Reports something of the file that a word names, by the text before the name and after it.
fn report_named<E: Sink>(alloc: Global, errors: &mut E, before: &[u8], word: &[u8], after: &[u8])
    ensures { ReportsName (before.now ++ map shown_byte word.now ++ after.now) (E.written errors.old)
        (E.written errors.new) }
{
    match named_line(alloc, before, word, after) {
        Ok(line) => report(errors, &line),
        Err(AllocError) => report_no_memory(errors),
    }
}

/// A line about the file that a word names.
///
/// # Errors
///
/// Where there is no memory for it.
fn named_line(
    alloc: Global,
    before: &[u8],
    word: &[u8],
    after: &[u8],
) -> Result<Vec<u8>, AllocError>
    ensures { IfOk result (λ line. line.items ≡ before.now ++ map shown_byte word.now ++ after.now) }
{
    let mut line = Vec::new(alloc);
    line.extend_from_slice(before)?;
    for byte in word {
        line.push(shown_byte(*byte))?;
    }
    line.extend_from_slice(after)?;
    Ok(line)
}
