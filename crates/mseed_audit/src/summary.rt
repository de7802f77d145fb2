//! The audit of an archive.
ghost use Rattle.std.specs.Prelude.{◌≡◌, ◌<◌, ◌≤◌, ◌+◌, ◌++◌, ◌^◌, ◌∷◌, [], List, ℕ, IfOk, MatchResult, None};
ghost use Rattle.mseed_record.specs.View.{View};
ghost use Rattle.mseed_record.specs.Viewing.{view_of};
ghost use Rattle.mseed_stream.specs.Calls.{ReadsOn, WritesOn};
ghost use Rattle.mseed_stream.specs.Cutting.{IsAlong};
ghost use Rattle.mseed_stream.specs.Device.{BytesRead, nothing_read};
ghost use Rattle.mseed_record.specs.Selection.{Selection};

use crate::audits::{Audit, Memory};
use crate::each::EachFault;
use crate::finding::Finding;
use crate::passed::Passed;
use crate::report::{Report, Unreported};
use crate::text::push_audit;
use crate::verdict::Verdict;
use mseed_record::{All, Answer, Choice, Codes, RecordView};
use mseed_stream::{Cutter, Failed, Sink, Source, StreamFault, write_all_of};
use std::alloc::{Allocator, Global};
use thiserror::Error;

/// What an audit's text says in numbers.
#[derive(Clone, Copy, Debug, PartialEq, Eq)]
pub struct Summary {
    /// How many records there are, silent ones (those without samples) too.
    pub records: u64,
    /// How many channels with samples there are.
    pub channels: u64,
    /// How many channels are broken.
    pub broken: u64,
    /// Whether the text ends with the line of a fault.
    pub fault: bool,
    /// The fault with which the input ends, if with one.
    pub end: Option<StreamFault>,
}

/// What the text of the audit of the records that are asked for says in numbers.
#[derive(Clone, Copy, Debug, PartialEq, Eq)]
pub struct SelectedSummary {
    /// What it says: the records and the channels are those that are asked for, the fault is the input's.
    pub summary: Summary,
    /// How many records weren't judged since their start isn't known, though their channel is asked for and a window
    /// is given.
    pub without_time: u64,
}

/// Why an audit's text wasn't written whole.
#[derive(Clone, Copy, Debug, PartialEq, Eq, Error)]
pub enum AuditFault {
    /// The output failed, once it had taken this number of bytes of the text.
    #[error("the output failed after {0} bytes")]
    Write(usize),
    /// An allocation was refused. Nothing was written.
    #[error("no memory")]
    Memory,
}

/// What comes next of an input.
#[derive(Clone, Copy)]
pub(crate) enum Step {
    /// A record, which was judged or passed.
    Taken,
    /// Its end, by the fault, if by one.
    Ended(Option<StreamFault>),
}

/// What the records of an input come to, up to its end.
#[derive(Drop)]
pub struct Gathered<A: Allocator = Global> {
    /// The audit of the records.
    pub audit: Audit<A>,
    /// The fault with which the input ends, if with one.
    pub end: Option<StreamFault>,
    /// How many bytes all the records have.
    pub bytes: u64,
}

/// What the records of an input come to, of which those that are asked for are judged.
#[derive(Drop)]
pub(crate) struct GatheredSelected<A: Allocator> {
    /// What all come to: the audit passed those that aren't asked for.
    pub(crate) gathered: Gathered<A>,
    /// How many those are.
    pub(crate) passed: Passed,
}

ghost use Rattle.mseed_audit.specs.private.Gathered.{HasEnded, HasJudged, HasReport, IsFinished, IsGathering};
ghost use Rattle.mseed_audit.specs.private.Gathered.{IsJudged, IsNext};
ghost use Rattle.mseed_audit.specs.Scope.{asked_of};
ghost use Rattle.mseed_stream.specs.Walk.{AreViews};
ghost use Rattle.mseed_audit.specs.Selected.{IsSelectedOutcome};
ghost use Rattle.mseed_audit.specs.Summary.{IsOutcome, IsGathered, broken_count};

/// Audits the records that a source gives, and writes the text of the audit. The source is one of which
/// nothing was read yet.
///
/// # Errors
///
/// `Write` where the output failed, `Memory` where an allocation was refused.
pub fn audit<A: Allocator + Copy, R: Source, W: Sink>(
    alloc: A,
    source: &mut R,
    sink: &mut W,
) -> Result<Summary, AuditFault>
    requires { R.read source.old ≡ nothing_read }
    ensures outcome { IsOutcome result (R.read source.new) (W.written sink.old) (W.written sink.new) }

    // What the source is known to have left is what was read of it, up to its end where the input is at its end.
    ensures reads { ReadsOn (R.read source.old) (R.read source.new) (R.remaining source.old) (R.remaining source.new)
        (R.beside source.old) (R.beside source.new) }

    // What the sink is known to hold grew by what it accepted.
    ensures writes { WritesOn (W.written sink.old) (W.written sink.new) (W.contents sink.old) (W.contents sink.new)
        (W.beside sink.old) (W.beside sink.new) }
{
    match audit_selected(alloc, &All, source, sink) {
        Ok(found) => Ok(found.summary),
        Err(fault) => Err(fault),
    }
}

/// Audits those of the records that a source gives that are asked for, as if no others were there, and writes the text
/// of the audit: it counts the records that are asked for and their channels, and a finding's number and offset, and
/// the fault's, are those in the whole input. The source is one of which nothing was read yet.
///
/// # Errors
///
/// `Write` where the output failed, `Memory` where an allocation was refused.
pub fn audit_selected<A: Allocator + Copy, C: Choice, R: Source, W: Sink>(
    alloc: A,
    choice: &C,
    source: &mut R,
    sink: &mut W,
) -> Result<SelectedSummary, AuditFault>
    requires { R.read source.old ≡ nothing_read }
    ensures outcome { IsSelectedOutcome (C.selection choice.now) result (R.read source.new) (W.written sink.old)
        (W.written sink.new) }

    // What the source is known to have left is what was read of it, up to its end where the input is at its end.
    ensures reads { ReadsOn (R.read source.old) (R.read source.new) (R.remaining source.old) (R.remaining source.new)
        (R.beside source.old) (R.beside source.new) }

    // What the sink is known to hold grew by what it accepted.
    ensures writes { WritesOn (W.written sink.old) (W.written sink.new) (W.contents sink.old) (W.contents sink.new)
        (W.beside sink.old) (W.beside sink.new) }
{
    let selected = match gather_with(alloc, choice, source, &mut Unreported, &mut ()) {
        Ok(selected) => selected,
        Err(_) => return Err(AuditFault::Memory),
    };
    let mut text = Vec::new(alloc);
    let found = match push_finished(&mut text, selected) {
        Ok(found) => found,
        Err(Memory) => return Err(AuditFault::Memory),
    };
    match write_all_of(sink, &text) {
        Ok(()) => Ok(found),
        Err(taken) => Err(AuditFault::Write(taken)),
    }
}

/// Adds the audit's text, and returns what it says in numbers.
pub(crate) fn push_finished<A: Allocator + Copy>(
    text: &mut Vec<u8, A>,
    selected: GatheredSelected<A>,
) -> Result<SelectedSummary, Memory>
    requires { selected.passed.left + selected.passed.without_time ≤ selected.gathered.audit.added }
    ensures { (s : Selection) (h : BytesRead) (views : List View)
        → HasEnded s selected.gathered.audit selected.passed selected.gathered.end selected.gathered.bytes h views
        → IfOk result (λ found. IsFinished s found h views text.old.items text.new.items) }
{
    let GatheredSelected { gathered, passed } = selected;
    let Gathered { audit, end, .. } = gathered;
    let records = audit.added() - passed.left - passed.without_time;
    let verdicts = audit.finish();
    match push_audit(text, verdicts.as_slice(), records, &end) {
        Ok(()) => Ok(SelectedSummary {
            summary: Summary {
                records,
                channels: verdicts.as_slice().len() as u64,
                broken: count_broken(verdicts.as_slice()),
                fault: end.is_some(),
                end,
            },
            without_time: passed.without_time,
        }),
        Err(_) => Err(Memory),
    }
}

/// Audits the records that a source gives up to its end, and returns what they come to. The source is one of which
/// nothing was read yet.
///
/// # Errors
///
/// `Memory` where an allocation was refused.
pub fn gather<A: Allocator + Copy, R: Source>(
    alloc: A,
    source: &mut R,
) -> Result<Gathered<A>, Memory>
    requires { R.read source.old ≡ nothing_read }
    ensures gathered { IfOk result (λ found. (views : List View)
        × IsGathered found.audit found.end found.bytes (R.read source.new) views) }

    // What the source is known to have left is what was read of it, up to its end where the input is at its end.
    ensures reads { ReadsOn (R.read source.old) (R.read source.new) (R.remaining source.old) (R.remaining source.new)
        (R.beside source.old) (R.beside source.new) }
{
    match gather_with(alloc, &All, source, &mut Unreported, &mut ()) {
        Ok(found) => Ok(found.gathered),
        Err(_) => Err(Memory),
    }
}

/// Audits those of the records that a source gives that are asked for, up to its end, and reports those with a finding.
///
/// # Errors
///
/// `Write` where the output of the report failed, `Memory` where an allocation was refused.
pub(crate) fn gather_with<A: Allocator + Copy, C: Choice, R: Source, O, P: Report<O>>(
    alloc: A,
    choice: &C,
    source: &mut R,
    report: &mut P,
    output: &mut O,
) -> Result<GatheredSelected<A>, EachFault>
    requires read { R.read source.old ≡ nothing_read }
    requires report { P.stands output.old report.old output.old [] }
    ensures gathered { IsGathering (C.selection choice.now) result (R.read source.new)
        (P.stands output.old report.new output.new) (P.fails output.old output.new) }
    ensures reads { ReadsOn (R.read source.old) (R.read source.new) (R.remaining source.old) (R.remaining source.new)
        (R.beside source.old) (R.beside source.new) }
{
    let mut cutter = Cutter::new(alloc);
    let mut audit = Audit::new(alloc);
    let mut passed = Passed::none();
    'records: loop {
        let bytes = cutter.offset();
        match take_next(&mut audit, &mut passed, choice, &mut cutter, source, report) {
            Ok(Step::Taken) => {}
            Ok(Step::Ended(end)) => {
                return Ok(GatheredSelected {
                    gathered: Gathered { audit, end, bytes },
                    passed,
                });
            }
            Err(Memory) => return Err(EachFault::Memory),
        }
        match report.write(output) {
            Ok(()) => {}
            Err(Failed) => return Err(EachFault::Write),
        }
    }
}

/// Judges the next record where it is asked for, and reports it, if something is found of it, or passes it; or returns
/// how the input ends. A record that the source holds whole isn't copied.
#[inline(always)]
fn take_next<A: Allocator + Copy, C: Choice, R: Source, O, P: Report<O>>(
    audit: &mut Audit<A>,
    passed: &mut Passed,
    choice: &C,
    cutter: &mut Cutter<A>,
    source: &mut R,
    report: &mut P,
) -> Result<Step, Memory>
    requires along { IsAlong (R.read source.old) cutter.old }
    requires few { audit.old.added ≤ (R.read source.old).calls }
    requires passed { passed.old.left + passed.old.without_time ≤ audit.old.added }
    ensures next { (first now : O) (before : HasJudged (C.selection choice.now) (R.read source.old) cutter.old
        audit.old passed.old (P.stands first report.old now))
        → IsNext (C.selection choice.now) result before.views cutter.old.offset (R.read source.old)
        (R.read source.new) cutter.new audit.new passed.new (P.stands first report.new now) }
    ensures reads { cutter.old.answer ≡ None → ReadsOn (R.read source.old) (R.read source.new) (R.remaining source.old)
        (R.remaining source.new) (R.beside source.old) (R.beside source.new) }
{
    let offset = cutter.offset();
    match cutter.peek(source) {
        Some(view) => {
            judge(audit, passed, choice, &view, offset, report)?;
            let size = view.bytes().len();
            cutter.pass(source, size);
            Ok(Step::Taken)
        }
        None => match cutter.next(source) {
            Ok(Some(view)) => {
                judge(audit, passed, choice, &view, offset, report)?;
                Ok(Step::Taken)
            }
            Ok(None) => Ok(Step::Ended(None)),
            Err(StreamFault::Memory) => Err(Memory),
            Err(fault) => Ok(Step::Ended(Some(fault))),
        },
    }
}

/// Adds a record that is asked for, and reports it, if something is found of it; passes another.
#[inline(always)]
fn judge<A: Allocator + Copy, C: Choice, O, P: Report<O>>(
    audit: &mut Audit<A>,
    passed: &mut Passed,
    choice: &C,
    view: &RecordView,
    offset: u64,
    report: &mut P,
) -> Result<(), Memory>
    requires few { audit.old.added < 2 ^ 40 }
    requires passed { passed.old.left + passed.old.without_time ≤ audit.old.added }
    ensures { (first now : O) (bytes : List ℕ) (views : List View) → AreViews bytes offset views
        → IsJudged (C.selection choice.now) audit.old passed.old (P.stands first report.old now) views
        → MatchResult result
        (λ _. IsJudged (C.selection choice.now) audit.new passed.new (P.stands first report.new now)
        (views ++ view_of view.now ∷ []))
        (λ _. HasReport (asked_of (C.selection choice.now) views) (P.stands first report.new now)) }
{
    let answer = choice.answer(view);
    if let Answer::AskedFor = answer {
        let Some(why) = audit.add_judged(view, offset)? else {
            return Ok(());
        };
        let number = audit.added();
        return report.add(
            view,
            &Finding {
                number,
                offset,
                why,
            },
        );
    }
    audit.pass();
    passed.add(answer);
    Ok(())
}

/// Returns how many verdicts say that a channel is broken.
pub(crate) fn count_broken(verdicts: &[(Codes, Verdict)]) -> u64
    ensures { result ≡ broken_count verdicts.now }
{
    let mut broken = 0;
    for (_, verdict) in verdicts {
        if !verdict.is_continuous() {
            broken += 1;
        }
    }
    broken
}
