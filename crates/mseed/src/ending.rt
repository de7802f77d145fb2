//! How commands end: what is said at their end, and the exit status.
ghost use Rattle.std.specs.Prelude.{◌≡◌, nat_lt, if◌then◌else◌, Ok};
ghost use Rattle.mseed_files.specs.Blame.{blame_by};
ghost use Rattle.mseed.specs.Joined.{EndsJoin};
ghost use Rattle.mseed.specs.Outcome.{EndsAudit, EndsBy, EndsEach, ReportsLines, of_all, summary_report};
ghost use Rattle.mseed.specs.Repacked.{EndsRepack};
ghost use Rattle.mseed.specs.Restretched.{EndsStretches};
ghost use Rattle.mseed.specs.Selected.{EndsSelect, EndsShow, end_lines, end_status, unwritten_report};

use crate::blame::{join_blame, packing_blame};
use crate::outcome::Ended;
use crate::refusal::{
    refuse_input, refuse_memory, refuse_to_join, refuse_to_repack, refuse_to_stretch, write_failed,
};
use crate::status::BROKEN;
use mseed_audit::{AuditFault, EachFault, SelectedSummary, Summary};
use mseed_files::{blame_by, blame_of};
use mseed_join::{JoinFault, Joined};
use mseed_repack::{LeftOut, RepackFault, report_without_time};
use mseed_select::{SelectFault, Selected};
use mseed_steim::Encoding;
use mseed_stream::{Sink, StreamFault};
use slink_links::{DONE, FAULT};

/// Reports how many records lack a time, or why not all of an audit was written, and returns how it ended. A fault of
/// the input is in the text.
pub fn audited<E: Sink>(outcome: Result<SelectedSummary, AuditFault>, errors: &mut E) -> Ended
    ensures { EndsAudit outcome result (E.written errors.old) (E.written errors.new) }
{
    match outcome {
        Ok(found) => summed_up(&found, errors),
        Err(AuditFault::Write(_)) => Ended::with(write_failed(errors)),
        Err(AuditFault::Memory) => Ended::with(refuse_memory(errors)),
    }
}

/// Reports the same of an audit with a line for each finding, and returns how it ended.
pub fn audited_each<E: Sink>(outcome: Result<SelectedSummary, EachFault>, errors: &mut E) -> Ended
    ensures { EndsEach outcome result (E.written errors.old) (E.written errors.new) }
{
    match outcome {
        Ok(found) => summed_up(&found, errors),
        Err(EachFault::Write) => Ended::with(write_failed(errors)),
        Err(EachFault::Memory) => Ended::with(refuse_memory(errors)),
    }
}

/// The outcome of an audit of all records: none of them lacks a time.
pub fn of_all<F>(outcome: Result<Summary, F>) -> Result<SelectedSummary, F>
    ensures { result ≡ of_all outcome }
{
    match outcome {
        Ok(summary) => Ok(SelectedSummary {
            summary,
            without_time: 0,
        }),
        Err(fault) => Err(fault),
    }
}

/// Reports how many records lack a time, and returns how an audit ended that was written.
#[tactic(auto, using(crate::proofs::Lines::each_reported))]
fn summed_up<E: Sink>(found: &SelectedSummary, errors: &mut E) -> Ended
    ensures { EndsBy (summary_report found.now) result (E.written errors.old) (E.written errors.new) }
{
    report_without_time(found.without_time, errors);
    let end = &found.summary.end;
    Ended {
        status: verdict_status(end.is_some(), found.summary.broken),
        blame: blame_by(end),
    }
}

/// Reports why parts weren't joined, and returns how joining ended.
pub fn joined<E: Sink>(outcome: Result<Joined, JoinFault>, errors: &mut E) -> Ended
    ensures { EndsJoin outcome result (E.written errors.old) (E.written errors.new) }
{
    match outcome {
        Ok(joined) => Ended::with(verdict_status(joined.fault, joined.broken)),
        Err(fault) => Ended {
            status: refuse_to_join(errors, &fault),
            blame: join_blame(&fault),
        },
    }
}

/// The exit status of an audit that was written: a fault of the input comes before a broken channel.
fn verdict_status(fault: bool, broken: u64) -> u8
    ensures { result ≡ (if fault then 2 else if nat_lt 0 broken then 1 else 0) }
{
    if fault {
        FAULT
    } else if broken > 0 {
        BROKEN
    } else {
        DONE
    }
}

/// Reports how many records lack a time, or why not all of a listing was written, and returns how it ended. A fault of
/// the input is in the listing.
#[tactic(auto, using(crate::proofs::Lines::each_reported))]
pub fn shown<E: Sink>(outcome: Result<Selected, SelectFault>, errors: &mut E) -> Ended
    ensures { EndsShow outcome result (E.written errors.old) (E.written errors.new) }
{
    match outcome {
        Ok(found) => {
            report_without_time(found.without_time, errors);
            ended_at(&found.end)
        }
        Err(fault) => unwritten(fault, errors),
    }
}

/// How a command ended that wrote all, by how the input did.
fn ended_at(end: &Option<StreamFault>) -> Ended
    ensures status { result.status ≡ end_status end.now }
    ensures blame { result.blame ≡ blame_by end.now }
{
    match end {
        None => Ended::with(DONE),
        Some(fault) => Ended {
            status: FAULT,
            blame: blame_of(fault),
        },
    }
}

/// Reports how many of the records lack a time, and with what fault the input ended, if with one, or why not all of
/// them were written, and returns how a selection ended.
#[tactic(auto, using(crate::proofs::Lines::reported_behind))]
pub fn selected<E: Sink>(outcome: Result<Selected, SelectFault>, errors: &mut E) -> Ended
    ensures { EndsSelect outcome result (E.written errors.old) (E.written errors.new) }
{
    match outcome {
        Ok(selected) => {
            report_without_time(selected.without_time, errors);
            let status = report_end(&selected.end, errors);
            Ended {
                status,
                blame: blame_by(&selected.end),
            }
        }
        Err(fault) => unwritten(fault, errors),
    }
}

/// Reports with what fault an input ended, if with one, and returns the exit status.
fn report_end<E: Sink>(end: &Option<StreamFault>, errors: &mut E) -> u8
    ensures status { result ≡ end_status end.now }
    ensures lines { ReportsLines (end_lines end.now) (E.written errors.old) (E.written errors.new) }
{
    match end {
        None => DONE,
        Some(fault) => refuse_input(errors, fault),
    }
}

/// Reports why not all records that are asked for, or their lines, were written, and returns how the command ended.
fn unwritten<E: Sink>(fault: SelectFault, errors: &mut E) -> Ended
    ensures { EndsBy (unwritten_report fault) result (E.written errors.old) (E.written errors.new) }
{
    match fault {
        SelectFault::Write => Ended::with(write_failed(errors)),
        SelectFault::Memory => Ended::with(refuse_memory(errors)),
    }
}

/// Reports why an archive wasn't packed anew in an encoding, and returns how packing ended.
pub fn repacked<E: Sink>(
    encoding: Encoding,
    outcome: Result<(), RepackFault>,
    errors: &mut E,
) -> Ended
    ensures { EndsRepack encoding outcome result (E.written errors.old) (E.written errors.new) }
{
    match outcome {
        Ok(()) => Ended::with(DONE),
        Err(fault) => Ended {
            status: refuse_to_repack(errors, encoding, &fault),
            blame: packing_blame(&fault),
        },
    }
}

/// Reports why an archive wasn't packed anew in an encoding by stretches, and returns how packing ended: what was left
/// out counts.
pub fn restretched<E: Sink>(
    encoding: Encoding,
    outcome: Result<LeftOut, RepackFault>,
    errors: &mut E,
) -> Ended
    ensures { EndsStretches encoding outcome result (E.written errors.old) (E.written errors.new) }
{
    match outcome {
        Ok(LeftOut::Nothing) => Ended::with(DONE),
        Ok(LeftOut::Broken) => Ended::with(BROKEN),
        Ok(LeftOut::Misfit) => Ended::with(FAULT),
        Err(fault) => Ended {
            status: refuse_to_stretch(errors, encoding, &fault),
            blame: packing_blame(&fault),
        },
    }
}
