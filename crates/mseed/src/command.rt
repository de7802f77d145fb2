//! The command line: what its arguments request, and what is done with an input.
ghost use Rattle.std.specs.Prelude.{◌≡◌, ℕ, IfOk, List, map, OnOk, Option, option_map, true};
ghost use Rattle.mseed_join.specs.declared.joining.Form.{Form};
ghost use Rattle.mseed_select.specs.Selecting.{selection_of};
ghost use Rattle.mseed_record.specs.Selection.{Selection};
ghost use Rattle.mseed_stream.specs.Calls.{ReadsOn};
ghost use Rattle.mseed_stream.specs.Device.{nothing_read};
ghost use Rattle.mseed_words.specs.Arguments.{texts_in, words_in};
ghost use Rattle.mseed_words.specs.Files.{takes_files};
ghost use Rattle.mseed_words.specs.Words.{AreRefused, AsksFor, AsksForNothing, CanBeCalled};
ghost use Rattle.mseed_words.specs.declared.mistake.Mistake.{Mistake};
ghost use Rattle.mseed_words.specs.declared.request.Request.{Request};
ghost use Rattle.mseed.specs.Asked.{HasRefusedRequest, HasRefusedWords, IsAsked, UnlessMemoryLacks};
ghost use Rattle.mseed.specs.Done.{EndsRefused, ReportsMistake};
ghost use Rattle.mseed.specs.Repacked.{AreOptionsOf};
ghost use Rattle.mseed.specs.Run.{HasCarriedOut, HasJoined};
ghost use Rattle.mseed.specs.Selected.{asked_or_all};
ghost use Rattle.mseed.specs.Streams.{streams};

use crate::ending::{
    audited, audited_each, joined, of_all, repacked, restretched, selected, shown,
};
use crate::outcome::Ended;
use crate::refusal::refuse_memory;
use crate::status::BAD_COMMAND;
use mseed_audit::{audit_each_selected, audit_selected};
use mseed_files::report_given;
use mseed_join::{Form, audit_part, audit_part_each, join, join_each};
use mseed_pack::Options;
use mseed_record::Choice;
use mseed_repack::{repack_selected, repack_selected_stretches};
use mseed_select::{select, show_selected};
use mseed_stream::{Sink, Source, report};
use mseed_words::{
    Command, CommandLine, Joining, Mistake, Packing, Refusal, Request, read, word_of,
};
use std::alloc::{Allocator, Global};

/// Reads the words of a command line, and returns the command that they request: what it does, with which records, and
/// of which files. Where they request nothing, `errors` takes why.
///
/// # Errors
///
/// The exit status, after what `errors` takes: 3 where the arguments aren't those of a command line (the text of the
/// parser, which is also the help and the version) or request nothing that there is (`bad value`, and a line that says
/// what is wrong with what was given, and what would be right), and 2 where there was no memory for them.
pub fn command_of<'a, E: Sink>(
    alloc: Global,
    line: &'a CommandLine,
    errors: &mut E,
) -> Result<Command<'a>, u8>
    ensures called { (request : Request) (asked : Option Selection) (files : List (List ℕ))
        → AsksFor (texts_in line.entry.now) request asked files
        → UnlessMemoryLacks (IsAsked request asked files) result (E.written errors.old) (E.written errors.new) }
    ensures bad { (mistake : Mistake) (given : List ℕ)
        → AsksForNothing (texts_in line.entry.now) mistake given
        → UnlessMemoryLacks (HasRefusedRequest (words_in line.entry.now) mistake given) result
        (E.written errors.old) (E.written errors.new) }
    ensures refused { AreRefused (texts_in line.entry.now)
        → UnlessMemoryLacks HasRefusedWords result (E.written errors.old) (E.written errors.new) }
    ensures range { IfOk result (λ command. CanBeCalled command.request) }
    ensures silent { OnOk result (E.written errors.new ≡ E.written errors.old) }
{
    match read(alloc, &line.texts) {
        Ok(command) => Ok(command),
        Err(refusal) => Err(refuse(errors, &refusal, &line.words)),
    }
}

/// Carries out a command, any but `serve` and `fetch`, with the records of this choice, which are those that it asks
/// for, of an input of which nothing was read yet, and returns how that ended. Parts are made and joined of all
/// records. An allocator that refuses can be lent: where memory was refused the status is 2, and `errors` takes a line
/// that says so.
///
/// `audit` writes the audit of the records of `input` to `output`: status 0 where every channel is continuous, 1 where
/// one is broken, and 2 where the input ended with a fault, which the text names, or where the text couldn't be written
/// whole; with `--each` a line for each record with a finding comes first, and with `--part` the part of the archive is
/// written instead of the text. `join` reads parts, one after another, and writes the audit of their archives one
/// after another, or with `--part` their joint part, and has the status of that audit; with `--each` a line for each
/// border with a finding comes before the audit, and where the parts can't be read or joined, or aren't as many as
/// `--expect` says, a line on `errors` says so in place of it: status 2. `show` lists the records: status 0, or 2 where
/// the input ended with a fault, which the listing names, or where it couldn't be written whole. `select` writes the
/// records that are asked for, as they are: status 0, or 2 where the input ended with a fault, which `errors` takes
/// after the number of the records that lack a time, or where they couldn't be written. `repack` packs the archive
/// anew: status 0, 1 where a channel is broken, and 2 where the input is no whole archive, where a channel can't be
/// packed, or where the output failed; `errors` takes a line that says so.
pub fn run<A: Allocator + Copy, C: Choice, R: Source, W: Sink, E: Sink>(
    alloc: A,
    command: &Command<'_>,
    choice: &C,
    input: &mut R,
    output: &mut W,
    errors: &mut E,
) -> Ended
    requires asked { C.selection choice.now ≡ asked_or_all (option_map selection_of command.now.selector) }
    requires unread { R.read input.old ≡ nothing_read }
    requires called { CanBeCalled command.now.request }
    requires reads { takes_files command.now.request ≡ true }
    ensures called { HasCarriedOut command.now.request (option_map selection_of command.now.selector) result
        (streams (R.read input.old) (W.written output.old) (E.written errors.old))
        (streams (R.read input.new) (W.written output.new) (E.written errors.new)) }

    // What the input is known to have left is what was read of it, up to its end where it is at its end.
    ensures reads { ReadsOn (R.read input.old) (R.read input.new) (R.remaining input.old) (R.remaining input.new)
        (R.beside input.old) (R.beside input.new) }
{
    match &command.request {
        Request::Audit => audited(audit_selected(alloc, choice, input, output), errors),
        Request::AuditEach => {
            let outcome = audit_each_selected(alloc, choice, input, output);
            audited_each(outcome, errors)
        }
        Request::AuditPart => audited(of_all(audit_part(alloc, input, output)), errors),
        Request::AuditPartEach => {
            let outcome = audit_part_each(alloc, input, output);
            audited_each(of_all(outcome), errors)
        }
        Request::Join(by) => joined_as(alloc, Form::Audit, *by, input, output, errors),
        Request::JoinEach(by) => {
            let outcome = join_each(alloc, by.past_faults, by.expected, input, output, errors);
            joined(outcome, errors)
        }
        Request::JoinPart(by) => joined_as(alloc, Form::Part, *by, input, output, errors),
        Request::Show => shown(show_selected(alloc, choice, input, output), errors),
        Request::Select => selected(select(alloc, choice, input, output), errors),
        Request::Repack(packing) => {
            let options = options_of(*packing);
            let outcome = repack_selected(alloc, choice, &options, input, output, errors);
            repacked(options.encoding, outcome, errors)
        }
        Request::RepackStretches { packing, leave } => {
            let options = options_of(*packing);
            let outcome = repack_selected_stretches(
                alloc, choice, &options, *leave, input, output, errors,
            );
            restretched(options.encoding, outcome, errors)
        }
        Request::Serve(_) | Request::Live(_) | Request::Fetch(_) => unreachable!(),
    }
}

/// Joins parts to the text of an audit, or to a part, and returns how joining ended.
fn joined_as<A: Allocator + Copy, R: Source, W: Sink, E: Sink>(
    alloc: A,
    form: Form,
    by: Joining,
    input: &mut R,
    output: &mut W,
    errors: &mut E,
) -> Ended
    requires { R.read input.old ≡ nothing_read }
    ensures joined { HasJoined form by result
        (streams (R.read input.old) (W.written output.old) (E.written errors.old))
        (streams (R.read input.new) (W.written output.new) (E.written errors.new)) }
    ensures reads { ReadsOn (R.read input.old) (R.read input.new) (R.remaining input.old) (R.remaining input.new)
        (R.beside input.old) (R.beside input.new) }
{
    let outcome = join(
        alloc,
        form,
        by.past_faults,
        by.expected,
        input,
        output,
        errors,
    );
    joined(outcome, errors)
}

/// The options of packing anew: sequence numbers begin at 1.
fn options_of(packing: Packing) -> Options
    requires { CanBeCalled (Request.Repack packing) }
    ensures { AreOptionsOf packing result }
{
    match Options::new(packing.exponent, packing.encoding.code(), 1) {
        Ok(options) => options,
        Err(_) => unreachable!(),
    }
}

/// Reports why the arguments of the command line request nothing, and returns the exit status.
fn refuse<E: Sink>(errors: &mut E, refusal: &Refusal<'_>, arguments: &[Vec<u8>]) -> u8
    ensures { EndsRefused (map (λ word. word.items) arguments.now) refusal.now result (E.written errors.old)
        (E.written errors.new) }
{
    match refusal {
        Refusal::Text(text) => {
            report(errors, text.as_bytes());
            BAD_COMMAND
        }
        Refusal::NoRequest(mistake, given) => { refuse_mistake(errors, *mistake, given, arguments) }
        Refusal::Memory => refuse_memory(errors),
    }
}

/// Reports that the arguments of the command line request nothing that there is, what is wrong with what was given, and
/// what would be right, and returns the exit status.
fn refuse_mistake<'a, E: Sink>(
    errors: &mut E,
    mistake: Mistake,
    given: &'a str,
    arguments: &'a [Vec<u8>],
) -> u8
    ensures status { result ≡ 3 }
    ensures reported { ReportsMistake (map (λ word. word.items) arguments.entry.now) mistake given.entry.now
        (E.written errors.old) (E.written errors.new) }
{
    report(errors, b"mseed: bad value\n");
    let argument = word_of(given, arguments);
    let head = mistake.before();
    let tail = mistake.after();
    report_given(errors, head.as_bytes(), argument, tail.as_bytes());
    BAD_COMMAND
}
