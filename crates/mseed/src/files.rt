//! A command over its input: standard input, or the files that its arguments name.
ghost use Rattle.std.specs.Prelude.{◌≡◌, IfErr, IfOk, map, option_map, true};
ghost use Rattle.mseed_select.specs.Selecting.{selection_of};
ghost use Rattle.mseed_stream.specs.Device.{BytesRead, nothing_read};
ghost use Rattle.mseed_words.specs.Files.{takes_files};
ghost use Rattle.mseed_words.specs.Words.{CanBeCalled};
ghost use Rattle.mseed.specs.Effect.{AreFilesOf, HasRun, HasRunOver, are_named};
ghost use Rattle.mseed.specs.Selected.{asked_or_all};
ghost use Rattle.mseed.specs.Streams.{streams};

use crate::command::run;
use mseed_files::{
    Chain, Files, STANDARD_INPUT, TrackedSource, find_unreadable, report_blame, report_reason,
    report_unreadable,
};
use mseed_record::{All, Choice};
use mseed_stream::Sink;
use mseed_words::{Command, word_of};
use slink_links::FAULT;
use std::alloc::{AllocError, Global};

/// The number of bytes of the input that are read at once: whole records of up to 4,096 bytes, and less than the
/// 128 KiB for which the C library maps pages apart.
pub const ROOM: usize = 31 << 12;

/// Carries out a command over the files that it names, of these arguments, or over standard input where it names none,
/// and returns the exit status. The files are looked at first; where one can't be read, the first of them is reported,
/// and nothing is done then.
///
/// # Errors
///
/// Where there is no room for the names or a buffer. Nothing was read or written then.
pub fn run_over_named<F: Files, W: Sink, E: Sink>(
    alloc: Global,
    files: &mut F,
    command: &Command<'_>,
    words: &[Vec<u8>],
    output: &mut W,
    errors: &mut E,
) -> Result<u8, AllocError>
    requires called { CanBeCalled command.now.request }
    requires reads { takes_files command.now.request ≡ true }
    ensures ok { IfOk result (λ status. (read : BytesRead)
        × HasRun (F.found files.old) (map (λ word. word.items) words.now) command.now.request
        (option_map selection_of command.now.selector)
        (map (λ file. file.now) command.now.files.items) status
        (streams nothing_read (W.written output.old) (E.written errors.old))
        (streams read (W.written output.new) (E.written errors.new))) }
    ensures unwritten { IfErr result (λ _. W.written output.new ≡ W.written output.old) }
    ensures unreported { IfErr result (λ _. E.written errors.new ≡ E.written errors.old) }
{
    let names = names_of(alloc, &command.files, words)?;
    match find_unreadable(files, &names) {
        Some((index, reason)) => {
            report_unreadable(alloc, errors, names[index], reason);
            Ok(FAULT)
        }
        None => match &command.selector {
            None => run_over_files(alloc, files, command, &All, &names, output, errors),
            Some(selector) => {
                run_over_files(alloc, files, command, selector, &names, output, errors)
            }
        },
    }
}

/// The words that texts stand for, of these arguments; the word for standard input where there are none.
///
/// # Errors
///
/// Where there is no room for them.
fn names_of<'a>(
    alloc: Global,
    texts: &'a [&'a str],
    words: &'a [Vec<u8>],
) -> Result<Vec<&'a [u8]>, AllocError>
    ensures { IfOk result (λ names. AreFilesOf (map (λ word. word.items) words.entry.now)
        (map (λ text. text.now) texts.entry.now) (map (λ name. name.now) names.items)) }
{
    let mut names = Vec::new(alloc);
    if texts.is_empty() {
        names.push(STANDARD_INPUT)?;
        return Ok(names);
    }
    for text in texts {
        names.push(word_of(text, words))?;
    }
    Ok(names)
}

/// Carries out a command with the records of this choice, which are those that it asks for, over files, which can be
/// read as far as is known, and returns the exit status. Where the command names them, what is wrong with the input is
/// reported last, of the file in which it lies; where it doesn't, why a read failed.
///
/// # Errors
///
/// Where there is no room for a buffer. Nothing was read or written then.
fn run_over_files<'a, F: Files, C: Choice, W: Sink, E: Sink>(
    alloc: Global,
    files: &'a mut F,
    command: &Command<'_>,
    choice: &C,
    names: &'a [&'a [u8]],
    output: &mut W,
    errors: &mut E,
) -> Result<u8, AllocError>
    requires asked { C.selection choice.now ≡ asked_or_all (option_map selection_of command.now.selector) }
    requires called { CanBeCalled command.now.request }
    requires reads { takes_files command.now.request ≡ true }
    ensures ok { IfOk result (λ status. (read : BytesRead)
        × HasRunOver (F.found files.old) command.now.request (option_map selection_of command.now.selector)
        names.entry.now (are_named (map (λ file. file.now) command.now.files.items)) status
        (streams nothing_read (W.written output.old) (E.written errors.old))
        (streams read (W.written output.new) (E.written errors.new))) }
    ensures unwritten { IfErr result (λ _. W.written output.new ≡ W.written output.old) }
    ensures unreported { IfErr result (λ _. E.written errors.new ≡ E.written errors.old) }
{
    let chain = match Chain::new(alloc, files, names, ROOM) {
        Ok(chain) => chain,
        Err(error) => return Err(error),
    };
    let mut input = TrackedSource::new(chain);
    let ended = run(alloc, command, choice, &mut input, output, errors);
    if command.files.is_empty() {
        report_reason(errors, &input, ended.blame);
    } else {
        report_blame(alloc, errors, names, &input, ended.blame);
    }
    drop(input);
    Ok(ended.status)
}
