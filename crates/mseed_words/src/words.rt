//! What the words of a command line ask for.
ghost use Rattle.std.specs.Prelude.{◌≡◌, ◌≤◌, [], IfErr, IfOk, None, Ok, OnOk, map, option_map, string_bytes};
ghost use Rattle.clap.specs.Faults.{fault_of};
ghost use Rattle.clap.specs.Kinds.{HasKind, Kinds};
ghost use Rattle.clap.specs.Matches.{found_of};
ghost use Rattle.clap.specs.Simple.{matches_of};
ghost use Rattle.clap.specs.Walk.{rows_of};
ghost use Rattle.mseed_select.specs.Selecting.{selection_of};
ghost use Rattle.mseed_words.specs.Files.{files_of};
ghost use Rattle.mseed_words.specs.Options.{the_command};
ghost use Rattle.mseed_words.specs.Words.{AsksFor, CanBeCalled, IsRefusal, Reading, asks_for, auditing_of, command_of};
ghost use Rattle.mseed_words.specs.Words.{encoding_of, expected_in, exponent_of, given_of, is_option, joining_of};
ghost use Rattle.mseed_words.specs.Words.{packing_of, reading_alone, reading_behind, reading_of, request_of};
ghost use Rattle.mseed_words.specs.Words.{reading_of_first, requested, unless_refused};
ghost use Rattle.mseed_words.specs.private.Refused.{IsMistakenAs, IsRefusedAs};

use crate::command_name::{CommandName, name_of, nearest};
use crate::feed_words::{fetching_of, live_serving_of, serving_of};
use crate::files::{file_mistake, takes_files};
use crate::found::{further_in, is_set, text_of, text_or};
use crate::mistake::{Mistake, Valued, Wanted};
use crate::numbers::{number_in, number_within};
use crate::options::{command, program};
use crate::refusal::Refusal;
use crate::request::{Command, Joining, Packing, Request};
use crate::selecting::{asked_of, option_given};
use clap::error::ErrorKind;
use clap::{ArgMatches, Error};
use mseed_steim::Encoding;
use std::alloc::Global;
use std::slice::from_ref;

/// Reads the arguments of a command line, those after the program's name, and returns the command that they request:
/// what is done, with which records, and of which files. The first argument is the command. Where an argument isn't
/// text, a text has to stand in its place that no argument can be.
///
/// # Errors
///
/// `Refusal::Text` where they aren't those of a command line, or ask for the help or the version; `Refusal::NoRequest`
/// where they are, but request nothing that there is; `Refusal::Memory` where an allocation was refused.
pub fn read<'a>(alloc: Global, words: &'a [String]) -> Result<Command<'a>, Refusal<'a>>
    ensures request { IfOk result (λ command. AsksFor (map string_bytes words.entry.now) command.request
        (option_map selection_of command.selector) (map (λ file. file.now) command.files.items)) }
    ensures range { IfOk result (λ command. CanBeCalled command.request) }
    ensures refused { IfErr result (IsRefusal (reading_of (map string_bytes words.entry.now))) }
{
    let Some((first, rest)) = words.split_first() else {
        return Err(answer_alone(alloc, words));
    };
    match name_of(first) {
        Some(name) => read_behind(alloc, name, rest),
        None => Err(refuse_first(alloc, first)),
    }
}

/// Reads the words behind a command.
///
/// # Errors
///
/// As of [`read`].
fn read_behind<'a>(
    alloc: Global,
    name: CommandName,
    words: &'a [String],
) -> Result<Command<'a>, Refusal<'a>>
    ensures request { IfOk result (λ command. reading_behind name (map string_bytes words.entry.now)
        ≡ asks_for (requested command.request (option_map selection_of command.selector)
        (map (λ file. file.now) command.files.items))) }
    ensures range { IfOk result (λ command. CanBeCalled command.request) }
    ensures refused { IfErr result (IsRefusal (reading_behind name (map string_bytes words.entry.now))) }
{
    match matches_of(alloc, name, words) {
        Ok(matches) => command_of(alloc, name, &matches),
        Err(error) => Err(refusal_of(alloc, &error)),
    }
}

/// Why a first word is refused that names no command.
fn refuse_first<'a>(alloc: Global, first: &'a String) -> Refusal<'a>
    ensures { IsRefusal (reading_of_first None (string_bytes first.entry.now) []) result }
{
    if is_option(first) {
        return answer_alone(alloc, from_ref(first));
    }
    match nearest(alloc, first) {
        Ok(near) => Refusal::NoRequest(Mistake::Command(near), first),
        Err(_) => Refusal::Memory,
    }
}

/// Whether a word is an option: of at least two bytes, with a hyphen as the first, and not `--`.
fn is_option(word: &str) -> bool
    ensures { result ≡ is_option word.now }
{
    let bytes = word.as_bytes();
    bytes.len() > 1 && bytes[0] == b'-' && word != "--"
}

/// What is answered where no command stands first: no word, or an option, which asks for the help or the version, or is
/// none.
fn answer_alone<'a>(alloc: Global, words: &'a [String]) -> Refusal<'a>
    ensures { IsRefusal (reading_alone (map string_bytes words.entry.now)) result }
{
    match program(alloc).try_get_matches_from(words) {
        Ok(_) => Refusal::NoRequest(Mistake::Command(None), ""),
        Err(error) => refusal_of(alloc, &error),
    }
}

/// What was read asks for, of which records, and of which files.
///
/// # Errors
///
/// `NoRequest` where it asks for nothing that there is, and `Memory` where there is no room for the files.
fn command_of<'a>(
    alloc: Global,
    name: CommandName,
    matches: &ArgMatches<'a>,
) -> Result<Command<'a>, Refusal<'a>>
    ensures command { IfOk result (λ command. command_of name (rows_of (found_of matches.now))
        ≡ Ok (requested command.request (option_map selection_of command.selector)
        (map (λ file. file.now) command.files.items))) }
    ensures range { IfOk result (λ command. CanBeCalled command.request) }
    ensures refused { IfErr result (IsRefusedAs (command_of name (rows_of (found_of matches.now)))
        (rows_of (found_of matches.now))) }
{
    let request = match request_of(name, matches) {
        Ok(request) => request,
        Err(mistake) => return Err(mistaken(mistake, matches)),
    };
    let selector = match asked_of(&request, matches) {
        Ok(selector) => selector,
        Err(mistake) => return Err(mistaken(mistake, matches)),
    };
    let files = files_of(alloc, &request, matches)?;
    Ok(Command {
        request,
        selector,
        files,
    })
}

/// The files of what is requested: the further words, where it takes files.
///
/// # Errors
///
/// `NoRequest` where the further words can't be files, and `Memory` where there is no room for them.
fn files_of<'a>(
    alloc: Global,
    request: &Request,
    matches: &ArgMatches<'a>,
) -> Result<Vec<&'a str>, Refusal<'a>>
    ensures files { IfOk result (λ files. files_of request.now (rows_of (found_of matches.now))
        ≡ Ok (map (λ file. file.now) files.items)) }
    ensures refused { IfErr result (IsRefusedAs (files_of request.now (rows_of (found_of matches.now)))
        (rows_of (found_of matches.now))) }
{
    let mut files = Vec::new(alloc);
    if !takes_files(request) {
        return Ok(files);
    }
    let words = further_in(matches);
    if let Some(mistake) = file_mistake(words) {
        return Err(mistaken(mistake, matches));
    }
    match files.extend_from_slice(words) {
        Ok(()) => Ok(files),
        Err(_) => Err(Refusal::Memory),
    }
}

/// The refusal of what asks for nothing that there is: what is wrong, and what was given.
fn mistaken<'a>(mistake: Mistake, matches: &ArgMatches<'a>) -> Refusal<'a>
    ensures { IsMistakenAs mistake (rows_of (found_of matches.now)) result }
{
    Refusal::NoRequest(mistake, given_of(mistake, matches))
}

/// What was given of that with which something is wrong: the value of the option, or the word; nothing of a flag.
fn given_of<'a>(mistake: Mistake, matches: &ArgMatches<'a>) -> &'a str
    ensures { result.now ≡ given_of mistake (rows_of (found_of matches.now)) }
{
    match mistake {
        Mistake::Value(option, _) => text_or(matches, option.name(), ""),
        Mistake::Place(index, _) => further_in(matches).get(index).copied().unwrap_or_default(),
        _ => "",
    }
}

/// What `clap` finds among the words behind a command.
///
/// # Errors
///
/// That of `clap`, whose text is for the user.
fn matches_of<'a>(
    alloc: Global,
    name: CommandName,
    words: &'a [String],
) -> Result<ArgMatches<'a>, Error>
    ensures taken { OnOk result (fault_of (the_command name) (map string_bytes words.entry.now) ≡ []) }
    ensures found { IfOk result (λ matches. rows_of (found_of matches)
        ≡ matches_of (the_command name) (map string_bytes words.entry.now)) }
    ensures refused { IfErr result (HasKind (fault_of (the_command name) (map string_bytes words.entry.now))) }
{
    command(alloc, name)?.try_get_matches_from(words)
}

/// Why words are refused for which `clap` has an error: for want of memory, or with its text.
fn refusal_of<'a>(alloc: Global, error: &Error) -> Refusal<'a>
    ensures { (kinds : Kinds) (reading : Reading) → HasKind kinds error.now
        → IsRefusal (unless_refused kinds reading) result }
{
    if error.kind() == ErrorKind::OutOfMemory {
        return Refusal::Memory;
    }
    match error.to_string(alloc) {
        Ok(text) => Refusal::Text(text),
        Err(_) => Refusal::Memory,
    }
}

/// What a command asks for.
///
/// # Errors
///
/// What is wrong first.
fn request_of(name: CommandName, matches: &ArgMatches<'_>) -> Result<Request, Mistake>
    ensures value { result ≡ request_of name (rows_of (found_of matches.now)) }
    ensures range { IfOk result CanBeCalled }
{
    match name {
        CommandName::Audit => auditing_of(matches),
        CommandName::Join => joining_of(matches),
        CommandName::Show => Ok(Request::Show),
        CommandName::Select => Ok(Request::Select),
        CommandName::Repack => packing_of(matches),
        CommandName::Serve if is_set(matches, "live") => {
            Ok(Request::Live(live_serving_of(matches)?))
        }
        CommandName::Serve => Ok(Request::Serve(serving_of(matches)?)),
        CommandName::Fetch => Ok(Request::Fetch(fetching_of(matches)?)),
    }
}

/// What is requested of auditing: with a line for each finding or without, the text of the audit or its part.
///
/// # Errors
///
/// The first option that says which records are asked for, where a part is to be written.
fn auditing_of(matches: &ArgMatches<'_>) -> Result<Request, Mistake>
    ensures value { result ≡ auditing_of (rows_of (found_of matches.now)) }
    ensures range { IfOk result CanBeCalled }
{
    let each = is_set(matches, "each");
    let part = is_set(matches, "part");
    match (option_given(matches), each, part) {
        (Some(option), _, true) => Err(Mistake::Value(option, Wanted::AllOfPart)),
        (_, false, false) => Ok(Request::Audit),
        (_, true, false) => Ok(Request::AuditEach),
        (None, false, true) => Ok(Request::AuditPart),
        (None, true, true) => Ok(Request::AuditPartEach),
    }
}

/// What is requested of joining: the text of an audit or a part, and a line for each border before the text alone.
///
/// # Errors
///
/// What is wrong first.
fn joining_of(matches: &ArgMatches<'_>) -> Result<Request, Mistake>
    ensures value { result ≡ joining_of (rows_of (found_of matches.now)) }
    ensures range { IfOk result CanBeCalled }
{
    let expected = expected_in(text_of(matches, "expect"))?;
    let joining = Joining {
        past_faults: is_set(matches, "past-faults"),
        expected,
    };
    match (is_set(matches, "each"), is_set(matches, "part")) {
        (false, false) => Ok(Request::Join(joining)),
        (true, false) => Ok(Request::JoinEach(joining)),
        (false, true) => Ok(Request::JoinPart(joining)),
        (true, true) => Err(Mistake::EachPart),
    }
}

/// How many parts there have to be, where a number is given: one to nine decimal digits, and not 0.
///
/// # Errors
///
/// Where it is no such number.
fn expected_in(text: Option<&str>) -> Result<Option<u64>, Mistake>
    ensures { result ≡ expected_in (option_map (λ t. t.now) text.entry) }
{
    let Some(text) = text else {
        return Ok(None);
    };
    match number_within(9, text) {
        None | Some(0) => Err(Mistake::Value(Valued::Expect, Wanted::Parts)),
        Some(number) => Ok(Some(u64::from(number))),
    }
}

/// What is requested of the command that packs anew: as it is, or by stretches, which alone can leave channels out.
///
/// # Errors
///
/// What is wrong first.
fn packing_of(matches: &ArgMatches<'_>) -> Result<Request, Mistake>
    ensures value { result ≡ packing_of (rows_of (found_of matches.now)) }
    ensures range { IfOk result CanBeCalled }
{
    let exponent = exponent_of(matches)?;
    let encoding = encoding_of(matches)?;
    let packing = Packing { exponent, encoding };
    match (is_set(matches, "stretches"), is_set(matches, "leave")) {
        (true, leave) => Ok(Request::RepackStretches { packing, leave }),
        (false, false) => Ok(Request::Repack(packing)),
        (false, true) => Err(Mistake::Leave),
    }
}

/// The power of two that a record's length is: 512 bytes where none is given.
///
/// # Errors
///
/// Where it is no length.
fn exponent_of(matches: &ArgMatches<'_>) -> Result<u8, Mistake>
    ensures value { result ≡ exponent_of (rows_of (found_of matches.now)) }
    ensures range { IfOk result (λ e. (7 ≤ e) × (e ≤ 12)) }
{
    match number_in(text_or(matches, "length", "512")) {
        Some(128) => Ok(7),
        Some(256) => Ok(8),
        Some(512) => Ok(9),
        Some(1024) => Ok(10),
        Some(2048) => Ok(11),
        Some(4096) => Ok(12),
        _ => Err(Mistake::Value(Valued::Length, Wanted::Length)),
    }
}

/// The encoding: Steim-2 where none is given.
///
/// # Errors
///
/// Where it is none.
fn encoding_of(matches: &ArgMatches<'_>) -> Result<Encoding, Mistake>
    ensures { result ≡ encoding_of (rows_of (found_of matches.now)) }
{
    match text_or(matches, "encoding", "steim2") {
        "int16" => Ok(Encoding::Int16),
        "int32" => Ok(Encoding::Int32),
        "steim1" => Ok(Encoding::Steim1),
        "steim2" => Ok(Encoding::Steim2),
        _ => Err(Mistake::Value(Valued::Encoding, Wanted::Encoding)),
    }
}
