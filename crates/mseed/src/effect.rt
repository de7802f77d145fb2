//! From the arguments of the command line to their effect.
ghost use Rattle.std.specs.Prelude.{◌≡◌, ℕ, IfErr, IfOk, IfSome, List, map, Option, option_map};
ghost use Rattle.mseed_words.specs.Arguments.{texts_in, words_in};
ghost use Rattle.mseed_words.specs.Texts.{AreTextsOf};
ghost use Rattle.mseed_select.specs.Selecting.{selection_of};
ghost use Rattle.mseed_record.specs.Selection.{Selection};
ghost use Rattle.mseed_feed.specs.Transport.{NotYet, transport_state};
ghost use Rattle.mseed_stream.specs.Device.{BytesRead, nothing_read};
ghost use Rattle.mseed_words.specs.Words.{AreRefused, AsksFor, AsksForNothing, CanBeCalled};
ghost use Rattle.mseed_words.specs.declared.mistake.Mistake.{Mistake};
ghost use Rattle.mseed_words.specs.declared.request.Request.{Request};
ghost use Rattle.mseed.specs.Asked.{HasRefusedRequest, HasRefusedWords, UnlessMemoryLacks};
ghost use Rattle.mseed.specs.Effect.{HasComeTo, HasDone, HasEffect, IsRefusedBy};
ghost use Rattle.mseed.specs.Streams.{streams};

use crate::command::command_of;
use crate::files::{ROOM, run_over_named};
use mseed_feed::{Transport, fetch, serve, serve_live_at};
use mseed_files::{Chain, Files, STANDARD_INPUT};
use mseed_stream::Sink;
use mseed_words::{Arguments, Command, CommandLine, Request};
use std::io;

/// Does what the arguments of the command line request, as they are given, and returns the exit status.
///
/// The contract is that of [`carry_out`], for the texts that stand for the arguments.
///
/// # Errors
///
/// `OutOfMemory` where there is no room for the arguments, a buffer or names of files. Nothing was read or written
/// then.
pub fn carry_out_arguments<G: Arguments, F: Files, T: Transport, W: Sink, E: Sink>(
    rt: &HostRuntime,
    arguments: &G,
    files: &mut F,
    transport: &mut T,
    output: &mut W,
    errors: &mut E,
) -> io::Result<u8>
    requires { T.came transport.old ≡ NotYet }
    ensures effect { IfOk result (λ status. IfSome (G.given arguments.now) (λ given.
        (texts : List (List ℕ)) × AreTextsOf given texts
        × HasComeTo (F.found files.old) given texts status files.old files.new transport.old transport.new
        (W.written output.old) (W.written output.new) (E.written errors.old) (E.written errors.new)
        (transport_state (T.planned transport.old) (T.came transport.old))
        (transport_state (T.planned transport.new) (T.came transport.new)))) }
    ensures unwritten { IfErr result (λ _. W.written output.new ≡ W.written output.old) }
    ensures unreported { IfErr result (λ _. E.written errors.new ≡ E.written errors.old) }
    ensures unconnected { IfErr result (λ _. transport.new ≡ transport.old) }
{
    let line = CommandLine::of(rt.alloc(), arguments)?;
    carry_out(rt, files, transport, &line, output, errors)
}

/// Does what the words of a command line request, and returns the exit status. A buffer for an input is made once it is
/// known that one is read.
///
/// The contract holds over any standard input and any files, as `files` gives them: what was read is a beginning of
/// their bytes, in the order of the words and each once, and all of them where the input is at its end. Of arguments
/// that request nothing no file is opened or read. It holds over any `transport` of which no device was requested yet:
/// `serve` and `serve --live` listen, and `fetch` dials, as it is requested, and what they come to is by all that
/// happened at that device; whatever else is requested, the transport is left alone.
///
/// # Errors
///
/// `OutOfMemory` where there is no room for a buffer or for names of files. Nothing was read or written then.
pub fn carry_out<F: Files, T: Transport, W: Sink, E: Sink>(
    rt: &HostRuntime,
    files: &mut F,
    transport: &mut T,
    line: &CommandLine,
    output: &mut W,
    errors: &mut E,
) -> io::Result<u8>
    requires { T.came transport.old ≡ NotYet }
    ensures called { (request : Request) (asked : Option Selection) (named : List (List ℕ))
        → AsksFor (texts_in line.now) request asked named
        → IfOk result (λ status. (read : BytesRead) × HasEffect (F.found files.old)
        (words_in line.now) request asked named status
        (streams nothing_read (W.written output.old) (E.written errors.old))
        (streams read (W.written output.new) (E.written errors.new))
        (transport_state (T.planned transport.old) (T.came transport.old))
        (transport_state (T.planned transport.new) (T.came transport.new))) }
    ensures bad { (mistake : Mistake) (given : List ℕ)
        → AsksForNothing (texts_in line.now) mistake given
        → IfOk result (λ status. IsRefusedBy
        (UnlessMemoryLacks (HasRefusedRequest (words_in line.now) mistake given)) status
        (streams nothing_read (W.written output.old) (E.written errors.old))
        (streams nothing_read (W.written output.new) (E.written errors.new))) }
    ensures refused { AreRefused (texts_in line.now)
        → IfOk result (λ status. IsRefusedBy (UnlessMemoryLacks HasRefusedWords) status
        (streams nothing_read (W.written output.old) (E.written errors.old))
        (streams nothing_read (W.written output.new) (E.written errors.new))) }
    ensures unopened { ((mistake : Mistake) (given : List ℕ)
        → AsksForNothing (texts_in line.now) mistake given → files.new ≡ files.old)
        × (AreRefused (texts_in line.now) → files.new ≡ files.old) }
    ensures unlinked { ((mistake : Mistake) (given : List ℕ)
        → AsksForNothing (texts_in line.now) mistake given → transport.new ≡ transport.old)
        × (AreRefused (texts_in line.now) → transport.new ≡ transport.old) }
    ensures unwritten { IfErr result (λ _. W.written output.new ≡ W.written output.old) }
    ensures unreported { IfErr result (λ _. E.written errors.new ≡ E.written errors.old) }
    ensures unconnected { IfErr result (λ _. transport.new ≡ transport.old) }
{
    match command_of(rt.alloc(), line, errors) {
        Ok(command) => execute(rt, files, transport, &command, &line.words, output, errors),
        Err(status) => Ok(status),
    }
}

/// Carries out a command, of these arguments, and returns the exit status.
///
/// # Errors
///
/// `OutOfMemory` where there is no room for a buffer or for names of files. Nothing was read or written then.
fn execute<F: Files, T: Transport, W: Sink, E: Sink>(
    rt: &HostRuntime,
    files: &mut F,
    transport: &mut T,
    command: &Command<'_>,
    words: &[Vec<u8>],
    output: &mut W,
    errors: &mut E,
) -> io::Result<u8>
    requires new { T.came transport.old ≡ NotYet }
    requires called { CanBeCalled command.now.request }
    ensures done { IfOk result (λ status. (read : BytesRead)
        × HasDone (F.found files.old) (map (λ word. word.items) words.now) command.now.request
        (option_map selection_of command.now.selector) (map (λ file. file.now) command.now.files.items) status
        (streams nothing_read (W.written output.old) (E.written errors.old))
        (streams read (W.written output.new) (E.written errors.new))
        (transport_state (T.planned transport.old) (T.came transport.old))
        (transport_state (T.planned transport.new) (T.came transport.new))) }
    ensures unwritten { IfErr result (λ _. W.written output.new ≡ W.written output.old) }
    ensures unreported { IfErr result (λ _. E.written errors.new ≡ E.written errors.old) }
    ensures unconnected { IfErr result (λ _. transport.new ≡ transport.old) }
{
    match &command.request {
        Request::Serve(serving) => {
            let names = [STANDARD_INPUT];
            let input = Chain::new(rt.alloc(), files, &names, ROOM)?;
            Ok(serve(rt.alloc(), serving, input, transport, errors))
        }
        Request::Live(live) => Ok(serve_live_at(rt.alloc(), live, transport, errors)),
        Request::Fetch(fetching) => Ok(fetch(rt.alloc(), fetching, transport, output, errors)),
        _ => Ok(run_over_named(rt.alloc(), files, command, words, output, errors)?),
    }
}
