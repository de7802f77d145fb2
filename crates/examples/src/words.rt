//! Calls of `mseed_words`.
ghost use Rattle.std.specs.Prelude.{IfOk};
ghost use Rattle.mseed_words.specs.Words.{CanBeCalled};

use mseed_words::{
    Arguments, Command, CommandLine, Mistake, Process, Refusal, Request, read, word_of,
};
use std::alloc::{AllocError, Global};
use std::env::Env;

/// How many arguments a program was started with, its own name aside.
pub fn count_words<R: Env>(alloc: Global, rt: &R) -> Result<usize, AllocError> {
    let line = CommandLine::of(alloc, &Process::new(rt))?;
    Ok(line.words.len())
}

/// How long the first argument of a command line is, where it has no more than 256 bytes.
pub fn first_length<G: Arguments>(arguments: &G) -> Option<usize> {
    let mut room = [0; 256];
    arguments.word(0, &mut room).ok()
}

/// How many bytes the texts have that stand for the arguments of a command line.
pub fn bytes_of_texts(line: &CommandLine) -> u64 {
    let mut bytes: u64 = 0;
    for text in &line.texts {
        bytes = bytes.saturating_add(text.len() as u64);
    }
    bytes
}

/// Whether the argument that a text stands for is one that names standard input.
pub fn is_standard_input(text: &str, line: &CommandLine) -> bool {
    word_of(text, &line.words) == b"-".as_slice()
}

/// What the arguments of a command line request, those after the program's name.
pub fn requested<'a>(alloc: Global, words: &'a [String]) -> Result<Request, Refusal<'a>>
    ensures { IfOk result CanBeCalled }
{
    match read(alloc, words) {
        Ok(command) => Ok(command.request),
        Err(refusal) => Err(refusal),
    }
}

/// Whether the arguments of a command line ask for some of the records alone.
pub fn is_selective(command: &Command) -> bool {
    command.selector.is_some()
}

/// Of how many places records are requested: of none, unless they are served or fetched.
pub fn places_requested(request: &Request) -> usize {
    match request {
        Request::Serve(serving) => serving.places.as_slice().len(),
        Request::Live(live) => live.serving.places.as_slice().len(),
        Request::Fetch(fetching) => fetching.places.as_slice().len(),
        _ => 0,
    }
}

/// What stands before what was given, in a line about a mistake: its option, and nothing of a word.
pub fn option_of(mistake: Mistake) -> &'static str {
    mistake.before()
}

/// What to report to whoever typed arguments that request nothing: of a mistake what is wrong with what was given, and
/// what would be right.
pub fn answer_to<'r>(refusal: &'r Refusal<'_>) -> &'r str {
    match refusal {
        Refusal::Text(text) => text.as_str(),
        Refusal::NoRequest(mistake, _) => mistake.after(),
        Refusal::Memory => "no memory",
    }
}
