//! The words of a command line, as they are given, and as the texts that stand for them.
ghost use Rattle.std.specs.Prelude.{◌≡◌, ◌≤◌, ℕ, List, Option, None, IfOk, IfSome, length, option_map};
ghost use Rattle.mseed_words.specs.Arguments.{IsWordAt, IsWordOrEnd, texts_in, words_in};
ghost use Rattle.mseed_words.specs.Texts.{AreTextsOf};

use crate::texts::{ends_options, text_of};
use std::alloc::{AllocError, Global};
use std::env::{Env, FillError};

/// So much room is made for a word, one after the other until it fits: the system passes no longer ones than the last.
const ROOMS: [usize; 4] = [1 << 8, 1 << 12, 1 << 17, 1 << 21];

/// The words of a command line, those after the program's name, as they were given: a word may be no UTF-8.
pub trait Arguments {
    // The words, where they are known.
    ghost given: { Self → Option (List (List ℕ)) };

    /// Copies the word of this number, from 0, to the beginning of `buf`, and returns its length.
    ///
    /// # Errors
    ///
    /// `NotPresent` where there is no word of this number, `TooLong` where it has more bytes than there is room for.
    fn word(&self, index: usize, buf: &mut [u8]) -> Result<usize, FillError>
        ensures bound { IfOk result (λ n. n ≤ length buf.new) }
        ensures given { IfSome (given self.now) (λ words. IsWordAt words index result buf.new) };
}

/// The arguments of the process. What the system answers is trusted: no clause says which they are.
#[derive(Drop)]
pub struct Process<'a, R: Env> {
    runtime: &'a R,
}

impl<'a, R: Env> Process<'a, R> {
    /// Those of the process that runs here.
    pub fn new(runtime: &'a R) -> Process<'a, R> {
        Process { runtime }
    }
}

impl<'a, R: Env> Arguments for Process<'a, R> {
    ghost given = { λ _. None };

    fn word(&self, index: usize, buf: &mut [u8]) -> Result<usize, FillError> {
        match index.checked_add(1) {
            Some(number) => self.runtime.arg(number, buf),
            None => Err(FillError::NotPresent),
        }
    }
}

/// The words of a command line, in their order, and the texts that stand for them.
#[derive(Drop)]
pub struct CommandLine {
    /// The words as they were given.
    pub words: Vec<Vec<u8>>,
    /// The text that stands for each word.
    pub texts: Vec<String>,
}

impl CommandLine {
    /// The words that are given, with their texts. A word that is UTF-8 stands for itself. What stands for another is
    /// its number after a NUL, which no word has; for one that begins as an option, an empty text, which names nothing,
    /// unless it stands after `--`.
    ///
    /// # Errors
    ///
    /// Where there is no memory for them.
    pub fn of<G: Arguments>(alloc: Global, arguments: &G) -> Result<CommandLine, AllocError>
        ensures words { IfOk result (λ line. IfSome (G.given arguments.now) (λ given. words_in line ≡ given)) }
        ensures texts { IfOk result (λ line. AreTextsOf (words_in line) (texts_in line)) }
    {
        let mut words = Vec::new(alloc);
        let mut texts = Vec::new(alloc);
        let mut have_ended = false;
        for index in 0..usize::MAX {
            let Some(word) = word_at(alloc, arguments, index)? else {
                return Ok(CommandLine { words, texts });
            };
            texts.push(text_of(alloc, &word, index, have_ended)?)?;
            have_ended |= ends_options(&word);
            words.push(word)?;
        }
        Err(AllocError)
    }
}

/// The word of this number, from 0, where there is one.
///
/// # Errors
///
/// Where there is no memory for it.
fn word_at<G: Arguments>(
    alloc: Global,
    arguments: &G,
    index: usize,
) -> Result<Option<Vec<u8>>, AllocError>
    ensures { IfOk result (λ word. IfSome (G.given arguments.now)
        (λ given. IsWordOrEnd given index (option_map (λ w. w.items) word))) }
{
    let mut word = Vec::new(alloc);
    for room in ROOMS {
        word.resize(room, 0)?;
        match arguments.word(index, &mut word) {
            Ok(length) => {
                word.truncate(length);
                return Ok(Some(word));
            }
            Err(FillError::NotPresent) => return Ok(None),
            Err(FillError::TooLong) => {}
        }
    }
    Err(AllocError)
}
