//! The words of a command line as texts.
ghost use Rattle.std.specs.Prelude.{◌≡◌, ◌<◌, ◌^◌, ℕ, IfOk, map, string_bytes};
ghost use Rattle.mseed_words.specs.Texts.{IsTextOf, IsWordOf, ends_options, stand_in};

use std::alloc::{AllocError, Global};
use std::str::from_utf8;

/// What begins the stand-in of a word that isn't text. No word has it.
const STAND_IN: &str = "\0";

/// The text for the word of this number, where options have ended before it, or not.
///
/// # Errors
///
/// Where there is no memory for it.
pub(crate) fn text_of(
    alloc: Global,
    word: &[u8],
    index: usize,
    have_ended: bool,
) -> Result<String, AllocError>
    ensures { IfOk result (λ text. IsTextOf word.now index have_ended (string_bytes text)) }
{
    match from_utf8(word) {
        Ok(text) => format!(in alloc; "{text}"),
        Err(_) if !have_ended && word.starts_with(b"-") => Ok(String::new(alloc)),
        Err(_) => format!(in alloc; "{STAND_IN}{index}"),
    }
}

/// Whether the options end with this word: what comes after it names files.
pub(crate) fn ends_options(word: &[u8]) -> bool
    ensures { result ≡ ends_options word.now }
{
    word == b"--".as_slice()
}

/// The word that a text stands for, of these words: the text itself where it stands for none.
pub fn word_of<'a>(text: &'a str, words: &'a [Vec<u8>]) -> &'a [u8]
    ensures { IsWordOf (map (λ word. word.items) words.entry.now) text.entry.now result.now }
{
    let bytes = text.as_bytes();
    match bytes.first() {
        Some(0) => match words.get(number_after(text, words.len())) {
            Some(word) => word,
            None => bytes,
        },
        _ => bytes,
    }
}

/// The number after the first character of a text, or else another one.
fn number_after(text: &str, other: usize) -> usize
    ensures { (index : ℕ) → index < 2 ^ 64 → text.now ≡ stand_in index → result ≡ index }
{
    match text.strip_prefix(STAND_IN) {
        Some(digits) => digits.parse::<usize>().unwrap_or(other),
        None => other,
    }
}
