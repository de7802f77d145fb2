//! The commands, by the words that name them.
ghost use Rattle.std.specs.Prelude.{◌≡◌, IfOk};
ghost use Rattle.mseed_words.specs.Names.{name_of, nearest, within, word_of};

use std::alloc::{AllocError, Global};
use strsim::levenshtein;

/// A command.
#[derive(Clone, Copy, Debug, PartialEq, Eq)]
pub enum CommandName {
    /// `audit`.
    Audit,
    /// `join`.
    Join,
    /// `show`.
    Show,
    /// `select`.
    Select,
    /// `repack`.
    Repack,
    /// `serve`.
    Serve,
    /// `fetch`.
    Fetch,
}

/// All commands.
const ALL: [CommandName; 7] = [
    CommandName::Audit,
    CommandName::Join,
    CommandName::Show,
    CommandName::Select,
    CommandName::Repack,
    CommandName::Serve,
    CommandName::Fetch,
];

impl CommandName {
    /// The word that names it.
    fn word(self) -> &'static str
        ensures { result.now ≡ word_of self }
    {
        match self {
            CommandName::Audit => "audit",
            CommandName::Join => "join",
            CommandName::Show => "show",
            CommandName::Select => "select",
            CommandName::Repack => "repack",
            CommandName::Serve => "serve",
            CommandName::Fetch => "fetch",
        }
    }
}

/// The command that a word names.
pub(crate) fn name_of(word: &str) -> Option<CommandName>
    ensures { result ≡ name_of word.now }
{
    match word {
        "audit" => Some(CommandName::Audit),
        "join" => Some(CommandName::Join),
        "show" => Some(CommandName::Show),
        "select" => Some(CommandName::Select),
        "repack" => Some(CommandName::Repack),
        "serve" => Some(CommandName::Serve),
        "fetch" => Some(CommandName::Fetch),
        _ => None,
    }
}

/// The command that is near a word which names none: one edit away, or else two.
///
/// # Errors
///
/// Where memory is refused.
pub(crate) fn nearest(alloc: Global, word: &str) -> Result<Option<CommandName>, AllocError>
    ensures { IfOk result (λ near. near ≡ nearest word.now) }
{
    match within(alloc, 1, word)? {
        Some(name) => Ok(Some(name)),
        None => within(alloc, 2, word),
    }
}

/// The first command that is at most `edits` edits away from a word.
///
/// # Errors
///
/// Where memory is refused.
fn within(alloc: Global, edits: usize, word: &str) -> Result<Option<CommandName>, AllocError>
    ensures { IfOk result (λ near. near ≡ within edits word.now) }
{
    for name in &ALL {
        if levenshtein(alloc, word, name.word())? <= edits {
            return Ok(Some(*name));
        }
    }
    Ok(None)
}
