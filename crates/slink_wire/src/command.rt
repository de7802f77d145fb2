//! The commands of a client.
ghost use Rattle.std.specs.Prelude.{◌≡◌, ℕ, [], ◌∷◌, MatchOption, codes};
ghost use Rattle.slink_wire.specs.declared.command.Command.{Command};
ghost use Rattle.slink_wire.specs.Command.{IsCommand, IsNumber, IsRow, in_small_letters};

use crate::hexadecimal::number_of;
use crate::keyword::{Keyword, keyword_of};
use crate::place::{fill, is_code};
use crate::words::{Words, words_of};

/// What a line commands.
#[derive(Clone, Copy, Debug, PartialEq, Eq)]
pub enum Command {
    /// The server's name is requested.
    Hello,
    /// A station is chosen, in a network or in any. The codes are filled with spaces, as in a record's header.
    Station {
        /// The station's code.
        sta: [u8; 5],
        /// The network's code, where one is named.
        net: Option<[u8; 2]>,
    },
    /// All channels are requested.
    SelectAll,
    /// Records are requested as they come, from the next one on or from a number.
    Data(Option<u32>),
    /// The records that are there are requested, from the oldest one on or from a number.
    Fetch(Option<u32>),
    /// The records are to be sent.
    End,
    /// The client goes.
    Bye,
    /// Anything else.
    Other,
}

/// The number of one to six hexadecimal digits.
fn number(word: &[u8]) -> Option<u32>
    ensures { MatchOption result ((n : ℕ) → ¬ (IsNumber word.now n)) (IsNumber word.now) }
{
    if word.is_empty() || word.len() > 6 {
        return None;
    }
    number_of(word)
}

/// The command of one word.
#[tactic(auto, using(crate::proofs::Written::unknown))]
fn bare(word: &[u8]) -> Command
    ensures { IsRow result (in_small_letters word.now ∷ []) }
{
    match keyword_of(word) {
        Some(Keyword::Hello) => Command::Hello,
        Some(Keyword::Select) => Command::SelectAll,
        Some(Keyword::Data) => Command::Data(None),
        Some(Keyword::Fetch) => Command::Fetch(None),
        Some(Keyword::End) => Command::End,
        Some(Keyword::Bye) => Command::Bye,
        Some(Keyword::Station) | None => Command::Other,
    }
}

/// The command of a station in any network.
fn station(sta: &[u8]) -> Command
    ensures { IsRow result (codes "station" ∷ sta.now ∷ []) }
{
    if !is_code(5, sta) {
        return Command::Other;
    }
    Command::Station {
        sta: fill(sta),
        net: None,
    }
}

/// The command of two words.
#[tactic(auto, using(crate::proofs::Written::unknown))]
fn with_word(word: &[u8], argument: &[u8]) -> Command
    ensures { IsRow result (in_small_letters word.now ∷ argument.now ∷ []) }
{
    match keyword_of(word) {
        Some(Keyword::Station) => station(argument),
        Some(Keyword::Data) => match number(argument) {
            Some(number) => Command::Data(Some(number)),
            None => Command::Other,
        },
        Some(Keyword::Fetch) => match number(argument) {
            Some(number) => Command::Fetch(Some(number)),
            None => Command::Other,
        },
        _ => Command::Other,
    }
}

/// The command of a station in a network.
fn station_in(sta: &[u8], net: &[u8]) -> Command
    ensures { IsRow result (codes "station" ∷ sta.now ∷ net.now ∷ []) }
{
    if !is_code(5, sta) || !is_code(2, net) {
        return Command::Other;
    }
    Command::Station {
        sta: fill(sta),
        net: Some(fill(net)),
    }
}

/// The command of three words.
#[tactic(auto, using(crate::proofs::Written::unknown))]
fn with_two_words(word: &[u8], sta: &[u8], net: &[u8]) -> Command
    ensures { IsRow result (in_small_letters word.now ∷ sta.now ∷ net.now ∷ []) }
{
    match keyword_of(word) {
        Some(Keyword::Station) => station_in(sta, net),
        _ => Command::Other,
    }
}

impl Command {
    /// Returns the command that a line is, by its words between spaces, the first of them in either case (SeedLink 3,
    /// commands).
    pub fn read(line: &[u8]) -> Command
        ensures command { IsCommand line.now result }
        // A line is one command.
        ensures only { (c : Command) → IsCommand line.now c → result ≡ c }
    {
        match words_of(line) {
            Words::One(word) => bare(word),
            Words::Two(word, argument) => with_word(word, argument),
            Words::Three(word, sta, net) => with_two_words(word, sta, net),
            Words::Others => Command::Other,
        }
    }
}
