//! The files that the words of a command line name.
ghost use Rattle.std.specs.Prelude.{◌≡◌, map};
ghost use Rattle.mseed_words.specs.Files.{file_mistake, takes_files, unfit};

use crate::found::is_among;
use crate::mistake::Mistake;
use crate::request::Request;

/// Whether the further words of a request are files.
pub(crate) fn takes_files(request: &Request) -> bool
    ensures { result ≡ takes_files request.now }
{
    !matches!(
        request,
        Request::Serve(_) | Request::Live(_) | Request::Fetch(_)
    )
}

/// What is wrong with the first of the words that can't be a file, if there is one: none is empty, and standard input
/// is named once at most.
pub(crate) fn file_mistake(words: &[&str]) -> Option<Mistake>
    ensures { result ≡ file_mistake (map (λ w. w.now) words.now) }
{
    for index in 0..words.len() {
        if let Some(mistake) = unfit(words[index], &words[index + 1..]) {
            return Some(mistake);
        }
    }
    None
}

/// What is wrong with a word that can't name a file before others: standard input where it's named again, or an empty
/// word.
#[tactic(auto, using(crate::proofs::Called::named))]
fn unfit(word: &str, rest: &[&str]) -> Option<Mistake>
    ensures { result ≡ unfit word.now (map (λ w. w.now) rest.now) }
{
    match word {
        "-" if is_among("-", rest) => Some(Mistake::InputAgain),
        "" => Some(Mistake::EmptyFile),
        _ => None,
    }
}
