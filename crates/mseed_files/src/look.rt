//! A look at files before any of them is read.
ghost use Rattle.std.specs.Prelude.{◌≡◌, ◌<◌, ℕ, IfSome, None, length};
ghost use Rattle.mseed_files.specs.Looked.{MayBeRead, MayBeUnreadable, found_at};

use crate::files::Files;
use crate::reason::Reason;

/// Returns the first of the words that names nothing that can be read, if one does, and why. Nothing is read. What is
/// found may change before the files are read.
pub fn find_unreadable<F: Files>(files: &F, words: &[&[u8]]) -> Option<(usize, Reason)>
    ensures within { IfSome result (λ first. first.0 < length words.now) }
    ensures unreadable { IfSome result (λ first.
        MayBeUnreadable (found_at (F.found files.now) words.now first.0) first.1) }
    ensures first { IfSome result (λ first. (before : ℕ) → before < first.0
        → MayBeRead (found_at (F.found files.now) words.now before)) }
    ensures none { result ≡ None → (file : ℕ) → file < length words.now
        → MayBeRead (found_at (F.found files.now) words.now file) }
{
    for index in 0..words.len() {
        if let Some(reason) = files.look_at(words[index]) {
            return Some((index, reason));
        }
    }
    None
}
