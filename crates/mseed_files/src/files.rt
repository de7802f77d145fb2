//! Where files come from.
ghost use Rattle.std.specs.Prelude.{◌≡◌, ◌+◌, ℕ, IfOk, List, Option};
ghost use Rattle.std.specs.Io.{ReadsAtMost};
ghost use Rattle.std.specs.Io.KnownBytes.{ReadConsumes};
ghost use Rattle.mseed_files.specs.Found.{Found, IsLookedAt, IsUnreadOf, failures_of};

use crate::reason::Reason;

/// What a command is given to read: files, by the words that name them. A word is a path, or `-` for standard input.
///
/// Contracts name two things of it: `found`, what there is by a word, where that is known; and `failures`, how many
/// openings and reads failed so far. Of a file they name `left`, the bytes that it has left, where they are known.
pub trait Files {
    /// A file that is open, or standard input. A file is closed where it's dropped.
    type File: Drop;

    // What there is by a word, where that is known.
    ghost found: { Self → List ℕ → Found };

    // How many openings and reads failed so far.
    ghost failures: { Self → ℕ };

    // The bytes that a file has left, where they are known.
    ghost left: { Self.File → Option (List ℕ) };

    /// Returns why a word names nothing that can be read, as far as a look can tell, and `None` where it names what can
    /// be read: neither what isn't there, nor a directory, nor the regular file that standard output writes into, nor a
    /// regular file that can't be opened. Pipes and devices aren't opened. Nothing is read.
    fn look_at(&self, word: &[u8]) -> Option<Reason>
        ensures { IsLookedAt (found self.now word.now) result };

    /// Opens what a word names, of which nothing was read yet.
    ///
    /// # Errors
    ///
    /// Why it can't be opened.
    fn open(&mut self, word: &[u8]) -> Result<Self::File, Reason>
        ensures bytes { IfOk result (λ file. IsUnreadOf (found self.old word.now) (left file)) }
        ensures failures { failures self.new ≡ failures self.old + failures_of result }
        ensures found { found self.new ≡ found self.old };

    /// Reads once of a file that is open, into the beginning of `buf`, and returns how many bytes were read: 0 at its
    /// end.
    ///
    /// # Errors
    ///
    /// Why the read fails. No byte is lost by it.
    fn read(&mut self, file: &mut Self::File, buf: &mut [u8]) -> Result<usize, Reason>
        ensures bound { ReadsAtMost result buf.new }
        ensures bytes { ReadConsumes (left file.old) (left file.new) result buf.new }
        ensures failures { failures self.new ≡ failures self.old + failures_of result }
        ensures found { found self.new ≡ found self.old };
}
