//! Files one after another, as one reader.
ghost use Rattle.std.specs.Prelude.{◌≡◌, ◌<◌, ◌≤◌, ◌+◌, ◌^◌, ℕ, [], ◌∷◌, ◌++◌, None, Some, Ok, true, false, length};
ghost use Rattle.std.specs.Prelude.{IfOk, IfSome, OnErr, OnOk, IsTrue, is_some, slice_index, take, vec_len};
ghost use Rattle.std.specs.Prelude.{vec_capacity};
ghost use Rattle.std.specs.Io.{ReadsAtMost};
ghost use Rattle.std.specs.Io.KnownBytes.{Consumes, Keeps, ReadConsumes};
ghost use Rattle.mseed_files.specs.Found.{contents_of};
ghost use Rattle.mseed_files.specs.ReaderState.{GoesOn, HasEnded, IsAlong, IsPlace, ReaderState, left_in, remaining_of};
ghost use Rattle.mseed_files.specs.ReaderState.{unread};
ghost use Rattle.mseed_files.specs.private.Steps.{steps_left};

use crate::files::Files;
use crate::place::Place;
use crate::reason::Reason;
use std::alloc::{AllocError, Allocator, Global};
use std::marker::Model;

/// Files one after another, as one reader. One of them is open at a time.
///
/// The end of a file that others follow is no end, and neither is an empty file. A file that can't be opened, or a read
/// that fails, is an error of that read; a further read tries again.
///
/// Contracts see it as a `ReaderState`.
#[derive(Drop)]
pub(crate) struct Reader<'a, F: Files, A: Allocator = Global> {
    files: &'a mut F,
    words: &'a [&'a [u8]],
    // Where each file that was opened begins. There is room for all files.
    begins: Vec<u64, A>,
    // The last one of those, while it's open.
    file: Option<F::File>,
    // How many bytes were read.
    bytes: u64,
    // The file that failed last.
    failed: Option<usize>,
    // Why it did.
    reason: Reason,
}

impl<'a, F: Files, A: Allocator> Model for Reader<'a, F, A> {
    ghost Value = { ReaderState };

    ghost view = { λ r. record {
      contents = contents_of (F.found r.files.now) r.words.now;
      begins = r.begins.items;
      is_open = is_some r.file;
      left = left_in F.left r.file;
      bytes = r.bytes;
      failed = r.failed;
      failures = F.failures r.files.now;
    } };

    ghost invariant = { λ r. (length (contents_of (F.found r.files.now) r.words.now) ≤ vec_capacity r.begins)
        × IsAlong (contents_of (F.found r.files.now) r.words.now) r.begins.items (is_some r.file)
        (left_in F.left r.file) r.bytes };
}

impl<'a, F: Files, A: Allocator> Reader<'a, F, A> {
    /// The files that these words name, none of which was opened yet.
    ///
    /// # Errors
    ///
    /// Where there is no memory for where they begin.
    pub(crate) fn new(
        alloc: A,
        files: &'a mut F,
        words: &'a [&'a [u8]],
    ) -> Result<Reader<'a, F, A>, AllocError>
        ensures { IfOk result (λ reader. reader ≡ unread (contents_of (F.found files.old) words.entry.now)
            (F.failures files.old)) }
    {
        let begins = Vec::with_capacity(alloc, words.len())?;
        Ok(Reader {
            files,
            words,
            begins,
            file: None,
            bytes: 0,
            failed: None,
            reason: Reason::Other,
        })
    }

    /// The file for which a read failed last, by its number, if one did.
    pub(crate) fn failed(&self) -> Option<usize>
        ensures { result ≡ self.now.failed }
    {
        self.failed
    }

    /// Why that read failed.
    pub(crate) fn reason(&self) -> Reason {
        self.reason
    }

    /// The number of bytes that were read of all files.
    pub(crate) fn bytes_read(&self) -> u64
        ensures { result ≡ self.now.bytes }
    {
        self.bytes
    }

    /// Where the byte lies before which `offset` bytes were read: in the last file of those that were opened that
    /// doesn't begin after it. None where no file was opened.
    #[tactic(auto, using(crate::proofs::Opening::placed))]
    pub(crate) fn place_of(&self, offset: u64) -> Option<Place>
        ensures place { IfSome result (IsPlace self.now offset) }
        ensures none { result ≡ None → self.now.begins ≡ [] }
    {
        place_in(&self.begins, offset)
    }

    /// Reads once what is left of the files, into the beginning of `buf`, and returns how many bytes were read: 0 where
    /// nothing is left.
    ///
    /// # Errors
    ///
    /// Why a file can't be opened or a read fails; `TooLarge` where 2^64 bytes might have been read by it in all.
    pub(crate) fn read(&mut self, buf: &mut [u8]) -> Result<usize, Reason>
        ensures bound { ReadsAtMost result buf.new }

        // What is read is what is left of the file that is open, and then the files after it.
        ensures bytes { ReadConsumes (remaining_of self.old) (remaining_of self.new) result buf.new }

        // The end is reported once no file is left, and no file is reported for another.
        ensures end { result ≡ Ok 0 → 0 < length buf.new → HasEnded self.new }
        ensures goes_on { GoesOn result self.old self.new }

        // It fails only where the system does, or where there are no numbers for more bytes.
        ensures counted { OnOk result (self.new.failures ≡ self.old.failures) }
        ensures failed { OnErr result (self.new.bytes + length buf.new < 2 ^ 64
            → self.new.failures ≡ self.old.failures + 1) }
    {
        if buf.is_empty() {
            return Ok(0);
        }
        while self.has_file()? {
            match self.read_file(buf)? {
                0 => {}
                n => return Ok(n),
            }
        }
        Ok(0)
    }

    /// Whether there is a file to be read: the next one is opened where none is open.
    ///
    /// # Errors
    ///
    /// Why it can't be opened.
    #[tactic(auto, using(crate::proofs::Opening::none_left, crate::proofs::Opening::opened_keeps))]
    fn has_file(&mut self) -> Result<bool, Reason>
        ensures found { IfOk result (λ found. found ≡ self.new.is_open) }
        ensures goes_on { GoesOn result self.old self.new }
        ensures counted { OnOk result (self.new.failures ≡ self.old.failures) }
        ensures failed { OnErr result (self.new.failures ≡ self.old.failures + 1) }
        ensures known { Keeps (remaining_of self.old) (remaining_of self.new) }
        ensures ended { result ≡ Ok false → HasEnded self.new }
        ensures nearer { result ≡ Ok true → steps_left (record self.new { is_open = false }) < steps_left self.old }
    {
        if self.file.is_some() {
            return Ok(true);
        }
        let index = self.begins.len();
        if index == self.words.len() {
            return Ok(false);
        }
        let words = self.words;
        match self.files.open(words[index]) {
            Ok(file) => {
                put(&mut self.begins, self.bytes);
                self.file = Some(file);
                Ok(true)
            }
            Err(reason) => {
                self.failed = Some(index);
                self.reason = reason;
                Err(reason)
            }
        }
    }

    /// Reads the file that is open, and closes it at its end.
    ///
    /// # Errors
    ///
    /// Why the read fails; `TooLarge` where 2^64 bytes might have been read by it in all.
    fn read_file(&mut self, buf: &mut [u8]) -> Result<usize, Reason>
        requires is_open { IsTrue self.old.is_open }
        requires room { 0 < length buf.old }
        ensures bound { ReadsAtMost result buf.new }
        ensures known { IfOk result (λ n. Consumes (remaining_of self.old) (remaining_of self.new) (take n buf.new)) }
        ensures kept { OnErr result (Keeps (remaining_of self.old) (remaining_of self.new)) }
        ensures goes_on { GoesOn result self.old self.new }
        ensures counted { OnOk result (self.new.failures ≡ self.old.failures) }
        ensures failed { OnErr result (self.new.bytes + length buf.new < 2 ^ 64
            → self.new.failures ≡ self.old.failures + 1) }
        ensures closed { result ≡ Ok 0 → self.new.is_open ≡ false }
        ensures opened { self.new.begins ≡ self.old.begins }
    {
        let most = self.bytes.checked_add(buf.len() as u64);
        let read = match (&mut self.file, most) {
            (Some(file), Some(_)) => self.files.read(file, buf),
            _ => Err(Reason::TooLarge),
        };
        match read {
            Ok(0) => {
                self.file = None;
                Ok(0)
            }
            Ok(n) => {
                self.bytes += n as u64;
                Ok(n)
            }
            Err(reason) => {
                self.failed = Some(self.begins.len() - 1);
                self.reason = reason;
                Err(reason)
            }
        }
    }
}

/// Puts a number into a list that has room for it.
fn put<A: Allocator>(numbers: &mut Vec<u64, A>, number: u64)
    requires { vec_len numbers.old < vec_capacity numbers.old }
    ensures items { numbers.new.items ≡ numbers.old.items ++ number ∷ [] }
    ensures capacity { vec_capacity numbers.old ≤ vec_capacity numbers.new }
{
    match numbers.push(number) {
        Ok(()) => {}
        Err(_) => unreachable!(),
    }
}

/// The last of the files that don't begin after an offset, by where they begin, and the offset within it.
fn place_in(begins: &[u64], offset: u64) -> Option<Place>
    ensures opened { IfSome result (λ p. p.file < length begins.now) }
    ensures offset { IfSome result (λ p. slice_index begins.now p.file + p.offset ≡ offset) }
    ensures last { IfSome result (λ p. (next : ℕ) → p.file < next → next < length begins.now
        → offset < slice_index begins.now next) }
    ensures none { result ≡ None → (file : ℕ) → file < length begins.now → offset < slice_index begins.now file }
{
    let mut file = begins.len();
    while file > 0 {
        file -= 1;
        if begins[file] <= offset {
            return Some(Place {
                file,
                offset: offset - begins[file],
            });
        }
    }
    None
}
