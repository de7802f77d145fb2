//! The files of the system. What it answers is trusted: no clause says what there is by a word, or what a file has.
ghost use Rattle.std.specs.Prelude.{None};
ghost use Rattle.mseed_files.specs.Found.{unknown};

use crate::files::Files;
use crate::reason::Reason;
use io::count;
use mseed_stream::Tally;
use std::alloc::Alloc;
use std::fs;
use std::fs::{Metadata, metadata};
use std::os::unix::fs::MetadataExt;
use std::str::from_utf8;

/// The word for standard input.
pub const STANDARD_INPUT: &[u8] = b"-";

/// What standard input reads, and what standard output writes into, by names that the system has for them.
const INPUT: &str = "/proc/self/fd/0";

const OUTPUT: &str = "/proc/self/fd/1";

/// A path is no longer than this, its NUL included.
const LONGEST_PATH: usize = 4096;

/// The files of the system, and standard input.
#[derive(Drop)]
pub struct System<'a, R: fs::Files + Alloc> {
    runtime: &'a R,
    // What standard output writes into, if it is open.
    output: Option<Metadata>,
    // The openings and reads so far.
    calls: Tally,
}

impl<'a, R: fs::Files + Alloc> System<'a, R> {
    /// The files of the system, of which none was opened yet.
    pub fn new(runtime: &'a R) -> System<'a, R> {
        System {
            runtime,
            output: metadata(runtime, OUTPUT).ok(),
            calls: Tally::new(),
        }
    }

    /// Why a file can't be read, by what is known of it: it is a directory, or the regular file that standard output
    /// writes into.
    fn reason_of(&self, file: &Metadata) -> Option<Reason> {
        if file.is_dir() {
            return Some(Reason::Directory);
        }
        match &self.output {
            Some(output) if file.is_file() => {
                if file.ino() == output.ino() && file.dev() == output.dev() {
                    Some(Reason::Output)
                } else {
                    None
                }
            }
            _ => None,
        }
    }

    /// Why a file that is open isn't to be read from, as far as that is known: it is a directory, or the regular file
    /// that standard output writes into.
    fn reason_of_open(&self, descriptor: i32) -> Option<Reason> {
        match format!(in self.runtime.alloc(); "/proc/self/fd/{descriptor}") {
            Ok(path) => match metadata(self.runtime, path.as_str()) {
                Ok(file) => self.reason_of(&file),
                Err(_) => None,
            },
            Err(_) => None,
        }
    }
}

impl<'a, R: fs::Files + Alloc> Files for System<'a, R> {
    type File = Input;

    ghost found = { λ _ _. unknown };

    ghost failures = { λ s. s.calls.failures };

    ghost left = { λ _. None };

    fn look_at(&self, word: &[u8]) -> Option<Reason> {
        if word == STANDARD_INPUT {
            return match metadata(self.runtime, INPUT) {
                Ok(input) if input.is_file() => self.reason_of(&input),
                _ => None,
            };
        }
        match from_utf8(word) {
            Ok(path) => match metadata(self.runtime, path) {
                Ok(file) => match self.reason_of(&file) {
                    None if file.is_file() => reason_not_opened(word),
                    reason => reason,
                },
                Err(error) => Some(Reason::of(&error)),
            },
            Err(_) => reason_elsewhere(word),
        }
    }

    // The file of a name that isn't UTF-8 is known only once it is open.
    fn open(&mut self, word: &[u8]) -> Result<Input, Reason> {
        let opened = match open_word(word) {
            Ok(file) if from_utf8(word).is_err() => match self.reason_of_open(file.descriptor) {
                None => Ok(file),
                Some(reason) => Err(reason),
            },
            opened => opened,
        };
        self.calls.record(&[], opened.is_err());
        opened
    }

    fn read(&mut self, file: &mut Input, buf: &mut [u8]) -> Result<usize, Reason> {
        let got = libc::read(file.descriptor, buf);
        if got < 0 {
            let reason = Reason::of_number(os::errno());
            self.calls.record(&[], true);
            return Err(reason);
        }
        self.calls.record(&[], false);
        Ok(count(got, buf))
    }
}

/// A file that is open for reading, or standard input.
pub struct Input {
    descriptor: i32,
    // Standard input isn't closed.
    is_standard: bool,
}

impl Drop for Input {
    fn drop(self) {
        let Input {
            descriptor,
            is_standard,
        } = self;
        if !is_standard {
            libc::close(descriptor);
        }
    }
}

/// Opens what a word names.
///
/// # Errors
///
/// Why the system doesn't open it.
fn open_word(word: &[u8]) -> Result<Input, Reason> {
    if word == STANDARD_INPUT {
        return Ok(Input {
            descriptor: libc::STDIN_FILENO,
            is_standard: true,
        });
    }
    let descriptor = os::open_read(word);
    if descriptor < 0 {
        return Err(Reason::of_number(os::errno()));
    }
    Ok(Input {
        descriptor,
        is_standard: false,
    })
}

/// Why a file can't be opened that a word names, if it can't.
fn reason_not_opened(word: &[u8]) -> Option<Reason> {
    open_word(word).err()
}

/// Why a path, which isn't UTF-8, isn't that of something to be read: nothing is there, or it is a directory, or what
/// standard output writes into. It isn't opened: it may be a pipe, whose other end would lose its reader.
fn reason_elsewhere(path: &[u8]) -> Option<Reason> {
    let mut resolved = [0; LONGEST_PATH];
    if os::realpath(path, &mut resolved) != 0 {
        return Some(Reason::of_number(os::errno()));
    }
    let directory = os::open_dir_at(libc::AT_FDCWD, path);
    if directory >= 0 {
        libc::close(directory);
        return Some(Reason::Directory);
    }
    let mut output = [0; LONGEST_PATH];
    let got = count(os::readlink(OUTPUT.as_bytes(), &mut output), &output);
    let is_elsewhere = got == LONGEST_PATH
        || output[..got] != resolved[..got]
        || resolved[got] != 0;
    if is_elsewhere {
        None
    } else {
        Some(Reason::Output)
    }
}
