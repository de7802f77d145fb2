//! Why a file can't be read.
ghost use Rattle.std.specs.Prelude.{◌≡◌, ◌≤◌, length};
ghost use Rattle.mseed_files.specs.Reason.{reason_text};

use std::io::Error;

/// Why a file can't be read: what a look finds, or an error of the system.
#[derive(Clone, Copy, Debug, PartialEq, Eq)]
pub enum Reason {
    /// There is no such file.
    Missing,
    /// It is a directory.
    Directory,
    /// It is the regular file that standard output writes into.
    Output,
    /// It may not be read.
    Denied,
    /// The system doesn't permit the call.
    NotPermitted,
    /// Something in its path is no directory.
    NotInDirectory,
    /// Too many symbolic links lead to one another.
    Links,
    /// Its name, or its path, is too long.
    LongName,
    /// The device failed.
    Device,
    /// Too many files are open.
    ManyFiles,
    /// It is a device that isn't there.
    NoDevice,
    /// It is in use.
    Busy,
    /// It isn't there any more, on another machine.
    Stale,
    /// The system has no memory.
    NoMemory,
    /// Another machine didn't answer in time.
    TimedOut,
    /// A connection to another machine was cut off.
    Reset,
    /// Standard input is closed.
    Closed,
    /// It can't be read in this way.
    Invalid,
    /// It is too large.
    TooLarge,
    /// Another error of the system.
    Other,
}

impl Reason {
    /// The reason of an error of the system; `Other` where it has no number.
    pub(crate) fn of(error: &Error) -> Reason {
        match error.raw_os_error() {
            Some(number) => Reason::of_number(number),
            None => Reason::Other,
        }
    }

    /// The reason of an error of the system, by the number that Linux has for it.
    pub(crate) fn of_number(number: i32) -> Reason {
        match number {
            1 => Reason::NotPermitted,
            2 => Reason::Missing,
            5 => Reason::Device,
            6 | 19 => Reason::NoDevice,
            9 => Reason::Closed,
            12 => Reason::NoMemory,
            13 => Reason::Denied,
            16 | 26 => Reason::Busy,
            20 => Reason::NotInDirectory,
            21 => Reason::Directory,
            22 => Reason::Invalid,
            23 | 24 => Reason::ManyFiles,
            27 | 75 => Reason::TooLarge,
            36 => Reason::LongName,
            40 => Reason::Links,
            104 => Reason::Reset,
            110 => Reason::TimedOut,
            116 => Reason::Stale,
            _ => Reason::Other,
        }
    }

    /// The reason in words.
    pub fn text(self) -> &'static str
        ensures text { result.now ≡ reason_text self }
        ensures most { length result.now ≤ 40 }
    {
        match self {
            Reason::Missing => "not found",
            Reason::Directory => "is a directory",
            Reason::Output => "is the output",
            Reason::Denied => "permission denied",
            Reason::NotPermitted => "operation not permitted",
            Reason::NotInDirectory => "not a directory",
            Reason::Links => "too many levels of symbolic links",
            Reason::LongName => "file name too long",
            Reason::Device => "input/output error",
            Reason::ManyFiles => "too many open files",
            Reason::NoDevice => "no such device",
            Reason::Busy => "device or resource busy",
            Reason::Stale => "stale file handle",
            Reason::NoMemory => "cannot allocate memory",
            Reason::TimedOut => "connection timed out",
            Reason::Reset => "connection reset by peer",
            Reason::Closed => "bad file descriptor",
            Reason::Invalid => "invalid argument",
            Reason::TooLarge => "file too large",
            Reason::Other => "error of the system",
        }
    }
}
