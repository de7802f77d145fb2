//! Why a port can't be had.
ghost use Rattle.std.specs.Prelude.{◌≡◌, ◌≢◌, ◌≤◌, ℤ, None, Some, length};
ghost use Rattle.std.specs.IoError.{error_kind, raw_os_error};
ghost use Rattle.slink_links.specs.ListenFault.{fault_in, fault_of, listen_faults, listen_text};

use std::io::{Error, ErrorKind};

/// Why the system refuses an address and port of this host to whoever wants to listen there.
#[derive(Clone, Copy, Debug, PartialEq, Eq)]
pub enum ListenFault {
    /// The port is taken at this address.
    InUse,
    /// The address isn't one of this host.
    NotAvailable,
    /// The port is one that not everybody may have.
    Denied,
    /// The system doesn't permit the call.
    NotPermitted,
    /// The system has no addresses of this kind.
    NoFamily,
    /// Too many files are open.
    ManyFiles,
    /// There is no memory.
    NoMemory,
    /// The system has no room for the connections.
    NoBuffers,
    /// Another error of the system.
    Other,
}

impl ListenFault {
    /// Returns the reason of an error: of one of the system by the number that Linux has for it, and of another one by
    /// whether memory was refused.
    pub fn of(error: &Error) -> ListenFault
        ensures number { (number : ℤ) → raw_os_error error.now ≡ Some number → result ≡ fault_of number }
        ensures memory { raw_os_error error.now ≡ None → error_kind error.now ≡ ErrorKind.OutOfMemory
            → result ≡ ListenFault.NoMemory }
        ensures other { raw_os_error error.now ≡ None → error_kind error.now ≢ ErrorKind.OutOfMemory
            → result ≡ ListenFault.Other }
    {
        match error.raw_os_error() {
            Some(number) => ListenFault::of_number(number),
            None if error.kind() == ErrorKind::OutOfMemory => ListenFault::NoMemory,
            None => ListenFault::Other,
        }
    }

    /// The reason of an error of the system, by its number.
    pub(crate) fn of_number(number: i32) -> ListenFault
        ensures { result ≡ fault_of number }
    {
        if number < 0 {
            ListenFault::Other
        } else {
            ListenFault::of_errno(number.unsigned_abs())
        }
    }

    /// The reason of one of Linux's numbers.
    fn of_errno(number: u32) -> ListenFault
        ensures { result ≡ fault_in listen_faults number }
    {
        match number {
            1 => ListenFault::NotPermitted,
            12 => ListenFault::NoMemory,
            13 => ListenFault::Denied,
            23 | 24 => ListenFault::ManyFiles,
            97 => ListenFault::NoFamily,
            98 => ListenFault::InUse,
            99 => ListenFault::NotAvailable,
            105 => ListenFault::NoBuffers,
            _ => ListenFault::Other,
        }
    }

    /// Returns the reason in words, at most 40 bytes.
    pub fn text(self) -> &'static str
        ensures text { result.now ≡ listen_text self }
        ensures most { length result.now ≤ 40 }
    {
        match self {
            ListenFault::InUse => "address in use",
            ListenFault::NotAvailable => "address not available",
            ListenFault::Denied => "permission denied",
            ListenFault::NotPermitted => "operation not permitted",
            ListenFault::NoFamily => "address family not supported",
            ListenFault::ManyFiles => "too many open files",
            ListenFault::NoMemory => "cannot allocate memory",
            ListenFault::NoBuffers => "no buffer space available",
            ListenFault::Other => "error of the system",
        }
    }
}
