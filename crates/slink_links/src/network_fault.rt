//! Why a link can't be had, or can be had no more.
ghost use Rattle.std.specs.Prelude.{◌≡◌, ◌≤◌, length};
ghost use Rattle.slink_links.specs.NetworkFault.{IsFaultOf, network_fault_of, network_faults, network_text, own_fault};
ghost use Rattle.slink_links.specs.NetworkFault.{row_in};

use crate::listen_fault::ListenFault;
use std::io::{Error, ErrorKind};

/// Why the system has no link for a client, or has it no more.
#[derive(Clone, Copy, Debug, PartialEq, Eq)]
pub enum NetworkFault {
    /// Nobody listens at the port.
    Refused,
    /// The other side has dropped the link.
    Reset,
    /// The other side takes nothing more.
    Broken,
    /// It takes longer than it may.
    TimedOut,
    /// There is no way to the network.
    NoNetwork,
    /// There is no way to the host.
    NoRoute,
    /// An error that whoever listens may meet too.
    Other(ListenFault),
}

impl NetworkFault {
    /// Returns the reason of an error: of one of the system by the number that Linux has for it, and of another one by
    /// its kind.
    pub fn of(error: &Error) -> NetworkFault
        ensures { IsFaultOf error.now result }
    {
        match error.raw_os_error() {
            Some(number) => NetworkFault::of_number(number),
            None if error.kind() == ErrorKind::TimedOut => NetworkFault::TimedOut,
            None => NetworkFault::Other(ListenFault::of(error)),
        }
    }

    /// The reason of an error of the system, by its number.
    fn of_number(number: i32) -> NetworkFault
        ensures { result ≡ network_fault_of number }
    {
        match NetworkFault::own(number) {
            Some(fault) => fault,
            None => NetworkFault::Other(ListenFault::of_number(number)),
        }
    }

    /// The reason of an error of the system that whoever listens doesn't meet, by its number.
    fn own(number: i32) -> Option<NetworkFault>
        ensures { result ≡ own_fault number }
    {
        if number < 0 {
            None
        } else {
            NetworkFault::of_errno(number.unsigned_abs())
        }
    }

    /// The reason of one of Linux's numbers.
    fn of_errno(number: u32) -> Option<NetworkFault>
        ensures { result ≡ row_in network_faults number }
    {
        match number {
            11 | 110 => Some(NetworkFault::TimedOut),
            32 => Some(NetworkFault::Broken),
            101 => Some(NetworkFault::NoNetwork),
            104 => Some(NetworkFault::Reset),
            111 => Some(NetworkFault::Refused),
            113 => Some(NetworkFault::NoRoute),
            _ => None,
        }
    }

    /// Returns the reason in words, at most 40 bytes.
    pub fn text(self) -> &'static str
        ensures text { result.now ≡ network_text self }
        ensures most { length result.now ≤ 40 }
    {
        match self {
            NetworkFault::Refused => "connection refused",
            NetworkFault::Reset => "connection reset",
            NetworkFault::Broken => "broken pipe",
            NetworkFault::TimedOut => "timed out",
            NetworkFault::NoNetwork => "network unreachable",
            NetworkFault::NoRoute => "no route to host",
            NetworkFault::Other(fault) => fault.text(),
        }
    }
}
