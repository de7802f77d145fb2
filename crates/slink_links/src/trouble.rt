//! What goes wrong in a try of a fetch.
ghost use Rattle.std.specs.Prelude.{◌≡◌, ◌≤◌, length};
ghost use Rattle.slink_links.specs.Trouble.{dial_text, loss_text};

use crate::network_fault::NetworkFault;

/// Why there was no link.
#[derive(Clone, Copy, Debug, PartialEq, Eq)]
pub enum DialFault {
    /// The host's name has no IPv4 address.
    Unresolved,
    /// No connection could be made.
    Unconnected(NetworkFault),
}

impl DialFault {
    /// Returns the reason in words, at most 40 bytes.
    pub fn text(self) -> &'static str
        ensures text { result.now ≡ dial_text self }
        ensures most { length result.now ≤ 40 }
    {
        match self {
            DialFault::Unresolved => "no IPv4 address of this name",
            DialFault::Unconnected(fault) => fault.text(),
        }
    }
}

/// Why nothing more came over a link.
#[derive(Clone, Copy, Debug, PartialEq, Eq)]
pub enum Loss {
    /// The server closed it.
    Closed,
    /// The handshake took longer than it may.
    LongHandshake,
    /// A read or a write failed.
    Failed(NetworkFault),
}

impl Loss {
    /// Returns the reason in words, at most 40 bytes.
    pub fn text(self) -> &'static str
        ensures text { result.now ≡ loss_text self }
        ensures most { length result.now ≤ 40 }
    {
        match self {
            Loss::Closed => "closed by the server before the end",
            Loss::LongHandshake => "the handshake took too long",
            Loss::Failed(fault) => fault.text(),
        }
    }
}

/// What went wrong in a try of a fetch, where it brought no end.
#[derive(Clone, Copy, Debug, PartialEq, Eq)]
pub enum Trouble {
    /// There was no link.
    Undialled(DialFault),
    /// There was a link, over which nothing more came.
    Lost(Loss),
}
