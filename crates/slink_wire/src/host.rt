//! Where a link leads, and how long it may wait.
ghost use Rattle.std.specs.Prelude.{◌≡◌, ◌≤◌, ◌∷◌, [], List, Some, length, option_map, ℕ};
ghost use Rattle.std.specs.Duration.{as_nanos};
ghost use Rattle.std.specs.Str.{IsUtf8};
ghost use Rattle.slink_wire.specs.Hosts.{limit_in, name_of, padded};

use std::str;
use std::time::Duration;

/// An IPv4 address.
#[derive(Clone, Copy, Debug, PartialEq, Eq)]
pub struct Address {
    /// The four numbers of the address, in the order in which they are written.
    pub octets: [u8; 4],
}

impl Address {
    /// Returns this machine's address, 127.0.0.1.
    pub fn local() -> Address
        ensures { result.octets ≡ 127 ∷ 0 ∷ 0 ∷ 1 ∷ [] }
    {
        Address {
            octets: [127, 0, 0, 1],
        }
    }
}

/// The most bytes that a name has.
const LONGEST: usize = 253;

/// A text with zeros after it, up to an array's length.
fn padded<const N: usize>(text: &[u8]) -> [u8; N]
    requires { length text.now ≤ N }
    ensures { result ≡ padded N text.now }
{
    let mut bytes = [0; N];
    bytes[..text.len()].copy_from_slice(text);
    bytes
}

/// A host's name of at most 253 bytes, which the system resolves to addresses.
#[derive(Clone, Copy)]
pub struct Name {
    bytes: [u8; LONGEST],
    count: u8,
}

impl Name {
    /// Returns the name that a text is, or `None` where it has more than 253 bytes.
    pub fn new(name: &str) -> Option<Name>
        ensures { result ≡ name_of name.now }
    {
        let text = name.as_bytes();
        if text.len() > LONGEST {
            return None;
        }
        Some(Name {
            bytes: padded(text),
            count: text.len() as u8,
        })
    }

    /// Returns the text of the name.
    pub fn text(&self) -> &str
        ensures { (text : List ℕ) → IsUtf8 text → name_of text ≡ Some self.now → result.now ≡ text }
    {
        match self.bytes.get(..usize::from(self.count)) {
            Some(bytes) => str::from_utf8(bytes).unwrap_or(""),
            None => "",
        }
    }
}

/// The machine that a client asks for a link.
#[derive(Clone, Copy)]
pub enum Host {
    /// The machine at this address.
    Address(Address),
    /// The machine of this name, which the system resolves anew at each try.
    Name(Name),
}

/// How long a call of a link may wait, and a handshake may take, in seconds. 0 stands for any time.
#[derive(Clone, Copy, Debug, PartialEq, Eq)]
pub struct Timeout {
    /// The number of seconds, or 0.
    pub seconds: u32,
}

impl Timeout {
    /// Returns the time after which a call fails that still waits, or `None` where it may wait for any time.
    pub fn limit(self) -> Option<Duration>
        ensures { option_map as_nanos result ≡ limit_in self }
    {
        if self.seconds == 0 {
            None
        } else {
            Some(Duration::from_secs(u64::from(self.seconds)))
        }
    }
}
