//! Where a feed leads, and how long a link may be silent, as the arguments of the command line say.
ghost use Rattle.std.specs.Prelude.{◌≡◌, IfSome};
ghost use Rattle.std.specs.List.{list_all, list_any};
ghost use Rattle.std.specs.Char.{is_ascii_alphabetic};
ghost use Rattle.mseed_words.specs.Addresses.{IsTimeout, address_in, digits_in, host_in, is_in_name, is_name, name_in};
ghost use Rattle.mseed_words.specs.Addresses.{octet_in, timeout_in};

use crate::halves::cut;
use crate::numbers::number_in;
use slink_wire::{Address, Host, Name, Timeout};

/// How long a link may be silent: seconds in up to five digits, up to a day.
pub(crate) fn timeout_in(text: &str) -> Option<Timeout>
    ensures value { result ≡ timeout_in text.now }
    ensures range { IfSome result IsTimeout }
{
    match number_in(text) {
        Some(seconds) if text.len() <= 5 && seconds <= 86_400 => Some(Timeout { seconds }),
        _ => None,
    }
}

/// An address, or a name.
pub(crate) fn host_in(text: &str) -> Option<Host>
    ensures { result ≡ host_in text.now }
{
    match address_in(text) {
        Some(address) => Some(Host::Address(address)),
        None => Some(Host::Name(name_in(text)?)),
    }
}

/// The name of a host.
fn name_in(text: &str) -> Option<Name>
    ensures { result ≡ name_in text.now }
{
    if is_name(text.as_bytes()) {
        Name::new(text)
    } else {
        None
    }
}

/// Whether a text is of letters, digits, hyphens, underscores and dots, with a letter among them.
fn is_name(text: &[u8]) -> bool
    ensures { result ≡ is_name text.now }
{
    are_in_name(text) && has_letter(text)
}

/// Whether all bytes can stand in a name.
fn are_in_name(text: &[u8]) -> bool
    ensures { result ≡ list_all is_in_name text.now }
{
    text.iter().all(|byte| is_in_name(*byte))
}

/// Whether one of the bytes is a letter.
fn has_letter(text: &[u8]) -> bool
    ensures { result ≡ list_any is_ascii_alphabetic text.now }
{
    text.iter().any(|byte| byte.is_ascii_alphabetic())
}

/// Whether a byte can stand in a name.
fn is_in_name(byte: u8) -> bool
    ensures { result ≡ is_in_name byte }
{
    byte.is_ascii_alphanumeric() || byte == b'-' || byte == b'.' || byte == b'_'
}

/// An IPv4 address.
pub(crate) fn address_in(text: &str) -> Option<Address>
    ensures { result ≡ address_in text.now }
{
    let (first, rest) = cut(text, '.');
    let (second, rest) = cut(rest, '.');
    let (third, fourth) = cut(rest, '.');
    Some(Address {
        octets: [
            octet_in(first)?,
            octet_in(second)?,
            octet_in(third)?,
            octet_in(fourth)?,
        ],
    })
}

/// A number of an address.
fn octet_in(text: &str) -> Option<u8>
    ensures { result ≡ octet_in text.now }
{
    match number_in(text) {
        Some(number) if number <= 255 && text.len() == digits_in(number) => Some(number as u8),
        _ => None,
    }
}

/// How many decimal digits a number of an address has.
fn digits_in(number: u32) -> usize
    ensures { result ≡ digits_in number }
{
    if number < 10 {
        1
    } else if number < 100 {
        2
    } else {
        3
    }
}
