//! Making the codes of a channel.
ghost use Rattle.std.specs.Prelude.{◌≡◌, ◌↔◌, ◌++◌, IfErr, IfOk, IsOk, IsTrue, None, Some};
ghost use Rattle.mseed_record.specs.Written.{filled, first_bad_code, is_code, is_code_byte};
ghost use Rattle.std.specs.List.{list_all};

use crate::codes::Codes;

/// One of a channel's codes.
#[derive(Clone, Copy, Debug, PartialEq, Eq)]
pub enum CodeField {
    /// The network code, 2 bytes.
    Network,
    /// The station code, 5 bytes.
    Station,
    /// The location code, 2 bytes.
    Location,
    /// The channel code, 3 bytes.
    Channel,
}

/// Why codes are no channel's: one of them doesn't fit its field.
#[derive(Clone, Copy, Debug, PartialEq, Eq)]
pub struct BadCode {
    /// The field of the first code that doesn't fit.
    pub field: CodeField,
}

impl Codes {
    /// Returns the codes of a channel, each filled with spaces (SEED manual, chapter 8, fields 4 to 7 of the fixed
    /// section). They may have at most 2, 5, 2 and 3 bytes, each printable and no space.
    ///
    /// # Errors
    ///
    /// `BadCode` with the field of the first code that is too long, or has another byte.
    pub fn new(
        network: &[u8],
        station: &[u8],
        location: &[u8],
        channel: &[u8],
    ) -> Result<Codes, BadCode>
        ensures ok { IsOk result ↔ (first_bad_code network.now station.now location.now channel.now ≡ None) }
        ensures key { IfOk result (λ c. c ≡ filled 2 network.now ++ filled 5 station.now ++ filled 2 location.now
            ++ filled 3 channel.now) }
        ensures field { IfErr result (λ e. first_bad_code network.now station.now location.now channel.now
            ≡ Some e.field) }
    {
        let n: [u8; 2] = filled(network, CodeField::Network)?;
        let s: [u8; 5] = filled(station, CodeField::Station)?;
        let l: [u8; 2] = filled(location, CodeField::Location)?;
        let c: [u8; 3] = filled(channel, CodeField::Channel)?;
        Ok(Codes::of_key([
            n[0], n[1], s[0], s[1], s[2], s[3], s[4], l[0], l[1], c[0], c[1], c[2],
        ]))
    }
}

/// Returns a code, with spaces after it up to its field's length.
///
/// # Errors
///
/// `BadCode` with this field where the code is too long for it, or has a byte that no code has.
fn filled<const N: usize>(code: &[u8], field: CodeField) -> Result<[u8; N], BadCode>
    ensures ok { IsOk result ↔ IsTrue (is_code N code.now) }
    ensures value { IfOk result (λ bytes. bytes ≡ filled N code.now) }
    ensures field { IfErr result (λ e. e.field ≡ field) }
{
    if !is_code(code, N) {
        return Err(BadCode { field });
    }
    let mut bytes = [b' '; N];
    bytes[..code.len()].copy_from_slice(code);
    Ok(bytes)
}

/// Returns whether a code fits a field of `width` bytes.
fn is_code(code: &[u8], width: usize) -> bool
    ensures { result ≡ is_code width code.now }
{
    if code.len() > width {
        return false;
    }
    are_code_bytes(code)
}

/// Returns whether all bytes may stand in a code: each is printable, and no space.
fn are_code_bytes(code: &[u8]) -> bool
    ensures { result ≡ list_all is_code_byte code.now }
{
    code.iter().all(u8::is_ascii_graphic)
}
