//! Whose records a feed has.
ghost use Rattle.std.specs.Prelude.{◌≡◌, ◌↔◌, ◌≤◌, IsTrue, IsOk, IfOk, IsOkAnd, OnErr, length, slice_range};
ghost use Rattle.std.specs.List.{list_all};
ghost use Rattle.std.specs.Char.{is_ascii_alphanumeric};
ghost use Rattle.slink_wire.specs.Place.{Bears, Fields, IsCode, IsField, SpellsPlace, code_in, filled, fields_of};
ghost use Rattle.slink_wire.specs.Place.{label_of, matches};

use crate::cut::{first, parts};
use crate::putting::put;
use arrayvec::ArrayVec;
use std::marker::Model;

/// The bytes of a header up to the end of the network's code (SEED manual, chapter 8, "Fixed section of data header").
pub const CODES: usize = 20;

/// No station and network of 1 to 5 and 1 to 2 ASCII letters or digits.
#[derive(Clone, Copy, Debug, PartialEq, Eq)]
pub struct BadPlace;

/// A station of a network.
#[derive(Clone, Copy, Debug, PartialEq, Eq)]
pub struct Place {
    station: [u8; 5],
    network: [u8; 2],
}

impl Model for Place {
    ghost Value = { Fields };

    ghost view = { λ p. record { station = p.station; network = p.network } };

    ghost invariant = { λ p. IsField 5 p.station × IsField 2 p.network };

    ghost inverse = { λ f. record { station = f.station; network = f.network } };
}

/// Whether all bytes are ASCII letters or digits.
fn are_alphanumeric(bytes: &[u8]) -> bool
    ensures { result ≡ list_all is_ascii_alphanumeric bytes.now }
{
    bytes.iter().all(|b| b.is_ascii_alphanumeric())
}

/// Whether bytes are a code: 1 to `width` ASCII letters or digits.
pub(crate) fn is_code(width: usize, code: &[u8]) -> bool
    ensures { IsTrue result ↔ IsCode width code.now }
{
    !code.is_empty() && code.len() <= width && are_alphanumeric(code)
}

/// A code, filled with spaces.
pub(crate) fn fill<const N: usize>(code: &[u8]) -> [u8; N]
    requires { length code.now ≤ N }
    ensures { result ≡ filled N code.now }
{
    let mut field = [b' '; N];
    field[..code.len()].copy_from_slice(code);
    field
}

/// The code in a field, before the first space.
fn code_in(field: &[u8]) -> &[u8]
    ensures { result.now ≡ code_in field.now }
{
    &field[..first(field, b' ')]
}

/// Returns the station's code at bytes 8 to 12 of a record's header and the network's at bytes 18 and 19, as they stand
/// there (SEED manual, chapter 8, "Fixed section of data header"). There are at least 20 bytes.
pub fn header_codes(bytes: &[u8]) -> (&[u8], &[u8])
    requires { CODES ≤ length bytes.now }
    ensures station { result.0.now ≡ slice_range bytes.now 8 13 }
    ensures network { result.1.now ≡ slice_range bytes.now 18 20 }
    ensures widths { (length result.0.now ≡ 5) × (length result.1.now ≡ 2) }
{
    (&bytes[8..13], &bytes[18..20])
}

/// Whether two fields of one width are the same. For so few bytes a loop costs a fifth of `==` between slices.
fn are_same(bytes: &[u8], field: &[u8]) -> bool
    requires { length bytes.now ≡ length field.now }
    ensures { IsTrue result ↔ (bytes.now ≡ field.now) }
{
    for (i, byte) in field.iter().enumerate() {
        if bytes[i] != *byte {
            return false;
        }
    }
    true
}

impl Place {
    /// Returns the station of a station code, 1 to 5 ASCII letters or digits, and a network code, 1 or 2 of them.
    ///
    /// # Errors
    ///
    /// `BadPlace` where one of them isn't such a code.
    pub fn new(sta: &[u8], net: &[u8]) -> Result<Place, BadPlace>
        ensures accepted { IsOk result ↔ (IsCode 5 sta.now × IsCode 2 net.now) }
        ensures value { IfOk result (λ p. p ≡ fields_of sta.now net.now) }
    {
        if !is_code(5, sta) || !is_code(2, net) {
            return Err(BadPlace);
        }
        Ok(Place {
            station: fill(sta),
            network: fill(net),
        })
    }

    /// Returns the station that a text spells: the network's code, an underscore, and the station's code.
    ///
    /// # Errors
    ///
    /// `BadPlace` where the text spells no station.
    pub fn read(text: &[u8]) -> Result<Place, BadPlace>
        ensures place { IfOk result (SpellsPlace text.now) }
        // All that is spelled is answered, so at most one station is.
        ensures only { (p : Fields) → SpellsPlace text.now p → IsOkAnd result (λ q. q ≡ p) }
        ensures refused { OnErr result ((p : Fields) → ¬ (SpellsPlace text.now p)) }
    {
        let Some((net, sta)) = parts(text, b'_') else {
            return Err(BadPlace);
        };
        Place::new(sta, net)
    }

    /// Returns the station's code, without the spaces that fill its field.
    pub fn station(&self) -> &[u8]
        ensures value { result.now ≡ code_in self.now.station }
        ensures code { IsCode 5 result.now }
        ensures field { filled 5 result.now ≡ self.now.station }
    {
        code_in(&self.station)
    }

    /// Returns the network's code, without the space that may fill its field.
    pub fn network(&self) -> &[u8]
        ensures value { result.now ≡ code_in self.now.network }
        ensures code { IsCode 2 result.now }
        ensures field { filled 2 result.now ≡ self.now.network }
    {
        code_in(&self.network)
    }

    /// Returns the text that spells the station: the network's code, an underscore, and the station's code.
    pub fn label(&self) -> ArrayVec<u8, 8>
        ensures value { result.items ≡ label_of self.now }
        // Who reads it takes it for this station.
        ensures spelled { SpellsPlace result.items self.now }
    {
        let mut label = ArrayVec::new();
        put(&mut label, self.network());
        put(&mut label, b"_");
        put(&mut label, self.station());
        label
    }

    /// Returns whether a command that names this station code, and this network code or none, means this station.
    pub fn matches(&self, sta: &[u8; 5], net: Option<[u8; 2]>) -> bool
        ensures { result ≡ matches self.now sta.now net }
    {
        self.station == *sta
            && match net {
                Some(net) => self.network == net,
                None => true,
            }
    }

    /// Returns whether a record's header has this station's code at bytes 8 to 12 and its network's at bytes 18 and 19,
    /// filled with spaces (SEED manual, chapter 8, "Fixed section of data header").
    pub fn bears(&self, bytes: &[u8; 512]) -> bool
        ensures { IsTrue result ↔ Bears bytes.now self.now }
    {
        let (station, network) = header_codes(bytes);
        are_same(station, &self.station) && are_same(network, &self.network)
    }
}
