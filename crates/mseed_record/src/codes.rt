//! The codes of a channel.
ghost use Rattle.std.specs.Prelude.{◌≡◌, ◌≤◌, Some, length, refl, slice_range};
ghost use Rattle.std.specs.Cmp.Lexicographic.{nat_list_cmp_total, slice_cmp, texts_po, texts_ties};
ghost use Rattle.std.specs.Ordering.{nat_cmp};
ghost use Rattle.mseed_record.specs.Header.{key_at};
ghost use Rattle.mseed_record.specs.private.Words.{AreWords};

use std::cmp::Ordering;
use std::marker::Model;

/// The codes of a channel, which order channels by network, then station, location and channel (SEED manual, chapter 8,
/// fields 4 to 7 of the fixed section). Contracts see them as a key of 12 bytes.
#[derive(Clone, Copy, Debug, PartialEq, Eq)]
pub struct Codes {
    key: [u8; 12],
}

impl Model for Codes {
    ghost use Rattle.std.specs.Prelude.{List, ℕ};

    ghost Value = { List ℕ };

    ghost view = { λ c. c.key };

    ghost inverse = { λ bytes. record { key = bytes } };
}

impl PartialOrd for Codes {
    ghost partial_cmp = { λ a b. Some (slice_cmp nat_cmp a b) };

    ghost laws = { texts_po };

    fn partial_cmp(&self, other: &Codes) -> Option<Ordering> {
        Some(self.cmp(other))
    }
}

impl Ord for Codes {
    ghost cmp = { λ a b. slice_cmp nat_cmp a b };

    ghost total = { nat_list_cmp_total };

    ghost matches_partial_cmp = { λ a b. refl };

    ghost matches_eq = { λ a b. texts_ties a b };

    fn cmp(&self, other: &Codes) -> Ordering {
        let (front, back) = words_of(self.key);
        let (other_front, other_back) = words_of(other.key);
        match front.cmp(&other_front) {
            Ordering::Less => Ordering::Less,
            Ordering::Greater => Ordering::Greater,
            Ordering::Equal => back.cmp(&other_back),
        }
    }
}

impl Codes {
    /// Returns the codes with this key, 12 bytes: network, station, location and channel.
    pub fn of_key(key: [u8; 12]) -> Codes
        ensures { result ≡ key }
    {
        Codes { key }
    }

    /// Returns the key, 12 bytes: network, station, location and channel, as they stand in the header.
    pub fn key(&self) -> &[u8; 12]
        ensures { result.now ≡ self.now }
    {
        &self.key
    }

    /// Returns the network code: 2 bytes, with the blanks that fill it.
    pub fn network(&self) -> &[u8]
        ensures { result.now ≡ slice_range self.now 0 2 }
    {
        &self.key[..2]
    }

    /// Returns the station code: 5 bytes, with the blanks that fill it.
    pub fn station(&self) -> &[u8]
        ensures { result.now ≡ slice_range self.now 2 7 }
    {
        &self.key[2..7]
    }

    /// Returns the location code: 2 bytes, with the blanks that fill it.
    pub fn location(&self) -> &[u8]
        ensures { result.now ≡ slice_range self.now 7 9 }
    {
        &self.key[7..9]
    }

    /// Returns the channel code: 3 bytes, with the blanks that fill it.
    pub fn channel(&self) -> &[u8]
        ensures { result.now ≡ slice_range self.now 9 12 }
    {
        &self.key[9..]
    }
}

/// Returns a key as two numbers, of its first eight bytes and of its last four. They compare as keys do.
fn words_of(key: [u8; 12]) -> (u64, u32)
    ensures { AreWords key result.0 result.1 }
{
    let [a, b, c, d, e, f, g, h, i, j, k, l] = key;
    (
        u64::from_be_bytes([a, b, c, d, e, f, g, h]),
        u32::from_be_bytes([i, j, k, l]),
    )
}

/// Returns the codes in a header: network at byte 18, station at 8, location at 13, channel at 15.
pub(crate) fn codes_at(bytes: &[u8]) -> Codes
    requires { 20 ≤ length bytes.now }
    ensures { result ≡ key_at bytes.now }
{
    let b = bytes;
    Codes::of_key([
        b[18], b[19], b[8], b[9], b[10], b[11], b[12], b[13], b[14], b[15], b[16], b[17],
    ])
}
