//! Byte orders.
ghost use Rattle.std.specs.Prelude.{◌≡◌, ◌+◌, ◌<◌, ◌≤◌, ℕ, length, slice_index};

use byteorder::{BigEndian, ByteOrder, LittleEndian};

/// The byte order of the numbers in a header.
#[derive(Clone, Copy, Debug, PartialEq, Eq)]
pub enum Order {
    /// The most significant byte first.
    Big,
    /// The least significant byte first.
    Little,
}

impl Order {
    ghost use Rattle.mseed_time.specs.Fields.{number_at};

    /// Returns the unsigned 16-bit number in the two bytes at an offset (in bytes), read in this byte order.
    pub fn u16_at(self, bytes: &[u8], offset: usize) -> u16
        requires { offset + 2 ≤ length bytes.now }
        ensures { result ≡ number_at self 2 offset bytes.now }
    {
        match self {
            Order::Big => BigEndian::read_u16(&bytes[offset..]),
            Order::Little => LittleEndian::read_u16(&bytes[offset..]),
        }
    }

    /// Writes an unsigned 16-bit number into the two bytes at an offset (in bytes), in this byte order. All other bytes
    /// stay.
    pub fn put_u16(self, bytes: &mut [u8], offset: usize, number: u16)
        requires { offset + 2 ≤ length bytes.old }
        ensures number { number_at self 2 offset bytes.new ≡ number }
        ensures before { (k : ℕ) → k < offset → slice_index bytes.new k ≡ slice_index bytes.old k }
        ensures after { (k : ℕ) → offset + 2 ≤ k → slice_index bytes.new k ≡ slice_index bytes.old k }
    {
        match self {
            Order::Big => BigEndian::write_u16(&mut bytes[offset..offset + 2], number),
            Order::Little => LittleEndian::write_u16(&mut bytes[offset..offset + 2], number),
        }
    }
}
