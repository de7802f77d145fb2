//! How a payload holds samples.

ghost use Rattle.std.specs.Prelude.{◌≡◌, ◌≤◌, ◌+◌, length};
ghost use Rattle.byteorder.specs.Endian.{twos_complement};
ghost use Rattle.mseed_time.specs.Fields.{number_at};
ghost use Rattle.mseed_steim.specs.Samples.{bytes_of, form_of};

use crate::encoding::Encoding;
use crate::scheme::Scheme;
use byteorder::{BigEndian, ByteOrder, LittleEndian};
use mseed_time::Order;

/// The bytes of an integer.
#[derive(Clone, Copy, Debug, PartialEq, Eq)]
pub enum Width {
    /// 16 bits.
    Two,
    /// 32 bits.
    Four,
}

/// How a payload holds samples: as integers, or as Steim frames.
#[derive(Clone, Copy, Debug, PartialEq, Eq)]
pub enum Form {
    /// Integers of this width, one a sample.
    Integers(Width),
    /// Frames of 64 bytes, by this scheme.
    Frames(Scheme),
}

/// Returns how a payload of this encoding, a code of blockette 1000, holds samples; `None` for a code that isn't read.
pub(crate) fn form_of(encoding: u8) -> Option<Form>
    ensures { result ≡ form_of encoding }
{
    match Encoding::of(encoding)? {
        Encoding::Int16 => Some(Form::Integers(Width::Two)),
        Encoding::Int32 => Some(Form::Integers(Width::Four)),
        Encoding::Steim1 => Some(Form::Frames(Scheme::One)),
        Encoding::Steim2 => Some(Form::Frames(Scheme::Two)),
    }
}

impl Width {
    /// Returns the number of bytes of an integer.
    pub(crate) fn bytes(self) -> usize
        ensures value { result ≡ bytes_of self }
        ensures low { 2 ≤ result }
        ensures high { result ≤ 4 }
    {
        match self {
            Width::Two => 2,
            Width::Four => 4,
        }
    }
}

/// Returns the integer that begins at an offset of the payload, in bytes.
pub(crate) fn integer_at(payload: &[u8], width: Width, order: Order, offset: usize) -> i32
    requires { offset + bytes_of width ≤ length payload.now }
    ensures { result ≡ twos_complement (bytes_of width) (number_at order (bytes_of width) offset payload.now) }
{
    let rest = &payload[offset..];
    match width {
        Width::Two => match order {
            Order::Big => i32::from(BigEndian::read_i16(rest)),
            Order::Little => i32::from(LittleEndian::read_i16(rest)),
        },
        Width::Four => match order {
            Order::Big => BigEndian::read_i32(rest),
            Order::Little => LittleEndian::read_i32(rest),
        },
    }
}
