//! The fields of a header (SEED manual, chapter 8, "Fixed section of data header").
ghost use Rattle.std.specs.Prelude.{◌≡◌, ◌≤◌, ◌+◌, ◌<◌, IfOk, length, slice_index, take, true};
ghost use Rattle.std.specs.Bool.{OnTrue};
ghost use Rattle.mseed_record.specs.Header.{time_at, has_fixed_bytes, is_sequence_byte, is_quality, is_blank, trimmed};
ghost use Rattle.mseed_record.specs.Order.{order_of, is_dated};
ghost use Rattle.mseed_time.specs.Fields.{number_at};
ghost use Rattle.mseed_time.specs.Btime.{first_fault};
ghost use Rattle.mseed_time.specs.Parts.{parts_of};
ghost use Rattle.byteorder.specs.Endian.{twos_complement};
ghost use Rattle.std.specs.Char.{is_ascii_digit};
ghost use Rattle.std.specs.List.{list_all};
ghost use Rattle.std.specs.Result.{result_err};

use byteorder::{BigEndian, ByteOrder, LittleEndian};
use mseed_time::{Btime, Order, TimeFault};
use std::simd::prelude::*;

/// The bytes of the fixed section of a header (SEED manual, chapter 8).
pub const FIXED_HEADER: usize = 48;

/// Returns the BTIME of the start, at byte 20.
///
/// # Errors
///
/// The first field of it that is out of its range.
pub(crate) fn read_time(bytes: &[u8], order: Order) -> Result<Btime, TimeFault>
    requires { 30 ≤ length bytes.now }
    ensures fields { IfOk result (λ b. parts_of b ≡ time_at order bytes.now) }
    ensures fault { result_err result ≡ first_fault (time_at order bytes.now) }
{
    let mut field = [0; 10];
    field.copy_from_slice(&bytes[20..30]);
    Btime::read(&field, order)
}

/// Returns the signed byte at an offset (in bytes).
pub(crate) fn i8_at(bytes: &[u8], offset: usize) -> i8
    requires { offset < length bytes.now }
    ensures { result ≡ twos_complement 1 (slice_index bytes.now offset) }
{
    bytes[offset].cast_signed()
}

/// Returns the unsigned 32-bit number at an offset (in bytes).
fn u32_at(bytes: &[u8], offset: usize, order: Order) -> u32
    requires { offset + 4 ≤ length bytes.now }
    ensures { result ≡ number_at order 4 offset bytes.now }
{
    match order {
        Order::Big => BigEndian::read_u32(&bytes[offset..]),
        Order::Little => LittleEndian::read_u32(&bytes[offset..]),
    }
}

/// Returns the signed 32-bit number at an offset (in bytes).
pub(crate) fn i32_at(bytes: &[u8], offset: usize, order: Order) -> i32
    requires { offset + 4 ≤ length bytes.now }
    ensures { result ≡ twos_complement 4 (number_at order 4 offset bytes.now) }
{
    u32_at(bytes, offset, order).cast_signed()
}

/// Returns the signed 16-bit number at an offset (in bytes).
pub(crate) fn i16_at(bytes: &[u8], offset: usize, order: Order) -> i16
    requires { offset + 2 ≤ length bytes.now }
    ensures { result ≡ twos_complement 2 (number_at order 2 offset bytes.now) }
{
    order.u16_at(bytes, offset).cast_signed()
}

/// Returns whether the bytes before the station are those of a header: sequence number, quality and reserved byte.
#[inline(always)]
pub(crate) fn has_fixed_bytes(bytes: &[u8]) -> bool
    requires { 8 ≤ length bytes.now }
    ensures { result ≡ has_fixed_bytes bytes.now }
{
    if !is_sequence(bytes) {
        return false;
    }
    if !is_quality(bytes[6]) {
        return false;
    }
    is_blank(bytes[7])
}

/// Returns whether the first six bytes may stand in a sequence number. In most headers all are digits.
#[inline(always)]
fn is_sequence(bytes: &[u8]) -> bool
    requires { 8 ≤ length bytes.now }
    ensures { result ≡ list_all is_sequence_byte (take 6 bytes.now) }
{
    are_digits(bytes) || are_sequence_bytes(&bytes[..6])
}

/// Returns whether the first six bytes are digits, looking at eight of them at once.
#[inline(always)]
fn are_digits(bytes: &[u8]) -> bool
    requires { 8 ≤ length bytes.now }
    ensures { OnTrue result (list_all is_ascii_digit (take 6 bytes.now) ≡ true) }
{
    let others = (u8x8::from_slice(bytes) - u8x8::splat(b'0'))
        .simd_gt(u8x8::splat(9))
        .to_bitmask();
    others % 64 == 0
}

/// Returns whether all bytes may stand in a sequence number.
#[inline(never)]
fn are_sequence_bytes(bytes: &[u8]) -> bool
    ensures { result ≡ list_all is_sequence_byte bytes.now }
{
    bytes.iter().all(|byte| is_sequence_byte(*byte))
}

/// Returns whether a byte may stand in a sequence number: a digit, a space or NUL.
fn is_sequence_byte(byte: u8) -> bool
    ensures { result ≡ is_sequence_byte byte }
{
    byte.is_ascii_digit() || is_blank(byte)
}

/// Returns whether a byte is a quality indicator: `D`, `R`, `Q` or `M`.
fn is_quality(byte: u8) -> bool
    ensures { result ≡ is_quality byte }
{
    matches!(byte, b'D' | b'R' | b'Q' | b'M')
}

/// Returns whether a byte is blank: a space or NUL, by which fields are filled.
pub(crate) fn is_blank(byte: u8) -> bool
    ensures { result ≡ is_blank byte }
{
    byte == b' ' || byte == 0
}

/// Returns a code without the blanks at its end, the spaces and NULs by which its field is filled (SEED manual, chapter
/// 8, fields 4 to 7 of the fixed section): of a field that is blank nothing is left.
pub fn trimmed(code: &[u8]) -> &[u8]
    ensures { result.now ≡ trimmed code.now }
{
    let mut end = code.len();
    while end > 0 {
        if !is_blank(code[end - 1]) {
            return &code[..end];
        }
        end -= 1;
    }
    &code[..0]
}

/// Returns the byte order of a header: big-endian where the start's year and day are in their ranges so, else
/// little-endian where they are; `None` where they are in neither.
pub(crate) fn order_of(prefix: &[u8]) -> Option<Order>
    requires { FIXED_HEADER ≤ length prefix.now }
    ensures { result ≡ order_of prefix.now }
{
    if is_dated(prefix, Order::Big) {
        Some(Order::Big)
    } else if is_dated(prefix, Order::Little) {
        Some(Order::Little)
    } else {
        None
    }
}

/// Returns whether the start's year is 1900 to 2100 and its day 1 to 366, read in this order.
fn is_dated(prefix: &[u8], order: Order) -> bool
    requires { FIXED_HEADER ≤ length prefix.now }
    ensures { result ≡ is_dated order prefix.now }
{
    let (year, day) = (order.u16_at(prefix, 20), order.u16_at(prefix, 22));
    (1900..=2100).contains(&year) && (1..=366).contains(&day)
}
