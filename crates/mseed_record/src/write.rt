//! Writing a header (SEED manual, chapter 8).
ghost use Rattle.std.specs.Prelude.{◌≡◌, ◌↔◌, ◌<◌, ◌≤◌, ◌+◌, ◌^◌, ◌++◌, ℕ, List, length, take, drop};
ghost use Rattle.std.specs.Prelude.{FitsSigned, IsErr, OnErr, OnOk};
ghost use Rattle.std.specs.Int.{w8, w16};
ghost use Rattle.mseed_time.specs.Text.{padded_decimal};
ghost use Rattle.mseed_record.specs.Fields.{header_of};
ghost use Rattle.mseed_record.specs.Written.{IsHeaded, ReadsBack, header_bytes, name_bytes, count_bytes};
ghost use Rattle.mseed_record.specs.Written.{blockette_1000, blockette_1001};

use crate::fields::Fields;
use mseed_time::{Order, two_digits};

/// The bytes of a header that is written: the fixed section, a blockette 1000 and a blockette 1001.
pub const WRITTEN_HEADER: usize = 64;

/// The output has fewer bytes than [`WRITTEN_HEADER`].
#[derive(Clone, Copy, Debug, PartialEq, Eq)]
pub struct TooShort;

/// Writes a header, big-endian, with a blockette 1000 and a blockette 1001, into the first [`WRITTEN_HEADER`] bytes of
/// a record (SEED manual, chapter 8). The data begin after it.
///
/// # Errors
///
/// `TooShort` exactly where the output has fewer bytes than that; it is unchanged then.
pub fn write_header(out: &mut [u8], fields: &Fields) -> Result<(), TooShort>
    ensures too_short { IsErr result ↔ (length out.old < WRITTEN_HEADER) }
    ensures bytes { OnOk result (out.new ≡ header_bytes (header_of fields.now) ++ drop WRITTEN_HEADER out.old) }
    ensures unchanged { OnErr result (out.new ≡ out.old) }
    ensures reads_back { OnOk result ((b : List ℕ) → IsHeaded (header_of fields.now) b
        → ReadsBack (header_of fields.now) b) }
{
    if out.len() < WRITTEN_HEADER {
        return Err(TooShort);
    }
    put_names(out, fields);
    put(out, 20, &fields.start.write(Order::Big));
    put(out, 30, &counts(fields));
    put(out, 48, &blockettes(fields));
    Ok(())
}

/// Writes the bytes before the start: sequence number, quality and codes.
fn put_names(out: &mut [u8], fields: &Fields)
    requires { 20 ≤ length out.old }
    ensures bytes { out.new ≡ name_bytes (header_of fields.now) ++ drop 20 out.old }
    ensures key { length fields.now.codes ≡ 12 }
{
    put(out, 0, &sequence_digits(fields.sequence));
    put(out, 6, b"D ");
    let key = fields.codes.key();
    put(out, 8, &key[2..7]);
    put(out, 13, &key[7..9]);
    put(out, 15, &key[9..12]);
    put(out, 18, &key[0..2]);
}

/// Returns the bytes of the fixed section after the start: samples, rate, flags, time correction, and the offsets of
/// the data and of the first blockette.
fn counts(fields: &Fields) -> [u8; 18]
    ensures bytes { result ≡ count_bytes (header_of fields.now) }
    ensures samples { fields.now.samples < 2 ^ 16 }
    ensures factor { FitsSigned w16 fields.now.rate.factor }
    ensures multiplier { FitsSigned w16 fields.now.rate.multiplier }
{
    let [s, t] = fields.samples.to_be_bytes();
    let [f, g] = fields.rate.factor.to_be_bytes();
    let [m, n] = fields.rate.multiplier.to_be_bytes();
    let activity = fields.activity;
    [
        s, t, f, g, m, n, activity, 0, 0, 2, 0, 0, 0, 0, 0, 64, 0, 48,
    ]
}

/// Returns the bytes of a blockette 1000 and, after it, of a blockette 1001.
fn blockettes(fields: &Fields) -> [u8; 16]
    ensures bytes { result ≡ blockette_1000 (header_of fields.now) ++ blockette_1001 (header_of fields.now) }
    ensures microseconds { FitsSigned w8 fields.now.usec }
{
    let (encoding, exponent, frames) = (fields.encoding, fields.exponent, fields.frames);
    let usec = fields.usec.cast_unsigned();
    [
        3, 232, 0, 56, encoding, 1, exponent, 0, // 1000, the next one at 56, big-endian words
        3, 233, 0, 0, 0, usec, 0, frames, // 1001, the last
    ]
}

/// Writes bytes at an offset (in bytes).
fn put(out: &mut [u8], offset: usize, bytes: &[u8])
    requires { offset + length bytes.now ≤ length out.old }
    ensures { out.new ≡ take offset out.old ++ bytes.now ++ drop (offset + length bytes.now) out.old }
{
    out[offset..offset + bytes.len()].copy_from_slice(bytes);
}

/// Returns the last six digits of a number, in ASCII.
fn sequence_digits(number: u32) -> [u8; 6]
    ensures { result ≡ padded_decimal 6 number }
{
    let [a, b] = two_digits(number / 10_000 % 100);
    let [c, d] = two_digits(number / 100 % 100);
    let [e, f] = two_digits(number % 100);
    [a, b, c, d, e, f]
}
