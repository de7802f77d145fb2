//! The twelve bytes of a key, and their digits.
ghost use Rattle.std.specs.Prelude.{◌≡◌, ◌≤◌, ◌<◌, ◌+◌, ◌*◌, ℕ, List, suc, [], ◌∷◌, ◌++◌, drop, get_or, length, map};
ghost use Rattle.std.specs.Prelude.{take, IfSome, IfNone, None, Some};
ghost use Rattle.std.specs.Option.{option_map};
ghost use Rattle.mseed_join.specs.Lines.{hex_digit};
ghost use Rattle.mseed_join.specs.private.Reading.{bytes_at, key_at, nibble_of};

use mseed_record::Codes;
use std::simd::prelude::*;

/// The digits of a key.
const DIGITS: usize = 24;

/// A key, and the bytes after it.
#[inline(always)]
pub(crate) fn key_at(bytes: &[u8]) -> Option<(Codes, &[u8])>
    ensures { option_map (λ x. (x.0, x.1.now)) result ≡ key_at bytes.now }
{
    if bytes.len() < DIGITS {
        return None;
    }
    let [a, b, c, d] = four_at(bytes)?;
    let [e, f, g, h] = four_at(&bytes[8..])?;
    let [i, j, k, l] = four_at(&bytes[16..])?;
    Some((
        Codes::of_key([a, b, c, d, e, f, g, h, i, j, k, l]),
        &bytes[DIGITS..],
    ))
}

/// Four bytes by the eight digits that these begin with.
#[inline(always)]
fn four_at(bytes: &[u8]) -> Option<[u8; 4]>
    requires { 8 ≤ length bytes.now }
    ensures some { IfSome result (λ x. (n : ℕ) (done : List ℕ)
        → bytes_at (suc (suc (suc (suc n)))) done bytes.now ≡ bytes_at n (done ++ x) (drop 8 bytes.now)) }
    ensures none { IfNone result ((n : ℕ) (done : List ℕ)
        → bytes_at (suc (suc (suc (suc n)))) done bytes.now ≡ None) }
{
    match values_at(bytes) {
        Some(values) => Some(pairs_of(values)),
        None => None,
    }
}

/// The values of the eight digits that these bytes begin with.
#[inline(always)]
fn values_at(bytes: &[u8]) -> Option<[u8; 8]>
    requires { 8 ≤ length bytes.now }
    ensures some { IfSome result (λ values. map nibble_of (take 8 bytes.now) ≡ map (λ n. Some n) values) }
    ensures none { IfNone result ((k : ℕ) × (k < 8) × (nibble_of (get_or bytes.now k 0) ≡ None)) }
{
    let digits = u8x8::from_slice(bytes);
    let figures = digits - u8x8::splat(b'0');
    let letters = digits - u8x8::splat(b'A');
    let are_other = figures.simd_ge(u8x8::splat(10));
    if (are_other & letters.simd_ge(u8x8::splat(6))).to_bitmask() != 0 {
        return None;
    }
    Some(
        are_other
            .select(letters + u8x8::splat(10), figures)
            .to_array(),
    )
}

/// The bytes of eight values of digits, two for each.
#[inline(always)]
fn pairs_of(values: [u8; 8]) -> [u8; 4]
    requires { (k : ℕ) → k < 8 → get_or values k 0 < 16 }
    ensures { result ≡ (16 * get_or values 0 0 + get_or values 1 0) ∷ (16 * get_or values 2 0 + get_or values 3 0)
        ∷ (16 * get_or values 4 0 + get_or values 5 0) ∷ (16 * get_or values 6 0 + get_or values 7 0) ∷ [] }
{
    let values = u8x8::from_array(values);
    let high = values.swizzle::<4>([0, 2, 4, 6]);
    let low = values.swizzle::<4>([1, 3, 5, 7]);
    (u8x4::splat(16) * high + low).to_array()
}

/// The digit of 0-9A-F with this value.
pub(crate) fn hex_digit(value: u8) -> u8
    requires { value < 16 }
    ensures { result ≡ hex_digit value }
{
    if value < 10 {
        b'0' + value
    } else {
        b'A' - 10 + value
    }
}
