//! The sixteen words of a frame in lanes: a plane has one byte of each, a table one byte by row.
//!
//! A word's row is its code and its top two bits. Each byte of a word is cut into parts of one difference
//! each; a part's bits count for a power of 2 in that difference. By row, a table says which bits are a part
//! (a mask), and for how much they count (a weight, at most 64).

ghost use Rattle.std.specs.Prelude.{◌≡◌, ◌<◌, ◌≤◌, ◌+◌, ◌*◌, ◌%◌, ◌^◌, ℕ, length, map, slice_index, bit_and};
ghost use Rattle.std.specs.Bool.{OnTrue};
ghost use Rattle.std.specs.Simd.Lanes.{Each1, all_below, sum_l};
ghost use lib.Dec.{T};
ghost use Rattle.mseed_steim.specs.private.Lanes.{words, byte_at, row_at, Begins, kept, kept_by, turned};

use std::simd::prelude::*;

/// By row, a byte.
pub(crate) type Rows = [u8; 16];

/// The code in the low four bits: words 0 and 2 of a byte have it in the upper two of them, 1 and 3 in the lower.
const CODES: Rows = [0, 4, 8, 12, 4, 0, 0, 0, 8, 0, 0, 0, 12, 0, 0, 0];

/// Returns what a table says of each row.
#[inline(always)]
#[tactic(auto, using(crate::proofs::LaneTables::looked_up, crate::proofs::LaneTables::looked_up_below))]
pub(crate) fn look_up(table: Rows, rows: u8x16) -> u8x16
    requires { Each1 (λ r. r < 16) rows }
    ensures value { result ≡ map (λ r. slice_index table r) rows }
    ensures below { (n : ℕ) → length table ≡ 16 → T (all_below n table) → T (all_below n result) }
{
    u8x16::from_array(table).swizzle_dyn(rows)
}

/// Returns the low four bits of each lane.
#[inline(always)]
pub(crate) fn low(rows: u8x16) -> u8x16
    ensures small { Each1 (λ r. r < 16) result }
    ensures value { result ≡ map (λ r. bit_and r 15) rows }
{
    rows & u8x16::splat(15)
}

/// Returns the row of each word, by the frame's codes and the words' first bytes; words whose bits of the codes aren't
/// in `begin` count as those of code 0.
#[inline(always)]
pub(crate) fn rows_of(frame: &[u8; 64], tops: u8x16, begin: Rows) -> u8x16
    requires { tops ≡ map (byte_at frame.now 0) words }
    ensures small { Each1 (λ r. r < 16) result }
    ensures value { (from : ℕ) → Begins begin from → result ≡ map (row_at frame.now from) words }
{
    let bytes = u8x16::from_slice(&frame[0..16]);
    let codes = bytes.swizzle::<16>([0, 0, 0, 0, 1, 1, 1, 1, 2, 2, 2, 2, 3, 3, 3, 3])
        & u8x16::from_array(begin);
    let codes = look_up(CODES, low(codes | (codes >> u8x16::splat(4))));
    low(codes | (tops >> u8x16::splat(6)))
}

/// Returns a plane of bytes with some bits turned over, by row.
#[inline(always)]
pub(crate) fn turn(plane: u8x16, rows: u8x16, table: Rows) -> u8x16
    requires { Each1 (λ r. r < 16) rows }
    ensures { (byte row : ℕ → ℕ) → plane ≡ map byte words → rows ≡ map row words
        → result ≡ map (λ w. turned table (row w) (byte w)) words }
{
    plane ^ look_up(table, rows)
}

/// Returns the weighted sum of a part of a plane of bytes, in lanes.
#[inline(always)]
#[tactic(auto, using(crate::proofs::Rules::part_by))]
pub(crate) fn part(plane: u8x16, rows: u8x16, mask: Rows, weight: Rows) -> u32x4
    requires rows { Each1 (λ r. r < 16) rows }
    requires long { length weight ≡ 16 }
    requires weight { T (all_below 65 weight) }
    ensures { (byte row : ℕ → ℕ) → plane ≡ map byte words → rows ≡ map row words
        → sum_l result ≡ sum_l (map (λ w. kept mask weight (row w) (byte w)) words) }
{
    let kept = plane & look_up(mask, rows);
    kept.dot4(look_up(weight, rows))
}

/// Returns the weighted sum of a part of a plane of bytes, in lanes, where all rows have one weight.
#[inline(always)]
#[tactic(auto, using(crate::proofs::Rules::part_by))]
pub(crate) fn part_by(plane: u8x16, rows: u8x16, mask: Rows, weight: u8) -> u32x4
    requires rows { Each1 (λ r. r < 16) rows }
    requires weight { weight ≤ 64 }
    ensures { (byte row : ℕ → ℕ) → plane ≡ map byte words → rows ≡ map row words
        → sum_l result ≡ sum_l (map (λ w. kept_by mask weight (row w) (byte w)) words) }
{
    let kept = plane & look_up(mask, rows);
    kept.dot4(u8x16::splat(weight))
}

/// Returns the sum of what a table says of each of the rows, in lanes.
#[inline(always)]
#[tactic(auto, using(std::proofs::lemmas::Simd::dot4_Fits))]
pub(crate) fn tally(rows: u8x16, table: Rows) -> u32x4
    requires { Each1 (λ r. r < 16) rows }
    ensures { (row : ℕ → ℕ) → rows ≡ map row words → sum_l result ≡ sum_l (map (λ w. slice_index table (row w)) words) }
{
    look_up(table, rows).dot4(u8x16::splat(1))
}

/// Returns the four planes of a frame: the first, the second, the third and the last byte of each word.
#[inline(always)]
pub(crate) fn planes(frame: &[u8; 64]) -> (u8x16, u8x16, u8x16, u8x16)
    ensures first { result.0 ≡ map (byte_at frame.now 0) words }
    ensures second { result.1 ≡ map (byte_at frame.now 1) words }
    ensures third { result.2 ≡ map (byte_at frame.now 2) words }
    ensures fourth { result.3 ≡ map (byte_at frame.now 3) words }
{
    // each four words, byte by byte
    let a = u8x16::from_slice(&frame[0..16]).swizzle::<16>([
        0, 4, 8, 12, 1, 5, 9, 13, 2, 6, 10, 14, 3, 7, 11, 15,
    ]);
    let b = u8x16::from_slice(&frame[16..32]).swizzle::<16>([
        0, 4, 8, 12, 1, 5, 9, 13, 2, 6, 10, 14, 3, 7, 11, 15,
    ]);
    let c = u8x16::from_slice(&frame[32..48]).swizzle::<16>([
        0, 4, 8, 12, 1, 5, 9, 13, 2, 6, 10, 14, 3, 7, 11, 15,
    ]);
    let d = u8x16::from_slice(&frame[48..64]).swizzle::<16>([
        0, 4, 8, 12, 1, 5, 9, 13, 2, 6, 10, 14, 3, 7, 11, 15,
    ]);
    // the first two bytes of eight words, those of each place together
    let ab = a.shuffle(b, [0, 1, 2, 3, 16, 17, 18, 19, 4, 5, 6, 7, 20, 21, 22, 23]);
    let cd = c.shuffle(d, [0, 1, 2, 3, 16, 17, 18, 19, 4, 5, 6, 7, 20, 21, 22, 23]);
    // the last two
    let ab_back = a.shuffle(
        b,
        [8, 9, 10, 11, 24, 25, 26, 27, 12, 13, 14, 15, 28, 29, 30, 31],
    );
    let cd_back = c.shuffle(
        d,
        [8, 9, 10, 11, 24, 25, 26, 27, 12, 13, 14, 15, 28, 29, 30, 31],
    );
    (
        ab.shuffle(cd, [0, 1, 2, 3, 4, 5, 6, 7, 16, 17, 18, 19, 20, 21, 22, 23]),
        ab.shuffle(
            cd,
            [8, 9, 10, 11, 12, 13, 14, 15, 24, 25, 26, 27, 28, 29, 30, 31],
        ),
        ab_back.shuffle(
            cd_back,
            [0, 1, 2, 3, 4, 5, 6, 7, 16, 17, 18, 19, 20, 21, 22, 23],
        ),
        ab_back.shuffle(
            cd_back,
            [8, 9, 10, 11, 12, 13, 14, 15, 24, 25, 26, 27, 28, 29, 30, 31],
        ),
    )
}

/// Returns whether a table, which has at most 128 for a row, has less than 128 for each of the rows.
#[inline(always)]
pub(crate) fn are_low(rows: u8x16, table: Rows) -> bool
    requires rows { Each1 (λ r. r < 16) rows }
    requires few { T (all_below 129 table) }
    ensures { OnTrue result ((row : ℕ → ℕ) → rows ≡ map row words
        → (word : ℕ) → word < 16 → slice_index table (row word) < 128) }
{
    let high = look_up(table, rows).simd_ge(u8x16::splat(128)).to_bitmask();
    high == 0
}

/// Returns the sums of the lanes of two vectors, modulo 2^32.
#[inline(always)]
pub(crate) fn plus(a: u32x4, b: u32x4) -> u32x4
    ensures { sum_l result % 4294967296 ≡ (sum_l a + sum_l b) % 4294967296 }
{
    a + b
}

/// Returns the differences of the lanes of two vectors, modulo 2^32.
#[inline(always)]
pub(crate) fn minus(a: u32x4, b: u32x4) -> u32x4
    ensures { (sum_l result + sum_l b) % 4294967296 ≡ sum_l a % 4294967296 }
{
    a - b
}

/// Returns each lane with its bits moved up by `bits` places.
#[inline(always)]
pub(crate) fn shifted(a: u32x4, bits: u32) -> u32x4
    requires { bits < 32 }
    ensures { sum_l result % 4294967296 ≡ 2 ^ bits * sum_l a % 4294967296 }
{
    a << u32x4::splat(bits)
}

/// Returns the sum of a vector's lanes, modulo 2^32.
#[inline(always)]
pub(crate) fn sum_of(a: u32x4) -> u32
    ensures { result ≡ sum_l a % 4294967296 }
{
    a.reduce_sum()
}

/// Returns the sum of what a table, which has at most 128 for a row, says of each of the rows.
#[inline(always)]
pub(crate) fn counted(rows: u8x16, table: Rows) -> u32
    requires rows { Each1 (λ r. r < 16) rows }
    requires few { T (all_below 129 table) }
    ensures { (row : ℕ → ℕ) → rows ≡ map row words → result ≡ sum_l (map (λ w. slice_index table (row w)) words) }
{
    sum_of(tally(rows, table))
}
