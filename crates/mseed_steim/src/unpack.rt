//! The differences of a frame's words side by side, each word at once and without a branch on its row, which the
//! processor could but guess.
//!
//! A word is multiplied, in each lane, by what lifts one of its differences to the top of 32 bits; a shift down, the
//! same in all lanes, leaves the differences. The lanes after the last one hold anything: there stand the
//! differences of the next word.

ghost use Rattle.std.specs.Prelude.{◌≡◌, ◌<◌, ◌≤◌, ◌+◌, ◌-◌, ◌*◌, ◌^◌, ℕ, List, [], ◌∷◌, ◌++◌, IfSome, map};
ghost use Rattle.std.specs.Prelude.{take, length, slice_index};
ghost use Rattle.std.specs.Simd.Lanes.{Each1, all_below};
ghost use Rattle.mseed_steim.specs.private.Digits.{digit_at, digits};
ghost use Rattle.mseed_steim.specs.private.Lanes.{Begins, all_counts, all_widths, row_at, word_at, word_of, words};
ghost use Rattle.mseed_steim.specs.private.Unpacked.{AreGood, FitIn, Unpacks, lanes_of, row_of, unpacked};
ghost use Rattle.mseed_steim.specs.private.Unpacked.{AreUpTo, counts_up_to};
ghost use lib.Dec.{T};

use crate::ends::has_no_code_3;
use crate::frame::{COUNT_ONE, COUNT_TWO};
use crate::lanes::{Rows, are_low, planes, rows_of};
use crate::scheme::Scheme;
use std::simd::prelude::*;

/// The lanes of a word: no fewer than it has differences.
pub(crate) const LANES: usize = 8;

/// Those of a word of Steim-1, as far as its differences have at most 16 bits.
const LANES_ONE: usize = 4;

/// Room for the differences of a frame, and the lanes after the last of them.
pub(crate) const PLACES: usize = 128;

/// Where fewer differences are needed, they are looked for word by word: no whole frame is unpacked for them.
pub(crate) const FEW: usize = 4;

/// The differences of a frame in their room.
pub(crate) type Room = [i32; PLACES];

/// How the words of a row are unpacked.
#[derive(Clone, Copy)]
struct Unpacking {
    /// What lifts each difference to the top of 32 bits.
    lifts: [u32; LANES],
    /// By how many bits it is let down.
    fall: u32,
    /// How many differences there are.
    count: usize,
    /// Makes it 64 bytes, so that a row is found by a shift, and begins it at a multiple of 16, so that no half of the
    /// lifts lies across two lines of the cache.
    spare: u128,
}

/// A row, by the number of its differences.
macro_rules! row {
    ($count:literal, $width:literal, $lifts:expr) => {
        Unpacking {
            lifts: $lifts,
            fall: 32 - $width,
            count: $count,
            spare: 0,
        }
    };
}

/// Words with no differences, and bad ones, which aren't unpacked.
const NONE: Unpacking = row!(0, 8, [0, 0, 0, 0, 0, 0, 0, 0]);

const BYTES: Unpacking = row!(4, 8, [1, 0x100, 0x1_0000, 0x100_0000, 0, 0, 0, 0]);

/// By code and dnib, in Steim-2.
static ROWS_TWO: [Unpacking; 16] = [
    NONE,
    NONE,
    NONE,
    NONE,
    BYTES,
    BYTES,
    BYTES,
    BYTES,
    NONE,
    row!(1, 30, [4, 0, 0, 0, 0, 0, 0, 0]),
    row!(2, 15, [4, 0x2_0000, 0, 0, 0, 0, 0, 0]),
    row!(3, 10, [4, 0x1000, 0x40_0000, 0, 0, 0, 0, 0]),
    row!(5, 6, [4, 0x100, 0x4000, 0x10_0000, 0x400_0000, 0, 0, 0]),
    row!(
        6,
        5,
        [4, 0x80, 0x1000, 0x2_0000, 0x40_0000, 0x800_0000, 0, 0]
    ),
    row!(
        7,
        4,
        [
            0x10,
            0x100,
            0x1000,
            0x1_0000,
            0x10_0000,
            0x100_0000,
            0x1000_0000,
            0
        ]
    ),
    NONE,
];

const PAIR: Unpacking = row!(2, 16, [1, 0x1_0000, 0, 0, 0, 0, 0, 0]);

const WHOLE: Unpacking = row!(1, 32, [1, 0, 0, 0, 0, 0, 0, 0]);

/// By code and top bits, in Steim-1.
static ROWS_ONE: [Unpacking; 16] = [
    NONE, NONE, NONE, NONE, BYTES, BYTES, BYTES, BYTES, PAIR, PAIR, PAIR, PAIR, WHOLE, WHOLE,
    WHOLE, WHOLE,
];

const ALL_TWO: Rows = [0, 0, 0, 0, 4, 4, 4, 4, 128, 1, 2, 3, 5, 6, 7, 128];

const ALL_ONE: Rows = [0, 0, 0, 0, 4, 4, 4, 4, 2, 2, 2, 2, 1, 1, 1, 1];

/// How wide a frame's differences are at the most where it is unpacked.
#[derive(Clone, Copy)]
pub(crate) enum Widest {
    /// They have 16 bits.
    Bits16,
    /// They have 32 bits, as all have.
    Bits32,
}

/// Returns how many differences a word has, by its row; 128 where it is bad, or has one that is wider.
#[inline(always)]
fn counts_of(scheme: Scheme, widest: Widest) -> Rows
    ensures counts { result ≡ counts_up_to widest scheme }
    ensures few { T (all_below 129 result) }
{
    match widest {
        Widest::Bits16 => match scheme {
            Scheme::One => COUNT_ONE,
            Scheme::Two => COUNT_TWO,
        },
        Widest::Bits32 => match scheme {
            Scheme::One => ALL_ONE,
            Scheme::Two => ALL_TWO,
        },
    }
}

/// Returns how a word of a row is unpacked.
#[inline(always)]
fn unpacking_of(scheme: Scheme, row: usize) -> &'static Unpacking
    requires { row < 16 }
    ensures few { result.now.count ≤ lanes_of scheme }
    ensures low { result.now.fall < 32 }
    ensures row { slice_index (all_counts scheme) row < 128
        → Unpacks (slice_index (all_counts scheme) row) (slice_index (all_widths scheme) row) result.now }
{
    match scheme {
        Scheme::One => &ROWS_ONE[row],
        Scheme::Two => &ROWS_TWO[row],
    }
}

/// Returns how many lanes a word has.
#[inline(always)]
pub(crate) fn lanes_of(scheme: Scheme) -> usize
    ensures { result ≡ lanes_of scheme }
{
    match scheme {
        Scheme::One => LANES_ONE,
        Scheme::Two => LANES,
    }
}

/// Returns a difference of a word, which is lifted to the top of 32 bits, and let down.
#[inline(always)]
#[tactic(auto, using(crate::proofs::Rules::digit_shifted))]
fn digit_by(word: u32, lift: u32, fall: u32) -> i32
    requires { fall < 32 }
    ensures { (width place : ℕ) → 0 < width → width * (place + 1) ≤ 32 → lift ≡ 2 ^ (32 - width * (place + 1))
        → fall ≡ 32 - width → result ≡ digit_at width word place }
{
    word.wrapping_mul(lift).cast_signed() >> fall
}

/// Puts the differences of a word from place `at` on, in `lanes` lanes; what stands after the last of them is open.
#[inline(always)]
#[tactic(auto, using(crate::proofs::Rules::spread))]
fn spread(word: u32, by: &Unpacking, lanes: usize, at: usize, differences: &mut [i32])
    requires low { by.now.fall < 32 }
    requires few { lanes ≤ 8 }
    requires room { at + 8 ≤ length differences.old }
    ensures { (width : ℕ) → by.now.count ≤ lanes → Unpacks by.now.count width by.now
        → take (at + by.now.count) differences.new ≡ take at differences.old ++ digits width word by.now.count }
{
    for lane in 0..lanes {
        differences[at + lane] = digit_by(word, by.lifts[lane], by.fall);
    }
}

/// Returns the row of a word.
#[inline(always)]
fn row_in(rows: &[u64; 2], word: usize) -> usize
    requires { word < 16 }
    ensures { result ≡ row_of rows.now word }
{
    ((rows[word / 8] >> (8 * (word % 8))) & 15) as usize
}

/// Returns the four words of these bytes, the highest byte of each first.
#[inline(always)]
fn four_words(bytes: u8x16) -> [u32; 4]
    ensures { (byte : ℕ → ℕ) → ((place : ℕ) → byte place < 256) → bytes ≡ map byte words
        → result ≡ word_of (byte 0) (byte 1) (byte 2) (byte 3) ∷ word_of (byte 4) (byte 5) (byte 6) (byte 7)
        ∷ word_of (byte 8) (byte 9) (byte 10) (byte 11) ∷ word_of (byte 12) (byte 13) (byte 14) (byte 15) ∷ [] }
{
    let swapped = bytes.swizzle::<16>([3, 2, 1, 0, 7, 6, 5, 4, 11, 10, 9, 8, 15, 14, 13, 12]);
    u32x4::from_le_bytes(swapped).to_array()
}

/// Returns the words of a frame.
#[inline(always)]
fn words_of(frame: &[u8; 64]) -> [u32; 16]
    ensures { result ≡ map (word_at frame.now) words }
{
    let a = four_words(u8x16::from_slice(&frame[0..16]));
    let b = four_words(u8x16::from_slice(&frame[16..32]));
    let c = four_words(u8x16::from_slice(&frame[32..48]));
    let d = four_words(u8x16::from_slice(&frame[48..64]));
    [
        a[0], a[1], a[2], a[3], b[0], b[1], b[2], b[3], c[0], c[1], c[2], c[3], d[0], d[1], d[2],
        d[3],
    ]
}

/// Puts the differences of five words of these rows after those that there are, and returns how many there are then.
#[inline(always)]
#[tactic(auto, using(crate::proofs::Rules::unpack_five))]
fn unpack_five(
    scheme: Scheme,
    lanes: usize,
    bits: &[u32; 16],
    rows: &[u64; 2],
    first: usize,
    met: usize,
    differences: &mut [i32],
) -> usize
    requires lanes { lanes ≤ 8 }
    requires inside { first + 5 ≤ 16 }
    requires room { met + 40 ≤ length differences.old }
    ensures few { result ≤ met + 40 }
    ensures unpacked { (frame : List ℕ) (from : ℕ) → bits.now ≡ map (word_at frame) words
        → ((word : ℕ) → word < 16 → row_of rows.now word ≡ row_at frame from word)
        → AreGood scheme frame from → FitIn scheme frame from lanes
        → take result differences.new ≡ take met differences.old ++ unpacked scheme frame from first 5 }
{
    let mut met = met;
    for index in 0..5 {
        let by = unpacking_of(scheme, row_in(rows, first + index));
        spread(bits[first + index], by, lanes, met, differences);
        met += by.count;
    }
    met
}

/// Puts the differences of the words of these rows, in their order, with `lanes` lanes for each, and returns how many
/// there are.
#[inline(always)]
#[tactic(auto, using(crate::proofs::FrameUnpacked::unpacked_fives))]
fn unpack_all(
    scheme: Scheme,
    lanes: usize,
    bits: &[u32; 16],
    rows: &[u64; 2],
    differences: &mut [i32],
) -> usize
    requires lanes { lanes ≤ 8 }
    requires room { 120 ≤ length differences.old }
    ensures few { result ≤ 120 }
    ensures unpacked { (frame : List ℕ) (from : ℕ) → bits.now ≡ map (word_at frame) words
        → ((word : ℕ) → word < 16 → row_of rows.now word ≡ row_at frame from word)
        → AreGood scheme frame from → FitIn scheme frame from lanes
        → take result differences.new ≡ unpacked scheme frame from 1 15 }
{
    let met = unpack_five(scheme, lanes, bits, rows, 1, 0, differences);
    let met = unpack_five(scheme, lanes, bits, rows, 6, met, differences);
    unpack_five(scheme, lanes, bits, rows, 11, met, differences)
}

/// Puts the differences of a frame's words of these rows, in their order, and returns how many there are. Words without
/// the code 3 have no more of them in Steim-2 than in Steim-1.
#[inline(always)]
fn unpack_words(scheme: Scheme, frame: &[u8; 64], rows: u8x16, differences: &mut [i32]) -> usize
    requires rows { Each1 (λ r. r < 16) rows }
    requires room { 120 ≤ length differences.old }
    ensures few { result ≤ 120 }
    ensures unpacked { (from : ℕ) → 0 < from → rows ≡ map (row_at frame.now from) words
        → AreGood scheme frame.now from → take result differences.new ≡ unpacked scheme frame.now from 1 15 }
{
    let bits = words_of(frame);
    let rows = u64x2::from_le_bytes(rows).to_array();
    if has_no_code_3(bits[0]) {
        return unpack_all(scheme, LANES_ONE, &bits, &rows, differences);
    }
    unpack_all(scheme, lanes_of(scheme), &bits, &rows, differences)
}

/// Puts the differences of a frame's words from word 1, 3 or 4 on, in their order, and returns how many there are;
/// `None` where a word is bad, or a difference is wider.
#[inline(always)]
fn unpack_by(
    scheme: Scheme,
    widest: Widest,
    frame: &[u8; 64],
    begin: Rows,
    differences: &mut [i32],
) -> Option<usize>
    requires begins { (from : ℕ) × Begins begin from }
    requires room { 120 ≤ length differences.old }
    ensures { IfSome result (AreUpTo widest scheme begin frame.now differences.new) }
{
    let (tops, _, _, _) = planes(frame);
    let rows = rows_of(frame, tops, begin);
    if are_low(rows, counts_of(scheme, widest)) {
        return Some(unpack_words(scheme, frame, rows, differences));
    }
    None
}

/// Puts the differences of a frame's words from word 1, 3 or 4 on, in their order, and returns how many there are;
/// `None` where a word is bad, or a difference is wider. There is a body for each scheme, with its own table and lanes.
#[inline(always)]
pub(crate) fn unpack_frame(
    scheme: Scheme,
    widest: Widest,
    frame: &[u8; 64],
    begin: Rows,
    differences: &mut [i32],
) -> Option<usize>
    requires begins { (from : ℕ) × Begins begin from }
    requires room { 120 ≤ length differences.old }
    ensures { IfSome result (AreUpTo widest scheme begin frame.now differences.new) }
{
    match scheme {
        Scheme::One => unpack_by(Scheme::One, widest, frame, begin, differences),
        Scheme::Two => unpack_by(Scheme::Two, widest, frame, begin, differences),
    }
}
