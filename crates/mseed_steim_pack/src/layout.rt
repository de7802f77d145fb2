//! How the rows of the table lay their differences out in a word, and words of them that are joined at once.

ghost use Rattle.std.specs.Prelude.{◌≡◌, ◌*◌, ◌+◌, ◌%◌, ◌^◌, ◌<◌, ◌≤◌, List, ℕ, ℤ, Some, length, pos, slice_index_or};
ghost use Rattle.std.specs.Prelude.{[], ◌∷◌, map, take, drop};
ghost use Rattle.mseed_steim.specs.Spelling.{positional};
ghost use Rattle.mseed_steim_pack.specs.Lookahead.{AreCut, IsAhead, IsCut, taken};
ghost use Rattle.mseed_steim_pack.specs.private.Ahead.{IsLayoutOne, IsLayoutTwo, bits_of, paired, size_of};
ghost use Rattle.mseed_steim_pack.specs.private.Wrapped.{wrapped_from};
ghost use Rattle.mseed_steim_pack.specs.Packing.{IsFullest};
ghost use Rattle.mseed_steim_pack.specs.private.Rows.{row_for};
ghost use Rattle.std.specs.Simd.Lanes.{Each1, sum_l};
ghost use Rattle.mseed_steim.specs.declared.scheme.Scheme.TheVariants.{One, Two};
ghost use Rattle.mseed_steim_pack.specs.declared.row.WordFormat.{WordFormat};

use crate::pending::{Pending, put_wrapped};
use crate::row::WordFormat;
use mseed_steim::Scheme;
use std::simd::prelude::*;

/// The lanes of a word: no fewer than it has differences.
const LANES: usize = 8;

/// Those of a word of Steim-1.
const LANES_ONE: usize = 4;

/// How the differences of a row of Steim-1 are joined.
pub(crate) struct LayoutOne {
    /// The bits of one difference, in each lane.
    masks: [u32; LANES],
    /// What each difference counts for; nothing after the last.
    places: [u32; LANES],
    row: WordFormat,
    /// Makes it 128 bytes, so that a row is found by a shift, and begins it at a multiple of 16, so that the lanes are
    /// read where they are used.
    spare: [u128; 2],
}

/// How the differences of a row of Steim-2 are joined, two and two of them, where each has 15 bits at the most.
struct LayoutTwo {
    /// The bits of one difference, in each lane.
    masks: [i16; LANES],
    /// What each difference counts for in its pair.
    weights: [i16; LANES],
    /// What each pair counts for. That and the weights are such that a difference after the last counts for nothing.
    counts: [u32; LANES / 2],
    /// The dnib where it stands in a word, beside the first pair.
    heads: [u32; LANES / 2],
    row: WordFormat,
    /// The code, as wide as those of a frame.
    code: u32,
    /// As in the other.
    spare: [u128; 2],
}

/// The layout of a row of Steim-1: its code, how many differences it has and of how many bits, and the rest.
macro_rules! layout_one {
    ($code:literal, $count:literal of $width:literal, $mask:literal, $places:expr) => {
        LayoutOne {
            masks: [$mask; LANES],
            places: $places,
            row: WordFormat {
                code: $code,
                dnib: 0,
                count: $count,
                width: $width,
            },
            spare: [0; 2],
        }
    };
}

/// The layout of a row of Steim-2: its code, its dnib, how many differences it has and of how many bits, and the rest.
macro_rules! layout_two {
    ($code:literal, $dnib:literal, $count:literal of $width:literal, $mask:literal, $head:literal, $weights:expr,
        $counts:expr) => {
        LayoutTwo {
            masks: [$mask; LANES],
            weights: $weights,
            counts: $counts,
            heads: [$head, 0, 0, 0],
            row: WordFormat {
                code: $code,
                dnib: $dnib,
                count: $count,
                width: $width,
            },
            code: $code,
            spare: [0; 2],
        }
    };
}

/// Of a number of differences that no word holds.
const NO_LAYOUT_ONE: LayoutOne = layout_one!(0, 0 of 0, 0, [0, 0, 0, 0, 0, 0, 0, 0]);

/// Of a number of differences that no word holds, and of one, which may have more than 15 bits.
const NO_LAYOUT_TWO: LayoutTwo =
    layout_two!(0, 0, 0 of 0, 0, 0, [0, 0, 0, 0, 0, 0, 0, 0], [0, 0, 0, 0]);

/// The layouts of Steim-2, by how many differences of the next are held by the words that hold each. Of two, the first
/// counts for 2^15, which a weight can't be: both weights are less than 0, and the pair counts for -1.
static LAYOUTS_TWO: [LayoutTwo; LANES] = [
    NO_LAYOUT_TWO,
    NO_LAYOUT_TWO,
    layout_two!(2, 2, 2 of 15, 0x7FFF, 0x8000_0000, [-0x8000, -1, 0, 0, 0, 0, 0, 0], [0xFFFF_FFFF, 0, 0, 0]),
    layout_two!(2, 3, 3 of 10, 0x3FF, 0xC000_0000, [0x400, 1, 1, 0, 0, 0, 0, 0], [0x400, 1, 0, 0]),
    layout_two!(1, 0, 4 of 8, 0xFF, 0, [0x100, 1, 0x100, 1, 0, 0, 0, 0], [0x1_0000, 1, 0, 0]),
    layout_two!(3, 0, 5 of 6, 0x3F, 0, [0x40, 1, 0x40, 1, 1, 0, 0, 0], [0x4_0000, 0x40, 1, 0]),
    layout_two!(3, 1, 6 of 5, 0x1F, 0x4000_0000, [0x20, 1, 0x20, 1, 0x20, 1, 0, 0], [0x10_0000, 0x400, 1, 0]),
    layout_two!(3, 2, 7 of 4, 0xF, 0x8000_0000, [0x10, 1, 0x10, 1, 0x10, 1, 1, 0], [0x10_0000, 0x1000, 0x10, 1]),
];

/// The layouts of Steim-1, by how many differences of the next are held by the words that hold each. It has words of 1,
/// 2 and 4: of three it takes two.
static LAYOUTS_ONE: [LayoutOne; LANES] = [
    NO_LAYOUT_ONE,
    layout_one!(3, 1 of 32, 0xFFFF_FFFF, [1, 0, 0, 0, 0, 0, 0, 0]),
    layout_one!(2, 2 of 16, 0xFFFF, [0x1_0000, 1, 0, 0, 0, 0, 0, 0]),
    layout_one!(2, 2 of 16, 0xFFFF, [0x1_0000, 1, 0, 0, 0, 0, 0, 0]),
    layout_one!(1, 4 of 8, 0xFF, [0x100_0000, 0x1_0000, 0x100, 1, 0, 0, 0, 0]),
    NO_LAYOUT_ONE,
    NO_LAYOUT_ONE,
    NO_LAYOUT_ONE,
];

/// The layout of a word of Steim-1 by the most differences that are held.
#[inline(always)]
fn layout_one(most: usize) -> &'static LayoutOne
    requires { most < 8 }
    ensures { (r : WordFormat) → row_for One (taken One most) ≡ Some r → (result.now.row ≡ r) × IsLayoutOne result.now }
{
    &LAYOUTS_ONE[most]
}

/// The layout of a word of Steim-2 by the most differences that are held, two or more.
#[inline(always)]
fn layout_two(most: usize) -> &'static LayoutTwo
    requires some { 2 ≤ most }
    requires few { most < 8 }
    ensures layout { IsLayoutTwo result.now }
    ensures row { (r : WordFormat) → row_for Two most ≡ Some r → result.now.row ≡ r }
{
    &LAYOUTS_TWO[most]
}

/// The first differences of eight or more, as many as a row of Steim-1 has. There is no branch on how many, which the
/// processor could but guess: as many are joined as any word holds, be they of this one or not.
#[inline(always)]
pub(crate) fn join_one(layout: &LayoutOne, diffs: &[i32]) -> u32
    requires eight { 8 ≤ length diffs.now }
    requires layout { IsLayoutOne layout.now }
    ensures { result ≡ positional layout.now.row.width (take layout.now.row.count diffs.now) }
{
    let mut word = 0u32;
    for index in 0..LANES_ONE {
        let digit = diffs[index].cast_unsigned() & layout.masks[index];
        word = word.wrapping_add(digit.wrapping_mul(layout.places[index]));
    }
    word
}

/// The first differences of eight or more samples, as many as a row of Steim-1 has, as [`join_one`] joins them.
#[inline(always)]
pub(crate) fn join_samples(layout: &LayoutOne, before: i32, samples: &[i32]) -> u32
    requires eight { 8 ≤ length samples.now }
    requires layout { IsLayoutOne layout.now }
    ensures { result
        ≡ positional layout.now.row.width (take layout.now.row.count (wrapped_from before samples.now)) }
{
    let mut diffs = [0; LANES];
    put_wrapped(before, &samples[..LANES_ONE], &mut diffs);
    join_one(layout, &diffs)
}

/// The bits of some numbers, of 32 each.
#[inline(always)]
fn bits_of(numbers: i16x8) -> u32x8
    ensures { Each1 (λ z. size_of z < 32768) numbers → result ≡ map bits_of numbers }
{
    u32x8::from_le_bytes(numbers.cast::<i32>().to_le_bytes())
}

/// The first eight of some numbers.
#[inline(always)]
fn first_eight(numbers: &[i16]) -> [i16; LANES]
    requires { 8 ≤ length numbers.now }
    ensures value { result ≡ take 8 numbers.now }
    ensures small { (i : ℕ) → i < 8 → size_of (slice_index_or numbers.now i (pos 0)) < 32768 }
{
    [
        numbers[0], numbers[1], numbers[2], numbers[3], numbers[4], numbers[5], numbers[6],
        numbers[7],
    ]
}

/// What each pair of the first of eight or more numbers of 16 bits counts for in a word; the first of them with the
/// dnib.
#[inline(always)]
fn parts_of(layout: &LayoutTwo, cut: &[i16]) -> u32x4
    requires layout { IsLayoutTwo layout.now }
    requires eight { 8 ≤ length cut.now }
    ensures { result ≡ map (λ pair. (paired layout.now cut.now pair + slice_index_or layout.now.heads pair 0) % 2 ^ 32)
        (0 ∷ 1 ∷ 2 ∷ 3 ∷ []) }
{
    let digits = i16x8::from_array(first_eight(cut)) & i16x8::from_array(layout.masks);
    let weighed = bits_of(digits) * bits_of(i16x8::from_array(layout.weights));
    // In this form LLVM has one instruction for both products and their sum.
    let both = weighed.swizzle::<4>([1, 3, 5, 7]) + weighed.swizzle::<4>([0, 2, 4, 6]);
    both * u32x4::from_array(layout.counts) + u32x4::from_array(layout.heads)
}

/// The fullest word of Steim-2, where it is known ahead, by the differences cut off at 16 bits: what its pairs count
/// for, and its code.
#[inline(always)]
pub(crate) fn parts_two(most: usize, cut: &[i16]) -> (u32x4, u32)
    requires some { 2 ≤ most }
    requires few { most < 8 }
    requires eight { 8 ≤ length cut.now }
    ensures { (ds : List ℤ) → IsAhead Two ds most → AreCut ds cut.now
        → IsFullest Two ds result.1 (sum_l result.0 % 2 ^ 32) most }
{
    let layout = layout_two(most);
    (parts_of(layout, cut), layout.code)
}

/// The fullest word of Steim-1, where it is known ahead: its code, its bits and how many differences it takes.
#[inline(always)]
fn word_one<P: Pending>(most: usize, pending: &P, from: usize) -> (u32, u32, usize)
    requires some { 2 ≤ most }
    requires ahead { IsAhead One (drop from (P.differences pending.now)) most }
    ensures { IsFullest One (drop from (P.differences pending.now)) result.0 result.1 result.2 }
{
    let layout = layout_one(most);
    let code = u32::from(layout.row.code);
    (code, pending.join(from, layout), taken_one(most))
}

/// How many differences a word of Steim-1 takes of the most that it holds: there is no word of three.
#[inline(always)]
fn taken_one(most: usize) -> usize
    ensures { result ≡ taken One most }
{
    if most == 3 { 2 } else { most }
}

/// The fullest word of Steim-2, where it is known ahead, by the differences cut off at 16 bits: its code, its bits and
/// how many differences it takes.
#[inline(always)]
fn word_two(most: usize, cut: &[i16]) -> (u32, u32, usize)
    requires some { 2 ≤ most }
    requires few { most < 8 }
    requires eight { 8 ≤ length cut.now }
    ensures { (ds : List ℤ) → IsAhead Two ds most → AreCut ds cut.now
        → IsFullest Two ds result.0 result.1 result.2 }
{
    let (parts, code) = parts_two(most, cut);
    (code, parts.reduce_sum(), most)
}

/// The fullest word, where it is known ahead; in Steim-2 by the differences cut off at 16 bits.
#[inline(always)]
pub(crate) fn word_ahead<P: Pending>(
    scheme: Scheme,
    most: usize,
    pending: &P,
    from: usize,
    cut: &[i16],
) -> (u32, u32, usize)
    requires some { 2 ≤ most }
    requires ahead { IsAhead scheme (drop from (P.differences pending.now)) most }
    requires cut { IsCut scheme most (drop from (P.differences pending.now)) cut.now }
    ensures { IsFullest scheme (drop from (P.differences pending.now)) result.0 result.1 result.2 }
{
    match scheme {
        Scheme::One => word_one(most, pending, from),
        Scheme::Two => word_two(most, cut),
    }
}
