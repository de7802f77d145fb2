//! What the differences of a frame add up to, all sixteen words at once.

ghost use Rattle.std.specs.Prelude.{◌≡◌, ◌<◌, ◌≤◌, ◌+◌, ◌-◌, ◌*◌, ◌^◌, ℕ, ℤ, List, length, nat_abs, take, drop};
ghost use Rattle.std.specs.Simd.Lanes.{Each1, sum_l};
ghost use Rattle.mseed_steim.specs.declared.scheme.Scheme.TheVariants.{One, Two};
ghost use Rattle.mseed_steim.specs.private.Lanes.{AddsUp, AreLanes, Begins, row_at, turned_at};
ghost use Rattle.mseed_steim.specs.private.Lanes.{fine_two, ones_two, coarse_two, low_one, high_one};
ghost use Rattle.mseed_steim.specs.Frames.{words_from};
ghost use Rattle.mseed_steim.specs.private.Moves.{Adds, IsRun, Raises, Tells};
ghost use Rattle.mseed_steim.specs.private.Unpacked.{data_in};

use crate::lanes::{
    Rows, counted, minus, part, part_by, planes, plus, rows_of, shifted, sum_of, tally, turn,
};
use crate::scheme::Scheme;
use std::simd::prelude::*;

/// What the differences of a frame are in all, in lanes.
#[derive(Clone, Copy)]
pub(crate) struct MovedLanes {
    /// How many there are; 128 and more where a word is bad or too wide.
    count: u32,
    /// The lanes come to 128 times their sum.
    by: u32x4,
}

/// What the differences of the first of some frames are in all.
#[derive(Clone, Copy)]
pub(crate) struct Run {
    /// How many frames these are.
    pub(crate) frames: usize,
    /// How many differences there are.
    pub(crate) count: u32,
    /// Their sum.
    pub(crate) by: i32,
}

/// No sum of a frame's differences is further from 0 than this, unless one of them has 30 or 32 bits.
pub(crate) const REACH: u32 = 1 << 20;

/// No more frames are added up at once.
pub(crate) const RUN: usize = 15;

/// A table of 4x8 at rows 4 to 7, and of the groups of Steim-2.
macro_rules! rows_two {
    ($a:literal, $b:literal, $c:literal, $d:literal, $e:literal, $f:literal) => {
        [0, 0, 0, 0, $a, $a, $a, $a, 0, 0, $b, $c, $d, $e, $f, 0]
    };
}

/// How many differences a word of a row has; 128 where it is bad or has one of 30 bits.
pub(crate) const COUNT_TWO: Rows = [0, 0, 0, 0, 4, 4, 4, 4, 128, 128, 2, 3, 5, 6, 7, 128];

/// The bits of the codes from word 4 on: each byte of word 0 has those of four words.
const FROM_4: Rows = [
    0, 0, 0, 0, 0xC0, 0x30, 0x0C, 0x03, 0xC0, 0x30, 0x0C, 0x03, 0xC0, 0x30, 0x0C, 0x03,
];

/// The bits of the codes from word 3 on.
const FROM_3: Rows = [
    0, 0, 0, 0x03, 0xC0, 0x30, 0x0C, 0x03, 0xC0, 0x30, 0x0C, 0x03, 0xC0, 0x30, 0x0C, 0x03,
];

/// The bits of the codes from word 1 on.
const FROM_1: Rows = [
    0, 0x30, 0x0C, 0x03, 0xC0, 0x30, 0x0C, 0x03, 0xC0, 0x30, 0x0C, 0x03, 0xC0, 0x30, 0x0C, 0x03,
];

/// Returns the place of the first data word of a frame that isn't taken yet, once `met` samples have been met: 1, 3 or
/// 4. The first frame has the payload's constants in front; its first data word may be taken alone.
pub(crate) fn data_in(met: usize, frame: usize) -> usize
    ensures { result ≡ data_in met frame }
{
    if frame > 0 {
        1
    } else if met > 0 {
        4
    } else {
        3
    }
}

/// The bits of the codes of a frame's words that aren't taken yet: of the first frame, before the first sample and once
/// it has been met, and of a later frame.
static BEGINS: [[Rows; 2]; 2] = [[FROM_3, FROM_4], [FROM_1, FROM_1]];

/// Returns the bits of the codes of those words of a frame that aren't taken yet, once `met` samples have been met.
#[inline(always)]
pub(crate) fn begin_in(met: usize, frame: usize) -> Rows
    ensures { Begins result (data_in met frame) }
{
    let row = frame.min(1);
    let column = met.min(1);
    BEGINS[row][column]
}

/// Returns the rows of a frame's words, and the planes of their bytes, of which some bits are turned over by row.
#[inline(always)]
fn turned_lanes(
    frame: &[u8; 64],
    begin: Rows,
    tops: (Rows, Rows, Rows, Rows),
) -> (u8x16, u8x16, u8x16, u8x16, u8x16)
    ensures rows { Each1 (λ r. r < 16) result.0 }
    ensures lanes { (from : ℕ) → Begins begin from
        → AreLanes (row_at frame.now from) (turned_at tops.0 frame.now from 0) (turned_at tops.1 frame.now from 1)
        (turned_at tops.2 frame.now from 2) (turned_at tops.3 frame.now from 3)
        result.0 result.1 result.2 result.3 result.4 }
{
    let (a, b, c, d) = planes(frame);
    let rows = rows_of(frame, a, begin);
    (
        rows,
        turn(a, rows, tops.0),
        turn(b, rows, tops.1),
        turn(c, rows, tops.2),
        turn(d, rows, tops.3),
    )
}

/// Returns what the parts of Steim-2 words that count for less than 1 come to, 128-fold and in lanes.
#[inline(always)]
fn fine_of(a: u8x16, b: u8x16, c: u8x16, d: u8x16, rows: u8x16) -> u32x4
    requires { Each1 (λ r. r < 16) rows }
    ensures { AddsUp fine_two rows a b c d result }
{
    let of_a = part_by(a, rows, rows_two!(0, 0, 0, 0, 0x3E, 0), 64);
    let of_b = part(
        b,
        rows,
        rows_two!(0, 0, 0xF0, 0xFC, 0xF0, 0xF0),
        rows_two!(0, 0, 8, 32, 8, 8),
    );
    let of_c = part(
        c,
        rows,
        rows_two!(0, 0, 0xFC, 0xF0, 0x7C, 0xF0),
        rows_two!(0, 0, 32, 8, 32, 8),
    );
    let top_c = part_by(c, rows, rows_two!(0, 0x80, 0, 0, 0x80, 0), 1);
    let of_d = part(
        d,
        rows,
        rows_two!(0, 0, 0, 0xC0, 0xE0, 0xF0),
        rows_two!(0, 0, 0, 2, 4, 8),
    );
    plus(plus(plus(plus(of_a, of_b), of_c), top_c), of_d)
}

/// Returns what the parts of Steim-2 words that count for 1 to 64 come to, in lanes.
#[inline(always)]
fn ones_of(a: u8x16, b: u8x16, c: u8x16, d: u8x16, rows: u8x16) -> u32x4
    requires { Each1 (λ r. r < 16) rows }
    ensures { AddsUp ones_two rows a b c d result }
{
    let of_a = part(
        a,
        rows,
        rows_two!(255, 0, 0x3F, 0x3F, 0x01, 0x0F),
        rows_two!(1, 0, 16, 1, 16, 1),
    );
    let of_b = part(
        b,
        rows,
        rows_two!(255, 255, 0x0F, 0x03, 0x0F, 0x0F),
        rows_two!(1, 2, 64, 16, 2, 1),
    );
    let of_c = part(
        c,
        rows,
        rows_two!(255, 0, 0, 0x0F, 0x03, 0x0F),
        rows_two!(1, 0, 0, 4, 8, 1),
    );
    let of_d = part_by(d, rows, rows_two!(255, 255, 255, 0x3F, 0x1F, 0x0F), 1);
    plus(plus(plus(of_a, of_b), of_c), of_d)
}

/// Returns what the parts of Steim-2 words that count for 256 and more come to, in units of 256 and in lanes.
#[inline(always)]
fn coarse_of(a: u8x16, c: u8x16, rows: u8x16) -> u32x4
    requires { Each1 (λ r. r < 16) rows }
    ensures { (b d : List ℕ) → AddsUp coarse_two rows a b c d result }
{
    let of_a = part_by(a, rows, rows_two!(0, 0x3F, 0, 0, 0, 0), 2);
    let of_c = part_by(c, rows, rows_two!(0, 0x7F, 0x03, 0, 0, 0), 1);
    plus(of_a, of_c)
}

/// Returns what the differences of a Steim-2 frame are in all.
#[inline(always)]
fn frame_two(frame: &[u8; 64], begin: Rows) -> MovedLanes
    ensures { (from : ℕ) → Begins begin from → Adds Two frame.now from result }
{
    // the top bit of each difference turned over, so that it stands for what it is more than the least
    let tops = (
        rows_two!(128, 0x20, 0x20, 0x20, 0x21, 0x08),
        rows_two!(128, 0x00, 0x08, 0x82, 0x08, 0x88),
        rows_two!(128, 0x40, 0x02, 0x08, 0x42, 0x88),
        rows_two!(128, 0x00, 0x00, 0x20, 0x10, 0x88),
    );
    let (rows, a, b, c, d) = turned_lanes(frame, begin, tops);
    let fine = fine_of(a, b, c, d, rows);
    let ones = ones_of(a, b, c, d, rows);
    let coarse = coarse_of(a, c, rows);
    let least = tally(rows, rows_two!(64, 0, 192, 20, 12, 7));
    let least_coarse = tally(rows, rows_two!(0, 128, 0, 0, 0, 0));
    // all of them 128-fold, so that what is divided is one number, and comes out even
    let coarse = shifted(minus(coarse, least_coarse), 15);
    let raised = plus(plus(shifted(ones, 7), fine), coarse);
    MovedLanes {
        count: counted(rows, COUNT_TWO),
        by: minus(raised, shifted(least, 10)),
    }
}

/// A table of 4x8 at rows 4 to 7, and of 2x16 at rows 8 to 11.
macro_rules! rows_one {
    ($a:literal, $b:literal) => {
        [0, 0, 0, 0, $a, $a, $a, $a, $b, $b, $b, $b, 0, 0, 0, 0]
    };
}

/// How many differences a word of a row of Steim-1 has; 128 where it has one of 32 bits.
pub(crate) const COUNT_ONE: Rows = [0, 0, 0, 0, 4, 4, 4, 4, 2, 2, 2, 2, 128, 128, 128, 128];

/// Returns what the bytes of Steim-1 words that count for 1 come to, in lanes.
#[inline(always)]
fn low_of(a: u8x16, b: u8x16, c: u8x16, d: u8x16, rows: u8x16) -> u32x4
    requires { Each1 (λ r. r < 16) rows }
    ensures { AddsUp low_one rows a b c d result }
{
    let of_a = part_by(a, rows, rows_one!(255, 0), 1);
    let of_b = part_by(b, rows, rows_one!(255, 255), 1);
    let of_c = part_by(c, rows, rows_one!(255, 0), 1);
    let of_d = part_by(d, rows, rows_one!(255, 255), 1);
    plus(plus(plus(of_a, of_b), of_c), of_d)
}

/// Returns what the bytes of Steim-1 words that count for 256 come to, in units of 256 and in lanes.
#[inline(always)]
fn high_of(a: u8x16, c: u8x16, rows: u8x16) -> u32x4
    requires { Each1 (λ r. r < 16) rows }
    ensures { (b d : List ℕ) → AddsUp high_one rows a b c d result }
{
    let of_a = part_by(a, rows, rows_one!(0, 255), 1);
    let of_c = part_by(c, rows, rows_one!(0, 255), 1);
    plus(of_a, of_c)
}

/// Returns what the differences of a Steim-1 frame are in all.
#[inline(always)]
fn frame_one(frame: &[u8; 64], begin: Rows) -> MovedLanes
    ensures { (from : ℕ) → Begins begin from → Adds One frame.now from result }
{
    let (upper, lower) = (rows_one!(128, 128), rows_one!(128, 0));
    let (rows, a, b, c, d) = turned_lanes(frame, begin, (upper, lower, upper, lower));
    let low = low_of(a, b, c, d, rows);
    let high = high_of(a, c, rows);
    let least = tally(rows, rows_one!(1, 128));
    let raised = plus(low, shifted(high, 8));
    MovedLanes {
        count: counted(rows, COUNT_ONE),
        by: shifted(minus(raised, shifted(least, 9)), 7),
    }
}

/// Returns what the differences of a frame's words from word 1, 3 or 4 on are in all, by its scheme.
#[inline(always)]
fn frame_lanes(scheme: Scheme, frame: &[u8; 64], begin: Rows) -> MovedLanes
    ensures { (p : List ℕ) (k from : ℕ) → Begins begin from → frame.now ≡ take 64 (drop (64 * k) p)
        → Tells scheme (words_from p (16 * k + from) (16 - from)) result }
{
    match scheme {
        Scheme::One => frame_one(frame, begin),
        Scheme::Two => frame_two(frame, begin),
    }
}

/// Returns the number, less than 2^24 from 0, whose 128-fold the lanes add up to, modulo 2^32.
#[inline(always)]
fn lowered(by: u32x4) -> i32
    ensures { (number : ℤ) → nat_abs number < 2 ^ 24 → Raises (sum_l by) number → result ≡ number }
{
    // 2^24 more than the number, which is no less than 0
    let more = sum_of(by).wrapping_add(1 << 31) >> 7;
    more as i32 - (1 << 24)
}

/// Returns the bits of the codes of a frame in a run: `first` for the first frame, and those from word 1 on for
/// another.
#[inline(always)]
fn begin_at(index: usize, first: Rows) -> Rows
    ensures first { index ≡ 0 → result ≡ first }
    ensures later { 0 < index → Begins result 1 }
{
    if index == 0 { first } else { FROM_1 }
}

/// Returns what the differences of the first of some frames are in all, from a word of the first one on: of as many
/// frames as have at most `most` together, and no word that is bad or has one of 30 or 32 bits. A frame after those
/// with `most` isn't looked at.
#[inline(always)]
fn run_of(scheme: Scheme, frames: &[[u8; 64]], begin: Rows, most: usize) -> Run
    requires { length frames.now ≤ RUN }
    ensures { IsRun scheme frames.now begin most result }
{
    let mut taken = 0;
    let mut count = 0;
    let mut by = u32x4::splat(0);
    while taken < frames.len() && (count as usize) < most {
        let lanes = frame_lanes(scheme, &frames[taken], begin_at(taken, begin));
        if lanes.count >= 128 || most < (count + lanes.count) as usize {
            break;
        }
        taken += 1;
        count += lanes.count;
        by = plus(by, lanes.by);
    }
    Run {
        frames: taken,
        count,
        by: lowered(by),
    }
}

/// Returns what [`run_of`] returns of frames, by a body for each scheme.
pub(crate) fn moves_of(scheme: Scheme, frames: &[[u8; 64]], begin: Rows, most: usize) -> Run
    requires { length frames.now ≤ RUN }
    ensures { IsRun scheme frames.now begin most result }
{
    match scheme {
        Scheme::One => run_of(Scheme::One, frames, begin, most),
        Scheme::Two => run_of(Scheme::Two, frames, begin, most),
    }
}
