//! Differences that are added up in lanes, four at the beginning and then eight in one turn. Turns are whole: after the
//! last difference stand zeros.

ghost use Rattle.std.specs.Prelude.{◌≡◌, ◌+◌, ◌-◌, ◌*◌, ◌^◌, ◌≤◌, ◌<◌, ◌∷◌, ◌++◌, ℕ, ℤ, ◌+ℤ◌, nat_abs};
ghost use Rattle.std.specs.Prelude.{drop, take, length, pos, slice_index_or};
ghost use Rattle.mseed_steim.specs.private.Lanes.{span, total};
ghost use Rattle.mseed_steim.specs.private.Sums.{IsWindow, sums};

use crate::sum::add_near;
use crate::unpack::Room;
use std::simd::prelude::*;

/// How many differences are added up in one turn.
const TURN: usize = 8;

/// How many come before the first turn.
const FIRST: usize = 4;

/// Returns the sums of four differences, each with those before it, and of each difference its sum with the one before
/// it. Each of the four last sums becomes the one four places on by a pair of two differences and the pair before that.
#[inline(always)]
fn slide(past: i32x4, pairs: i32x4, before: i32x4, four: i32x4) -> (i32x4, i32x4)
    requires window { IsWindow (span four) (slice_index_or before 0 (pos 0)) past pairs }
    requires long { length four ≡ 4 }
    requires behind { before ≡ slice_index_or before 0 (pos 0) ∷ take 3 four }
    ensures sums { result.0 ≡ sums (slice_index_or past 3 (pos 0)) four }
    ensures window { (reach : ℕ) → nat_abs (slice_index_or past 3 (pos 0)) + span four + reach < 2 ^ 31
        → IsWindow reach (slice_index_or four 3 (pos 0)) result.0 result.1 }
{
    let next = before + four;
    (past + (next + pairs.shuffle(next, [2, 3, 4, 5])), next)
}

/// Adds up the first four differences after the sample `last`, and puts the sums in their places. Returns the four
/// sums, and of each difference its sum with the one before it.
#[inline(always)]
fn put_first_four(differences: &[i32], last: i32, out: &mut [i32]) -> (i32x4, i32x4)
    requires some { 4 ≤ length differences.now }
    requires places { 4 ≤ length out.old }
    requires near { nat_abs last + span (take 4 differences.now) < 2 ^ 31 }
    ensures sums { take 4 out.new ≡ sums last (take 4 differences.now) }
    ensures last { slice_index_or result.0 3 (pos 0) ≡ last +ℤ total (take 4 differences.now) }
    ensures window { (reach : ℕ) → nat_abs last + span (take 4 differences.now) + reach < 2 ^ 31
        → IsWindow reach (slice_index_or differences.now 3 (pos 0)) result.0 result.1 }
    ensures places { length out.new ≡ length out.old }
{
    let none = i32x4::splat(0);
    let four = i32x4::from_slice(&differences[0..]);
    let before = four.shuffle(none, [4, 0, 1, 2]);
    let (sums, pairs) = slide(i32x4::splat(last), none, before, four);
    sums.copy_to_slice(&mut out[0..]);
    (sums, pairs)
}

/// Adds up four more differences, from place `at` on, and puts the sums in their places. Returns these four sums, and
/// of each difference its sum with the one before it.
#[inline(always)]
fn put_four(
    differences: &[i32],
    at: usize,
    past: i32x4,
    pairs: i32x4,
    out: &mut [i32],
) -> (i32x4, i32x4)
    requires later { 0 < at }
    requires some { at + 4 ≤ length differences.now }
    requires places { at + 4 ≤ length out.old }
    requires window { IsWindow (span (take 4 (drop at differences.now)))
        (slice_index_or differences.now (at - 1) (pos 0)) past pairs }
    ensures sums { take (at + 4) out.new
        ≡ take at out.old ++ sums (slice_index_or past 3 (pos 0)) (take 4 (drop at differences.now)) }
    ensures last { slice_index_or result.0 3 (pos 0)
        ≡ slice_index_or past 3 (pos 0) +ℤ total (take 4 (drop at differences.now)) }
    ensures window { (reach : ℕ)
        → nat_abs (slice_index_or past 3 (pos 0)) + span (take 4 (drop at differences.now)) + reach < 2 ^ 31
        → IsWindow reach (slice_index_or differences.now (at + 3) (pos 0)) result.0 result.1 }
    ensures places { length out.new ≡ length out.old }
{
    let before = i32x4::from_slice(&differences[at - 1..]);
    let four = i32x4::from_slice(&differences[at..]);
    let (sums, pairs) = slide(past, pairs, before, four);
    sums.copy_to_slice(&mut out[at..]);
    (sums, pairs)
}

/// Adds up four differences and whole turns of them after the sample `last`, puts the sums in their places, and returns
/// the last of them.
#[inline(always)]
fn put_turns(differences: &[i32], last: i32, out: &mut [i32]) -> i32
    requires whole { (turns : ℕ) × length differences.now ≡ 4 + 8 * turns }
    requires places { length differences.now ≤ length out.old }
    requires near { nat_abs last + span differences.now < 2 ^ 31 }
    ensures sums { take (length differences.now) out.new ≡ sums last differences.now }
    ensures last { result ≡ last +ℤ total differences.now }
    ensures places { length out.new ≡ length out.old }
{
    let (mut sums, mut pairs) = put_first_four(differences, last, out);
    for turn in 0..(differences.len() - FIRST) / TURN {
        let at = FIRST + TURN * turn;
        let half = put_four(differences, at, sums, pairs, out);
        let whole = put_four(differences, at + 4, half.0, half.1, out);
        sums = whole.0;
        pairs = whole.1;
    }
    sums.to_array()[3]
}

/// Adds up differences one by one after the sample `last`, puts the sums in their places, and returns the last of them;
/// `last` where there is none.
#[inline(always)]
#[tactic(auto, using(crate::proofs::Rules::put_each))]
fn put_each(differences: &[i32], last: i32, out: &mut [i32]) -> i32
    requires places { length differences.now ≤ length out.old }
    requires near { nat_abs last + span differences.now < 2 ^ 31 }
    ensures sums { take (length differences.now) out.new ≡ sums last differences.now }
    ensures last { result ≡ last +ℤ total differences.now }
    ensures places { length out.new ≡ length out.old }
{
    let mut sum = last;
    for i in 0..differences.len() {
        sum = add_near(sum, differences[i]);
        out[i] = sum;
    }
    sum
}

/// Adds up the first `count` differences after the sample `last`, puts the sums in their places, and returns the last
/// of them; `last` where `count` is 0. The limits of 32 bits are out of reach. It adds up in lanes where there is room
/// for one turn more.
#[inline(always)]
pub(crate) fn put_sums(differences: &mut Room, count: usize, last: i32, out: &mut [i32]) -> i32
    requires few { count ≤ 120 }
    requires places { count ≤ length out.old }
    requires near { nat_abs last + span (take count differences.old) < 2 ^ 31 }
    ensures sums { take count out.new ≡ sums last (take count differences.old) }
    ensures last { result ≡ last +ℤ total (take count differences.old) }
    ensures places { length out.new ≡ length out.old }
{
    if out.len() < count + TURN {
        return put_each(&differences[..count], last, out);
    }
    i32x8::splat(0).copy_to_slice(&mut differences[count..]);
    let whole = FIRST + TURN * ((count + 3) / TURN);
    put_turns(&differences[..whole], last, out)
}
