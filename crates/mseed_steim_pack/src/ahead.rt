//! How many differences the next words take, found ahead, for many places at once.

ghost use Rattle.std.specs.Prelude.{◌≡◌, ◌⊎◌, ◌↔◌, ◌≤◌, ◌<◌, ◌+◌, ◌++◌, ℕ, ℤ, List, pos, drop, length, map};
ghost use Rattle.std.specs.Prelude.{slice_index, slice_index_or};
ghost use Rattle.std.specs.Simd.Lanes.{Each1};
ghost use Rattle.mseed_steim.specs.declared.scheme.Scheme.TheVariants.{One, Two};
ghost use Rattle.mseed_steim.specs.declared.scheme.Scheme.{Scheme};
ghost use Rattle.mseed_steim.specs.Spelling.{IsWithin};
ghost use Rattle.mseed_steim_pack.specs.private.Ahead.{near_size, raised, most_one, most_two, most_with, size_of};
ghost use Rattle.mseed_steim_pack.specs.private.Ahead.{IsMost, IsMostOf};
ghost use Rattle.mseed_steim_pack.specs.private.Wrapped.{between, wrapped_from};
ghost use Rattle.mseed_steim_pack.specs.Lookahead.{AreSame, IsAhead, IsLookahead};

use crate::pending::{Listed, Neighbours, Steps, put_wrapped};
use mseed_steim::Scheme;
use std::simd::prelude::*;

/// How many differences are looked at ahead.
pub(crate) const AHEAD: usize = 128;

/// How many places are reported: for a word eight differences are read.
pub(crate) const KNOWN: usize = AHEAD - 7;

/// With this number of them behind, too few are known for four words.
pub(crate) const EARLY: usize = 100;

/// Fewer differences than these aren't looked at ahead.
const FEW: usize = 24;

/// How many bytes it takes to tell of each place among them how many a word takes there.
pub(crate) const ROOM: usize = AHEAD + 16;

/// By place, the most differences that are held from there on.
pub(crate) type Most = [u8; ROOM];

/// Differences cut off at 16 bits.
pub(crate) type Cut = [i16; AHEAD];

/// What is known of the differences that come next in a series. It is kept from one record to the next by
/// [`crate::pack_words_ahead`], so that each difference is looked at once.
#[derive(Drop)]
pub struct Lookahead {
    /// By place, how many differences are narrow enough for one word that takes them all, where it's two or more.
    /// Where it's less, nothing is known.
    pub(crate) most: [u8; ROOM],
    /// In Steim-2 the differences themselves, or the nearest to each of the numbers of 16 bits.
    pub(crate) cut: [i16; AHEAD],
    /// The place of the difference that comes next.
    pub(crate) place: usize,
}

impl Lookahead {
    /// Nothing is known, whatever comes.
    pub fn new() -> Lookahead
        ensures { (scheme : Scheme) (ds : List ℤ) → IsLookahead scheme result ds }
    {
        Lookahead {
            most: [0; ROOM],
            cut: [0; AHEAD],
            place: KNOWN,
        }
    }

    /// The place of the first of `count` differences that come next, or the first place of which nothing is known,
    /// where nothing is known of them alone.
    #[inline(always)]
    pub(crate) fn begin(&self, count: usize) -> usize
        requires { self.now.place ≤ AHEAD }
        ensures { (scheme : Scheme) (ds more : List ℤ) → length ds ≡ count → IsLookahead scheme self.now (ds ++ more)
            → IsLookahead scheme (record { most = self.now.most; cut = self.now.cut; place = result }) ds }
    {
        if count < AHEAD || self.most[self.place] < 2 {
            KNOWN
        } else {
            self.place
        }
    }
}

/// Half the size of a difference, or 32767 where that is larger.
#[inline(always)]
fn half_size(difference: i32) -> u16
    ensures { result ≡ near_size One difference }
{
    let size = if difference < 0 {
        !difference
    } else {
        difference
    };
    (size >> 1).min(32767) as u16
}

/// A difference, or the nearest to it of the numbers of 16 bits.
#[inline(always)]
fn cut_off(difference: i32) -> i16
    ensures near { size_of result ≡ near_size Two difference }
    ensures same { IsWithin 16 difference → result ≡ difference }
{
    if difference < -32768 {
        -32768
    } else if difference > 32767 {
        32767
    } else {
        difference as i16
    }
}

/// Half the sizes of the first `AHEAD` differences.
#[inline(always)]
fn put_half_sizes<D: Steps>(diffs: &D, sizes: &mut [u16; AHEAD])
    requires { AHEAD ≤ length (D.differences diffs.now) }
    ensures { (i : ℕ) → i < AHEAD
        → slice_index sizes.new i ≡ near_size One (slice_index_or (D.differences diffs.now) i (pos 0)) }
{
    for index in 0..AHEAD {
        sizes[index] = half_size(diffs.at(index));
    }
}

/// The first `AHEAD` differences, cut off at 16 bits.
#[inline(always)]
fn put_cut<D: Steps>(diffs: &D, cut: &mut Cut)
    requires { AHEAD ≤ length (D.differences diffs.now) }
    ensures near { (i : ℕ) → i < AHEAD → size_of (slice_index_or cut.new i (pos 0))
        ≡ near_size Two (slice_index_or (D.differences diffs.now) i (pos 0)) }
    ensures same { AreSame AHEAD (D.differences diffs.now) cut.new }
{
    for index in 0..AHEAD {
        cut[index] = cut_off(diffs.at(index));
    }
}

/// The sizes of some numbers.
#[inline(always)]
fn sizes_of(numbers: i16x16) -> u16x16
    requires { Each1 (λ z. size_of z < 32768) numbers }
    ensures small { Each1 (λ x. x < 32768) result }
    ensures value { result ≡ map size_of numbers }
{
    numbers.simd_max(!numbers).cast::<u16>()
}

/// One more where a size is below the limit.
#[inline(always)]
fn raised(most: u16x16, sizes: u16x16, limit: u16) -> u16x16
    requires small { limit < 32768 }
    requires near { Each1 (λ x. x < 32768) sizes }
    ensures { (f : ℕ → ℕ) → most ≡ map f sizes → ((x : ℕ) → f x < 65535) → result ≡ map (raised f limit) sizes }
{
    let is_below = sizes.cast::<i16>().simd_lt(i16x16::splat(limit as i16));
    most + is_below.select(u16x16::splat(1), u16x16::splat(0))
}

/// By an eighth of a size: the most differences of a word that holds one of the size, where those are four or more.
const BY_EIGHTHS: [u8; 16] = [7, 6, 5, 5, 4, 4, 4, 4, 4, 4, 4, 4, 4, 4, 4, 4];

/// By a 128th of it: where they are fewer than four. At 0 they are more, which the other table tells.
const BY_PARTS: [u8; 16] = [7, 3, 3, 3, 2, 2, 2, 2, 2, 2, 2, 2, 2, 2, 2, 2];

/// The most differences of a word of Steim-2 that holds two or more, by the near size of one of them. Each table is
/// read at its last place for all that is larger; a size of 2^14 or more is found apart.
#[inline(always)]
fn most_two(sizes: u16x16) -> u8x16
    requires { Each1 (λ x. x < 32768) sizes }
    ensures { result ≡ map most_two sizes }
{
    let eighths = (sizes >> u16x16::splat(3))
        .simd_min(u16x16::splat(255))
        .cast::<u8>();
    let narrow = u8x16::from_array(BY_EIGHTHS).swizzle_dyn(eighths.simd_min(u8x16::splat(15)));
    let wide = u8x16::from_array(BY_PARTS).swizzle_dyn(eighths >> u8x16::splat(4));
    narrow.simd_min(wide) - (sizes >> u16x16::splat(14)).cast::<u8>()
}

/// The most differences of a word of Steim-1 that holds two or more, by the near size of one of them.
#[inline(always)]
fn most_one(sizes: u16x16) -> u8x16
    requires { Each1 (λ x. x < 32768) sizes }
    ensures { result ≡ map most_one sizes }
{
    let most = raised(u16x16::splat(1), sizes, 1 << 14);
    let most = raised(most, sizes, 1 << 6);
    let most = raised(most, sizes, 1 << 6);
    most.cast::<u8>()
}

/// The most differences of words that hold two or more, by one of them, in Steim-1.
#[inline(always)]
fn put_most_one<D: Steps>(diffs: &D, most: &mut Most)
    requires { AHEAD ≤ length (D.differences diffs.now) }
    ensures { (i : ℕ) → i < AHEAD
        → slice_index most.new i ≡ most_one (near_size One (slice_index_or (D.differences diffs.now) i (pos 0))) }
{
    let mut sizes = [0; AHEAD];
    put_half_sizes(diffs, &mut sizes);
    for turn in 0..AHEAD / 16 {
        let sixteen = u16x16::from_slice(&sizes[16 * turn..]);
        most_one(sixteen).copy_to_slice(&mut most[16 * turn..]);
    }
}

/// The most differences of words that hold two or more, by one of them that is cut off at 16 bits, in Steim-2.
#[inline(always)]
fn put_most_two(cut: &Cut, most: &mut Most)
    requires { (i : ℕ) → i < AHEAD → size_of (slice_index_or cut.now i (pos 0)) < 32768 }
    ensures { (i : ℕ) → i < AHEAD → slice_index most.new i ≡ most_two (size_of (slice_index_or cut.now i (pos 0))) }
{
    for turn in 0..AHEAD / 16 {
        let sizes = sizes_of(i16x16::from_slice(&cut[16 * turn..]));
        most_two(sizes).copy_to_slice(&mut most[16 * turn..]);
    }
}

/// The most differences of words that hold two or more, by one of them, in a scheme. In Steim-2 the differences are cut
/// off before anything else, in a loop of their own, so that sizes are found eight at once.
#[inline(always)]
fn put_most<D: Steps>(scheme: Scheme, diffs: &D, most: &mut Most, cut: &mut Cut)
    requires { AHEAD ≤ length (D.differences diffs.now) }
    ensures most { (i : ℕ) → i < AHEAD
        → slice_index most.new i
        ≡ most_with scheme (near_size scheme (slice_index_or (D.differences diffs.now) i (pos 0))) }
    ensures cut { scheme ≡ Two → AreSame AHEAD (D.differences diffs.now) cut.new }
{
    match scheme {
        Scheme::One => put_most_one(diffs, most),
        Scheme::Two => {
            put_cut(diffs, cut);
            put_most_two(cut, most);
        }
    }
}

/// How many of the first items of which each is no less, from each of sixteen places on: of one item more than those of
/// which `most` says it, which are as many as `place`.
#[inline(always)]
fn at_most(most: u8x16, held: &[u8], place: u8) -> u8x16
    requires long { 16 + place ≤ length held.now }
    ensures { (i : ℕ) → i < 16 → IsMostOf place held.now i (slice_index most i)
        → IsMostOf (place + 1) held.now i (slice_index result i) }
{
    let here = u8x16::from_slice(&held[usize::from(place)..]);
    most.simd_min(here.simd_max(u8x16::splat(place)))
}

/// How many of the first items of which each is no less; so from each of sixteen places on.
#[inline(always)]
fn most_from(held: &[u8]) -> u8x16
    requires { 22 ≤ length held.now }
    ensures { (i : ℕ) → i < 16 → IsMost held.now i (slice_index result i) }
{
    let most = u8x16::from_slice(held);
    let most = at_most(most, held, 1);
    let most = at_most(most, held, 2);
    let most = at_most(most, held, 3);
    let most = at_most(most, held, 4);
    let most = at_most(most, held, 5);
    at_most(most, held, 6)
}

/// Puts in the place of each item how many of the first items from there on are such that each is no less.
#[inline(always)]
fn bound(held: &mut Most)
    ensures { (i : ℕ) → i < AHEAD → IsMost held.old i (slice_index held.new i) }
{
    for turn in 0..AHEAD / 16 {
        let lanes = most_from(&held[16 * turn..]);
        lanes.copy_to_slice(&mut held[16 * turn..]);
    }
}

/// The most differences that are held from each of the first 121 places on; nothing is reported of others.
#[inline(always)]
fn look_ahead<D: Steps>(scheme: Scheme, diffs: &D, most: &mut Most, cut: &mut Cut)
    requires { AHEAD ≤ length (D.differences diffs.now) }
    ensures ahead { (i : ℕ) → i < ROOM → IsAhead scheme (drop i (D.differences diffs.now)) (slice_index most.new i) }
    ensures none { (i : ℕ) → KNOWN ≤ i → i < ROOM → slice_index most.new i ≡ 0 }
    ensures cut { scheme ≡ Two → AreSame AHEAD (D.differences diffs.now) cut.new }
{
    put_most(scheme, diffs, most, cut);
    bound(most);
    for index in KNOWN..ROOM {
        most[index] = 0;
    }
}

/// The differences, and after them as many zeros as are looked at with them.
#[inline(always)]
fn padded(diffs: &[i32]) -> [i32; AHEAD]
    requires { length diffs.now ≤ AHEAD }
    ensures { (zeros : List ℤ) × (result ≡ diffs.now ++ zeros) }
{
    let mut padded = [0; AHEAD];
    padded[..diffs.len()].copy_from_slice(diffs);
    padded
}

/// The most of fewer differences than are looked at that are held from each place on; nothing is reported of the last
/// seven.
#[cold]
fn look_at_few(scheme: Scheme, diffs: &[i32], most: &mut Most, cut: &mut Cut)
    requires some { 7 ≤ length diffs.now }
    requires few { length diffs.now < AHEAD }
    ensures { IsLookahead scheme (record { most = most.new; cut = cut.new; place = 0 }) diffs.now }
{
    let all = padded(diffs);
    look_ahead(scheme, &Listed { differences: &all }, most, cut);
    for index in diffs.len() - 7..KNOWN {
        most[index] = 0;
    }
}

/// The most differences that are held from each of the first 121 places on; less than two where nothing is known of
/// them: at others, where fewer than eight differences are left, and where there are so few that looking at them costs
/// more than it saves. In Steim-2 those of which anything is known are cut off at 16 bits besides.
#[inline(never)]
pub(crate) fn look_at(scheme: Scheme, diffs: &[i32], most: &mut Most, cut: &mut Cut)
    ensures { IsLookahead scheme (record { most = most.new; cut = cut.new; place = 0 }) diffs.now }
{
    if AHEAD <= diffs.len() {
        look_ahead(scheme, &Listed { differences: diffs }, most, cut);
    } else if FEW <= diffs.len() {
        look_at_few(scheme, diffs, most, cut);
    } else {
        *most = [0; ROOM];
    }
}

/// The most differences of samples that are held from each of the first 121 places on, as [`look_at`] says of a list of
/// differences. As many samples are looked at as it looks at differences.
#[inline(never)]
pub(crate) fn look_at_samples(
    scheme: Scheme,
    before: i32,
    samples: &[i32],
    most: &mut Most,
    cut: &mut Cut,
)
    ensures { IsLookahead scheme (record { most = most.new; cut = cut.new; place = 0 })
        (wrapped_from before samples.now) }
{
    let count = samples.len().min(AHEAD);
    let mut diffs = [0; AHEAD];
    put_wrapped(before, &samples[..count], &mut diffs);
    look_at(scheme, &diffs[..count], most, cut);
}

/// The most differences between neighbours of a list that are held from each of the first 121 places on, as [`look_at`]
/// says of a list of differences.
#[inline(never)]
pub(crate) fn look_at_neighbours(scheme: Scheme, samples: &[i32], most: &mut Most, cut: &mut Cut)
    requires { AHEAD < length samples.now }
    ensures { IsLookahead scheme (record { most = most.new; cut = cut.new; place = 0 }) (between samples.now) }
{
    look_ahead(scheme, &Neighbours { samples }, most, cut);
}
