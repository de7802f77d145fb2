//! The rows of the table of groups, by how many differences they have, and the fullest word.

ghost use Rattle.std.specs.Prelude.{◌≡◌, ◌↔◌, ◌+◌, ◌-◌, ◌*◌, ◌^◌, ◌<◌, ◌≤◌, ℕ, length, pos, slice_index_or, take};
ghost use Rattle.std.specs.Prelude.{IsTrue};
ghost use Rattle.mseed_steim.specs.Spelling.{IsWithin, positional};
ghost use Rattle.mseed_steim_pack.specs.private.Rows.{row_with, row_for, size_limit, IsBestRow, IsWide};

use mseed_steim::Scheme;

/// The most differences that a word holds.
pub(crate) const MOST: usize = 7;

/// How words are laid out, by a row of the table: its code and dnib, how many differences they hold, and of how many
/// bits each is.
#[derive(Clone, Copy, Debug, PartialEq, Eq)]
pub(crate) struct WordFormat {
    pub(crate) code: u8,
    pub(crate) dnib: u32,
    pub(crate) count: usize,
    pub(crate) width: u32,
}

/// The row of these parts.
fn row_with(code: u8, dnib: u32, count: usize, width: u32) -> WordFormat
    ensures { result ≡ row_with code dnib count width }
{
    WordFormat {
        code,
        dnib,
        count,
        width,
    }
}

/// The row of words with `count` differences.
fn row_of(scheme: Scheme, count: usize) -> Option<WordFormat>
    ensures { result ≡ row_for scheme count }
{
    match scheme {
        Scheme::One => match count {
            1 => Some(row_with(3, 0, 1, 32)),
            2 => Some(row_with(2, 0, 2, 16)),
            4 => Some(row_with(1, 0, 4, 8)),
            _ => None,
        },
        Scheme::Two => match count {
            1 => Some(row_with(2, 1, 1, 30)),
            2 => Some(row_with(2, 2, 2, 15)),
            3 => Some(row_with(2, 3, 3, 10)),
            4 => Some(row_with(1, 0, 4, 8)),
            5 => Some(row_with(3, 0, 5, 6)),
            6 => Some(row_with(3, 1, 6, 5)),
            7 => Some(row_with(3, 2, 7, 4)),
            _ => None,
        },
    }
}

/// The number, or the one below its opposite where it's negative: the bits that it takes but for its sign.
#[inline(always)]
fn size_of(difference: i32) -> u32
    ensures { (w : ℕ) → (result < 2 ^ (w - 1)) ↔ IsWithin w difference }
{
    if difference < 0 {
        !difference as u32
    } else {
        difference as u32
    }
}

/// What the sizes of `count` differences are less than where a word holds them; 0 where no row has this number.
#[inline(always)]
fn size_limit(scheme: Scheme, count: usize) -> u32
    ensures { result ≡ size_limit (row_for scheme count) }
{
    match row_of(scheme, count) {
        Some(row) => 1 << (row.width - 1),
        None => 0,
    }
}

/// The largest number of the differences, at most `high`, that a word holds; 0 where none holds the first.
#[inline(always)]
fn most_held(scheme: Scheme, diffs: &[i32], high: usize) -> usize
    requires { high ≤ length diffs.now }
    ensures best { IsBestRow scheme diffs.now high (row_for scheme result) }
    ensures fits { 0 < high → IsWithin 32 (slice_index_or diffs.now 0 (pos 0)) }
{
    let mut size = 0;
    let mut count = 0;
    for index in 0..high {
        size = size.max(size_of(diffs[index]));
        if size < size_limit(scheme, index + 1) {
            count = index + 1;
        }
    }
    count
}

/// Whether a difference has more bits than each of two in a word: so no word takes another beside it.
#[inline(always)]
pub(crate) fn is_wide(scheme: Scheme, difference: i32) -> bool
    ensures { IsTrue result ↔ IsWide scheme difference }
{
    size_of(difference) >= size_limit(scheme, 2)
}

/// The largest number of seven or more differences that a word holds.
#[inline(always)]
fn most_of_seven(scheme: Scheme, diffs: &[i32]) -> usize
    requires { 7 ≤ length diffs.now }
    ensures best { IsBestRow scheme diffs.now 7 (row_for scheme result) }
    ensures fits { IsWithin 32 (slice_index_or diffs.now 0 (pos 0)) }
{
    if is_wide(scheme, diffs[0]) {
        most_held(scheme, diffs, 1)
    } else {
        most_held(scheme, diffs, MOST)
    }
}

/// The row that takes the largest number of the differences; none where no word spells the first.
#[inline(always)]
pub(crate) fn fullest_row(scheme: Scheme, diffs: &[i32]) -> Option<WordFormat>
    ensures best { IsBestRow scheme diffs.now (length diffs.now) result }
    ensures fits { 0 < length diffs.now → IsWithin 32 (slice_index_or diffs.now 0 (pos 0)) }
{
    let count = if diffs.len() < MOST {
        most_held(scheme, diffs, diffs.len())
    } else {
        // A body for each scheme, of a known number of turns.
        match scheme {
            Scheme::One => most_of_seven(Scheme::One, diffs),
            Scheme::Two => most_of_seven(Scheme::Two, diffs),
        }
    };
    row_of(scheme, count)
}

/// Differences side by side, each of `width` bits, the last one in the lowest bits.
fn join_digits(diffs: &[i32], width: u32) -> u32
    requires room { width * length diffs.now ≤ 32 }
    requires positive { 0 < width }
    requires narrow { width ≤ 32 }
    ensures { result ≡ positional width diffs.now }
{
    let mask = (1u64 << width) - 1;
    let mut word = 0;
    for index in 0..diffs.len() {
        word = word << width | u64::from(diffs[index].cast_unsigned()) & mask;
    }
    word as u32
}

/// The word of a row with the first of these differences.
#[inline(always)]
pub(crate) fn word_of(row: WordFormat, diffs: &[i32]) -> u32
    requires inside { row.count ≤ length diffs.now }
    requires room { row.width * row.count ≤ 32 }
    requires positive { 0 < row.width }
    requires narrow { row.width ≤ 32 }
    requires dnib { row.dnib < 4 }
    requires apart { 0 < row.dnib → row.width * row.count ≤ 30 }
    ensures { result ≡ row.dnib * 2 ^ 30 + positional row.width (take row.count diffs.now) }
{
    row.dnib << 30 | join_digits(&diffs[..row.count], row.width)
}
