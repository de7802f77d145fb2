//! What a word of a Steim frame spells.

ghost use Rattle.std.specs.Prelude.{◌≡◌, ◌+◌, ◌*◌, ◌<◌, ◌≤◌, IsOkAnd, IfOk, OnErr, List, ℤ};
ghost use Rattle.mseed_steim.specs.private.Digits.{digit_at, digits};
ghost use Rattle.mseed_steim.specs.Spelling.{Spells, SpellsNone};

use crate::group::{Group, group_of};
use crate::scheme::Scheme;
use arrayvec::ArrayVec;

/// A word of a code and dnib that have no meaning in its scheme.
#[derive(Clone, Copy, Debug, PartialEq, Eq)]
pub struct BadWord;

/// Returns the digit of `width` bits at a place of a word, counted from its last, in two's complement: it is shifted up
/// to the word's top, and down again.
#[inline(always)]
#[tactic(auto, using(crate::proofs::Rules::digit_shifted))]
pub(crate) fn read_digit(word: u32, width: u32, place: u32) -> i32
    requires positive { 0 < width }
    requires room { width * (place + 1) ≤ 32 }
    ensures { result ≡ digit_at width word place }
{
    (word << (32 - width * (place + 1))).cast_signed() >> (32 - width)
}

/// Returns the differences of a group that stand in the low bits of a word.
#[tactic(auto, using(crate::proofs::Rules::differences_in))]
pub(crate) fn differences_in(word: u32, group: Group) -> ArrayVec<i32, 7>
    ensures { result.items ≡ digits group.width word group.count }
{
    let mut differences = ArrayVec::new();
    for i in 0..group.count {
        differences.push(read_digit(word, group.width, group.count - 1 - i));
    }
    differences
}

/// Returns the differences that a data word of this code, 0 to 3, spells: none where the code is 0, and else those of
/// its row of the table.
///
/// # Errors
///
/// `BadWord` exactly where the code and the word's top two bits have no row.
pub fn unpack_word(scheme: Scheme, code: u8, word: u32) -> Result<ArrayVec<i32, 7>, BadWord>
    requires { code < 4 }
    // What is answered is spelled.
    ensures spelled { IfOk result (λ v. Spells scheme code word v.items) }
    // All that is spelled is answered, so at most one list is.
    ensures only { (ds : List ℤ) → Spells scheme code word ds → IsOkAnd result (λ v. v.items ≡ ds) }
    // A bad word spells nothing.
    ensures bad { OnErr result (SpellsNone scheme code word) }
{
    match group_of(scheme, code, word) {
        Some(group) => Ok(differences_in(word, group)),
        None => Err(BadWord),
    }
}
