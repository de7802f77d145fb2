//! The table of groups: how many differences a word holds, and of how many bits (SEED Reference Manual 2.4,
//! appendix B).

ghost use Rattle.std.specs.Prelude.{◌≡◌, ◌<◌, ◌≤◌, ◌*◌, None, Some, MatchOption};
ghost use Rattle.mseed_steim.specs.private.Digits.{digits, differences_of};

use crate::scheme::Scheme;

/// A group of differences: how many a word holds in its low bits, and of how many bits each.
#[derive(Clone, Copy)]
pub(crate) struct Group {
    pub(crate) count: u32,
    pub(crate) width: u32,
    ghost few: { count ≤ 7 },
    ghost positive: { 0 < width },
    ghost narrow: { width ≤ 32 },
    ghost fits: { width * count ≤ 32 },
}

/// Returns a row of the table.
#[inline(always)]
fn row(count: u32, width: u32) -> Option<Group>
    requires few { count ≤ 7 }
    requires positive { 0 < width }
    requires narrow { width ≤ 32 }
    requires fits { width * count ≤ 32 }
    ensures { MatchOption result ⊥ (λ g. (g.count ≡ count) × (g.width ≡ width)) }
{
    Some(Group { count, width })
}

/// Returns the group of a word, by its code and its top two bits, the dnib: that of no differences where the code is 0;
/// `None` where they have no meaning in the scheme.
#[inline(always)]
#[tactic(auto, using(crate::proofs::Grouped::table))]
pub(crate) fn group_of(scheme: Scheme, code: u8, word: u32) -> Option<Group>
    ensures { MatchOption result (differences_of scheme code word ≡ None)
        (λ g. differences_of scheme code word ≡ Some (digits g.width word g.count)) }
{
    match (scheme, code, word >> 30) {
        (_, 0, _) => row(0, 1),
        (_, 1, _) => row(4, 8),
        (Scheme::One, 2, _) => row(2, 16),
        (Scheme::One, 3, _) => row(1, 32),
        (Scheme::Two, 2, 1) => row(1, 30),
        (Scheme::Two, 2, 2) => row(2, 15),
        (Scheme::Two, 2, 3) => row(3, 10),
        (Scheme::Two, 3, 0) => row(5, 6),
        (Scheme::Two, 3, 1) => row(6, 5),
        (Scheme::Two, 3, 2) => row(7, 4),
        _ => None,
    }
}
