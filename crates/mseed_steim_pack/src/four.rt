//! Four words of Steim-2 at once, or three, where their differences are known ahead.

ghost use Rattle.std.specs.Prelude.{◌≡◌, ◌+◌, ◌%◌, ◌^◌, ◌<◌, ◌≤◌, ◌++◌, ◌∷◌, [], List, ℤ, IfSome, drop, map};
ghost use Rattle.std.specs.Simd.Lanes.{pair_sums, sum_l};
ghost use Rattle.mseed_steim.specs.declared.scheme.Scheme.TheVariants.{Two};
ghost use Rattle.mseed_steim_pack.specs.Lookahead.{IsLookahead};
ghost use Rattle.mseed_steim_pack.specs.Packing.{IsFullest};
ghost use Rattle.mseed_steim_pack.specs.private.Four.{AreFour, AreThree, four_of, known_from, three_of};

use crate::ahead::Lookahead;
use crate::layout::parts_two;
use mseed_steim::Scheme;
use std::simd::prelude::*;

/// How many words are joined at once.
pub(crate) const FOUR: usize = 4;

/// How many where there is no room for four.
pub(crate) const THREE: usize = 3;

/// A word before its bits are joined.
#[derive(Clone, Copy)]
struct Parts {
    /// What its pairs count for, with the dnib.
    pairs: u32x4,
    code: u32,
    /// How many differences it takes.
    count: usize,
}

/// Three words in turn: of each its code, its bits and how many differences it takes.
#[derive(Clone, Copy)]
pub(crate) struct ThreeWords {
    pub(crate) first: (u32, u32, usize),
    pub(crate) second: (u32, u32, usize),
    pub(crate) third: (u32, u32, usize),
    /// How many differences the three take.
    pub(crate) count: usize,
}

/// Four words in turn.
#[derive(Clone, Copy)]
pub(crate) struct FourWords {
    pub(crate) three: ThreeWords,
    pub(crate) fourth: (u32, u32, usize),
    /// How many differences the four take.
    pub(crate) count: usize,
}

/// The sums of neighbours, two and two, of the lanes of two vectors.
#[inline(always)]
fn added(a: u32x4, b: u32x4) -> u32x4
    ensures { result ≡ map (λ n. n % 2 ^ 32) (pair_sums (a ++ b)) }
{
    a.shuffle(b, [0, 2, 4, 6]) + a.shuffle(b, [1, 3, 5, 7])
}

/// The sums of the lanes of four vectors.
#[inline(always)]
fn sums_of(a: u32x4, b: u32x4, c: u32x4, d: u32x4) -> [u32; 4]
    ensures { result ≡ (sum_l a % 2 ^ 32) ∷ (sum_l b % 2 ^ 32) ∷ (sum_l c % 2 ^ 32) ∷ (sum_l d % 2 ^ 32) ∷ [] }
{
    added(added(a, b), added(c, d)).to_array()
}

/// The word of Steim-2 at a place, where it is known and takes more than one difference.
#[inline(always)]
fn parts_at(known: &Lookahead, place: usize) -> Option<Parts>
    requires { (ds : List ℤ) × IsLookahead Two (known_from known.now place) ds }
    ensures { IfSome result (λ parts. (ds : List ℤ) → IsLookahead Two (known_from known.now place) ds
        → IsFullest Two ds parts.code (sum_l parts.pairs % 2 ^ 32) parts.count
        × IsLookahead Two (known_from known.now (place + parts.count)) (drop parts.count ds)) }
{
    let count = usize::from(known.most[place]);
    if count < 2 {
        return None;
    }
    let (pairs, code) = parts_two(count, &known.cut[place..]);
    Some(Parts { pairs, code, count })
}

/// The next three words from a place on, where their differences are known.
#[inline(always)]
fn three_parts(known: &Lookahead, place: usize) -> Option<(Parts, Parts, Parts)>
    requires { (ds : List ℤ) × IsLookahead Two (known_from known.now place) ds }
    ensures { IfSome result (λ parts. (ds : List ℤ) → IsLookahead Two (known_from known.now place) ds
        → AreThree Two ds (three_of parts.0 parts.1 parts.2) × IsLookahead Two
        (known_from known.now (place + (parts.0.count + parts.1.count + parts.2.count)))
        (drop (parts.0.count + parts.1.count + parts.2.count) ds)) }
{
    let a = parts_at(known, place)?;
    let second = place + a.count;
    let b = parts_at(known, second)?;
    let c = parts_at(known, second + b.count)?;
    Some((a, b, c))
}

/// Four words by what their pairs count for.
#[inline(always)]
fn joined(a: Parts, b: Parts, c: Parts, d: Parts) -> FourWords
    requires { a.count + b.count + c.count + d.count ≤ 128 }
    ensures { result ≡ four_of a b c d }
{
    let words = sums_of(a.pairs, b.pairs, c.pairs, d.pairs);
    let count = a.count + b.count + c.count;
    FourWords {
        three: ThreeWords {
            first: (a.code, words[0], a.count),
            second: (b.code, words[1], b.count),
            third: (c.code, words[2], c.count),
            count,
        },
        fourth: (d.code, words[3], d.count),
        count: count + d.count,
    }
}

/// The next four words of Steim-2 from a place on, where their differences are known ahead.
#[inline(always)]
fn four_two(known: &Lookahead, place: usize) -> Option<FourWords>
    requires { (ds : List ℤ) × IsLookahead Two (known_from known.now place) ds }
    ensures { IfSome result (λ four. (ds : List ℤ) → IsLookahead Two (known_from known.now place) ds
        → AreFour Two ds four × IsLookahead Two (known_from known.now (place + four.count)) (drop four.count ds)) }
{
    let (a, b, c) = three_parts(known, place)?;
    let d = parts_at(known, place + (a.count + b.count + c.count))?;
    Some(joined(a, b, c, d))
}

/// The next three words of Steim-2 from a place on, where their differences are known ahead.
#[inline(always)]
fn three_two(known: &Lookahead, place: usize) -> Option<ThreeWords>
    requires { (ds : List ℤ) × IsLookahead Two (known_from known.now place) ds }
    ensures { IfSome result (λ three. (ds : List ℤ) → IsLookahead Two (known_from known.now place) ds
        → AreThree Two ds three × IsLookahead Two (known_from known.now (place + three.count)) (drop three.count ds)) }
{
    let (a, b, c) = three_parts(known, place)?;
    let none = Parts {
        pairs: u32x4::splat(0),
        code: 0,
        count: 0,
    };
    Some(joined(a, b, c, none).three)
}

/// The next four words of a scheme: none of Steim-1.
#[inline(always)]
pub(crate) fn four_ahead(scheme: Scheme, known: &Lookahead, place: usize) -> Option<FourWords>
    requires known { (ds : List ℤ) × IsLookahead scheme (known_from known.now place) ds }
    ensures { IfSome result (λ four. (ds : List ℤ) → IsLookahead scheme (known_from known.now place) ds
        → AreFour scheme ds four
        × IsLookahead scheme (known_from known.now (place + four.count)) (drop four.count ds)) }
{
    match scheme {
        Scheme::One => None,
        Scheme::Two => four_two(known, place),
    }
}

/// The next three words.
#[inline(always)]
pub(crate) fn three_ahead(scheme: Scheme, known: &Lookahead, place: usize) -> Option<ThreeWords>
    requires known { (ds : List ℤ) × IsLookahead scheme (known_from known.now place) ds }
    ensures { IfSome result (λ three. (ds : List ℤ) → IsLookahead scheme (known_from known.now place) ds
        → AreThree scheme ds three
        × IsLookahead scheme (known_from known.now (place + three.count)) (drop three.count ds)) }
{
    match scheme {
        Scheme::One => None,
        Scheme::Two => three_two(known, place),
    }
}
