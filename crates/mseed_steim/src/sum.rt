//! What a walk has added up, and how far from 0 the sums of differences can come.

ghost use Rattle.std.specs.Prelude.{◌≡◌, ◌+◌, ◌-◌, ◌^◌, ◌≤◌, ◌<◌, List, [], ◌∷◌, ℤ, ◌+ℤ◌, nat_abs, Result};
ghost use Rattle.std.specs.Prelude.{Ok, Err, IfOk, MatchResult, length};
ghost use Rattle.mseed_steim.specs.private.Digits.{digits};
ghost use Rattle.mseed_steim.specs.private.Lanes.{span, total};
ghost use Rattle.mseed_steim.specs.private.Items.{Items};
ghost use Rattle.mseed_steim.specs.private.Sums.{fold, met_in, used};

use crate::fault::ReadFault;
use crate::group::Group;
use crate::word::read_digit;

/// How many samples have been met, and the last of them; before the first, the payload's constant for it.
#[derive(Clone, Copy)]
pub(crate) struct Sum {
    pub(crate) last: i32,
    pub(crate) met: usize,
}

/// The sum that a walk has come to, or what comes first in place of a sample.
pub(crate) type Walked = Result<Sum, ReadFault>;

/// Returns the sum with one difference more; that of the first sample isn't used. `Overflow` where 32 bits don't hold
/// the sum.
#[tactic(auto, using(crate::proofs::Rules::add_difference))]
pub(crate) fn add_difference(difference: i32, samples: usize, sum: Sum) -> Walked
    requires { sum.met < samples }
    ensures goes_on { (more : Items) → MatchResult result
        (λ next. fold samples sum (Ok difference ∷ more) ≡ fold samples next more)
        (λ fault. fold samples sum (Ok difference ∷ more) ≡ Err fault) }
    ensures met { IfOk result (λ next. next.met ≡ sum.met + 1) }
    ensures last { IfOk result (λ next. next.last ≡ sum.last +ℤ used sum.met difference) }
    ensures samples { IfOk result (λ next. (more : Items)
        → met_in samples sum (Ok difference ∷ more) ≡ next.last ∷ met_in samples next more) }
{
    if sum.met == 0 {
        return Ok(Sum { met: 1, ..sum });
    }
    match sum.last.checked_add(difference) {
        Some(last) => Ok(Sum {
            met: sum.met + 1,
            last,
        }),
        None => Err(ReadFault::Overflow(sum.met)),
    }
}

/// Returns the sum of two numbers, which 32 bits hold.
#[inline(always)]
pub(crate) fn add_near(last: i32, difference: i32) -> i32
    requires { nat_abs last + nat_abs difference < 2 ^ 31 }
    ensures { result ≡ last +ℤ difference }
{
    last.wrapping_add(difference)
}

/// Returns the sum of a sample and the differences after it, while the limits of 32 bits are out of reach.
#[inline(always)]
#[tactic(auto, using(crate::proofs::Rules::add_all))]
pub(crate) fn add_all(differences: &[i32], last: i32) -> i32
    requires { nat_abs last + span differences.now < 2 ^ 31 }
    ensures { result ≡ last +ℤ total differences.now }
{
    let mut sum = last;
    for i in 0..differences.len() {
        sum = add_near(sum, differences[i]);
    }
    sum
}

/// Returns what no sum of differences is further from 0 than: as many times the greatest of them, whatever their signs,
/// as there are.
#[inline(always)]
#[tactic(auto, using(crate::proofs::Rules::reach_of))]
pub(crate) fn reach_of(differences: &[i32]) -> u64
    requires { length differences.now ≤ 120 }
    ensures { span differences.now ≤ result }
{
    let mut most = 0;
    for i in 0..differences.len() {
        most = most.max(differences[i].unsigned_abs());
    }
    differences.len() as u64 * u64::from(most)
}

/// Returns the difference at an index, from 0, of a group in the low bits of a word.
#[inline(always)]
#[tactic(auto, using(crate::proofs::Rules::next_difference))]
pub(crate) fn next_difference(word: u32, group: Group, index: u32) -> i32
    requires { index < group.count }
    ensures { digits group.width word (group.count - index)
        ≡ result ∷ digits group.width word (group.count - (index + 1)) }
{
    read_digit(word, group.width, group.count - 1 - index)
}

/// Returns the sum where no difference is left; `Short` unless all samples have been met.
#[inline]
#[tactic(auto, using(crate::proofs::Folds::fold_ended, crate::proofs::Folds::fold_enough))]
pub(crate) fn all_met(samples: usize, sum: Sum) -> Walked
    ensures { result ≡ fold samples sum [] }
{
    if sum.met == samples {
        Ok(sum)
    } else {
        Err(ReadFault::Short(sum.met))
    }
}
