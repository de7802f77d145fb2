//! Words and numbers at the start of a text.
ghost use Rattle.std.specs.Prelude.{◌≡◌, ◌≢◌, ◌+◌, ◌-◌, ◌*◌, ◌≤◌, ◌<◌, ◌^◌, ℕ, IfSome, IfNone, nat_le, pos, neg_ℤ};
ghost use Rattle.std.specs.Prelude.{◌≤ℤ◌, drop, get_or, length, true, false};
ghost use Rattle.std.specs.Option.{option_map};
ghost use Rattle.mseed_join.specs.private.Reading.{after, number_after, number_at, integer_at, more_at, is_digit};
ghost use Rattle.mseed_join.specs.private.Reading.{within};

use std::simd::prelude::*;

/// How many digits after a first fit for sure, and are looked for at once.
const FEW: usize = 16;

/// The largest count, number or offset of a part. Only the microseconds of a gap or an overlap may be more.
pub(crate) const LARGEST: u64 = 0x7fff_ffff_ffff_ffff;

/// The bytes after a word, if they begin with it.
#[inline(always)]
pub(crate) fn after<'a, const N: usize>(word: &[u8; N], bytes: &'a [u8]) -> Option<&'a [u8]>
    ensures { option_map (λ rest. rest.now) result ≡ after word.now bytes.now }
{
    match bytes.split_first_chunk::<N>() {
        Some((first, rest)) if *first == *word => Some(rest),
        _ => None,
    }
}

/// The number after a word, which is at most so large.
#[inline(always)]
pub(crate) fn number_after<'a, const N: usize>(
    word: &[u8; N],
    largest: u64,
    bytes: &'a [u8],
) -> Option<(u64, &'a [u8])>
    ensures value { option_map (λ x. (x.0, x.1.now)) result ≡ number_after word.now largest bytes.now }
    ensures bounded { IfSome result (λ x. x.0 ≤ largest) }
{
    let rest = after(word, bytes)?;
    number_at(largest, rest)
}

/// A number that is at most so large, without leading zeros, and the bytes after it.
#[inline(always)]
#[tactic(auto, unfolding(crate::specs::private::Reading::number_at))]
pub(crate) fn number_at(largest: u64, bytes: &[u8]) -> Option<(u64, &[u8])>
    ensures value { option_map (λ x. (x.0, x.1.now)) result ≡ number_at largest bytes.now }
    ensures bounded { IfSome result (λ x. x.0 ≤ largest) }
{
    let (number, count) = leading_at(bytes);
    if count == 0 {
        return None;
    }
    let rest = &bytes[count..];
    if count > FEW {
        return long_at(largest, number, rest);
    }
    if number <= largest {
        Some((number, rest))
    } else {
        None
    }
}

/// What the first digits make, and how many they are: none where no number begins here, one where it is 0, and 17 where
/// it may go on.
#[inline(never)]
#[tactic(auto, unfolding(crate::specs::private::Reading::number_at))]
fn leading_at(bytes: &[u8]) -> (u64, usize)
    ensures within { result.1 ≤ length bytes.now }
    ensures few { result.1 ≤ 17 }
    ensures none { result.1 ≡ 0 → (largest : ℕ) → number_at largest bytes.now ≡ None }
    ensures value { 0 < result.1 → result.1 < 17 → (largest : ℕ)
        → number_at largest bytes.now ≡ within largest (result.0, drop result.1 bytes.now) }
    ensures long { result.1 ≡ 17 → (largest : ℕ)
        → number_at largest bytes.now ≡ within largest (more_at result.0 (drop result.1 bytes.now)) }
{
    match bytes {
        [] => (0, 0),
        [first, rest @ ..] => {
            if *first == b'0' {
                return (0, 1);
            }
            if !is_digit(*first) {
                return (0, 0);
            }
            let (number, count) = few_more_at(u64::from(*first - b'0'), rest);
            (number, count + 1)
        }
    }
}

/// What up to 16 further digits make of a number of one digit, and how many they are.
#[inline(always)]
fn few_more_at(first: u64, bytes: &[u8]) -> (u64, usize)
    requires { first < 10 }
    ensures within { result.1 ≤ length bytes.now }
    ensures few { result.1 ≤ FEW }
    ensures value { more_at result.0 (drop result.1 bytes.now) ≡ more_at first bytes.now }
    ensures whole { result.1 ≢ FEW
        → more_at result.0 (drop result.1 bytes.now) ≡ (result.0, drop result.1 bytes.now) }
{
    let digits = digits_ahead(bytes);
    let mut number = first;
    let mut count = 0;
    while 4 <= digits - count {
        number = with_two(with_two(number, bytes, count), bytes, count + 2);
        count += 4;
    }
    (with_rest(number, bytes, count, digits), digits)
}

/// A number with up to three more digits.
#[inline(always)]
fn with_rest(number: u64, bytes: &[u8], count: usize, digits: usize) -> u64
    requires small { number < 10 ^ (count + 1) }
    requires few { digits ≤ FEW }
    requires within { digits ≤ length bytes.now }
    requires digits { (k : ℕ) → k < digits → is_digit (get_or bytes.now k 0) ≡ true }
    requires before { count ≤ digits }
    requires near { digits < count + 4 }
    ensures { more_at result (drop digits bytes.now) ≡ more_at number (drop count bytes.now) }
{
    let left = digits - count;
    if left == 0 {
        number
    } else if left == 1 {
        with_digit(number, bytes[count])
    } else if left == 2 {
        with_two(number, bytes, count)
    } else {
        with_digit(with_two(number, bytes, count), bytes[count + 2])
    }
}

/// A number with two more digits.
#[inline(always)]
fn with_two(number: u64, bytes: &[u8], count: usize) -> u64
    requires small { number < 10 ^ (count + 1) }
    requires few { count + 2 ≤ FEW }
    requires within { count + 2 ≤ length bytes.now }
    requires digits { (k : ℕ) → k < count + 2 → is_digit (get_or bytes.now k 0) ≡ true }
    ensures small { result < 10 ^ (count + 2 + 1) }
    ensures value { more_at result (drop (count + 2) bytes.now) ≡ more_at number (drop count bytes.now) }
{
    with_digit(with_digit(number, bytes[count]), bytes[count + 1])
}

/// A number with one more digit.
#[inline(always)]
fn with_digit(number: u64, digit: u8) -> u64
    requires small { number < 10 ^ 16 }
    requires digit { is_digit digit ≡ true }
    ensures { result ≡ 10 * number + (digit - 48) }
{
    10 * number + u64::from(digit) - u64::from(b'0')
}

/// How many bytes are digits before the first that isn't one, at most 16.
#[inline(always)]
fn digits_ahead(bytes: &[u8]) -> usize
    ensures within { result ≤ length bytes.now }
    ensures few { result ≤ FEW }
    ensures digits { (k : ℕ) → k < result → is_digit (get_or bytes.now k 0) ≡ true }
    ensures ends { result ≢ FEW → result < length bytes.now → is_digit (get_or bytes.now result 0) ≡ false }
{
    if bytes.len() < FEW {
        return digits_one_by_one(bytes);
    }
    let others = (u8x16::from_slice(bytes) - u8x16::splat(b'0'))
        .simd_gt(u8x16::splat(9))
        .to_bitmask();
    if others == 0 {
        return FEW;
    }
    others.trailing_zeros() as usize
}

/// How many digits a text of fewer than 16 bytes begins with.
#[inline(always)]
fn digits_one_by_one(bytes: &[u8]) -> usize
    requires { length bytes.now < FEW }
    ensures within { result ≤ length bytes.now }
    ensures digits { (k : ℕ) → k < result → is_digit (get_or bytes.now k 0) ≡ true }
    ensures ends { result < length bytes.now → is_digit (get_or bytes.now result 0) ≡ false }
{
    let mut count = 0;
    while count < bytes.len() && is_digit(bytes[count]) {
        count += 1;
    }
    count
}

/// A number that begins with these seventeen digits, if it is at most so large, and the bytes after it.
#[cold]
fn long_at(largest: u64, number: u64, bytes: &[u8]) -> Option<(u64, &[u8])>
    ensures value { option_map (λ x. (x.0, x.1.now)) result ≡ within largest (more_at number bytes.now) }
    ensures bounded { IfSome result (λ x. x.0 ≤ largest) }
{
    further_at(largest, number, bytes)
}

/// As [`number_at`], of a number that may be larger.
pub(crate) fn wide_at(bytes: &[u8]) -> Option<(u128, &[u8])>
    ensures { option_map (λ x. (x.0, x.1.now)) result ≡ number_at (2 ^ 128 - 1) bytes.now }
{
    spelled_at(u128::MAX, bytes)
}

/// A number that is read digit by digit.
trait Spelled: Copy {
    // The number.
    ghost value: { Self → ℕ };

    // No number of the type is as large.
    ghost limit: { ℕ };

    /// The number of one digit.
    fn of(digit: u8) -> Self
        ensures { value result ≡ digit };

    /// The number with one more digit, if it fits.
    fn with_digit(self, digit: u8) -> Option<Self>
        requires { digit < 10 }
        ensures some { IfSome result (λ n. value n ≡ 10 * value self + digit) }
        ensures none { IfNone result (limit ≤ 10 * value self + digit) };

    /// Whether the number is no larger.
    fn is_within(self, largest: Self) -> bool
        ensures { result ≡ nat_le (value self) (value largest) };
}

impl Spelled for u64 {
    ghost value = { λ n. n };

    ghost limit = { 2 ^ 64 };

    fn of(digit: u8) -> Self {
        u64::from(digit)
    }

    fn with_digit(self, digit: u8) -> Option<Self> {
        self.checked_mul(10)?.checked_add(u64::from(digit))
    }

    fn is_within(self, largest: Self) -> bool {
        self <= largest
    }
}

impl Spelled for u128 {
    ghost value = { λ n. n };

    ghost limit = { 2 ^ 128 };

    fn of(digit: u8) -> Self {
        u128::from(digit)
    }

    fn with_digit(self, digit: u8) -> Option<Self> {
        self.checked_mul(10)?.checked_add(u128::from(digit))
    }

    fn is_within(self, largest: Self) -> bool {
        self <= largest
    }
}

/// Returns whether a byte is one of the digits `0` to `9`.
#[inline(always)]
fn is_digit(byte: u8) -> bool
    ensures { result ≡ is_digit byte }
{
    byte.is_ascii_digit()
}

/// A number that is at most so large, without leading zeros, and the bytes after it.
#[tactic(auto, unfolding(crate::specs::private::Reading::number_at))]
fn spelled_at<N: Spelled>(largest: N, bytes: &[u8]) -> Option<(N, &[u8])>
    requires { N.value largest < N.limit }
    ensures value { option_map (λ x. (N.value x.0, x.1.now)) result ≡ number_at (N.value largest) bytes.now }
    ensures bounded { IfSome result (λ x. N.value x.0 ≤ N.value largest) }
{
    match bytes {
        [] => None,
        [first, rest @ ..] => {
            if *first == b'0' {
                return Some((N::of(0), rest));
            }
            if !is_digit(*first) {
                return None;
            }
            further_at(largest, N::of(*first - b'0'), rest)
        }
    }
}

/// The number with its further digits, if it is at most so large, and the bytes after it.
fn further_at<N: Spelled>(largest: N, number: N, bytes: &[u8]) -> Option<(N, &[u8])>
    requires { N.value largest < N.limit }
    ensures value { option_map (λ x. (N.value x.0, x.1.now)) result
        ≡ within (N.value largest) (more_at (N.value number) bytes.now) }
    ensures bounded { IfSome result (λ x. N.value x.0 ≤ N.value largest) }
{
    match more_at(number, bytes) {
        Some((number, rest)) => {
            if number.is_within(largest) {
                Some((number, rest))
            } else {
                None
            }
        }
        None => None,
    }
}

/// Returns a number with its further digits, and the bytes after them; `None` where the type has no number so large.
fn more_at<N: Spelled>(number: N, bytes: &[u8]) -> Option<(N, &[u8])>
    ensures some { IfSome result (λ x. (N.value x.0, x.1.now) ≡ more_at (N.value number) bytes.now) }
    ensures none { IfNone result (N.limit ≤ (more_at (N.value number) bytes.now).0) }
{
    let mut number = number;
    let mut rest = bytes;
    loop {
        match rest {
            [] => return Some((number, rest)),
            [digit, others @ ..] => {
                if !is_digit(*digit) {
                    return Some((number, rest));
                }
                match number.with_digit(*digit - b'0') {
                    Some(more) => {
                        number = more;
                        rest = others;
                    }
                    None => return None,
                }
            }
        }
    }
}

/// A number that is at most so large, or `-` and one that isn't 0 and at most so large, and the bytes after it.
#[inline(always)]
#[tactic(auto, unfolding(crate::specs::private::Reading::integer_at))]
pub(crate) fn integer_at(below: u64, above: u64, bytes: &[u8]) -> Option<(i64, &[u8])>
    requires below { below ≤ 2 ^ 63 }
    requires above { above < 2 ^ 63 }
    ensures value { option_map (λ x. (x.0, x.1.now)) result ≡ integer_at below above bytes.now }
    ensures low { IfSome result (λ x. neg_ℤ (pos below) ≤ℤ x.0) }
    ensures high { IfSome result (λ x. x.0 ≤ℤ pos above) }
{
    match bytes {
        [] => None,
        [first, rest @ ..] => {
            if *first == b'-' {
                match number_at(below, rest) {
                    Some((0, _)) => None,
                    Some((size, rest)) => Some((-1 - (size - 1) as i64, rest)),
                    None => None,
                }
            } else {
                match number_at(above, bytes) {
                    Some((size, rest)) => Some((size as i64, rest)),
                    None => None,
                }
            }
        }
    }
}
