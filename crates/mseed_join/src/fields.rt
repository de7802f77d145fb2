//! The fields of a line: a rate, a start, a head, a tail.
ghost use Rattle.std.specs.Prelude.{◌≡◌};
ghost use Rattle.std.specs.Option.{option_map};
ghost use Rattle.mseed_join.specs.private.Reading.{ratio_at, start_at, leap_at, some_head_at, head_at};
ghost use Rattle.mseed_join.specs.private.Reading.{some_tail_at};
ghost use Rattle.mseed_join.specs.private.Reading.{tail_at};

use crate::numbers::{LARGEST, after, integer_at, number_after, number_at};
use mseed_audit::{Head, Tail};
use mseed_record::Leap;
use mseed_time::{Micros, Ratio};

/// A rate, and the bytes after it.
#[inline(always)]
#[tactic(auto, unfolding(crate::specs::private::Reading::ratio_at))]
pub(crate) fn ratio_at(bytes: &[u8]) -> Option<(Ratio, &[u8])>
    ensures { option_map (λ x. (x.0, x.1.now)) result ≡ ratio_at bytes.now }
{
    let (num, rest) = number_at(u64::from(Ratio::MAX), bytes)?;
    let rest = after(b"/", rest)?;
    let (den, rest) = number_at(u64::from(Ratio::MAX), rest)?;
    match Ratio::new(num as u32, den as u32) {
        Some(ratio) => Some((ratio, rest)),
        None => None,
    }
}

/// A record's start, and the bytes after it.
#[inline(always)]
pub(crate) fn start_at(bytes: &[u8]) -> Option<(Micros, &[u8])>
    ensures { option_map (λ x. (x.0, x.1.now)) result ≡ start_at bytes.now }
{
    let (start, rest) = integer_at(Micros::MIN.unsigned_abs(), Micros::MAX as u64, bytes)?;
    match Micros::new(start) {
        Some(start) => Some((start, rest)),
        None => None,
    }
}

/// The leap seconds that a record carries, and the bytes after them.
#[inline(always)]
#[tactic(auto, unfolding(crate::specs::private::Reading::leap_at))]
pub(crate) fn leap_at(bytes: &[u8]) -> Option<(Leap, &[u8])>
    ensures { option_map (λ x. (x.0, x.1.now)) result ≡ leap_at bytes.now }
{
    if let Some(rest) = after(b"none", bytes) {
        return Some((Leap::None, rest));
    }
    if let Some(rest) = after(b"positive", bytes) {
        return Some((Leap::Positive, rest));
    }
    if let Some(rest) = after(b"negative", bytes) {
        return Some((Leap::Negative, rest));
    }
    let rest = after(b"both", bytes)?;
    Some((Leap::Both, rest))
}

/// How a channel begins, and the bytes after it.
#[inline(always)]
#[tactic(auto, unfolding(crate::specs::private::Reading::some_head_at))]
fn some_head_at(bytes: &[u8]) -> Option<(Head, &[u8])>
    ensures { option_map (λ x. (x.0, x.1.now)) result ≡ some_head_at bytes.now }
{
    let (number, rest) = number_at(LARGEST, bytes)?;
    let (offset, rest) = number_after(b" ", LARGEST, rest)?;
    let rest = after(b" ", rest)?;
    let Some((start, rest)) = start_at(rest) else {
        return None;
    };
    let rest = after(b" ", rest)?;
    match ratio_at(rest) {
        Some((rate, rest)) => Some((
            Head {
                number,
                offset,
                start,
                rate,
            },
            rest,
        )),
        None => None,
    }
}

/// How a channel begins, or `none`, and the bytes after it.
#[inline(always)]
#[tactic(auto, unfolding(crate::specs::private::Reading::head_at))]
pub(crate) fn head_at(bytes: &[u8]) -> Option<(Option<Head>, &[u8])>
    ensures { option_map (λ x. (x.0, x.1.now)) result ≡ head_at bytes.now }
{
    if let Some(rest) = after(b"none", bytes) {
        return Some((None, rest));
    }
    match some_head_at(bytes) {
        Some((head, rest)) => Some((Some(head), rest)),
        None => None,
    }
}

/// How a channel ends, and the bytes after it.
#[inline(always)]
#[tactic(auto, unfolding(crate::specs::private::Reading::some_tail_at))]
fn some_tail_at(bytes: &[u8]) -> Option<(Tail, &[u8])>
    ensures { option_map (λ x. (x.0, x.1.now)) result ≡ some_tail_at bytes.now }
{
    let Some((start, rest)) = start_at(bytes) else {
        return None;
    };
    let (samples, rest) = number_after(b" ", 65_535, rest)?;
    let rest = after(b" ", rest)?;
    let Some((rate, rest)) = ratio_at(rest) else {
        return None;
    };
    let rest = after(b" ", rest)?;
    let (leap, rest) = leap_at(rest)?;
    if samples == 0 {
        return None;
    }
    Some((
        Tail {
            start,
            samples: samples as u16,
            rate,
            leap,
        },
        rest,
    ))
}

/// How a channel ends, or `none`, and the bytes after it.
#[inline(always)]
#[tactic(auto, unfolding(crate::specs::private::Reading::tail_at))]
pub(crate) fn tail_at(bytes: &[u8]) -> Option<(Option<Tail>, &[u8])>
    ensures { option_map (λ x. (x.0, x.1.now)) result ≡ tail_at bytes.now }
{
    if let Some(rest) = after(b"none", bytes) {
        return Some((None, rest));
    }
    match some_tail_at(bytes) {
        Some((tail, rest)) => Some((Some(tail), rest)),
        None => None,
    }
}
