//! Why a record has a finding, and why a stream ends with a fault.
ghost use Rattle.std.specs.Prelude.{◌≡◌, ◌-◌, ◌^◌};
ghost use Rattle.std.specs.Option.{option_map};
ghost use Rattle.mseed_join.specs.private.Reading.{time_at, bad_word_at, last_differs_at, read_fault_at};
ghost use Rattle.mseed_join.specs.private.Reading.{timed_at};
ghost use Rattle.mseed_join.specs.private.Reading.{why_at, frame_fault_at, stream_fault_at, sample_at};
ghost use Rattle.mseed_join.specs.private.Reading.{number_after};

use crate::numbers::{LARGEST, after, integer_at, number_after, wide_at};
use mseed_audit::Why;
use mseed_record::FrameFault;
use mseed_steim::ReadFault;
use mseed_stream::StreamFault;
use mseed_time::TimeFault;

/// A field of a time, and the bytes after it.
#[tactic(auto, unfolding(crate::specs::private::Reading::time_at))]
fn time_at(bytes: &[u8]) -> Option<(TimeFault, &[u8])>
    ensures { option_map (λ x. (x.0, x.1.now)) result ≡ time_at bytes.now }
{
    if let Some(rest) = after(b"year", bytes) {
        return Some((TimeFault::Year, rest));
    }
    if let Some(rest) = after(b"day", bytes) {
        return Some((TimeFault::Day, rest));
    }
    if let Some(rest) = after(b"hour", bytes) {
        return Some((TimeFault::Hour, rest));
    }
    if let Some(rest) = after(b"minute", bytes) {
        return Some((TimeFault::Minute, rest));
    }
    if let Some(rest) = after(b"second", bytes) {
        return Some((TimeFault::Second, rest));
    }
    let rest = after(b"fraction", bytes)?;
    Some((TimeFault::Fraction, rest))
}

/// A sample, and the bytes after it.
fn sample_at(bytes: &[u8]) -> Option<(i32, &[u8])>
    ensures { option_map (λ x. (x.0, x.1.now)) result ≡ sample_at bytes.now }
{
    let (sample, rest) = integer_at(1 << 31, (1 << 31) - 1, bytes)?;
    Some((sample as i32, rest))
}

/// A word that spells nothing, and the bytes after it.
fn bad_word_at(bytes: &[u8]) -> Option<(ReadFault, &[u8])>
    ensures { option_map (λ x. (x.0, x.1.now)) result ≡ bad_word_at bytes.now }
{
    let (frame, rest) = number_after(b"badword ", LARGEST, bytes)?;
    let (word, rest) = number_after(b" ", LARGEST, rest)?;
    Some((ReadFault::BadWord(frame as usize, word as usize), rest))
}

/// A last sample that isn't its constant, and the bytes after it.
fn last_differs_at(bytes: &[u8]) -> Option<(ReadFault, &[u8])>
    ensures { option_map (λ x. (x.0, x.1.now)) result ≡ last_differs_at bytes.now }
{
    let rest = after(b"lastdiffers ", bytes)?;
    let (found, rest) = sample_at(rest)?;
    let rest = after(b" ", rest)?;
    let (constant, rest) = sample_at(rest)?;
    Some((ReadFault::LastDiffers(found, constant), rest))
}

/// Why samples can't be read, and the bytes after it.
#[tactic(auto, unfolding(crate::specs::private::Reading::read_fault_at))]
fn read_fault_at(bytes: &[u8]) -> Option<(ReadFault, &[u8])>
    ensures { option_map (λ x. (x.0, x.1.now)) result ≡ read_fault_at bytes.now }
{
    if let Some(rest) = after(b"blockette100", bytes) {
        return Some((ReadFault::Blockette100, rest));
    }
    if let Some(rest) = after(b"littlesteim", bytes) {
        return Some((ReadFault::LittleSteim, rest));
    }
    if let Some(rest) = after(b"dataoffset", bytes) {
        return Some((ReadFault::DataOffset, rest));
    }
    if let Some((code, rest)) = number_after(b"encoding ", 255, bytes) {
        return Some((ReadFault::Encoding(code as u8), rest));
    }
    if let Some((found, rest)) = number_after(b"short ", LARGEST, bytes) {
        return Some((ReadFault::Short(found as usize), rest));
    }
    if let Some((index, rest)) = number_after(b"overflow ", LARGEST, bytes) {
        return Some((ReadFault::Overflow(index as usize), rest));
    }
    match bad_word_at(bytes) {
        Some(fault) => Some(fault),
        None => last_differs_at(bytes),
    }
}

/// A start that is no time, and the bytes after it.
fn timed_at(bytes: &[u8]) -> Option<(Why, &[u8])>
    ensures { option_map (λ x. (x.0, x.1.now)) result ≡ timed_at bytes.now }
{
    let rest = after(b"time ", bytes)?;
    let (fault, rest) = time_at(rest)?;
    Some((Why::Time(fault), rest))
}

/// The number of microseconds after a word, and the bytes after it.
fn micros_at<'a, const N: usize>(word: &[u8; N], bytes: &'a [u8]) -> Option<(u128, &'a [u8])>
    ensures { option_map (λ x. (x.0, x.1.now)) result ≡ number_after word.now (2 ^ 128 - 1) bytes.now }
{
    let rest = after(word, bytes)?;
    wide_at(rest)
}

/// What is found of a record, and the bytes after it.
#[tactic(auto, unfolding(crate::specs::private::Reading::why_at))]
pub(crate) fn why_at(bytes: &[u8]) -> Option<(Why, &[u8])>
    ensures { option_map (λ x. (x.0, x.1.now)) result ≡ why_at bytes.now }
{
    if let Some((micros, rest)) = micros_at(b"gap ", bytes) {
        return Some((Why::Gap(micros), rest));
    }
    if let Some((micros, rest)) = micros_at(b"overlap ", bytes) {
        return Some((Why::Overlap(micros), rest));
    }
    if let Some(rest) = after(b"ratechange", bytes) {
        return Some((Why::RateChange, rest));
    }
    if let Some(rest) = after(b"leap", bytes) {
        return Some((Why::Leap, rest));
    }
    if let Some((why, rest)) = timed_at(bytes) {
        return Some((why, rest));
    }
    if let Some(rest) = after(b"norate", bytes) {
        return Some((Why::Rate, rest));
    }
    let (fault, rest) = read_fault_at(bytes)?;
    Some((Why::Read(fault), rest))
}

/// Why bytes begin no record, and the bytes after it.
#[tactic(auto, unfolding(crate::specs::private::Reading::frame_fault_at))]
fn frame_fault_at(bytes: &[u8]) -> Option<(FrameFault, &[u8])>
    ensures { option_map (λ x. (x.0, x.1.now)) result ≡ frame_fault_at bytes.now }
{
    if let Some(rest) = after(b"notdata", bytes) {
        return Some((FrameFault::NotData, rest));
    }
    if let Some(rest) = after(b"order", bytes) {
        return Some((FrameFault::Order, rest));
    }
    if let Some(rest) = after(b"chain", bytes) {
        return Some((FrameFault::Chain, rest));
    }
    if let Some(rest) = after(b"no1000", bytes) {
        return Some((FrameFault::No1000, rest));
    }
    if let Some((exponent, rest)) = number_after(b"length ", 255, bytes) {
        return Some((FrameFault::Length(exponent as u8), rest));
    }
    if let Some(rest) = after(b"outside", bytes) {
        return Some((FrameFault::Outside, rest));
    }
    let rest = after(b"version3", bytes)?;
    Some((FrameFault::Version3, rest))
}

/// What fails after `offset` bytes of a stream, and the bytes after it.
#[tactic(auto, unfolding(crate::specs::private::Reading::stream_fault_at))]
pub(crate) fn stream_fault_at(offset: u64, bytes: &[u8]) -> Option<(StreamFault, &[u8])>
    ensures { option_map (λ x. (x.0, x.1.now)) result ≡ stream_fault_at offset bytes.now }
{
    if let Some((have, rest)) = number_after(b"truncated ", LARGEST, bytes) {
        return Some((StreamFault::Truncated(offset, have as usize), rest));
    }
    if let Some(rest) = after(b"read", bytes) {
        return Some((StreamFault::Read(offset), rest));
    }
    if let Some(rest) = after(b"turns", bytes) {
        return Some((StreamFault::Turns(offset), rest));
    }
    let (fault, rest) = frame_fault_at(bytes)?;
    Some((StreamFault::Frame(offset, fault), rest))
}
