//! Calls of `mseed_steim`.
ghost use Rattle.std.specs.Prelude.{◌≡◌, ◌<◌, ℤ, List, length};
ghost use Rattle.mseed_record.specs.Viewing.{view_of};
ghost use Rattle.mseed_steim.specs.Reading.{IsSteim, IsWhole, count_of};

use mseed_record::RecordView;
use mseed_steim::{
    BadWord, BadWordAt, Differences, Encoding, ReadFault, Scheme, check_samples, ends_of,
    fill_differences, fill_samples, is_steim, near_ends, read_samples, unpack_differences,
    unpack_word, widen_bytes,
};
use std::alloc::Allocator;

/// The last of a record's samples; nothing where it has none.
pub fn last_sample(record: &RecordView) -> Result<Option<i32>, ReadFault> {
    if record.samples() == 0 {
        return Ok(None);
    }
    Ok(Some(check_samples(record)?.last))
}

/// The sum of a record's samples; nothing where it has none.
pub fn sum_of_samples<A: Allocator + Drop>(
    alloc: A,
    record: &RecordView,
) -> Result<i64, ReadFault> {
    if record.samples() == 0 {
        return Ok(0);
    }
    let samples = read_samples(alloc, record)?;
    let mut sum = 0i64;
    for sample in samples.as_slice() {
        sum = sum.saturating_add(i64::from(*sample));
    }
    Ok(sum)
}

/// Whether samples of this code are read in Steim-2.
pub fn is_of_steim_2(code: u8) -> bool {
    match Encoding::of(code) {
        Some(encoding) => encoding.code() == Encoding::Steim2.code(),
        None => false,
    }
}

/// Fills in the samples of a record that has exactly 100.
pub fn fill_hundred(record: &RecordView, samples: &mut [i32; 100]) -> Result<bool, ReadFault> {
    if record.samples() != 100 {
        return Ok(false);
    }
    fill_samples(record, samples)?;
    Ok(true)
}

/// How far a record of Steim frames goes up and down in all, where it has exactly 100 samples.
pub fn way_of_hundred(record: &RecordView) -> Result<Option<u64>, ReadFault> {
    if record.samples() != 100 || !is_steim(record) {
        return Ok(None);
    }
    let mut steps = [0; 100];
    fill_differences(record, &mut steps)?;
    let mut way = 0u64;
    for step in &steps[1..] {
        way = way.saturating_add(u64::from(step.unsigned_abs()));
    }
    Ok(Some(way))
}

/// The first sample of a record that was checked.
pub fn first_of_checked(view: &RecordView) -> i32
    requires { (s : List ℤ) × IsWhole (view_of view.now) s }
{
    ends_of(view).first
}

/// Fills in the steps of a record of Steim frames that was checked, in as many places as it has samples, and returns
/// the last of these.
pub fn steps_of_checked(view: &RecordView, steps: &mut [i32]) -> i32
    requires whole { (s : List ℤ) × IsWhole (view_of view.now) s }
    requires steim { IsSteim (view_of view.now) }
    requires places { length steps.old ≡ count_of (view_of view.now) }
{
    unpack_differences(view, steps).last
}

/// How far a record that was checked goes up, from its first sample to its last, where Steim-2 surely holds them.
pub fn rise_of_checked(view: &RecordView) -> Option<i64>
    requires { (s : List ℤ) × IsWhole (view_of view.now) s }
{
    match near_ends(view) {
        Some(ends) => Some(i64::from(ends.last) - i64::from(ends.first)),
        None => None,
    }
}

/// The first difference of a payload's words in Steim-1, or where a bad word stands before it.
pub fn first_difference(payload: &[u8]) -> Result<Option<i32>, BadWordAt> {
    match Differences::over(payload, Scheme::One).next() {
        Some(difference) => Ok(Some(difference?)),
        None => Ok(None),
    }
}

/// How many differences of a payload are unpacked before the first is taken: none.
pub fn ready_at_first(payload: &[u8]) -> usize {
    Differences::over(payload, Scheme::Two).ready().len()
}

/// How many differences a word of Steim-2 holds, by its code.
pub fn count_in_word(code: u8, word: u32) -> Result<usize, BadWord>
    requires { code < 4 }
{
    Ok(unpack_word(Scheme::Two, code, word)?.len())
}

/// Four bytes as signed numbers.
pub fn widen_four(bytes: &[u8; 4]) -> [i32; 4] {
    let mut numbers = [0; 4];
    widen_bytes(bytes, &mut numbers);
    numbers
}
