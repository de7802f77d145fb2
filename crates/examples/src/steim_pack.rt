//! Calls of `mseed_steim_pack`.
ghost use Rattle.std.specs.Prelude.{◌<◌, length, All};
ghost use Rattle.mseed_steim.specs.Samples.{differences_from};
ghost use Rattle.mseed_steim.specs.Spelling.{IsWithin};

use mseed_steim::Scheme;
use mseed_steim_pack::{
    Lookahead, TooLarge, TooLargeAt, least_words, pack_samples_ahead, pack_word, pack_words,
    pack_words_ahead, write_word,
};

/// How many of the differences the first word of Steim-2 takes.
pub fn taken_by_first(differences: &[i32]) -> Result<usize, TooLarge>
    requires { 0 < length differences.now }
{
    let (_code, _word, count) = pack_word(Scheme::Two, differences)?;
    Ok(count)
}

/// Packs differences into seven frames, and says how many of them these hold.
pub fn pack_seven_frames(differences: &[i32], frames: &mut [u8; 448]) -> Result<usize, TooLargeAt> {
    let packed = pack_words(Scheme::Two, differences, frames)?;
    Ok(packed.used)
}

/// Packs the differences of a series into two records, and says how many of them each holds.
pub fn pack_two_records(
    differences: &[i32],
    first: &mut [u8; 448],
    second: &mut [u8; 448],
) -> Result<(usize, usize), TooLargeAt> {
    let mut known = Lookahead::new();
    let one = pack_words_ahead(Scheme::Two, differences, &mut known, first)?;
    let two = pack_words_ahead(Scheme::Two, &differences[one.used..], &mut known, second)?;
    Ok((one.used, two.used))
}

/// Packs the samples after another one into a record, and says how many of them it holds.
pub fn pack_samples_after(
    before: i32,
    samples: &[i32],
    frames: &mut [u8; 448],
) -> Result<usize, TooLargeAt>
    requires { All (IsWithin 32) (differences_from before samples.now) }
{
    let mut known = Lookahead::new();
    let packed = pack_samples_ahead(Scheme::Two, before, samples, &mut known, frames)?;
    Ok(packed.used)
}

/// Writes the first and the last sample of a record into seven frames, as their two constants.
pub fn put_ends(frames: &mut [u8; 448], first: i32, last: i32) {
    write_word(frames, 1, first.cast_unsigned());
    write_word(frames, 2, last.cast_unsigned());
}

/// The bytes of the fewest words of Steim-2 that hold the differences.
pub fn least_bytes(differences: &[i32]) -> Result<u64, TooLargeAt> {
    Ok(least_words(differences)?.saturating_mul(4))
}
