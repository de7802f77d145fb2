//! Differences packed into words that are as full as words can be.

ghost use Rattle.std.specs.Prelude.{◌≡◌, ◌≢◌, ◌⊎◌, ◌↔◌, ℕ, ◌+◌, ◌-◌, ◌*◌, ◌/◌, ◌%◌, ◌^◌, ◌<◌, ◌≤◌, ◌==◌};
ghost use Rattle.std.specs.Prelude.{Err, IfErr, IfOk, if◌then◌else◌, nat_lt};
ghost use Rattle.std.specs.Prelude.{MatchResult, List, ℤ, ◌++◌, length, take, drop, All};
ghost use Rattle.mseed_steim.specs.declared.scheme.Scheme.TheVariants.{Two};
ghost use Rattle.mseed_steim.specs.Frames.{data_words, word_at, word_count};
ghost use Rattle.mseed_steim.specs.Samples.{differences_from};
ghost use Rattle.mseed_steim.specs.Spelling.{IsWithin};
ghost use Rattle.mseed_steim_pack.specs.Lookahead.{IsAhead, IsCut, IsLookahead};
ghost use Rattle.mseed_steim_pack.specs.Packed.{IsRunPacked};
ghost use Rattle.mseed_steim_pack.specs.Packing.{IsFewest, IsFirstTooLarge, IsFullest, IsTooLargeAt, LeavesRoom};
ghost use Rattle.mseed_steim_pack.specs.private.Four.{AreFour, AreThree};
ghost use Rattle.mseed_steim_pack.specs.private.Wrapped.{wrapped_from};
ghost use Rattle.mseed_steim_pack.specs.private.Pushing.{FillsOn, Filling, HasFrame, IsReached, MovesOn, Pushing};

use crate::ahead::{AHEAD, EARLY, KNOWN, Lookahead};
use crate::four::{FOUR, FourWords, THREE, ThreeWords, four_ahead, three_ahead};
use crate::layout::word_ahead;
use crate::pending::{Listed, Pending, Sampled, put_wrapped};
use crate::row::{MOST, fullest_row, is_wide, word_of};
use byteorder::{BigEndian, ByteOrder};
use mseed_steim::Scheme;

/// Bytes of a word.
const WORD: usize = 4;

/// Words of a frame.
const FRAME: usize = 16;

/// A difference that no word of Steim-2 holds: it doesn't fit 30 bits.
#[derive(Clone, Copy, Debug, PartialEq, Eq)]
pub struct TooLarge;

/// Where the first such difference stands.
#[derive(Clone, Copy, Debug, PartialEq, Eq)]
pub struct TooLargeAt {
    /// The index of the difference, from 0.
    pub index: usize,
}

/// How many differences were packed, and into how many data words.
#[derive(Clone, Copy, Debug, PartialEq, Eq)]
pub struct Packed {
    /// The number of differences that were packed, from the first on.
    pub used: usize,
    /// The number of data words that hold them.
    pub words: usize,
}

/// The word that takes the largest number of the differences, of which there is at least one, from the first on: its
/// code, its bits and how many it takes.
///
/// # Errors
///
/// `TooLarge` exactly where no word holds the first.
#[inline(always)]
pub fn pack_word(scheme: Scheme, diffs: &[i32]) -> Result<(u8, u32, usize), TooLarge>
    requires { 0 < length diffs.now }
    // No word spells a longer prefix than this one does.
    ensures fullest { IfOk result (λ word. IsFullest scheme diffs.now word.0 word.1 word.2) }
    // It's refused exactly where the first difference is too large for Steim-2.
    ensures refused { MatchResult result (λ _. ¬ (IsTooLargeAt scheme diffs.now 0))
        (λ _. IsTooLargeAt scheme diffs.now 0) }
{
    match fullest_row(scheme, diffs) {
        Some(row) => Ok((row.code, word_of(row, diffs), row.count)),
        None => Err(TooLarge),
    }
}

/// The fullest word of the first `count` differences of samples, seven at the most.
#[inline(always)]
fn pack_first(
    scheme: Scheme,
    before: i32,
    samples: &[i32],
    count: usize,
) -> Result<(u8, u32, usize), TooLarge>
    requires some { 0 < count }
    requires few { count ≤ MOST }
    requires inside { count ≤ length samples.now }
    ensures fullest { IfOk result
        (λ word. IsFullest scheme (take count (wrapped_from before samples.now)) word.0 word.1 word.2) }
    ensures refused { MatchResult result (λ _. ¬ (IsTooLargeAt scheme (wrapped_from before samples.now) 0))
        (λ _. IsTooLargeAt scheme (wrapped_from before samples.now) 0) }
{
    let mut diffs = [0; MOST];
    put_wrapped(before, &samples[..count], &mut diffs);
    pack_word(scheme, &diffs[..count])
}

/// The fullest word of the differences of samples: no more of these are written down than a word may take.
#[inline(always)]
pub(crate) fn pack_sampled(
    scheme: Scheme,
    before: i32,
    samples: &[i32],
) -> Result<(u8, u32, usize), TooLarge>
    requires { 0 < length samples.now }
    ensures fullest { IfOk result
        (λ word. IsFullest scheme (wrapped_from before samples.now) word.0 word.1 word.2) }
    ensures refused { MatchResult result (λ _. ¬ (IsTooLargeAt scheme (wrapped_from before samples.now) 0))
        (λ _. IsTooLargeAt scheme (wrapped_from before samples.now) 0) }
{
    if is_wide(scheme, samples[0].wrapping_sub(before)) {
        pack_first(scheme, before, samples, 1)
    } else if samples.len() < MOST {
        pack_first(scheme, before, samples, samples.len())
    } else {
        pack_first(scheme, before, samples, MOST)
    }
}

/// The fullest word of pending differences, by the most of them that are held, where two or more are known to be.
#[inline(always)]
fn next_word<P: Pending>(
    scheme: Scheme,
    most: usize,
    pending: &P,
    from: usize,
    cut: &[i16],
) -> Result<(u32, u32, usize), TooLarge>
    requires some { from < length (P.differences pending.now) }
    requires ahead { IsAhead scheme (drop from (P.differences pending.now)) most }
    requires cut { IsCut scheme most (drop from (P.differences pending.now)) cut.now }
    ensures fullest { IfOk result
        (λ word. IsFullest scheme (drop from (P.differences pending.now)) word.0 word.1 word.2) }
    ensures refused { MatchResult result (λ _. ¬ (IsTooLargeAt scheme (drop from (P.differences pending.now)) 0))
        (λ _. IsTooLargeAt scheme (drop from (P.differences pending.now)) 0) }
{
    if 2 <= most {
        return Ok(word_ahead(scheme, most, pending, from, cut));
    }
    match pending.word(from, scheme) {
        Ok((code, word, count)) => Ok((u32::from(code), word, count)),
        Err(fault) => Err(fault),
    }
}

/// Writes the bits of a word of the frames, by its index from their beginning on, which includes the words of codes.
pub fn write_word(frames: &mut [u8], index: usize, word: u32)
    requires { 4 * (index + 1) ≤ length frames.old }
    ensures { (k : ℕ) → word_at frames.new k ≡ (if k == index then word else word_at frames.old k) }
{
    BigEndian::write_u32(&mut frames[WORD * index..], word);
}

/// A frame's codes so far, and one more after them.
#[inline(always)]
fn with_code(codes: u32, code: u32) -> u32
    ensures { result ≡ (codes * 4 % 2 ^ 32 + code) % 2 ^ 32 }
{
    codes.wrapping_mul(4).wrapping_add(code)
}

/// The codes of the data words of a frame up to one where they stand: none of the others.
#[inline(always)]
fn codes_to(codes: u32, index: usize) -> u32
    requires { 0 < index }
    ensures { result ≡ codes * 2 ^ (30 - 2 * ((index - 1) % 16)) % 2 ^ 32 }
{
    codes << (30 - 2 * ((index - 1) % FRAME) as u32)
}

/// Puts 0 into all words from one on.
fn clear_from(frames: &mut [u8], index: usize)
    requires { 4 * index ≤ length frames.old }
    ensures { (k : ℕ) → word_at frames.new k ≡ (if nat_lt k index then word_at frames.old k else 0) }
{
    frames[WORD * index..].fill(0);
}

/// Writes a data word, and puts its code after those of the frame: all of these.
#[inline(always)]
fn push_word(frames: &mut [u8], index: usize, codes: u32, code: u32, word: u32) -> u32
    requires room { 4 * (index + 1) ≤ length frames.old }
    ensures { (scheme : Scheme) (ds : List ℤ) (head used count : ℕ) → index % 16 ≢ 0
        → Pushing scheme ds frames.old head codes index used → IsFullest scheme (drop used ds) code word count
        → Pushing scheme ds frames.new head result (index + 1) (used + count) }
{
    write_word(frames, index, word);
    with_code(codes, code)
}

/// Writes three data words, and puts their codes after those of the frame: all of these.
#[inline(always)]
fn push_three(frames: &mut [u8], index: usize, codes: u32, three: &ThreeWords) -> u32
    requires room { 4 * (index + 3) ≤ length frames.old }
    ensures { (scheme : Scheme) (ds : List ℤ) (head used : ℕ) → 0 < index % 16 → index % 16 ≤ 13
        → Pushing scheme ds frames.old head codes index used → AreThree scheme (drop used ds) three.now
        → Pushing scheme ds frames.new head result (index + 3) (used + three.now.count) }
{
    let codes = push_word(frames, index, codes, three.first.0, three.first.1);
    let codes = push_word(frames, index + 1, codes, three.second.0, three.second.1);
    push_word(frames, index + 2, codes, three.third.0, three.third.1)
}

/// Writes four data words, and puts their codes after those of the frame: all of these.
#[inline(always)]
fn push_four(frames: &mut [u8], index: usize, codes: u32, four: &FourWords) -> u32
    requires room { 4 * (index + 4) ≤ length frames.old }
    ensures { (scheme : Scheme) (ds : List ℤ) (head used : ℕ) → 0 < index % 16 → index % 16 ≤ 12
        → Pushing scheme ds frames.old head codes index used → AreFour scheme (drop used ds) four.now
        → Pushing scheme ds frames.new head result (index + 4) (used + four.now.count) }
{
    let codes = push_three(frames, index, codes, &four.three);
    push_word(frames, index + 3, codes, four.fourth.0, four.fourth.1)
}

/// How far frames are filled.
#[derive(Clone, Copy)]
struct Reached {
    /// How many differences they hold.
    used: usize,
    /// The place of the next one in what is known.
    place: usize,
    /// The index of the next word.
    index: usize,
    /// The codes of the words before it in its frame, side by side.
    codes: u32,
}

/// Fills a frame further by four words at once, as long as four are known ahead and have room before its end, and then
/// by three, where these are and have it.
#[inline(always)]
fn push_known(
    scheme: Scheme,
    known: &Lookahead,
    frames: &mut [u8],
    end: usize,
    reached: Reached,
) -> Reached
    requires frame { HasFrame frames.old end reached }
    requires few { reached.used < 2 ^ 63 }
    requires reached { (ds : List ℤ) × ((head : ℕ) × IsReached scheme ds known.now frames.old head reached) }
    ensures moves { MovesOn end reached result }
    ensures fills { (ds : List ℤ) → FillsOn scheme ds known.now frames.old reached frames.new result }
{
    let mut index = reached.index;
    let mut codes = reached.codes;
    let mut place = reached.place;
    while index + FOUR <= end {
        let Some(four) = four_ahead(scheme, known, place) else {
            break;
        };
        codes = push_four(frames, index, codes, &four);
        place += four.count;
        index += FOUR;
    }
    let fours = Reached {
        used: reached.used + (place - reached.place),
        place,
        index,
        codes,
    };
    if index + THREE > end {
        return fours;
    }
    let Some(three) = three_ahead(scheme, known, place) else {
        return fours;
    };
    Reached {
        used: fours.used + three.count,
        place: place + three.count,
        index: index + THREE,
        codes: push_three(frames, index, codes, &three),
    }
}

/// Fills a frame further by one word, of the next differences.
#[inline(always)]
fn push_next<P: Pending>(
    scheme: Scheme,
    pending: &P,
    known: &Lookahead,
    frames: &mut [u8],
    reached: Reached,
) -> Result<Reached, TooLargeAt>
    requires room { reached.index < word_count frames.old }
    requires data { reached.index % 16 ≢ 0 }
    requires some { reached.used < length (P.differences pending.now) }
    requires few { reached.used < 2 ^ 63 }
    requires early { reached.place < KNOWN }
    requires reached { (head : ℕ) × IsReached scheme (P.differences pending.now) known.now frames.old head reached }
    ensures moves { IfOk result (λ next. next.index ≡ reached.index + 1) }
    ensures fills { IfOk result (FillsOn scheme (P.differences pending.now) known.now frames.old reached frames.new) }
    ensures refused { IfErr result (λ fault. IsFirstTooLarge scheme (P.differences pending.now) fault.index
        × LeavesRoom scheme (take fault.index (P.differences pending.now)) (length (data_words frames.new))) }
{
    let held = usize::from(known.most[reached.place]);
    let cut = &known.cut[reached.place..];
    let Ok((code, word, count)) = next_word(scheme, held, pending, reached.used, cut) else {
        return Err(TooLargeAt {
            index: reached.used,
        });
    };
    Ok(Reached {
        used: reached.used + count,
        place: reached.place + count,
        index: reached.index + 1,
        codes: push_word(frames, reached.index, reached.codes, code, word),
    })
}

/// Fills a frame further word by word, until it is full, no difference is left, or it is due to look ahead: from such a
/// place on in what is known.
#[inline(always)]
fn push_each<P: Pending>(
    scheme: Scheme,
    pending: &P,
    known: &Lookahead,
    due: usize,
    frames: &mut [u8],
    end: usize,
    reached: Reached,
) -> Result<Reached, TooLargeAt>
    requires due { due ≤ KNOWN }
    requires frame { HasFrame frames.old end reached }
    requires reached { (head : ℕ) × IsReached scheme (P.differences pending.now) known.now frames.old head reached }
    ensures moves { IfOk result (MovesOn end reached) }
    ensures ended { IfOk result (λ next. (next.index ≡ end)
        ⊎ ((next.used ≡ length (P.differences pending.now)) ⊎ (due ≤ next.place))) }
    ensures fills { IfOk result (FillsOn scheme (P.differences pending.now) known.now frames.old reached frames.new) }
    ensures refused { IfErr result (λ fault. IsFirstTooLarge scheme (P.differences pending.now) fault.index
        × LeavesRoom scheme (take fault.index (P.differences pending.now)) (length (data_words frames.new))) }
{
    let count = pending.count();
    let mut reached = reached;
    while reached.index < end {
        if due <= reached.place {
            break;
        }
        if reached.used == count && known.most[reached.place] < 2 {
            break;
        }
        match push_next(scheme, pending, known, frames, reached) {
            Ok(next) => reached = next,
            Err(fault) => return Err(fault),
        }
    }
    Ok(reached)
}

/// Writes the codes of the last frame, clears all words after the last one, and says how much was packed.
#[inline(always)]
fn finish(frames: &mut [u8], head: usize, reached: Reached) -> Packed
    requires head { 4 * (head + 1) ≤ length frames.old }
    requires from { 3 ≤ reached.index }
    requires inside { 4 * reached.index ≤ length frames.old }
    ensures used { result.used ≡ reached.used }
    ensures words { result.words ≡ reached.index - 3 - (reached.index - 1) / 16 }
    ensures filled { (scheme : Scheme) (ds : List ℤ) → Pushing scheme ds frames.old head reached.codes reached.index
        reached.used → Filling scheme ds frames.new reached.index reached.used result.words }
{
    write_word(frames, head, codes_to(reached.codes, reached.index));
    clear_from(frames, reached.index);
    Packed {
        used: reached.used,
        words: reached.index - 3 - (reached.index - 1) / FRAME,
    }
}

/// The place from which on it is due to look ahead: in Steim-2, where many differences are left, while some are still
/// known, so that words go on by fours.
#[inline(always)]
fn due_in(scheme: Scheme, left: usize) -> usize
    ensures some { 0 < result }
    ensures few { result ≤ KNOWN }
{
    match scheme {
        Scheme::Two if 2 * AHEAD <= left => EARLY,
        Scheme::One | Scheme::Two => KNOWN,
    }
}

/// Looks ahead at the differences that come next, where it is due.
#[inline(always)]
fn look_on<P: Pending>(
    scheme: Scheme,
    pending: &P,
    known: &mut Lookahead,
    due: usize,
    reached: Reached,
) -> Reached
    requires due { 0 < due }
    requires reached { (p : List ℕ)
        × ((head : ℕ) × IsReached scheme (P.differences pending.now) known.old p head reached) }
    ensures early { result.place < due }
    ensures index { result.index ≡ reached.index }
    ensures reached { (p : List ℕ) (head : ℕ)
        → IsReached scheme (P.differences pending.now) known.old p head reached
        → IsReached scheme (P.differences pending.now) known.new p head result }
{
    if reached.place < due {
        return reached;
    }
    pending.look(reached.used, scheme, &mut known.most, &mut known.cut);
    Reached {
        place: 0,
        ..reached
    }
}

/// As [`pack_words_ahead`], for one scheme.
#[inline(always)]
fn pack_run<P: Pending>(
    scheme: Scheme,
    pending: &P,
    known: &mut Lookahead,
    frames: &mut [u8],
) -> Result<Packed, TooLargeAt>
    requires some { 0 < length frames.old }
    requires whole { length frames.old % 64 ≡ 0 }
    requires known { (more : List ℤ) × IsLookahead scheme known.old (P.differences pending.now ++ more) }
    ensures packed { IsRunPacked scheme (P.differences pending.now) frames.new result }
    ensures known { IfOk result (λ p. IsLookahead scheme known.new (drop p.used (P.differences pending.now))) }
{
    write_word(frames, 1, 0);
    write_word(frames, 2, 0);
    let count = pending.count();
    let mut head = 0;
    let mut reached = Reached {
        used: 0,
        place: known.begin(count),
        index: 3,
        codes: 0,
    };
    loop {
        let end = head + FRAME;
        let due = due_in(scheme, count - reached.used);
        reached = look_on(scheme, pending, known, due, reached);
        reached = push_known(scheme, known, frames, end, reached);
        match push_each(scheme, pending, known, due, frames, end, reached) {
            Ok(next) => reached = next,
            Err(fault) => return Err(fault),
        }
        if reached.index == end {
            if end == frames.len() / WORD {
                break;
            }
            write_word(frames, head, reached.codes);
            head = end;
            reached.codes = 0;
            reached.index += 1;
        } else if reached.used == count {
            break;
        }
    }
    known.place = reached.place;
    Ok(finish(frames, head, reached))
}

/// As [`pack_words_ahead`], of the differences that are to be packed.
#[inline(always)]
fn pack_ahead<P: Pending>(
    scheme: Scheme,
    pending: &P,
    known: &mut Lookahead,
    frames: &mut [u8],
) -> Result<Packed, TooLargeAt>
    requires some { 0 < length frames.old }
    requires whole { length frames.old % 64 ≡ 0 }
    requires known { (more : List ℤ) × IsLookahead scheme known.old (P.differences pending.now ++ more) }
    ensures packed { IsRunPacked scheme (P.differences pending.now) frames.new result }
    ensures known { IfOk result (λ p. IsLookahead scheme known.new (drop p.used (P.differences pending.now))) }
{
    // A body for each scheme, with its own table and lanes.
    match scheme {
        Scheme::One => pack_run(Scheme::One, pending, known, frames),
        Scheme::Two => pack_run(Scheme::Two, pending, known, frames),
    }
}

/// Packs differences into frames, from the first on: each data word in turn takes the largest number of those that are
/// left, until no difference or no word is left. X0 and Xn, and all words after the last, are 0. The frames are whole
/// ones, of 64 bytes each, and at least one.
///
/// # Errors
///
/// `TooLargeAt` exactly where a difference is too large for Steim-2 and a word is left for it once those
/// before it are packed, with the index of the first; what the frames hold is then open.
pub fn pack_words(scheme: Scheme, diffs: &[i32], frames: &mut [u8]) -> Result<Packed, TooLargeAt>
    requires some { 0 < length frames.old }
    requires whole { length frames.old % 64 ≡ 0 }
    ensures packed { IsRunPacked scheme diffs.now frames.new result }
{
    pack_words_ahead(scheme, diffs, &mut Lookahead::new(), frames)
}

/// Packs the differences of a series into the frames of one record after another, as [`pack_words`] does. What is found
/// ahead of the differences is kept for the next call, which is of the same scheme and is given those that this one
/// didn't use, or the first of them, and any number of further ones.
///
/// # Errors
///
/// `TooLargeAt` as `pack_words` does; what is known then is open.
pub fn pack_words_ahead(
    scheme: Scheme,
    diffs: &[i32],
    known: &mut Lookahead,
    frames: &mut [u8],
) -> Result<Packed, TooLargeAt>
    requires some { 0 < length frames.old }
    requires whole { length frames.old % 64 ≡ 0 }
    requires known { (more : List ℤ) × IsLookahead scheme known.old (diffs.now ++ more) }
    // What is packed, and what is refused, is what it is by `pack_words`.
    ensures packed { IsRunPacked scheme diffs.now frames.new result }
    // What is known is known of the differences that weren't used.
    ensures known { IfOk result (λ p. IsLookahead scheme known.new (drop p.used diffs.now)) }
{
    pack_ahead(scheme, &Listed { differences: diffs }, known, frames)
}

/// Packs the differences of samples, each from the one before it and that of the first from `before`, as
/// [`pack_words_ahead`] packs a list of them: each fits 32 bits. The next call is of the same scheme and is given the
/// samples whose differences this one didn't use, or the first of them, and any number of further ones.
///
/// # Errors
///
/// `TooLargeAt` as `pack_words` does; what is known then is open.
pub fn pack_samples_ahead(
    scheme: Scheme,
    before: i32,
    samples: &[i32],
    known: &mut Lookahead,
    frames: &mut [u8],
) -> Result<Packed, TooLargeAt>
    requires some { 0 < length frames.old }
    requires whole { length frames.old % 64 ≡ 0 }
    requires fits { All (IsWithin 32) (differences_from before samples.now) }
    requires known { (more : List ℤ) × IsLookahead scheme known.old (differences_from before samples.now ++ more) }
    // What is packed, and what is refused, is what it is by `pack_words` of the differences.
    ensures packed { IsRunPacked scheme (differences_from before samples.now) frames.new result }
    // What is known is known of the differences that weren't used.
    ensures known { IfOk result
        (λ p. IsLookahead scheme known.new (drop p.used (differences_from before samples.now))) }
{
    pack_ahead(scheme, &Sampled { before, samples }, known, frames)
}

/// The fewest words of Steim-2 that hold the differences, 0 where there are none.
///
/// # Errors
///
/// `TooLargeAt` exactly where one of them is too large, with the index of the first.
pub fn least_words(diffs: &[i32]) -> Result<u64, TooLargeAt>
    ensures fewest { IfOk result (λ words. IsFewest diffs.now words) }
    ensures refused { (i : ℕ) → (result ≡ Err (record { index = i })) ↔ IsFirstTooLarge Two diffs.now i }
{
    let mut used = 0;
    let mut words = 0;
    while used < diffs.len() {
        match fullest_row(Scheme::Two, &diffs[used..]) {
            Some(row) => {
                used += row.count;
                words += 1;
            }
            None => return Err(TooLargeAt { index: used }),
        }
    }
    Ok(words)
}
