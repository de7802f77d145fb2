//! The data words of a payload's frames.

ghost use Rattle.std.specs.Prelude.{◌≡◌, ◌≢◌, ◌≤◌, ◌<◌, ◌+◌, ◌-◌, ◌*◌, ◌/◌, ◌%◌, ◌^◌, ℕ, List, [], ◌∷◌, ◌++◌, map};
ghost use Rattle.std.specs.Prelude.{length, Ok};
ghost use Rattle.std.specs.Iterator.{YieldsFirstBy, item_count};
ghost use Rattle.mseed_steim.specs.Frames.{AreOctets, DataWord, word_at, words_from, data_words};
ghost use Rattle.byteorder.specs.Endian.{twos_complement};
ghost use Rattle.mseed_steim.specs.declared.scheme.Scheme.{Scheme};
ghost use Rattle.mseed_steim.specs.ByteRuns.{begins_empty, byte_run};
ghost use Rattle.mseed_steim.specs.private.Items.{items_of};
ghost use Rattle.mseed_steim.specs.private.Reads.{as_data};
ghost use Rattle.mseed_steim.specs.Runs.{SpellsRun};

use byteorder::{BigEndian, ByteOrder};
use std::marker::Model;

/// Bytes of a word.
pub(crate) const WORD: usize = 4;

/// Words of a frame.
pub(crate) const FRAME: usize = 16;

/// Returns the bits of the word at an index, which counts from 0 at the payload's beginning.
pub(crate) fn read_word(payload: &[u8], index: usize) -> u32
    requires { 4 * (index + 1) ≤ length payload.now }
    ensures { result ≡ word_at payload.now index }
{
    BigEndian::read_u32(&payload[WORD * index..])
}

/// A data word: its frame, from 0, its place in it, from 1 to 15, its code and its bits.
#[derive(Clone, Copy)]
pub(crate) struct Word {
    pub(crate) frame: usize,
    pub(crate) place: usize,
    pub(crate) code: u8,
    pub(crate) bits: u32,
}

/// The data words of a payload's whole frames, in their order.
#[derive(Drop)]
pub(crate) struct Words<'a> {
    payload: &'a [u8],
    /// The word that is next, and the end of the words.
    next: usize,
    end: usize,
    /// The codes of the frame in which the next word stands, once they have been read.
    codes: u32,
}

impl<'a> Model for Words<'a> {
    ghost Value = { List DataWord };

    ghost view = { λ w. words_from w.payload.now w.next (w.end - w.next) };

    ghost invariant = { λ w. (w.next ≤ w.end) × (w.end % 16 ≡ 0) × (4 * w.end ≤ length w.payload.now)
        × (w.next % 16 ≢ 0 → w.codes ≡ word_at w.payload.now (16 * (w.next / 16))) × AreOctets w.payload.now };
}

/// Returns the code, 0 to 3, of the word at an index of the payload, by the codes of its frame.
pub(crate) fn code_in(codes: u32, index: usize) -> u8
    ensures value { result ≡ codes / 2 ^ (30 - 2 * (index % 16)) % 4 }
    ensures small { result < 4 }
{
    (codes >> (30 - 2 * (index % FRAME)) & 3) as u8
}

/// Returns the first data word of a payload, which stands behind the constants of its first frame.
#[inline]
#[tactic(auto, using(crate::proofs::Walking::words_step))]
pub(crate) fn first_word(payload: &[u8]) -> Word
    requires { 64 ≤ length payload.now }
    ensures { words_from payload.now 3 13 ≡ as_data result ∷ words_from payload.now 4 12 }
{
    Word {
        frame: 0,
        place: 3,
        code: code_in(read_word(payload, 0), 3),
        bits: read_word(payload, 3),
    }
}

/// Returns the index of the first data word at or after `from`, before `end`, and the codes of its frame; `end`, where
/// there is none. `codes` are the frame's, unless the word at `from` is its first.
#[tactic(auto, using(crate::proofs::ByteRun::past_head))]
fn first_data_word(payload: &[u8], from: usize, end: usize, codes: u32) -> (usize, u32)
    requires order { from ≤ end }
    requires whole { end % 16 ≡ 0 }
    requires inside { 4 * end ≤ length payload.now }
    requires codes { from % 16 ≢ 0 → codes ≡ word_at payload.now (16 * (from / 16)) }
    ensures same { words_from payload.now from (end - from) ≡ words_from payload.now result.0 (end - result.0) }
    ensures order { result.0 ≤ end }
    ensures at { result.0 < end → (result.0 % 16 ≢ 0) × (result.1 ≡ word_at payload.now (16 * (result.0 / 16))) }
{
    if from < end && from % FRAME == 0 {
        return (from + 1, read_word(payload, from));
    }
    (from, codes)
}

/// Returns the index of the first word at or after `from`, before `end`, whose code isn't 01, by the codes of their
/// frame; `end`, where there is none.
fn run_end(codes: u32, from: usize, end: usize) -> usize
    requires { from ≤ end }
    ensures low { from ≤ result }
    ensures high { result ≤ end }
    ensures run { (k : ℕ) → from ≤ k → k < result → codes / 2 ^ (30 - 2 * (k % 16)) % 4 ≡ 1 }
    ensures stop { result < end → codes / 2 ^ (30 - 2 * (result % 16)) % 4 ≢ 1 }
{
    for index in from..end {
        if code_in(codes, index) != 1 {
            return index;
        }
    }
    end
}

impl<'a> Words<'a> {
    /// Returns the data words of all whole frames: all words but the first of each frame and the two constants of the
    /// first one.
    pub(crate) fn of(payload: &'a [u8]) -> Self
        ensures { result ≡ data_words payload.now }
    {
        let end = payload.len() / (FRAME * WORD) * FRAME;
        let from = if end == 0 { 0 } else { 3 };
        Words::between(payload, from, end)
    }

    /// Returns the data words from the word at `from` on, up to `end`, where a frame ends.
    pub(crate) fn between(payload: &'a [u8], from: usize, end: usize) -> Self
        requires order { from ≤ end }
        requires whole { end % 16 ≡ 0 }
        requires inside { 4 * end ≤ length payload.now }
        ensures { result ≡ words_from payload.now from (end - from) }
    {
        let codes = if from < end {
            read_word(payload, from / FRAME * FRAME)
        } else {
            0
        };
        Words {
            payload,
            next: from,
            end,
            codes,
        }
    }

    /// Returns the number of words that are left.
    #[tactic(auto, using(crate::proofs::Rules::words_counted))]
    pub(crate) fn count_left(&self) -> usize
        ensures value { result ≡ length self.now }
        ensures low { result < 2 ^ 61 }
    {
        let heads = self.end / FRAME - self.next.div_ceil(FRAME);
        self.end - self.next - heads
    }

    /// Passes over all words that are left.
    pub(crate) fn pass_all(&mut self)
        ensures { self.new ≡ [] }
    {
        self.next = self.end;
    }

    /// Returns whether a word of code 00 is next.
    #[tactic(auto, using(crate::proofs::ByteRun::prefix))]
    pub(crate) fn begins_empty(&self) -> bool
        ensures { result ≡ begins_empty self.now }
    {
        let (next, codes) = first_data_word(self.payload, self.next, self.end, self.codes);
        next < self.end && code_in(codes, next) == 0
    }

    /// Takes the words of code 01 that are next, as far as they stand in one frame, and returns their bytes.
    pub(crate) fn take_bytes(&mut self) -> &'a [u8]
        // What is left are the words after them.
        ensures cut { self.old ≡ byte_run self.old ++ self.new }
        // The bytes are what they spell, in each scheme.
        ensures spelled { (scheme : Scheme)
            → SpellsRun scheme (byte_run self.old) (map (λ byte. twos_complement 1 byte) result.now) }
        ensures items { (scheme : Scheme)
            → items_of scheme self.old
            ≡ map Ok (map (λ byte. twos_complement 1 byte) result.now) ++ items_of scheme self.new }
        ensures count { length result.now ≡ 4 * length (byte_run self.old) }
        ensures few { length result.now ≤ 60 }
    {
        let (from, codes) = first_data_word(self.payload, self.next, self.end, self.codes);
        let frame_end = (from / FRAME + 1) * FRAME;
        let to = run_end(codes, from, frame_end.min(self.end));
        let bytes = &self.payload[WORD * from..WORD * to];
        self.next = to;
        self.codes = codes;
        bytes
    }
}

impl<'a> Iterator for Words<'a> {
    type Item = Word;

    ghost next_gives = { YieldsFirstBy as_data (λ words. words) };

    ghost remaining = { item_count (λ words. words) };

    #[inline]
    fn next(&mut self) -> Option<Word> {
        if self.next == self.end {
            return None;
        }
        if self.next % FRAME == 0 {
            self.codes = read_word(self.payload, self.next);
            self.next += 1;
        }
        let (frame, place) = (self.next / FRAME, self.next % FRAME);
        let code = code_in(self.codes, self.next);
        let bits = read_word(self.payload, self.next);
        self.next += 1;
        Some(Word {
            frame,
            place,
            code,
            bits,
        })
    }
}
