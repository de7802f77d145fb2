//! The differences of a payload, one by one.

ghost use Rattle.std.specs.Prelude.{◌≡◌, ◌≢◌, ◌≤◌, ◌<◌, ◌*◌, ⊤, ℤ, List, [], ◌∷◌, ◌++◌, map, Some, Ok, IfSome};
ghost use Rattle.std.specs.Prelude.{length, Result};
ghost use Rattle.std.specs.Iterator.{UpTo, YieldsFirst, MakesProgress, at_most, item_count};
ghost use Rattle.std.specs.Iterator.SizeHint.{IsWithinCount};
ghost use Rattle.mseed_steim.specs.declared.differences.BadWordAt.{BadWordAt};
ghost use Rattle.mseed_steim.specs.declared.scheme.Scheme.{Scheme};
ghost use Rattle.mseed_steim.specs.ByteRuns.{UnpacksRun, past_empty, words_after};
ghost use Rattle.mseed_steim.specs.Frames.{data_words};
ghost use Rattle.mseed_steim.specs.private.Items.{items_of};
ghost use Rattle.mseed_steim.specs.RemainingDifferences.{most_left};
ghost use Rattle.mseed_steim.specs.Runs.{Gives};
ghost use Rattle.mseed_steim.specs.private.Steps.{IsStep};

use crate::data_words::Words;
use crate::group::group_of;
use crate::ready::Ready;
use crate::scheme::Scheme;
use std::marker::Model;

/// Where a bad word stands: its frame, from 0, and its word in it, from 1 to 15.
#[derive(Clone, Copy, Debug, PartialEq, Eq)]
pub struct BadWordAt {
    /// The frame in the payload, from 0.
    pub frame: usize,
    /// The word in the frame, from 1 to 15.
    pub word: usize,
}

/// The differences that the data words of a payload's whole frames spell, in their order. A word that
/// spells nothing is an item that names its place, and the last.
#[derive(Drop)]
pub struct Differences<'a> {
    scheme: Scheme,
    /// The words that aren't unpacked yet.
    words: Words<'a>,
    ready: Ready,
}

impl<'a> Model for Differences<'a> {
    ghost use Rattle.std.specs.Prelude.{◌++◌, map, Ok};
    ghost use Rattle.mseed_steim.specs.private.Items.{items_of};
    ghost use Rattle.mseed_steim.specs.RemainingDifferences.{RemainingDifferences};

    ghost Value = { RemainingDifferences };

    ghost view = { λ d. record {
      items = map Ok d.ready ++ items_of d.scheme d.words;
      ready = d.ready;
      words = d.words;
    } };
}

/// Passes over the words of code 00 that are next.
#[tactic(auto, using(crate::proofs::Unpacking::passed))]
fn pass_empty(words: &mut Words<'_>)
    ensures past { words.new ≡ past_empty words.old }
    ensures items { (scheme : Scheme) → items_of scheme words.old ≡ items_of scheme words.new }
    ensures fewer { length words.new ≤ length words.old }
{
    'empty: while words.begins_empty() {
        if words.next().is_none() {
            return;
        }
    }
}

/// Unpacks at once what comes next among data words, a run of words of code 01 in one frame or another word, and
/// returns its first difference; or the place of a bad word. `None` where no difference is left.
#[tactic(auto, using(crate::proofs::Rules::unpack_next))]
fn unpack_next(
    words: &mut Words<'_>,
    scheme: Scheme,
    ready: &mut Ready,
) -> Option<Result<i32, BadWordAt>>
    requires { ready.old ≡ [] }
    ensures step { IsStep scheme words.old result words.new ready.new }
    ensures run { IfSome result (λ item. UnpacksRun words.old item ready.new) }
    ensures words { IfSome result (λ item. words.new ≡ words_after item words.old) }
{
    pass_empty(words);
    let bytes = words.take_bytes();
    if !bytes.is_empty() {
        ready.set_bytes(bytes);
        return Some(Ok(ready.next()?));
    }
    let word = words.next()?;
    match group_of(scheme, word.code, word.bits) {
        Some(group) => {
            ready.set_group(word.bits, group);
            Some(Ok(ready.next()?))
        }
        None => {
            words.pass_all();
            Some(Err(BadWordAt {
                frame: word.frame,
                word: word.place,
            }))
        }
    }
}

impl<'a> Differences<'a> {
    /// Returns the differences of a payload's whole frames in this scheme; the bytes after them aren't read.
    #[tactic(auto, using(crate::proofs::Rules::words_counted))]
    pub fn over(payload: &'a [u8], scheme: Scheme) -> Self
        // What is handed out is what the words spell, or those before the first bad word, and its place, and nothing
        // else.
        ensures items { Gives scheme (data_words payload.now) result.items }
        ensures only { (items : List (Result ℤ BadWordAt)) → Gives scheme (data_words payload.now) items
            → items ≡ result.items }
        // No more than seven for each word.
        ensures few { 4 * length result.items ≤ 7 * length payload.now }
        ensures bounded { 4 * most_left result ≤ 7 * length payload.now }
        // Nothing is unpacked yet.
        ensures ready { result.ready ≡ [] }
        ensures words { result.words ≡ data_words payload.now }
    {
        Differences {
            scheme,
            words: Words::of(payload),
            ready: Ready::new(),
        }
    }

    /// Returns the differences that are unpacked and that `next` hasn't returned yet.
    pub fn ready(&self) -> &[i32]
        ensures value { result.now ≡ self.now.ready }
        // They come first.
        ensures first { (rest : List (Result ℤ BadWordAt)) × (self.now.items ≡ map Ok result.now ++ rest) }
    {
        self.ready.as_slice()
    }
}

impl<'a> Iterator for Differences<'a> {
    type Item = Result<i32, BadWordAt>;

    ghost next_gives = { YieldsFirst (λ left. left.items) };

    ghost remaining = { item_count (λ left. left.items) };

    fn next(&mut self) -> Option<Result<i32, BadWordAt>>
        ensures steps { YieldsFirst (λ left. left.items) self.old result self.new }
        ensures goes { MakesProgress (λ _. ⊤) (item_count (λ left. left.items)) self.old result self.new }
        // Each item lowers the bound.
        ensures falls { IfSome result (λ _. most_left self.new < most_left self.old) }
        // A run of words of code 01 in one frame is unpacked at once: after its first difference the rest is ready.
        ensures run { IfSome result (λ item. self.old.ready ≡ [] → UnpacksRun self.old.words item self.new.ready) }
        ensures words { IfSome result (λ item. self.old.ready ≡ []
            → self.new.words ≡ words_after item self.old.words) }
        // What is ready is given before another word is unpacked.
        ensures given { IfSome result (λ item. self.old.ready ≢ []
            → (map Ok self.old.ready ≡ item ∷ map Ok self.new.ready) × (self.new.words ≡ self.old.words)) }
    {
        match self.ready.next() {
            Some(difference) => Some(Ok(difference)),
            None => unpack_next(&mut self.words, self.scheme, &mut self.ready),
        }
    }

    /// Returns the least and the greatest number of items that can be left: the differences that are unpacked, and
    /// these with seven more for each word that isn't.
    #[tactic(auto, using(crate::proofs::Rules::words_counted))]
    fn size_hint(&self) -> (usize, Option<usize>)
        // The items left lie between the bounds.
        ensures lower { IsWithinCount result.0 (at_most (length self.now.items)) }
        ensures upper { IfSome result.1 (UpTo (at_most (length self.now.items))) }
        // There's always an upper bound: the one that each item lowers.
        ensures bounded { result.1 ≡ Some (most_left self.now) }
    {
        let ready = self.ready.as_slice().len();
        (ready, Some(ready + 7 * self.words.count_left()))
    }
}
