//! The rings of one feed.
ghost use Rattle.std.specs.Prelude.{◌≡◌, ◌≢◌, ◌^◌, ◌<◌, ◌≤◌, ℕ, List, [], ◌∷◌, ◌++◌, Some, length, slice_get};
ghost use Rattle.std.specs.Prelude.{slice_set, IfErr, IfOk, IfSome, None, OnOk, OnErr, IsSomeAnd, option_map};
ghost use Rattle.std.specs.Option.{ForSome};
ghost use Rattle.std.specs.Bool.{OnFalse, OnTrue};
ghost use Rattle.slink_wire.specs.Place.{Bears};
ghost use Rattle.slink_feed.specs.Fault.{IsFeedFault};
ghost use Rattle.slink_feed.specs.Intake.{IsOfFeed, foreign_of, places_of, pushed};
ghost use Rattle.slink_feed.specs.Rings.{AreFilled, IsOfNoPlace, HasPlace, IsPlaceOf, LacksPlace, filled_of};
ghost use Rattle.slink_feed.specs.Rings.{station_at};
ghost use Rattle.slink_feed.specs.Session.{Fits, State};
ghost use Rattle.slink_feed.specs.Window.{Shows, Window, with_record};

use crate::input::{ForeignRecord, InputFault};
use crate::ring::Ring;
use arrayvec::ArrayVec;
use slink_wire::{Place, STATIONS};
use std::alloc::{Allocator, Global};
use std::marker::Model;

/// Why a ring isn't taken. It comes back.
#[derive(Drop)]
pub enum FeedFault<A: Allocator = Global> {
    /// The feed has sixteen rings.
    Full(Ring<A>),
    /// The feed has a ring of this station.
    Double(Ring<A>),
}

/// Up to sixteen rings of different stations, in the order in which they were added.
#[derive(Drop)]
pub struct Feed<A: Allocator = Global> {
    rings: ArrayVec<Option<Ring<A>>, STATIONS>,
}

impl<A: Allocator> Model for Feed<A> {
    ghost Value = { List Window };

    ghost view = { λ f. filled_of f.rings.items };

    ghost invariant = { λ f. AreFilled f.rings.items };
}

/// Gives a record to the ring in a slot.
fn push_slot<A: Allocator>(slot: &mut Option<Ring<A>>, bytes: &[u8; 512])
    requires { IsSomeAnd slot.old (λ w. Bears bytes.now w.place × (w.next < 2 ^ 63)) }
    ensures { slot.new ≡ option_map (λ w. with_record w bytes.now) slot.old }
{
    match slot {
        Some(ring) => ring.push(bytes),
        None => unreachable!(),
    }
}

/// What is wrong with an input whose record of this number isn't the feed's.
fn foreign(number: u64, bytes: &[u8]) -> InputFault
    ensures { result ≡ InputFault.Foreign (foreign_of number (length bytes.now) bytes.now) }
{
    InputFault::Foreign(ForeignRecord::of(number, bytes.len(), bytes))
}

impl<A: Allocator> Feed<A> {
    /// Returns a feed without rings.
    pub fn new() -> Self
        ensures { result ≡ [] }
    {
        Feed {
            rings: ArrayVec::new(),
        }
    }

    /// Adds a ring, unless the feed has sixteen already, or one of the same station: then nothing changes.
    ///
    /// # Errors
    ///
    /// `Full` where there are sixteen rings, else `Double` where one has its station. The ring comes back.
    #[tactic(auto, using(crate::proofs::Slots::same_length))]
    pub fn add(&mut self, ring: Ring<A>) -> Result<(), FeedFault<A>>
        ensures ok { OnOk result (self.new ≡ self.old ++ ring ∷ []) }
        ensures taken { OnOk result ((length self.old < STATIONS) × LacksPlace self.old ring.place) }
        ensures fault { IfErr result (λ e. IsFeedFault e self.old ring) }
        ensures err { OnErr result (self.new ≡ self.old) }
    {
        if self.rings.len() == STATIONS {
            return Err(FeedFault::Full(ring));
        }
        if self.has(ring.place()) {
            return Err(FeedFault::Double(ring));
        }
        self.rings.push(Some(ring));
        Ok(())
    }

    /// Adds the ring of a station that has none yet, where there are fewer than sixteen.
    pub fn add_other(&mut self, ring: Ring<A>)
        requires room { length self.old < STATIONS }
        requires differs { ¬ (HasPlace self.old ring.place) }
        ensures { self.new ≡ self.old ++ ring ∷ [] }
    {
        match self.add(ring) {
            Ok(()) => {}
            Err(FeedFault::Full(_) | FeedFault::Double(_)) => unreachable!(),
        }
    }

    /// Returns how many rings the feed has, at most sixteen.
    #[tactic(auto, using(crate::proofs::Slots::same_length))]
    pub fn len(&self) -> usize
        ensures value { result ≡ length self.now }
        ensures most { result ≤ STATIONS }
    {
        self.rings.len()
    }

    /// Returns the ring at an index, counted from 0 in the order in which the rings were added.
    pub fn ring(&self, k: usize) -> &Ring<A>
        requires { k < length self.now }
        ensures ring { slice_get self.now k ≡ Some result.now }
        ensures most { k < STATIONS }
    {
        match &self.rings.as_slice()[k] {
            Some(ring) => ring,
            None => unreachable!(),
        }
    }

    /// Gives a record to the ring at an index, of whose station it is, under the ring's next number, which is below
    /// 2^63. The oldest record leaves a full ring.
    #[tactic(auto, using(crate::proofs::Slots::same_length))]
    pub fn push(&mut self, k: usize, bytes: &[u8; 512])
        requires in_range { k < length self.old }
        requires bears { ForSome (slice_get self.old k) (λ w. Bears bytes.now w.place) }
        requires room { ForSome (slice_get self.old k) (λ w. w.next < 2 ^ 63) }
        ensures pushed { ForSome (slice_get self.old k)
            (λ w. self.new ≡ slice_set self.old k (with_record w bytes.now)) }
        // The ring goes on showing the list of all records that were pushed to it, and the other rings stay.
        ensures shows { (first : ℕ) (pushed : List (List ℕ))
            → ForSome (slice_get self.old k) (λ w. Shows w first pushed)
            → IsSomeAnd (slice_get self.new k) (λ w. Shows w first (pushed ++ bytes.now ∷ [])) }
        ensures others { (j : ℕ) → j ≢ k → slice_get self.new j ≡ slice_get self.old j }
        // A session that this feed serves is served on.
        ensures fits { (s : State) → Fits self.old s → Fits self.new s }
    {
        let slots = self.rings.as_mut_slice();
        if k >= slots.len() {
            unreachable!();
        }
        push_slot(&mut slots[k], bytes);
    }

    /// Returns the index of the first ring whose station and network a record's header has, if there is one.
    pub fn place_of(&self, bytes: &[u8; 512]) -> Option<usize>
        ensures some { IfSome result (IsPlaceOf self.now bytes.now) }
        ensures most { IfSome result (λ k. k < STATIONS) }
        ensures none { result ≡ None → IsOfNoPlace self.now bytes.now }
    {
        for k in 0..self.len() {
            if self.ring(k).place().bears(bytes) {
                return Some(k);
            }
        }
        None
    }

    /// Gives the record of this number of an input, counted from 1, to the first ring of its station, and returns that
    /// ring's index. The next number of each ring is below 2^63.
    ///
    /// # Errors
    ///
    /// `Foreign`, with the record's number, length and codes, where it hasn't 512 bytes or is of none of the stations.
    /// The rings stay as they were then.
    pub fn take_record(&mut self, bytes: &[u8], number: u64) -> Result<usize, InputFault>
        requires { (k : ℕ) (w : Window) → slice_get self.old k ≡ Some w → w.next < 2 ^ 63 }
        ensures of { OnOk result (IsOfFeed (places_of self.old) bytes.now) }
        ensures place_of { IfOk result (IsPlaceOf self.old bytes.now) }
        ensures pushed { OnOk result (self.new ≡ pushed self.old bytes.now) }
        ensures others { IfOk result (λ k. (j : ℕ) → j ≢ k → slice_get self.new j ≡ slice_get self.old j) }
        ensures most { IfOk result (λ k. k < STATIONS) }
        ensures foreign { OnErr result (¬ (IsOfFeed (places_of self.old) bytes.now)) }
        ensures fault { IfErr result (λ e. e ≡ InputFault.Foreign (foreign_of number (length bytes.now) bytes.now)) }
        ensures stays { OnErr result (self.new ≡ self.old) }
    {
        let Some(whole) = bytes.as_array::<512>() else {
            return Err(foreign(number, bytes));
        };
        match self.place_of(whole) {
            Some(k) => {
                self.push(k, whole);
                Ok(k)
            }
            None => Err(foreign(number, bytes)),
        }
    }

    /// The index of the first ring of a station with this code, in this network or in any.
    pub(crate) fn find(&self, sta: &[u8; 5], net: Option<[u8; 2]>) -> Option<usize>
        ensures value { result ≡ station_at self.now sta.now net }
        ensures within { IfSome result (λ k. k < length self.now) }
        ensures most { IfSome result (λ k. k < STATIONS) }
    {
        for k in 0..self.len() {
            if self.ring(k).place().matches(sta, net) {
                return Some(k);
            }
        }
        None
    }

    /// Whether a ring is of this station.
    fn has(&self, place: Place) -> bool
        ensures yes { OnTrue result (HasPlace self.now place) }
        ensures no { OnFalse result (LacksPlace self.now place) }
    {
        for k in 0..self.len() {
            if self.ring(k).place() == place {
                return true;
            }
        }
        false
    }
}
