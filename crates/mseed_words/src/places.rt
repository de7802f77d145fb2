//! The places that are requested of a feed.
ghost use Rattle.std.specs.Prelude.{◌≡◌, ◌<◌, ◌≤◌, ℕ, List, [], ◌∷◌, ◌++◌, Option, length, take};
ghost use Rattle.slink_wire.specs.Place.{Fields};
ghost use Rattle.mseed_words.specs.Places.{has_place};

use slink_wire::Place;
use std::marker::Model;

/// The most places that a feed has.
const MOST: usize = 16;

/// One to sixteen places, each with the number of the record that is wanted first of it, where one is given.
#[derive(Drop)]
pub struct Places {
    items: [(Place, Option<u32>); 16],
    count: usize,
}

impl Model for Places {
    ghost Value = { List (Fields × Option ℕ) };

    ghost view = { λ p. take p.count p.items };

    ghost invariant = { λ p. (1 ≤ p.count) × (p.count ≤ 16) × (length p.items ≡ 16) };
}

impl Places {
    /// One place.
    pub(crate) fn of(first: (Place, Option<u32>)) -> Places
        ensures { result ≡ first ∷ [] }
    {
        Places {
            items: [first; MOST],
            count: 1,
        }
    }

    /// The number of places, 1 to 16.
    pub(crate) fn len(&self) -> usize
        ensures value { result ≡ length self.now }
        ensures some { 1 ≤ result }
        ensures most { result ≤ 16 }
    {
        self.count
    }

    /// The places in the order of the arguments, each with the number of the record that is wanted first of it, where
    /// one is given.
    pub fn as_slice(&self) -> &[(Place, Option<u32>)]
        ensures { result.now ≡ self.now }
    {
        &self.items[..self.count]
    }

    /// Whether a place is one of those that were added, whatever number it has.
    pub(crate) fn has(&self, place: Place) -> bool
        ensures { result ≡ has_place place self.now }
    {
        self.as_slice().iter().any(|called| called.0 == place)
    }

    /// Adds a place, as the last one, with the number of the record that is wanted first of it, where one is given.
    pub(crate) fn push(&mut self, place: (Place, Option<u32>))
        requires { length self.old < 16 }
        ensures { self.new ≡ self.old ++ place ∷ [] }
    {
        self.items[self.count] = place;
        self.count += 1;
    }
}
