//! The ring of one station.
ghost use Rattle.std.specs.Prelude.{◌≡◌, ℕ, ◌+◌, ◌^◌, ◌<◌, ◌≤◌, List, [], ◌∷◌, ◌++◌, length, IfOk, IfErr, IfSome, Some};
ghost use Rattle.std.specs.Prelude.{option_copied};
ghost use Rattle.slink_wire.specs.Place.{Bears};
ghost use Rattle.slink_feed.specs.Fault.{IsCapacity, IsRingFault};
ghost use Rattle.slink_feed.specs.Window.{Resolves, Shows, oldest_of, record_at, resolve_of, with_record};

use circular_buffer::HeapCircularBuffer;
use slink_wire::{MOST_RECORDS, Place};
use std::alloc::{Allocator, Global};
use std::marker::Model;

/// Sequence numbers count modulo this: they have six hexadecimal digits (SeedLink 3, packets).
pub(crate) const SPAN: u64 = 1 << 24;

/// Why there is no ring.
#[derive(Clone, Copy, Debug, PartialEq, Eq)]
pub enum RingFault {
    /// The capacity isn't from 1 to 1,000,000.
    Capacity,
    /// The first number isn't below 2^24.
    First,
    /// An allocation was refused.
    Memory,
}

/// The last records of one station, by number.
#[derive(Drop)]
pub struct Ring<A: Allocator = Global> {
    place: Place,
    records: HeapCircularBuffer<[u8; 512], A>,
    next: u64,
}

impl<A: Allocator> Model for Ring<A> {
    ghost use Rattle.std.specs.Prelude.{◌<◌, ◌≤◌, ◌^◌, length};
    ghost use Rattle.slink_wire.specs.declared.limits.TheConstants.{MOST_RECORDS};
    ghost use Rattle.slink_feed.specs.Window.{Window};

    ghost Value = { Window };

    ghost view = { λ r. record {
      place = r.place;
      capacity = r.records.capacity;
      records = r.records.items;
      next = r.next;
    } };

    ghost invariant = { λ r. (0 < r.records.capacity) × (r.records.capacity ≤ MOST_RECORDS)
        × (length r.records.items ≤ r.records.capacity) × (length r.records.items ≤ r.next) × (r.next ≤ 2 ^ 63) };
}

impl<A: Allocator> Ring<A> {
    /// Returns an empty ring of a station, for 1 to 1,000,000 records, the first of which gets the number `first`,
    /// below 2^24.
    ///
    /// # Errors
    ///
    /// `Capacity`, else `First`, where that number isn't in its range; else `Memory` where an allocation was refused.
    pub fn new(alloc: A, place: Place, capacity: usize, first: u32) -> Result<Self, RingFault>
        ensures empty { IfOk result
            (λ r. r ≡ record { place = place; capacity = capacity; records = []; next = first }) }
        ensures shows { IfOk result (λ r. Shows r first []) }
        ensures range { IfOk result (λ _. IsCapacity capacity × (first < 2 ^ 24)) }
        ensures fault { IfErr result (λ e. IsRingFault e capacity first) }
    {
        if capacity == 0 || capacity > MOST_RECORDS {
            return Err(RingFault::Capacity);
        }
        if u64::from(first) >= SPAN {
            return Err(RingFault::First);
        }
        match HeapCircularBuffer::with_capacity(alloc, capacity) {
            Ok(records) => Ok(Ring {
                place,
                records,
                next: u64::from(first),
            }),
            Err(_) => Err(RingFault::Memory),
        }
    }

    /// Takes a record of the ring's station under the next number, which is below 2^63. The oldest record leaves a full
    /// ring.
    pub fn push(&mut self, bytes: &[u8; 512])
        requires bears { Bears bytes.now self.old.place }
        requires room { self.old.next < 2 ^ 63 }
        ensures window { self.new ≡ with_record self.old bytes.now }
        // The ring goes on showing the list of all pushed records.
        ensures shows { (first : ℕ) (pushed : List (List ℕ)) → Shows self.old first pushed
            → Shows self.new first (pushed ++ bytes.now ∷ []) }
    {
        self.records.push_back(*bytes);
        self.next += 1;
    }

    /// Returns the station and network whose records the ring keeps.
    pub fn place(&self) -> Place
        ensures { result ≡ self.now.place }
    {
        self.place
    }

    /// Returns the number of the oldest record that the ring keeps, or the next record's where it keeps none.
    pub fn oldest(&self) -> u64
        ensures value { result ≡ oldest_of self.now }
        ensures at_most { result ≤ self.now.next }
        ensures near { self.now.next ≤ result + MOST_RECORDS }
    {
        self.next - self.records.len() as u64
    }

    /// Returns the number that the next record gets.
    pub fn next(&self) -> u64
        ensures value { result ≡ self.now.next }
        ensures most { result ≤ 2 ^ 63 }
    {
        self.next
    }

    /// Returns the record of this number, where the ring keeps it.
    pub fn get(&self, number: u64) -> Option<&[u8; 512]>
        ensures value { option_copied result ≡ record_at self.now number }
        ensures within { IfSome result (λ _. number < self.now.next) }
        ensures short { IfSome result (λ _. number < 2 ^ 63) }
        ensures few { length self.now.records ≤ MOST_RECORDS }
    {
        let oldest = self.oldest();
        if number < oldest || number >= self.next {
            return None;
        }
        self.records.get((number - oldest) as usize)
    }

    /// Returns the one number from the oldest record's to the next that is `seq` modulo 2^24, if there is one.
    pub fn resolve(&self, seq: u32) -> Option<u64>
        ensures value { result ≡ resolve_of self.now seq }
        ensures number { IfSome result (λ n. Resolves self.now seq n) }
        // There is at most one, since a ring keeps far fewer than 2^24 records.
        ensures only { (n : ℕ) → Resolves self.now seq n → result ≡ Some n }
    {
        let oldest = self.oldest();
        let ahead = (u64::from(seq) % SPAN + SPAN - oldest % SPAN) % SPAN;
        if ahead <= self.next() - oldest {
            Some(oldest + ahead)
        } else {
            None
        }
    }
}
