//! A list of channels, in which each is found by its key.
ghost use Rattle.std.specs.Prelude.{◌≡◌, ◌↔◌, ◌<◌, ◌^◌, ◌∷◌, ◌++◌, [], length, IsSome, IsTrue, None, Some};
ghost use Rattle.std.specs.Prelude.{IfNone, IfOk, IfSome, OnErr, OnOk, OnSome};
ghost use Rattle.std.specs.BTreeMap.{IsOrdered, get, insert_entry};
ghost use Rattle.std.specs.Borrow.{Lends, sem};
ghost use Rattle.std.specs.Cmp.Lexicographic.{slice_cmp};
ghost use Rattle.std.specs.List.{slice_get};
ghost use Rattle.std.specs.Map.{lookup};
ghost use Rattle.std.specs.Option.{option_map};
ghost use Rattle.std.specs.Ordering.{nat_cmp};
ghost use Rattle.std.specs.Vec.{vec_capacity, vec_len};
ghost use Rattle.mseed_audit.specs.Channels.{same_key};
ghost use Rattle.mseed_audit.specs.Places.{ArePlaced, IsFoundOrAdded, by_key, place_of, with_channel};
ghost use Rattle.mseed_audit.specs.contracts.channel.Channel.{the_row as channel_row};
ghost use Rattle.mseed_audit.specs.contracts.channel_list.ChannelList.{the_row};

use crate::audits::Memory;
use crate::channel::Channel;
use mseed_record::Codes;
use std::alloc::{Allocator, Global};
use std::cmp::Ordering;
use std::collections::BTreeMap;
use std::collections::btree_map::Entry;
use std::marker::Model;

/// What is held of each channel, in the order in which they came. The channel that was found last is found without a
/// search, and so is the one that came next after it, or first of all where that one came last; each other by a
/// search.
///
/// Contracts see it as the list of its channels, each with its key.
#[derive(Drop)]
pub struct ChannelList<A: Allocator = Global> {
    channels: Vec<(Codes, Channel), A>,
    // The index of each, by its key.
    places: BTreeMap<Codes, usize, A>,
    // The index of the one that was found or added last. In most archives the next record is of it too.
    last: usize,
    // The key that was last searched for in vain: a new channel is looked for again before it is added.
    missed: Option<Codes>,
}

impl<A: Allocator> Model for ChannelList<A> {
    ghost use Rattle.std.specs.Prelude.{List, ℕ};
    ghost use Rattle.mseed_audit.specs.declared.channel.Channel.{Channel};
    ghost use Rattle.mseed_audit.specs.Places.{ArePlaced};
    ghost use Rattle.mseed_audit.specs.private.ChannelState.{IsMissed};

    ghost Value = { List (List ℕ × Channel) };

    ghost view = { λ l. l.channels.items };

    ghost invariant = { λ l. ArePlaced l.places.entries l.channels.items × IsMissed l.missed l.channels.items };
}

impl<A: Allocator + Copy> ChannelList<A> {
    /// A list of no channel. It takes no memory.
    pub fn new(alloc: A) -> ChannelList<A>
        ensures { result ≡ [] }
    {
        ChannelList {
            channels: Vec::new(alloc),
            places: BTreeMap::new(alloc),
            last: 0,
            missed: None,
        }
    }

    /// Returns how many channels the list has.
    pub fn len(&self) -> usize
        ensures value { result ≡ length self.now }
        ensures small { result < 2 ^ 63 }
    {
        self.places.len()
    }

    /// Returns the channels with their keys, in the order in which they came.
    pub fn as_slice(&self) -> &[(Codes, Channel)]
        ensures { result.now ≡ self.now }
    {
        &self.channels
    }

    /// Returns the index of each channel, ascending by the 12 bytes of their keys.
    pub fn places(&self) -> &BTreeMap<Codes, usize, A>
        ensures { ArePlaced result.now.entries self.now }
    {
        &self.places
    }

    /// Returns whether a channel is on the list.
    pub fn holds(&self, codes: &Codes) -> bool
        ensures { IsTrue result ↔ IsSome (lookup (same_key codes.now) self.now) }
    {
        self.places.contains_key(codes)
    }

    /// Returns the index of a channel, if it is on the list. It is then the one that was found last.
    #[inline(always)]
    #[tactic(auto, using(crate::proofs::Rosters::place_within))]
    pub fn find(&mut self, codes: Codes) -> Option<usize>
        ensures place { result ≡ place_of (same_key codes) self.old }
        ensures within { IfSome result (λ i. i < length self.old) }
        ensures stays { self.new ≡ self.old }
    {
        match self.near(codes) {
            Some(index) => {
                self.last = index;
                Some(index)
            }
            None => self.search(codes),
        }
    }

    /// Returns the channel at an index, to be changed. Its key stays what it is.
    #[inline(always)]
    pub fn channel_mut(&mut self, index: usize) -> &mut Channel
        requires { index < length self.old }
        ensures* lends { sem 𝓛 (Lends (the_row A.row A.Allocator) channel_row self.entry result
            (with_channel self.old index)) }
        ensures value { option_map (λ e. e.1) (slice_get self.old index) ≡ Some result.now }
    {
        &mut self.channels[index].1
    }

    /// Adds a new channel after the others. It is then the one that was found last.
    ///
    /// # Errors
    ///
    /// `Memory` where there was no room for it. The list is as it was.
    pub fn keep(&mut self, codes: Codes, channel: Channel) -> Result<(), Memory>
        requires { place_of (same_key codes) self.old ≡ None }
        ensures kept { OnOk result (self.new ≡ self.old ++ (codes, channel) ∷ []) }
        ensures unchanged { OnErr result (self.new ≡ self.old) }
    {
        make_room(&mut self.channels)?;
        let index = self.channels.len();
        match self.places.insert(codes, index) {
            Ok(_) => {}
            Err(_) => return Err(Memory),
        }
        match self.channels.push((codes, channel)) {
            Ok(()) => {}
            Err(_) => unreachable!(),
        }
        self.last = index;
        self.missed = None;
        Ok(())
    }

    /// Returns the index of a channel, if it is on the list; else adds it after the others, as it is given. It is then
    /// the one that was found last.
    ///
    /// # Errors
    ///
    /// `Memory` where it is new and there was no room for it. The list is as it was.
    #[inline(always)]
    pub fn find_or_keep(&mut self, codes: Codes, channel: &Channel) -> Result<Option<usize>, Memory>
        ensures { IsFoundOrAdded result codes channel.now self.old self.new }
    {
        match self.near(codes) {
            Some(index) => {
                self.last = index;
                Ok(Some(index))
            }
            None => self.search_or_keep(codes, channel),
        }
    }

    /// Returns the channels, ascending by the 12 bytes of their keys.
    ///
    /// # Errors
    ///
    /// `Memory` where an allocation was refused.
    pub fn by_key(&self, alloc: A) -> Result<Vec<(Codes, Channel), A>, Memory>
        ensures { IfOk result (λ sorted. sorted.items ≡ by_key self.now) }
    {
        let mut sorted = match Vec::with_capacity(alloc, self.places.len()) {
            Ok(sorted) => sorted,
            Err(_) => return Err(Memory),
        };
        for (codes, index) in self.places.iter() {
            match sorted.push((*codes, self.channels[*index].1)) {
                Ok(()) => {}
                Err(_) => unreachable!(),
            }
        }
        Ok(sorted)
    }

    /// Returns the index of a channel, if it is the one that was found last, or came next after that one, or first of
    /// all where that one came last.
    #[inline(always)]
    fn near(&self, codes: Codes) -> Option<usize>
        ensures { IfSome result (λ i. place_of (same_key codes) self.now ≡ Some i) }
    {
        if let Some(index) = self.look(self.last, codes) {
            return Some(index);
        }
        let next = self.last.saturating_add(1);
        let next = if next < self.channels.len() { next } else { 0 };
        self.look(next, codes)
    }

    /// Returns an index, if it is the channel's.
    #[inline(always)]
    fn look(&self, index: usize, codes: Codes) -> Option<usize>
        ensures { IfSome result (λ i. place_of (same_key codes) self.now ≡ Some i) }
    {
        match self.channels.get(index) {
            // Codes are ordered by two words, which is faster than to compare twelve bytes.
            Some((key, _)) => match key.cmp(&codes) {
                Ordering::Equal => Some(index),
                _ => None,
            },
            None => None,
        }
    }

    /// Returns the index of a channel, by a search of the map.
    #[inline(never)]
    #[tactic(auto, using(crate::proofs::Rosters::place_within))]
    fn search(&mut self, codes: Codes) -> Option<usize>
        ensures place { result ≡ place_of (same_key codes) self.old }
        ensures within { IfSome result (λ i. i < length self.old) }
        ensures stays { self.new ≡ self.old }
    {
        if let Some(missed) = self.missed {
            if missed == codes {
                return None;
            }
        }
        match self.places.get(&codes) {
            Some(index) => {
                let index = *index;
                self.last = index;
                Some(index)
            }
            None => {
                self.missed = Some(codes);
                None
            }
        }
    }

    /// [`ChannelList::find_or_keep`] by one search of the map, whether the channel is there or not: the map makes room
    /// where a key is missing. Where the list is full there are two, since a channel that is there asks for no memory.
    #[inline(never)]
    fn search_or_keep(&mut self, codes: Codes, channel: &Channel) -> Result<Option<usize>, Memory>
        ensures { IsFoundOrAdded result codes channel.now self.old self.new }
    {
        if self.channels.len() >= self.channels.capacity() {
            return match self.search(codes) {
                Some(index) => Ok(Some(index)),
                None => {
                    self.keep(codes, *channel)?;
                    Ok(None)
                }
            };
        }
        let index = self.channels.len();
        if let Some(index) = find_or_enter(&mut self.places, codes, index)? {
            self.last = index;
            return Ok(Some(index));
        }
        match self.channels.push((codes, *channel)) {
            Ok(()) => {}
            Err(_) => unreachable!(),
        }
        self.last = index;
        self.missed = None;
        Ok(None)
    }
}

/// Returns the index of a channel by its key, if the key is there; else enters it with an index.
#[inline(always)]
fn find_or_enter<A: Allocator + Copy>(
    places: &mut BTreeMap<Codes, usize, A>,
    codes: Codes,
    place: usize,
) -> Result<Option<usize>, Memory>
    ensures found { IfOk result (λ found. found ≡ get (slice_cmp nat_cmp) places.old codes) }
    ensures stays { IfOk result (λ found. OnSome found (places.new.entries ≡ places.old.entries)) }
    ensures entered { IfOk result (λ found. IfNone found
        (places.new.entries ≡ insert_entry (slice_cmp nat_cmp) places.old.entries codes place)) }
    ensures ordered { IfOk result (λ found. IfNone found (IsOrdered (slice_cmp nat_cmp) places.new)) }
    ensures new { OnErr result (get (slice_cmp nat_cmp) places.old codes ≡ None) }
    ensures unchanged { OnErr result (places.new.entries ≡ places.old.entries) }
{
    match places.entry(codes) {
        Ok(Entry::Occupied(found)) => Ok(Some(*found.get())),
        Ok(Entry::Vacant(vacant)) => {
            vacant.insert(place);
            Ok(None)
        }
        Err(_) => Err(Memory),
    }
}

/// Makes room for a further channel. A list that is full grows by an eighth of what it holds and by four, so that no
/// more than that is left unused.
#[inline(always)]
fn make_room<A: Allocator>(channels: &mut Vec<(Codes, Channel), A>) -> Result<(), Memory>
    ensures items { channels.new.items ≡ channels.old.items }
    ensures room { OnOk result (vec_len channels.new < vec_capacity channels.new) }
{
    if channels.len() < channels.capacity() {
        return Ok(());
    }
    match channels.reserve_exact(channels.len() / 8 + 4) {
        Ok(()) => Ok(()),
        Err(_) => Err(Memory),
    }
}
