//! What an audit holds of all channels.
ghost use Rattle.std.specs.Prelude.{◌≡◌, ◌↔◌, ◌⊎◌, ◌+◌, ◌<◌, ◌^◌, List, ℕ, [], ◌∷◌, ◌++◌, OnOk, OnErr, IfOk, IfErr};
ghost use Rattle.std.specs.Prelude.{IsOk, IsSome, IsTrue, Option, Some, None};
ghost use Rattle.mseed_record.specs.Header.{key_at};
ghost use Rattle.mseed_record.specs.Viewing.{view_of};
ghost use Rattle.mseed_steim.specs.Reading.{count_of};
ghost use Rattle.std.specs.Map.{keys_of, lookup};
ghost use Rattle.std.specs.Option.{option_map};
ghost use Rattle.std.specs.Ordering.{nat_cmp};
ghost use Rattle.std.specs.Cmp.Lexicographic.{slice_cmp};
ghost use Rattle.std.specs.List.Sorted.{IsStrictlySortedBy};
ghost use Rattle.mseed_audit.specs.Channels.{same_key};
ghost use Rattle.mseed_audit.specs.Audit.{verdict_of};
ghost use Rattle.mseed_audit.specs.declared.channel.Channel.{Channel};
ghost use Rattle.mseed_audit.specs.private.ChannelState.{AddsTo, AreBounded, HasRoom, IsLearnt};

use crate::audits::Memory;
use crate::channel::{Channel, Examined};
use crate::channel_list::ChannelList;
use crate::finding::Why;
use crate::verdict::Verdict;
use mseed_record::{Codes, RecordView};
use std::alloc::{Allocator, Global};
use std::marker::Model;

/// What an audit holds of each channel, with room for the verdict on each.
///
/// Contracts see a roster as the list of its channels, each with its key, in the order in which they came.
#[derive(Drop)]
pub(crate) struct Roster<A: Allocator = Global> {
    channels: ChannelList<A>,
    // Nothing yet, with room for each channel.
    verdicts: Vec<(Codes, Verdict), A>,
}

impl<A: Allocator> Model for Roster<A> {
    ghost Value = { List (List ℕ × Channel) };

    ghost view = { λ r. r.channels };

    ghost invariant = { λ r. HasRoom r.channels r.verdicts };
}

impl<A: Allocator + Copy> Roster<A> {
    /// A roster of no channel. It takes no memory.
    pub(crate) fn new(alloc: A) -> Roster<A>
        ensures { result ≡ [] }
    {
        Roster {
            channels: ChannelList::new(alloc),
            verdicts: Vec::new(alloc),
        }
    }

    /// Returns whether a channel is on it.
    pub(crate) fn holds(&self, codes: &Codes) -> bool
        ensures { IsTrue result ↔ IsSome (lookup (same_key codes.now) self.now) }
    {
        self.channels.holds(codes)
    }

    /// Adds a record to its channel, if the channel is there and nothing is found of the record, or if it is a silent
    /// one.
    ///
    /// # Errors
    ///
    /// What was learnt of it, where it wasn't added: the roster is then as it was.
    #[inline(always)]
    pub(crate) fn add_sound(&mut self, view: &RecordView) -> Result<(), Option<Examined>>
        requires { AreBounded (2 ^ 40) self.old }
        ensures adds { OnOk result ((offset number : ℕ) → AddsTo self.old self.new
            (record { view = view_of view.now; offset = offset; number = number }) None) }
        ensures unchanged { OnErr result (self.new ≡ self.old) }
        ensures learnt { IfErr result (λ examined. IsLearnt examined (view_of view.now)) }
    {
        if view.samples() == 0 {
            return Ok(());
        }
        let Some(index) = self.channels.find(view.codes()) else {
            return Err(None);
        };
        self.channels.channel_mut(index).add_sound(view)?;
        Ok(())
    }

    /// Adds a record, of which this was learnt, to its channel, which may be new, and returns what is found of it;
    /// `None` where nothing is. A silent one isn't held, and nothing is found of it.
    ///
    /// # Errors
    ///
    /// `Memory` where the channel is new and there was no room for it; the roster is then as it was.
    pub(crate) fn add(
        &mut self,
        view: &RecordView,
        number: u64,
        offset: u64,
        examined: Option<Examined>,
    ) -> Result<Option<Why>, Memory>
        requires bounded { AreBounded (2 ^ 40) self.old }
        requires learnt { IsLearnt examined (view_of view.now) }
        ensures adds { IfOk result (λ why. AddsTo self.old self.new
            (record { view = view_of view.now; offset = offset; number = number }) why) }
        ensures unchanged { OnErr result (self.new ≡ self.old) }
        ensures memory { (count_of (view_of view.now) ≡ 0)
            ⊎ IsSome (lookup (same_key (key_at (view_of view.now).bytes)) self.old) → IsOk result }
    {
        if view.samples() == 0 {
            return Ok(None);
        }
        let codes = view.codes();
        match self.channels.find(codes) {
            Some(index) => Ok(
                self.channels
                    .channel_mut(index)
                    .add(view, number, offset, examined),
            ),
            None => Ok(self.begin(codes, view, number, offset)?),
        }
    }

    /// Begins a channel with its first record, and returns what is found of it.
    #[inline(never)]
    fn begin(
        &mut self,
        codes: Codes,
        view: &RecordView,
        number: u64,
        offset: u64,
    ) -> Result<Option<Why>, Memory>
        requires some { 0 < count_of (view_of view.now) }
        requires key { codes ≡ key_at (view_of view.now).bytes }
        requires new { lookup (same_key codes) self.old ≡ None }
        ensures adds { IfOk result (λ why. AddsTo self.old self.new
            (record { view = view_of view.now; offset = offset; number = number }) why) }
        ensures unchanged { OnErr result (self.new ≡ self.old) }
    {
        let (channel, why) = Channel::begin(view, number, offset);
        self.keep(codes, channel)?;
        Ok(why)
    }

    /// Adds a new channel, once there is room for it and for its verdict.
    fn keep(&mut self, codes: Codes, channel: Channel) -> Result<(), Memory>
        requires { lookup (same_key codes) self.old ≡ None }
        ensures kept { OnOk result (self.new ≡ self.old ++ (codes, channel) ∷ []) }
        ensures unchanged { OnErr result (self.new ≡ self.old) }
    {
        if self.verdicts.reserve(self.channels.len() + 1).is_err() {
            return Err(Memory);
        }
        self.channels.keep(codes, channel)
    }

    /// Returns the verdict on each channel, ascending by the 12 bytes of their keys. It takes no memory.
    pub(crate) fn into_verdicts(self) -> Vec<(Codes, Verdict), A>
        ensures ascending { IsStrictlySortedBy (slice_cmp nat_cmp) (keys_of result.items) }
        ensures each { (key : List ℕ) → lookup (same_key key) result.items
            ≡ option_map verdict_of (lookup (same_key key) self) }
    {
        let Roster {
            channels,
            mut verdicts,
        } = self;
        for (codes, index) in channels.places().iter() {
            match verdicts.push((*codes, channels.as_slice()[*index].1.verdict())) {
                Ok(()) => {}
                Err(_) => unreachable!(),
            }
        }
        verdicts
    }

    /// Returns what is held of each channel, ascending by the 12 bytes of their keys.
    pub(crate) fn into_channels(self, alloc: A) -> Result<Vec<(Codes, Channel), A>, Memory>
        ensures ascending { IfOk result (λ sorted. IsStrictlySortedBy (slice_cmp nat_cmp) (keys_of sorted.items)) }
        ensures each { IfOk result (λ sorted. (key : List ℕ)
            → lookup (same_key key) sorted.items ≡ lookup (same_key key) self) }
    {
        self.channels.by_key(alloc)
    }
}
