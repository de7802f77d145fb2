//! The audit of records as they come, and the verdicts that it ends with.
ghost use Rattle.std.specs.Prelude.{◌≡◌, ◌≢◌, ◌↔◌, ◌⊎◌, ◌<◌, ◌+◌, ◌^◌, List, [], ◌∷◌, ◌++◌, OnOk, OnErr, IfOk, IsOk};
ghost use Rattle.std.specs.Prelude.{ℕ, IfErr, IsTrue, None, Ok};
ghost use Rattle.mseed_record.specs.Header.{key_at};
ghost use Rattle.mseed_record.specs.Viewing.{view_of};
ghost use Rattle.mseed_steim.specs.Reading.{count_of};
ghost use Rattle.mseed_audit.specs.Audit.{AreChannels, AreChannelsAmong, HoldsKey, IsAuditAmong, IsAuditOf};
ghost use Rattle.mseed_audit.specs.Channels.{Added, Placed, numbered, records_of};
ghost use Rattle.mseed_audit.specs.private.ChannelState.{AreBounded, IsLearnt};
ghost use Rattle.mseed_audit.specs.private.Gathered.{IsAdded};
ghost use Rattle.mseed_audit.specs.Reported.{IsFoundAfter};
ghost use Rattle.mseed_audit.specs.Verdict.{AreVerdicts, AreVerdictsAmong};

use crate::channel::{Channel, Examined};
use crate::finding::Why;
use crate::law::continuous_exactly;
use crate::roster::Roster;
use crate::verdict::Verdict;
use mseed_record::{Codes, RecordView};
use std::alloc::{Allocator, Global};
use std::marker::Model;

/// An allocation was refused.
#[derive(Clone, Copy, Debug, PartialEq, Eq)]
pub struct Memory;

/// The audit of records as they come, of any number of channels. It holds one value of a fixed size for each
/// channel with samples, and no record. A call that adds or passes a record wants fewer than 2^40 before it.
///
/// Contracts see an audit as what is `Held`, and say by `IsAuditOf` of which records it is the audit, or, where it
/// passed some, by `IsAuditAmong`.
#[derive(Drop)]
pub struct Audit<A: Allocator = Global> {
    roster: Roster<A>,
    added: u64,
}

impl<A: Allocator> Model for Audit<A> {
    ghost use Rattle.mseed_audit.specs.Audit.{Held};
    ghost use Rattle.mseed_audit.specs.private.ChannelState.{AreBounded};

    ghost Value = { Held };

    ghost view = { λ a. record { channels = a.roster; added = a.added } };

    ghost invariant = { λ a. AreBounded a.added a.roster };
}

/// What there is of each channel with samples, ascending by the 12 bytes of their keys.
///
/// Contracts see it as the list of its entries.
#[derive(Drop)]
pub struct ByChannel<T, A: Allocator = Global> {
    entries: Vec<(Codes, T), A>,
}

/// What an audit says of each channel with samples, ascending by the 12 bytes of their keys.
pub type Verdicts<A = Global> = ByChannel<Verdict, A>;

/// What an audit holds of each channel with samples, ascending by the 12 bytes of their keys.
pub type Channels<A = Global> = ByChannel<Channel, A>;

impl<T, A: Allocator> Model for ByChannel<T, A> {
    ghost use Rattle.std.specs.Prelude.{List, ℕ};

    ghost Value = { List (List ℕ × T) };

    ghost view = { λ l. l.entries.items };
}

impl<A: Allocator + Copy> Audit<A> {
    /// An audit of no record. It takes no memory.
    pub fn new(alloc: A) -> Audit<A>
        ensures of_none { IsAuditOf result [] }
    {
        Audit {
            roster: Roster::new(alloc),
            added: 0,
        }
    }

    /// Returns how many records were added, silent ones too, or passed.
    pub fn added(&self) -> u64
        ensures { result ≡ self.now.added }
    {
        self.added
    }

    /// Returns whether a record with samples of this channel was added.
    pub fn holds(&self, codes: &Codes) -> bool
        ensures value { IsTrue result ↔ HoldsKey self.now codes.now }
        ensures among { (added : List Added) → IsAuditOf self.now added
            → (IsTrue result ↔ (records_of codes.now added ≢ [])) }
    {
        self.roster.holds(codes)
    }

    /// Adds a record that begins at an offset of the input, and judges it within its channel. A record
    /// without samples is silent: it is counted, and not judged.
    ///
    /// # Errors
    ///
    /// `Memory` where the channel is new and there was no room for it; the audit is then as it was.
    #[inline(always)]
    pub fn add(&mut self, view: &RecordView, offset: u64) -> Result<(), Memory>
        requires { self.old.added < 2 ^ 40 }
        ensures adds { (added : List Added) → IsAuditOf self.old added
            → OnOk result (IsAuditOf self.new (added ++ record { view = view_of view.now; offset = offset } ∷ [])) }
        ensures among { (ps : List Placed) (count : ℕ) → IsAuditAmong self.old ps count → OnOk result
            (IsAuditAmong self.new (ps ++ record {
              view = view_of view.now;
              offset = offset;
              number = self.old.added + 1;
            }
            ∷ []) (count + 1)) }
        ensures number { OnOk result (self.new.added ≡ self.old.added + 1) }
        ensures unchanged { OnErr result (self.new ≡ self.old) }
        ensures memory { (count_of (view_of view.now) ≡ 0)
            ⊎ HoldsKey self.old (key_at (view_of view.now).bytes) → IsOk result }
    {
        match self.add_judged(view, offset) {
            Ok(_) => Ok(()),
            Err(Memory) => Err(Memory),
        }
    }

    /// Adds a record as `add` does, if nothing is found of it and its channel isn't new, or if it is silent.
    ///
    /// # Errors
    ///
    /// What was learnt of it, where it wasn't added: the audit is then as it was.
    #[inline(always)]
    pub(crate) fn add_sound(&mut self, view: &RecordView) -> Result<(), Option<Examined>>
        requires { self.old.added < 2 ^ 40 }
        ensures added { OnOk result ((offset : ℕ)
            → IsAdded (Ok None) (view_of view.now) offset self.old self.new) }
        ensures unchanged { OnErr result (self.new ≡ self.old) }
        ensures learnt { IfErr result (λ examined. IsLearnt examined (view_of view.now)) }
    {
        self.roster.add_sound(view)?;
        self.added += 1;
        Ok(())
    }

    /// Adds a record as `add` does, and returns what is found of it; `None` where nothing is, as of a silent one.
    ///
    /// # Errors
    ///
    /// `Memory` where the channel is new and there was no room for it; the audit is then as it was.
    #[inline(always)]
    pub fn add_judged(&mut self, view: &RecordView, offset: u64) -> Result<Option<Why>, Memory>
        requires { self.old.added < 2 ^ 40 }
        ensures adds { (added : List Added) → IsAuditOf self.old added
            → OnOk result (IsAuditOf self.new (added ++ record { view = view_of view.now; offset = offset } ∷ [])) }
        ensures among { (ps : List Placed) (count : ℕ) → IsAuditAmong self.old ps count → OnOk result
            (IsAuditAmong self.new (ps ++ record {
              view = view_of view.now;
              offset = offset;
              number = self.old.added + 1;
            }
            ∷ []) (count + 1)) }
        ensures found { (added : List Added) → IsAuditOf self.old added
            → IfOk result (λ why. IsFoundAfter (numbered 1 added) (view_of view.now) why) }
        ensures found_among { (ps : List Placed) (count : ℕ) → IsAuditAmong self.old ps count
            → IfOk result (λ why. IsFoundAfter ps (view_of view.now) why) }
        ensures number { OnOk result (self.new.added ≡ self.old.added + 1) }
        ensures unchanged { OnErr result (self.new ≡ self.old) }
        ensures memory { (count_of (view_of view.now) ≡ 0)
            ⊎ HoldsKey self.old (key_at (view_of view.now).bytes) → IsOk result }
    {
        match self.add_sound(view) {
            Ok(()) => Ok(None),
            Err(examined) => self.add_learnt(view, offset, examined),
        }
    }

    /// [`Audit::add_judged`] of a record of which this was learnt; `None` where nothing was.
    #[inline(always)]
    pub(crate) fn add_learnt(
        &mut self,
        view: &RecordView,
        offset: u64,
        examined: Option<Examined>,
    ) -> Result<Option<Why>, Memory>
        requires few { self.old.added < 2 ^ 40 }
        requires learnt { IsLearnt examined (view_of view.now) }
        ensures { IsAdded result (view_of view.now) offset self.old self.new }
    {
        match examined {
            Some(examined) => self.add_found(view, offset, Some(examined)),
            None => self.add_unlearnt(view, offset),
        }
    }

    /// [`Audit::add_judged`] of a record of which nothing was learnt.
    #[cold]
    #[inline(never)]
    fn add_unlearnt(&mut self, view: &RecordView, offset: u64) -> Result<Option<Why>, Memory>
        requires { self.old.added < 2 ^ 40 }
        ensures { IsAdded result (view_of view.now) offset self.old self.new }
    {
        self.add_found(view, offset, None)
    }

    /// [`Audit::add_learnt`], out of the loop over records.
    #[cold]
    #[inline(never)]
    fn add_found(
        &mut self,
        view: &RecordView,
        offset: u64,
        examined: Option<Examined>,
    ) -> Result<Option<Why>, Memory>
        requires few { self.old.added < 2 ^ 40 }
        requires learnt { IsLearnt examined (view_of view.now) }
        ensures { IsAdded result (view_of view.now) offset self.old self.new }
    {
        let number = self.added + 1;
        let why = self.roster.add(view, number, offset, examined)?;
        self.added = number;
        Ok(why)
    }

    /// Passes a record that isn't judged: it is counted, so that the numbers of those that come after it are those
    /// among all, and nothing else is held of it.
    pub fn pass(&mut self)
        requires { self.old.added < 2 ^ 40 }
        ensures passes { (ps : List Placed) (count : ℕ) → IsAuditAmong self.old ps count
            → IsAuditAmong self.new ps (count + 1) }
        ensures channels { self.new.channels ≡ self.old.channels }
        ensures number { self.new.added ≡ self.old.added + 1 }
    {
        self.added += 1; // Its number is taken.
    }

    /// Returns what the audit says of the records that were added: of each channel with samples its verdict, which says
    /// that the channel is continuous exactly where it is. It takes no memory.
    pub fn finish(self) -> Verdicts<A>
        ensures verdicts { (added : List Added) → IsAuditOf self added → AreVerdicts added result }
        ensures among { (ps : List Placed) (count : ℕ) → IsAuditAmong self ps count → AreVerdictsAmong ps result }
    {
        continuous_exactly();
        ByChannel {
            entries: self.roster.into_verdicts(),
        }
    }

    /// Returns what the audit holds of each channel with samples, ascending by the 12 bytes of their keys.
    ///
    /// # Errors
    ///
    /// `Memory` where an allocation was refused.
    pub fn into_channels(self, alloc: A) -> Result<Channels<A>, Memory>
        ensures channels { (added : List Added) → IsAuditOf self added
            → IfOk result (λ channels. AreChannels added channels) }
        ensures among { (ps : List Placed) (count : ℕ) → IsAuditAmong self ps count
            → IfOk result (λ channels. AreChannelsAmong ps channels) }
    {
        Ok(ByChannel {
            entries: self.roster.into_channels(alloc)?,
        })
    }
}

impl<T, A: Allocator> ByChannel<T, A> {
    /// Returns each channel with what there is of it, ascending by the 12 bytes of their keys.
    pub fn as_slice(&self) -> &[(Codes, T)]
        ensures { result.now ≡ self.now }
    {
        &self.entries
    }
}
