//! The part of an archive.
ghost use Rattle.std.specs.Prelude.{◌≡◌, ◌++◌, ◌<◌, ◌^◌, [], List, Some, None, IfOk, OnOk, OnErr, IsErrOf};
ghost use Rattle.mseed_record.specs.View.{View};
ghost use Rattle.mseed_audit.specs.Places.{by_key};
ghost use Rattle.mseed_join.specs.declared.part.PartFault.TheVariants.{Limit};
ghost use Rattle.mseed_join.specs.Joining.{border_between, moved_channel};
ghost use Rattle.mseed_join.specs.Parts.{IsPartOf, IsJoint, Fits, FitsAt, kept_of, one_channel};
ghost use Rattle.mseed_join.specs.Parts.{counts_alone, AreWithin, HasNewChannel, Held, IsAscending, IsSmall};

use crate::part_sums::{TooLarge, add_further, counts_fit, moved, sum};
use mseed_audit::{Channel, ChannelList, Finding, Memory, one_finding};
use mseed_record::Codes;
use std::alloc::{Allocator, Global};
use std::marker::Model;

/// Why parts weren't joined.
#[derive(Clone, Copy, Debug, PartialEq, Eq)]
pub enum PartFault {
    /// An allocation was refused.
    Memory,
    /// A number would pass 2^63 - 1.
    Limit,
}

impl From<TooLarge> for PartFault {
    ghost from_gives = { λ _ fault. fault ≡ Limit };

    fn from(_large: TooLarge) -> PartFault {
        PartFault::Limit
    }
}

/// The part of an archive: what an audit holds of each channel, and how many records and bytes there are. It holds one
/// value of a fixed size for each channel with samples, and no record.
///
/// Contracts see a part as what is `Held`, and say by `IsPartOf` of which records it is the part.
#[derive(Drop)]
pub struct Part<A: Allocator = Global> {
    kept: ChannelList<A>,
    records: u64,
    bytes: u64,
}

impl<A: Allocator> Model for Part<A> {
    ghost Value = { Held };

    ghost view = { λ p. record { channels = by_key p.kept; records = p.records; bytes = p.bytes } };

    ghost invariant = { λ p. AreWithin p.kept × (p.records < 2 ^ 63) × (p.bytes < 2 ^ 63) };
}

impl<A: Allocator + Copy> Part<A> {
    /// The part of no record. It takes no memory.
    pub fn new(alloc: A) -> Part<A>
        ensures of_none { IsPartOf result [] }
    {
        Part {
            kept: ChannelList::new(alloc),
            records: 0,
            bytes: 0,
        }
    }

    /// Returns how many records the part is of, silent ones (those without samples) too.
    #[tactic(auto, using(mseed_audit::proofs::ByKey::by_key_ascends, crate::proofs::Keeping::by_key_within))]
    pub fn records(&self) -> u64
        ensures value { result ≡ self.now.records }
        // The channels ascend by their keys, and no number passes the limit.
        ensures ascending { IsAscending self.now.channels }
        ensures small { IsSmall self.now }
    {
        self.records
    }

    /// Returns how many bytes the part's records have.
    pub fn bytes(&self) -> u64
        ensures { result ≡ self.now.bytes }
    {
        self.bytes
    }

    /// Joins one channel of a further part: its numbers and offsets go up by the records and bytes that there are. Of
    /// a channel that is there it is what follows; answers what is found between the two.
    ///
    /// # Errors
    ///
    /// `Limit` where a number would pass 2^63 - 1, `Memory` where the channel is new and there was no room for it. The
    /// part is then as it was.
    #[inline(never)]
    pub fn add_channel(
        &mut self,
        codes: Codes,
        channel: &Channel,
    ) -> Result<Option<Finding>, PartFault>
        ensures joined { OnOk result (IsJoint self.old (one_channel codes channel.now) self.new) }
        ensures border { IfOk result (λ found. found ≡ border_between (kept_of codes self.old.channels)
            (moved_channel self.old.records self.old.bytes channel.now)) }
        ensures fits { OnOk result
            (FitsAt self.old.records self.old.bytes (kept_of codes self.old.channels) (Some channel.now)) }
        ensures limit { IsErrOf result PartFault.Limit
            → FitsAt self.old.records self.old.bytes (kept_of codes self.old.channels) (Some channel.now) → ⊥ }
        ensures memory { IsErrOf result PartFault.Memory → kept_of codes self.old.channels ≡ None }
        ensures unchanged { OnErr result (self.new ≡ self.old) }
    {
        let further = match moved(channel, self.records, self.bytes) {
            Ok(further) => further,
            Err(_) => return Err(PartFault::Limit),
        };
        // After other records its counts are no smaller.
        if !counts_fit(&further) {
            return Err(PartFault::Limit);
        }
        match self.kept.find_or_keep(codes, &further) {
            Ok(Some(index)) => add_further(self.kept.channel_mut(index), &further),
            Ok(None) => Ok(None),
            Err(Memory) => Err(PartFault::Memory),
        }
    }

    /// Adds these numbers of records and of bytes to the counts.
    ///
    /// # Errors
    ///
    /// `Limit` where a count would pass 2^63 - 1. The part is then as it was.
    #[tactic(auto, using(mseed_audit::proofs::ByKey::by_key_ascends))]
    pub fn add_counts(&mut self, records: u64, bytes: u64) -> Result<(), PartFault>
        ensures joined { OnOk result (IsJoint self.old (counts_alone records bytes) self.new) }
        ensures fits { OnOk result (Fits self.old (counts_alone records bytes)) }
        ensures limit { OnErr result (Fits self.old (counts_alone records bytes) → ⊥) }
        ensures fault { IsErrOf result PartFault.Memory → ⊥ }
        ensures unchanged { OnErr result (self.new ≡ self.old) }
    {
        let records = sum(self.records, records)?;
        let bytes = sum(self.bytes, bytes)?;
        self.records = records;
        self.bytes = bytes;
        Ok(())
    }

    /// Joins the part of further records, which come after these.
    ///
    /// # Errors
    ///
    /// `Limit` where a number would pass 2^63 - 1, `Memory` where there was no room for a channel that is new.
    pub fn join(self, other: &Part<A>) -> Result<Part<A>, PartFault>
        ensures joint { IfOk result (λ p. IsJoint self other.now p) }
        ensures adds_up { (xs ys : List View) → IsPartOf self xs → IsPartOf other.now ys
            → IfOk result (λ p. IsPartOf p (xs ++ ys)) }
        ensures fits { OnOk result (Fits self other.now) }
        ensures limit { IsErrOf result PartFault.Limit → Fits self other.now → ⊥ }
        ensures memory { IsErrOf result PartFault.Memory → HasNewChannel self other.now }
    {
        one_finding();
        let mut joint = self;
        let channels = other.kept.as_slice();
        for (codes, index) in other.kept.places().iter() {
            match joint.add_channel(*codes, &channels[*index].1) {
                Ok(_) => {}
                Err(fault) => return Err(fault),
            }
        }
        match joint.add_counts(other.records, other.bytes) {
            Ok(()) => Ok(joint),
            Err(fault) => Err(fault),
        }
    }

    /// Returns what is held of each channel, ascending by the 12 bytes of their keys.
    ///
    /// # Errors
    ///
    /// `Memory` where an allocation was refused.
    pub fn into_channels(self, alloc: A) -> Result<Vec<(Codes, Channel), A>, Memory>
        ensures { IfOk result (λ channels. channels.items ≡ self.channels) }
    {
        self.kept.by_key(alloc)
    }
}
