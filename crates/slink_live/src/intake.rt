//! The input, cut into records, each of which goes into the ring of its station.
ghost use Rattle.std.specs.Prelude.{◌≡◌, ◌+◌, ◌-◌, ◌*◌, ◌^◌, ◌<◌, ◌≤◌, ◌++◌, [], IfErr, OnErr, IfOk, OnOk, length};
ghost use Rattle.mseed_record.specs.declared.framer.Scan.{Scan};
ghost use Rattle.mseed_record.specs.Record.{IsRecord};
ghost use Rattle.mseed_record.specs.Scan.{Decides};
ghost use Rattle.mseed_stream.specs.declared.fault.StreamFault.{StreamFault};
ghost use Rattle.slink_feed.specs.Intake.{foreign_of, places_of};
ghost use Rattle.slink_live.specs.Input.{MayBegin};
ghost use Rattle.slink_live.specs.Served.{IntakeState, IsBelow};
ghost use Rattle.slink_live.specs.private.Cutting.{Cuts, CutsOff, IsRefused, LooksOn};
ghost use Rattle.slink_live.specs.private.Granting.{StaysBeside, StaysBut};

use crate::places::Places;
use arrayvec::ArrayVec;
use mseed_record::{Scan, scan};
use mseed_stream::StreamFault;
use slink_feed::{Feed, ForeignRecord, InputFault};
use std::marker::Model;

/// The bytes of each record of a feed.
const RECORD: usize = 512;

/// The most bytes of the input that are read at once: eight records, since a link takes up to twelve packets in
/// between, and so keeps up with an input that is always ready.
pub(crate) const INPUT: usize = 4_096;

/// The rings, the bytes of the input after its last whole record, and how many records there were.
#[derive(Drop)]
pub(crate) struct Intake {
    feed: Feed,
    kept: ArrayVec<u8, 512>,
    records: u64,
}

impl Model for Intake {
    ghost Value = { IntakeState };

    ghost view = { λ i. record { feed = i.feed; kept = i.kept.items; records = i.records } };
}

impl Intake {
    /// An intake before the first byte of the input.
    pub(crate) fn new(feed: Feed) -> Self
        ensures { result ≡ record { feed = feed; kept = []; records = 0 } }
    {
        Intake {
            feed,
            kept: ArrayVec::new(),
            records: 0,
        }
    }

    /// Returns the rings of the feed.
    pub(crate) fn feed(&self) -> &Feed
        ensures { result.now ≡ self.now.feed }
    {
        &self.feed
    }

    /// The offset in the input, in bytes, at which the next record begins.
    fn offset(&self) -> u64
        requires { self.now.records ≤ 2 ^ 54 }
        ensures { result ≡ RECORD * self.now.records }
    {
        512 * self.records
    }

    /// Takes bytes of the input, at most 4,096. Each record goes to its ring as soon as it is whole. Returns the
    /// stations that got a record.
    ///
    /// # Errors
    ///
    /// `Stream` where bytes begin no record, `Foreign` where a record hasn't 512 bytes or is of none of the stations.
    /// What was before them is in the rings.
    pub(crate) fn take(&mut self, bytes: &[u8]) -> Result<Places, InputFault>
        requires short { length self.old.kept < RECORD }
        requires begins { MayBegin self.old.kept }
        requires size { length bytes.now ≤ INPUT }
        requires below { IsBelow (2 ^ 62 + 2 ^ 54) self.old.feed }
        requires few { self.old.records ≤ 2 ^ 53 }
        ensures ok { OnOk result (Cuts self.old bytes.now self.new self.new.kept) }
        ensures others { IfOk result (λ places. StaysBut places self.old.feed self.new.feed) }
        ensures short { OnOk result (length self.new.kept < RECORD) }
        ensures begins { OnOk result (MayBegin self.new.kept) }
        ensures err { IfErr result (CutsOff self.old bytes.now self.new) }
    {
        let mut places = Places::none();
        let mut start = 0;
        while start < bytes.len() {
            let count = self.wanted(bytes.len() - start);
            self.keep(&bytes[start..start + count]);
            start += count;
            places = self.look(places)?;
        }
        Ok(places)
    }

    /// How many of the bytes that are left are kept: as many as a record of 512 bytes still lacks.
    fn wanted(&self, left: usize) -> usize
        requires short { length self.now.kept < RECORD }
        requires left { 0 < left }
        ensures some { 0 < result }
        ensures room { length self.now.kept + result ≤ RECORD }
        ensures within { result ≤ left }
    {
        (RECORD - self.kept.len()).min(left)
    }

    /// Keeps bytes, for which there is room.
    fn keep(&mut self, bytes: &[u8])
        requires { length self.old.kept + length bytes.now ≤ RECORD }
        ensures kept { self.new ≡ record self.old { kept = self.old.kept ++ bytes.now } }
        ensures few { length self.new.kept ≤ RECORD }
    {
        // There is room.
        let _ = self.kept.try_extend_from_slice(bytes);
    }

    /// Looks whether the bytes that are kept are a record, and gives it to its ring. Returns these stations, and with
    /// them that of the record.
    fn look(&mut self, places: Places) -> Result<Places, InputFault>
        requires size { length self.old.kept ≤ RECORD }
        requires below { IsBelow (2 ^ 63 - 1) self.old.feed }
        requires few { self.old.records ≤ 2 ^ 54 }
        ensures ok { OnOk result (LooksOn self.old self.new) }
        ensures others { IfOk result (λ all. StaysBeside places all self.old.feed self.new.feed) }
        ensures err { IfErr result (IsRefused (places_of self.old.feed) self.old.records self.old.kept) }
        ensures stays { OnErr result (self.new ≡ self.old) }
    {
        match scan(self.kept.as_slice()) {
            Scan::Need(needed) => {
                if needed <= RECORD {
                    Ok(places)
                } else {
                    Err(self.foreign(needed))
                }
            }
            Scan::Record(size) => {
                if size == RECORD {
                    self.push_kept(places)
                } else {
                    Err(self.foreign(size))
                }
            }
            Scan::Not(fault) => Err(InputFault::Stream(StreamFault::Frame(self.offset(), fault))),
        }
    }

    /// What is wrong with an input whose next record begins with the bytes that are kept, has this length, and isn't
    /// the feed's.
    fn foreign(&self, size: usize) -> InputFault
        requires few { self.now.records ≤ 2 ^ 54 }
        ensures { result ≡ InputFault.Foreign (foreign_of (self.now.records + 1) size self.now.kept) }
    {
        let number = self.records + 1;
        InputFault::Foreign(ForeignRecord::of(number, size, self.kept.as_slice()))
    }

    /// Gives the record that is kept to its ring. Returns these stations, and with them that of the record.
    fn push_kept(&mut self, places: Places) -> Result<Places, InputFault>
        requires whole { length self.old.kept ≡ RECORD }
        requires record { IsRecord self.old.kept }
        requires decides { Decides self.old.kept (Scan.Record RECORD) }
        requires below { IsBelow (2 ^ 63 - 1) self.old.feed }
        requires few { self.old.records ≤ 2 ^ 54 }
        ensures ok { OnOk result (LooksOn self.old self.new) }
        ensures others { IfOk result (λ all. StaysBeside places all self.old.feed self.new.feed) }
        ensures err { IfErr result (IsRefused (places_of self.old.feed) self.old.records self.old.kept) }
        ensures foreign { IfErr result (λ e. e
            ≡ InputFault.Foreign (foreign_of (self.old.records + 1) (length self.old.kept) self.old.kept)) }
        ensures stays { OnErr result (self.new ≡ self.old) }
    {
        let k = self
            .feed
            .take_record(self.kept.as_slice(), self.records + 1)?;
        self.records += 1;
        self.kept.clear();
        Ok(places.with(k))
    }

    /// What is wrong with an input that ends now.
    ///
    /// # Errors
    ///
    /// `Stream` where it ends within a record.
    pub(crate) fn end(&self) -> Result<(), InputFault>
        requires few { self.now.records ≤ 2 ^ 54 }
        ensures ok { OnOk result (self.now.kept ≡ []) }
        ensures err { IfErr result (λ e. (0 < length self.now.kept)
            × (e ≡ InputFault.Stream (StreamFault.Truncated (RECORD * self.now.records) (length self.now.kept)))) }
    {
        if self.kept.is_empty() {
            Ok(())
        } else {
            Err(InputFault::Stream(StreamFault::Truncated(self.offset(), self.kept.len())))
        }
    }

    /// What is wrong with an input that fails now.
    pub(crate) fn failure(&self) -> InputFault
        requires few { self.now.records ≤ 2 ^ 54 }
        ensures { result ≡ InputFault.Stream (StreamFault.Read (RECORD * self.now.records)) }
    {
        InputFault::Stream(StreamFault::Read(self.offset()))
    }

    /// What is wrong with an input that was read too often.
    pub(crate) fn last_turn(&self) -> InputFault
        requires few { self.now.records ≤ 2 ^ 54 }
        ensures { result ≡ InputFault.Stream (StreamFault.Turns (RECORD * self.now.records)) }
    {
        InputFault::Stream(StreamFault::Turns(self.offset()))
    }
}
