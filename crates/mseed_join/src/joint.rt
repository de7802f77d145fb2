//! The joint part of parts that are read line by line.
ghost use Rattle.std.specs.Prelude.{◌≡◌, ◌≢◌, ◌↔◌, ◌<◌, ◌+◌, ◌^◌, ◌++◌, List, ℕ, [], codes, false, IfErr, OnOk, IsTrue};
ghost use Rattle.mseed_audit.specs.Audit.{head_in};
ghost use Rattle.mseed_join.specs.Lines.{IsLine, Line, header_line};
ghost use Rattle.mseed_join.specs.Borders.{border_at};
ghost use Rattle.mseed_join.specs.Joined.{HasNoEnd};
ghost use Rattle.mseed_join.specs.Reached.{Stage, start};
ghost use Rattle.mseed_join.specs.private.Along.{can_end};
ghost use Rattle.mseed_join.specs.private.Steps.{May};
ghost use Rattle.mseed_join.specs.private.Taking.{IsAfterKey, IsLimit, IsReadTo, IsStep, Takes, TakesLine, border_by};
ghost use Rattle.mseed_join.specs.private.Taking.{fault_after, passed_by};

use crate::bad_field::first_bad_field;
use crate::flaw::{Flaw, begun_as};
use crate::lines::{read_channel_line, read_counts_line, read_fault_line, read_faults_line};
use crate::part::{Part, PartFault};
use crate::part_law::one_part;
use crate::part_sums::sum;
use crate::writing::FIRST_LINE;
use mseed_audit::{Channel, Finding};
use mseed_record::Codes;
use mseed_stream::StreamFault;
use mseed_time::Micros;
use std::alloc::{Allocator, Global};
use std::cmp::Ordering;

/// The joint part of parts.
#[derive(Drop)]
pub struct JointPart<A: Allocator = Global> {
    /// What is held of the channels, and how many records and bytes there are.
    pub part: Part<A>,
    /// How many of the archives end with a fault that was passed, the last one too.
    pub faults: u64,
    /// The fault with which the last archive that counts ends, if with one that wasn't passed. Its offset is that in
    /// the joint part.
    pub end: Option<StreamFault>,
}

/// What is reported of a line of a part.
#[derive(Clone, Copy)]
pub(crate) enum Reported {
    /// Nothing.
    Nothing,
    /// What is found between a channel and its further records: they begin so, and the finding's number and offset are
    /// those of the joint part.
    Border {
        /// The channel.
        codes: Codes,
        /// When the record begins.
        start: Micros,
        /// What is found of it.
        finding: Finding,
    },
    /// A fault that is passed: that of the part of this number, from 1 over all parts, where it lies in that part.
    Passed {
        /// The part's number.
        part: u64,
        /// The fault with which it ends.
        fault: StreamFault,
    },
}

/// Why a line wasn't taken.
#[derive(Clone, Copy)]
pub(crate) enum LineFault {
    /// No parts go on so: what is wrong with the line.
    Bad(Flaw),
    /// An allocation was refused.
    Memory,
}

/// Where in a part's text the next line stands.
#[derive(Clone, Copy)]
pub(crate) enum PlaceInPart {
    /// Before the first line of a part.
    Start,
    /// After a channel with this key, or after the first line.
    Channels(Option<Codes>),
    /// After the counts, the bytes among them, and the number of faults, if it was read.
    Whole { bytes: u64, has_faults: bool },
}

/// The joint part of the parts of which the lines were taken.
#[derive(Drop)]
pub(crate) struct Joint<A: Allocator> {
    pub(crate) so_far: JointPart<A>,
    // The parts, those that don't count and the one that has begun too.
    pub(crate) parts: u64,
    place: PlaceInPart,
    // Faults are passed.
    past_faults: bool,
}

impl<A: Allocator + Copy> Joint<A> {
    /// The joint part of no line.
    pub(crate) fn new(alloc: A, past_faults: bool) -> Joint<A>
        ensures read { IsReadTo [] start result }
        ensures past_faults { result.past_faults ≡ past_faults }
        ensures parts { result.parts ≡ 0 }
    {
        one_part();
        Joint {
            so_far: JointPart {
                part: Part::new(alloc),
                faults: 0,
                end: None,
            },
            parts: 0,
            place: PlaceInPart::Start,
            past_faults,
        }
    }

    /// Takes a line with its LF.
    ///
    /// # Errors
    ///
    /// `Bad` where no parts that can be joined go on so, `Memory` where there was no room for a channel that is new.
    #[inline(always)]
    pub(crate) fn take_line(&mut self, line: &[u8]) -> Result<Reported, LineFault>
        requires parts { self.old.parts < 2 ^ 63 }
        requires ended { (body : List ℕ) × HasNoEnd body × (line.now ≡ body ++ codes "\n") }
        ensures { TakesLine line.now result self.old self.new }
    {
        match self.place {
            PlaceInPart::Start => self.take_header(Flaw::Beginning, line),
            PlaceInPart::Channels(last) => self.take_row(last, line),
            PlaceInPart::Whole { bytes, has_faults } => self.take_ending(bytes, has_faults, line),
        }
    }

    /// Returns whether the last part is over, or none has begun.
    pub(crate) fn can_end(&self) -> bool
        ensures { result ≡ can_end self.now.place }
    {
        match self.place {
            PlaceInPart::Channels(_) => false,
            _ => true,
        }
    }

    /// The joint part.
    pub(crate) fn into_part(self) -> JointPart<A>
        ensures { result ≡ self.so_far }
    {
        self.so_far
    }

    /// Takes the first line of a part. If it is none, this is wrong with it.
    fn take_header(&mut self, flaw: Flaw, line: &[u8]) -> Result<Reported, LineFault>
        requires { self.old.parts < 2 ^ 63 }
        ensures step { (lines : List ℕ) (s : Stage) → IsReadTo lines s self.old → May s.last Line.header
            → OnOk result (IsStep lines s Line.header result self.old self.new) }
        ensures line { OnOk result (line.now ≡ header_line) }
        ensures bad { IfErr result (λ fault. (fault ≡ LineFault.Bad flaw) × (line.now ≢ header_line)) }
    {
        if line != FIRST_LINE {
            return Err(LineFault::Bad(flaw));
        }
        self.parts += 1;
        self.place = PlaceInPart::Channels(None);
        Ok(Reported::Nothing)
    }

    /// Takes a channel or the counts.
    fn take_row(&mut self, last: Option<Codes>, line: &[u8]) -> Result<Reported, LineFault>
        requires place { self.old.place ≡ PlaceInPart.Channels last }
        requires ended { (body : List ℕ) × HasNoEnd body × (line.now ≡ body ++ codes "\n") }
        ensures { TakesLine line.now result self.old self.new }
    {
        if let Some((codes, channel)) = read_channel_line(line) {
            if !is_after(last, codes) {
                return Err(LineFault::Bad(Flaw::Order(codes)));
            }
            return self.take_channel(codes, &channel);
        }
        let Some((records, bytes)) = read_counts_line(line) else {
            return Err(LineFault::Bad(Flaw::Row(first_bad_field(line))));
        };
        self.take_counts(records, bytes)
    }

    /// Takes a fault, the number of faults passed, or the first line of the next part.
    fn take_ending(
        &mut self,
        bytes: u64,
        has_faults: bool,
        line: &[u8],
    ) -> Result<Reported, LineFault>
        requires parts { self.old.parts < 2 ^ 63 }
        requires place { self.old.place ≡ PlaceInPart.Whole bytes has_faults }
        requires ended { (body : List ℕ) × HasNoEnd body × (line.now ≡ body ++ codes "\n") }
        ensures { TakesLine line.now result self.old self.new }
    {
        if let Some(fault) = read_fault_line(line, bytes) {
            return self.take_fault(fault, bytes);
        }
        let flaw = Flaw::Ending(begun_as(line));
        if has_faults {
            return self.take_header(flaw, line);
        }
        if let Some(faults) = read_faults_line(line) {
            return self.take_faults(faults, bytes);
        }
        self.take_header(flaw, line)
    }

    /// Takes a channel that is in order.
    fn take_channel(&mut self, codes: Codes, channel: &Channel) -> Result<Reported, LineFault>
        ensures step { Takes (Line.channel codes channel.now) result self.old self.new }
        ensures limit { IfErr result IsLimit }
    {
        if let Some(_) = self.so_far.end {
            self.place = PlaceInPart::Channels(Some(codes));
            return Ok(Reported::Nothing);
        }
        match self.so_far.part.add_channel(codes, channel) {
            Ok(found) => {
                self.place = PlaceInPart::Channels(Some(codes));
                Ok(reported_of(codes, channel, found))
            }
            Err(PartFault::Limit) => Err(LineFault::Bad(Flaw::Limit)),
            Err(PartFault::Memory) => Err(LineFault::Memory),
        }
    }

    /// Takes the counts.
    fn take_counts(&mut self, records: u64, bytes: u64) -> Result<Reported, LineFault>
        ensures step { Takes (Line.counts records bytes) result self.old self.new }
        ensures limit { IfErr result IsLimit }
    {
        self.place = PlaceInPart::Whole {
            bytes,
            has_faults: false,
        };
        if let Some(_) = self.so_far.end {
            return Ok(Reported::Nothing);
        }
        match self.so_far.part.add_counts(records, bytes) {
            Ok(()) => Ok(Reported::Nothing),
            Err(_) => Err(LineFault::Bad(Flaw::Limit)),
        }
    }

    /// Takes the number of faults passed.
    fn take_faults(&mut self, faults: u64, bytes: u64) -> Result<Reported, LineFault>
        requires { self.old.place ≡ PlaceInPart.Whole bytes false }
        ensures step { Takes (Line.faults faults) result self.old self.new }
        ensures limit { IfErr result IsLimit }
    {
        self.place = PlaceInPart::Whole {
            bytes,
            has_faults: true,
        };
        if let Some(_) = self.so_far.end {
            return Ok(Reported::Nothing);
        }
        match sum(self.so_far.faults, faults) {
            Ok(all) => {
                self.so_far.faults = all;
                Ok(Reported::Nothing)
            }
            Err(_) => Err(LineFault::Bad(Flaw::Limit)),
        }
    }

    /// Takes the fault with which a part of `bytes` bytes ends.
    fn take_fault(&mut self, fault: StreamFault, bytes: u64) -> Result<Reported, LineFault>
        ensures step { Takes (Line.fault bytes fault) result self.old self.new }
        ensures limit { IfErr result IsLimit }
    {
        self.place = PlaceInPart::Start;
        if let Some(_) = self.so_far.end {
            return Ok(Reported::Nothing);
        }
        if !self.past_faults {
            self.so_far.end = Some(fault_after(self.so_far.part.bytes(), &fault));
            return Ok(Reported::Nothing);
        }
        match sum(self.so_far.faults, 1) {
            Ok(all) => {
                self.so_far.faults = all;
                Ok(Reported::Passed {
                    part: self.parts,
                    fault,
                })
            }
            Err(_) => Err(LineFault::Bad(Flaw::Limit)),
        }
    }
}

/// The fault, as one after `bytes` bytes.
fn fault_after(bytes: u64, fault: &StreamFault) -> StreamFault
    ensures { result ≡ fault_after bytes fault.now }
{
    match *fault {
        StreamFault::Frame(_, fault) => StreamFault::Frame(bytes, fault),
        StreamFault::Truncated(_, have) => StreamFault::Truncated(bytes, have),
        StreamFault::Read(_) => StreamFault::Read(bytes),
        StreamFault::Turns(_) => StreamFault::Turns(bytes),
        StreamFault::Memory => StreamFault::Memory,
    }
}

/// Returns whether a channel's key is after that of the last.
fn is_after(last: Option<Codes>, codes: Codes) -> bool
    ensures { IsTrue result ↔ IsAfterKey last codes }
{
    match last {
        Some(last) => match last.cmp(&codes) {
            Ordering::Less => true,
            _ => false,
        },
        None => true,
    }
}

/// Returns what is reported of a channel, by what is found between it and its further records.
fn reported_of(codes: Codes, channel: &Channel, found: Option<Finding>) -> Reported
    ensures passed { passed_by result ≡ [] }
    ensures border { border_by result ≡ border_at codes (head_in channel.now.findings) found }
{
    match (found, channel.findings.head()) {
        (Some(finding), Some(head)) => Reported::Border {
            codes,
            start: head.start,
            finding,
        },
        _ => Reported::Nothing,
    }
}
