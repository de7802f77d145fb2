//! Framing: where a record ends, while its bytes come.
ghost use Rattle.std.specs.Prelude.{◌≡◌, ◌≢◌, ◌≤◌, ◌<◌, ◌+◌, ◌++◌, ◌^◌, ℕ, List, length, take, false, IfOk, IfErr};
ghost use Rattle.std.specs.Prelude.{OnErr, Some};
ghost use Rattle.mseed_record.specs.declared.framer.Scan.TheVariants.{Need, Record};
ghost use Rattle.mseed_record.specs.Record.{IsRecord, IsRecordBy};
ghost use Rattle.mseed_record.specs.Header.{has_fixed_bytes};
ghost use Rattle.mseed_record.specs.Scan.{Decides, at_offset, at_1000};
ghost use Rattle.mseed_record.specs.Framer.{IsFramerOf, HasReached, HasNoChain, StandsAt};

use crate::fault::FrameFault;
use crate::header::{FIXED_HEADER, has_fixed_bytes, order_of};
use mseed_time::Order;

/// The bytes of the longest record (SEED manual, chapter 8, blockette 1000: a length exponent of 20).
pub const LONGEST_RECORD: usize = 1 << 20;

/// What framing says of the first bytes of an input.
#[derive(Clone, Copy, Debug, PartialEq, Eq)]
pub enum Scan {
    /// This number of bytes is needed, from the first of them on, before more is known.
    Need(usize),
    /// The bytes begin with a record, of this number of bytes.
    Record(usize),
    /// They begin no record, whatever follows them.
    Not(FrameFault),
}

/// Frames one record while its bytes come: each look goes on along the chain of blockettes from where the
/// last one ended. Of the bytes it keeps only how far that is.
///
/// Contracts say by `IsFramerOf` how a framer stands to the bytes that it is shown.
#[derive(Clone, Copy, Debug)]
pub struct Framer {
    // Where the last look ended; nowhere while the header isn't there.
    reached: Option<Reached>,
}

/// How far a look along a chain of blockettes has come.
#[derive(Clone, Copy, Debug)]
pub(crate) struct Reached {
    /// The byte order of the header.
    order: Order,
    /// After the first four bytes of the last blockette, or after the header: the next can't begin before.
    low: usize,
    /// Where the next blockette begins by what this one says; 0 where there is none.
    offset: usize,
}

impl Framer {
    /// Returns a framer of no bytes yet.
    pub fn new() -> Framer
        ensures { (prefix : List ℕ) → IsFramerOf result prefix }
    {
        Framer { reached: None }
    }

    /// Returns what [`scan`](crate::scan) returns of a prefix, and looks only at the blockettes that it didn't pass
    /// before. The prefix has to begin with the bytes of the call before.
    pub fn look(&mut self, prefix: &[u8]) -> Scan
        requires { IsFramerOf self.old prefix.now }
        ensures goes_on { (more : List ℕ) → IsFramerOf self.new (prefix.now ++ more) }

        // It is kept where the answer was decided: at an offset of the chain, or nowhere while none begins.
        ensures stands { StandsAt self.new prefix.now result }
        ensures decides { Decides prefix.now result }
        ensures record { (k : ℕ) → result ≡ Record k → (k ≤ length prefix.now) × IsRecord (take k prefix.now) }
        ensures bound { (k : ℕ) → result ≡ Need k → (length prefix.now < k) × (k ≤ LONGEST_RECORD) }
    {
        let from = match self.reached {
            Some(reached) => reached,
            None => match chain_of(prefix) {
                Ok(begin) => begin,
                Err(answer) => return answer,
            },
        };
        let (reached, answer) = go_along(prefix, from);
        self.reached = Some(reached);
        answer
    }
}

/// A record that begins some bytes.
#[derive(Clone, Copy)]
pub(crate) struct Framed {
    /// The byte order of its header.
    pub order: Order,
    /// Its length in bytes.
    pub size: usize,
    /// The offset of its first blockette 1000, in bytes.
    pub first_1000: usize,
}

/// Returns the record that begins the bytes.
///
/// # Errors
///
/// What [`scan`](crate::scan) returns where no record begins them.
#[inline(always)]
pub(crate) fn frame(prefix: &[u8]) -> Result<Framed, Scan>
    ensures ok { IfOk result (λ f. (f.size ≤ length prefix.now)
        × ((os : List ℕ) × IsRecordBy f.order os f.first_1000 (take f.size prefix.now))) }
    ensures decides { IfOk result (λ f. Decides prefix.now (Record f.size)) }
    ensures err { IfErr result (λ answer. Decides prefix.now answer) }
    ensures none { IfErr result (λ answer. (k : ℕ) → answer ≢ Record k) }
{
    let begin = match chain_of(prefix) {
        Ok(begin) => begin,
        Err(answer) => return Err(answer),
    };
    let (reached, answer) = go_along(prefix, begin);
    match answer {
        Scan::Record(size) => Ok(Framed {
            size,
            order: reached.order,
            first_1000: reached.offset,
        }),
        _ => Err(answer),
    }
}

/// Returns where the chain begins.
///
/// # Errors
///
/// What is decided before the chain: by the header's length, its first eight bytes and its start.
#[inline(always)]
#[tactic(auto, using(crate::proofs::Answered::no_version3))]
fn chain_of(prefix: &[u8]) -> Result<Reached, Scan>
    ensures ok { IfOk result (λ begin. HasReached begin prefix.now) }
    ensures err { IfErr result (λ answer. Decides prefix.now answer) }
    ensures none { OnErr result (HasNoChain prefix.now) }
    ensures early { IfErr result (λ answer. (k : ℕ) → answer ≢ Record k) }
{
    if prefix.len() < FIXED_HEADER || !has_fixed_bytes(prefix) {
        return Err(early_of(prefix));
    }
    match order_of(prefix) {
        Some(order) => Ok(Reached {
            order,
            low: FIXED_HEADER,
            offset: usize::from(order.u16_at(prefix, 46)),
        }),
        None => Err(Scan::Not(FrameFault::Order)),
    }
}

/// Returns what is decided by the bytes before the station, where there are fewer than a header has, or no header's.
fn early_of(prefix: &[u8]) -> Scan
    requires { FIXED_HEADER ≤ length prefix.now → has_fixed_bytes prefix.now ≡ false }
    ensures decides { Decides prefix.now result }
    ensures early { (k : ℕ) → result ≢ Record k }
{
    if prefix.starts_with(b"MS\x03") {
        Scan::Not(FrameFault::Version3)
    } else if prefix.len() < FIXED_HEADER {
        Scan::Need(FIXED_HEADER)
    } else {
        Scan::Not(FrameFault::NotData)
    }
}

/// Goes along the chain of blockettes up to the first 1000, or to where bytes are missing. Returns where it ended, and
/// what is decided there.
#[inline(always)]
fn go_along(prefix: &[u8], from: Reached) -> (Reached, Scan)
    requires { HasReached from prefix.now }
    ensures reached { HasReached result.0 prefix.now }
    ensures stands { at_offset result.0.order prefix.now result.0.low result.0.offset ≡ Some result.1 }
    ensures decides { Decides prefix.now result.1 }
{
    let order = from.order;
    let mut low = from.low;
    let mut offset = from.offset;
    'chain: loop {
        if let Some(answer) = at_offset(prefix, order, low, offset) {
            return (Reached { order, low, offset }, answer);
        }
        low = offset + 4;
        offset = usize::from(order.u16_at(prefix, offset + 2));
    }
}

/// Returns what is decided at an offset that a header or a blockette names; `None` where the blockette there isn't a
/// 1000, and the chain goes on.
#[inline(always)]
fn at_offset(prefix: &[u8], order: Order, low: usize, offset: usize) -> Option<Scan>
    requires { offset < 2 ^ 16 }
    ensures { result ≡ at_offset order prefix.now low offset }
{
    if offset == 0 {
        return Some(Scan::Not(FrameFault::No1000));
    }
    if offset < low {
        return Some(Scan::Not(FrameFault::Chain));
    }
    if prefix.len() < offset + 4 {
        return Some(Scan::Need(offset + 4));
    }
    if order.u16_at(prefix, offset) != 1000 {
        return None;
    }
    if prefix.len() < offset + 8 {
        return Some(Scan::Need(offset + 8));
    }
    Some(at_1000(prefix, offset))
}

/// Returns what the first blockette 1000, at an offset, decides.
#[inline(always)]
fn at_1000(prefix: &[u8], offset: usize) -> Scan
    requires within { offset + 8 ≤ length prefix.now }
    ensures { result ≡ at_1000 prefix.now offset }
{
    let exponent = prefix[offset + 6];
    if !(7..=20).contains(&exponent) {
        return Scan::Not(FrameFault::Length(exponent));
    }
    let record = 1 << exponent;
    if record < offset + 8 {
        Scan::Not(FrameFault::Outside)
    } else if prefix.len() < record {
        Scan::Need(record)
    } else {
        Scan::Record(record)
    }
}
