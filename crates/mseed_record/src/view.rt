//! A record, as its bytes lie in memory.
ghost use Rattle.std.specs.Prelude.{◌≡◌, ◌↔◌, ◌≤◌, ℕ, List, length, take, slice_index, ◌+◌, ◌<◌, ◌==◌, IfOk, IfSome};
ghost use Rattle.std.specs.Prelude.{IsOk, IsSome, IsTrue, Err};
ghost use Rattle.std.specs.Result.{result_err};
ghost use Rattle.std.specs.Int.{bit_at};
ghost use Rattle.mseed_time.specs.Btime.{first_fault};
ghost use Rattle.mseed_time.specs.Rate.{rate_of};
ghost use Rattle.mseed_record.specs.declared.fault.FrameFault.{FrameFault};
ghost use Rattle.mseed_record.specs.declared.header.TheConstants.{FIXED_HEADER};
ghost use Rattle.mseed_record.specs.Header.{key_at, quality_at, time_at, samples_at, factor_at, multiplier_at};
ghost use Rattle.mseed_record.specs.Header.{activity_at, is_quality};
ghost use Rattle.mseed_record.specs.Record.{IsRecord, IsRecordBy};
ghost use Rattle.mseed_record.specs.View.{View, IsView, word_order_at, microseconds_at, start_of, leap_of, HasPayload};
ghost use Rattle.mseed_record.specs.View.{payload_of};
ghost use Rattle.mseed_record.specs.Scan.{Decides, HasNoRecord, Needs};

use crate::chain::{blockettes_of, first_1000_of};
use crate::codes::{Codes, codes_at};
use crate::fault::{DataOffset, ViewFault};
use crate::framer::{Scan, frame};
use crate::header::{FIXED_HEADER, i8_at, i16_at, i32_at, order_of, read_time};
use crate::leap::Leap;
use mseed_time::{Micros, NoRate, Order, Rate, TimeFault};

/// The bit of the activity flags that says that the time correction has been applied to the start (SEED manual, chapter
/// 8, field 12).
const CORRECTED: u32 = 1;

/// The bit of the activity flags of a positive leap second during the record.
const LEAP_ADDED: u32 = 4;

/// The bit of the activity flags of a negative leap second during the record.
const LEAP_DROPPED: u32 = 5;

/// A record, borrowed from the bytes that hold it (SEED manual, chapter 8).
///
/// Its chain of blockettes is gone along once, when the view is made.
#[derive(Clone, Copy, Debug)]
pub struct RecordView<'a> {
    order: Order,
    encoding: u8,
    payload_order: Order,
    microseconds: i8,
    has_rate_blockette: bool,
    // After the small fields, so that a result's tag and a fault don't share its place.
    bytes: &'a [u8],
    ghost has_header: { FIXED_HEADER ≤ length bytes.now },
    ghost is_view: { ∥ IsView (record {
      bytes = bytes.now;
      order = order;
      encoding = encoding;
      payload_order = payload_order;
      microseconds = microseconds;
      has_rate_blockette = has_rate_blockette;
    }) ∥₁ },
}

impl<'a> RecordView<'a> {
    ghost use Rattle.mseed_record.specs.Viewing.{view_of, scan_of};

    /// Returns the record that begins the bytes, exactly where [`scan`](crate::scan) finds one.
    ///
    /// # Errors
    ///
    /// `Not` where they begin no record, whatever follows them, with the first framing step that applies; `Short` where
    /// more bytes are needed before that is known, with how many there have to be.
    #[inline(always)]
    pub fn of(bytes: &'a [u8]) -> Result<RecordView<'a>, ViewFault>
        ensures ok { IsOk result ↔ ((k : ℕ) × ((k ≤ length bytes.now) × IsRecord (take k bytes.now))) }
        ensures prefix { IfOk result (λ r. (view_of r).bytes ≡ take (length (view_of r).bytes) bytes.now) }
        ensures view { IfOk result (λ r. IsView (view_of r)) }
        ensures only { IfOk result (λ r. (v : View) → IsView v → v.bytes ≡ (view_of r).bytes → v ≡ view_of r) }
        ensures decides { Decides bytes.now (scan_of result) }
        ensures refused { (f : FrameFault) → result ≡ Err (ViewFault.Not f) → HasNoRecord bytes.now }
        ensures needed { (k : ℕ) → result ≡ Err (ViewFault.Short k) → Needs bytes.now k }
    {
        match frame(bytes) {
            Ok(framed) => Ok(RecordView::by(
                &bytes[..framed.size],
                framed.order,
                framed.first_1000,
            )),
            Err(Scan::Need(k)) => Err(ViewFault::Short(k)),
            Err(Scan::Not(fault)) => Err(ViewFault::Not(fault)),
            Err(Scan::Record(_)) => unreachable!(),
        }
    }

    /// Returns the record that all of the bytes are. They aren't framed again.
    pub fn of_record(bytes: &'a [u8]) -> RecordView<'a>
        requires { IsRecord bytes.now }
        ensures bytes { (view_of result).bytes ≡ bytes.now }
        ensures view { IsView (view_of result) }
        ensures only { (v : View) → IsView v → v.bytes ≡ bytes.now → v ≡ view_of result }
    {
        let order = match order_of(bytes) {
            Some(order) => order,
            None => unreachable!(),
        };
        RecordView::by(bytes, order, first_1000_of(bytes, order))
    }

    /// Returns the record that all of the bytes are, by its byte order and the offset (in bytes) of its first blockette
    /// 1000.
    #[inline(always)]
    fn by(bytes: &'a [u8], order: Order, first_1000: usize) -> RecordView<'a>
        requires { (os : List ℕ) × IsRecordBy order os first_1000 bytes.now }
        ensures bytes { (view_of result).bytes ≡ bytes.now }
        ensures view { IsView (view_of result) }
    {
        let found = blockettes_of(bytes, order);
        RecordView {
            bytes,
            order,
            encoding: bytes[first_1000 + 4],
            payload_order: word_order_at(bytes, first_1000),
            microseconds: microseconds_at(bytes, found.first_1001),
            has_rate_blockette: found.has_100,
        }
    }

    /// Returns all bytes of the record.
    pub fn bytes(&self) -> &'a [u8]
        ensures value { result.now ≡ (view_of self.now).bytes }
        ensures view { IsView (view_of self.now) }
    {
        self.bytes
    }

    /// Returns the codes of the channel that the record belongs to.
    pub fn codes(&self) -> Codes
        ensures { result ≡ key_at (view_of self.now).bytes }
    {
        codes_at(self.bytes)
    }

    /// Returns the quality indicator: `D`, `R`, `Q` or `M` (SEED manual, chapter 8, field 2).
    pub fn quality(&self) -> u8
        ensures value { result ≡ quality_at (view_of self.now).bytes }
        ensures range { IsTrue (is_quality result) }
    {
        self.bytes[6]
    }

    /// Returns the number of samples, as the header has it (SEED manual, chapter 8, field 9).
    pub fn samples(&self) -> u16
        ensures { result ≡ samples_at (view_of self.now).order (view_of self.now).bytes }
    {
        self.order.u16_at(self.bytes, 30)
    }

    /// Returns the instant of the first sample: the header's BTIME, with the time correction where the activity flags
    /// don't say that it has been applied, and the microseconds of the first blockette 1001 (SEED manual, chapter 8,
    /// fields 8, 12 and 16).
    ///
    /// # Errors
    ///
    /// The first field of the BTIME that is out of its range.
    #[inline(always)]
    pub fn start(&self) -> Result<Micros, TimeFault>
        ensures value { IfOk result (λ t. t ≡ start_of (view_of self.now)) }
        ensures fault { result_err result ≡ first_fault (time_at (view_of self.now).order (view_of self.now).bytes) }
    {
        let time = read_time(self.bytes, self.order)?;
        let correction = i32_at(self.bytes, 40, self.order);
        Ok(time.micros(correction, self.has_flag(CORRECTED), self.microseconds))
    }

    /// Returns the sample rate, by the header's factor and multiplier (SEED manual, chapter 8, fields 10 and 11).
    ///
    /// # Errors
    ///
    /// `NoRate` exactly where the factor or the multiplier is 0.
    pub fn rate(&self) -> Result<Rate, NoRate>
        ensures ok { IsOk result ↔ IsSome (rate_of (factor_at (view_of self.now).order (view_of self.now).bytes)
            (multiplier_at (view_of self.now).order (view_of self.now).bytes)) }
        ensures factor { IfOk result (λ r. r.factor ≡ factor_at (view_of self.now).order (view_of self.now).bytes) }
        ensures multiplier { IfOk result (λ r. r.multiplier ≡ multiplier_at (view_of self.now).order
            (view_of self.now).bytes) }
    {
        Rate::of(
            i16_at(self.bytes, 32, self.order),
            i16_at(self.bytes, 34, self.order),
        )
    }

    /// Returns the code of the payload's encoding, by the first blockette 1000 (SEED manual, chapter 8).
    pub fn encoding(&self) -> u8
        ensures { result ≡ (view_of self.now).encoding }
    {
        self.encoding
    }

    /// Returns the byte order of the payload's words, by the first blockette 1000. The header can have another one.
    pub fn payload_order(&self) -> Order
        ensures { result ≡ (view_of self.now).payload_order }
    {
        self.payload_order
    }

    /// Returns whether a blockette 100, which gives another sample rate, stands anywhere on the chain.
    pub fn has_rate_blockette(&self) -> bool
        ensures { result ≡ (view_of self.now).has_rate_blockette }
    {
        self.has_rate_blockette
    }

    /// Returns the leap seconds that happened during the record, by the activity flags.
    pub fn leap(&self) -> Leap
        ensures { result ≡ leap_of (view_of self.now).bytes }
    {
        match (self.has_flag(LEAP_ADDED), self.has_flag(LEAP_DROPPED)) {
            (false, false) => Leap::None,
            (true, false) => Leap::Positive,
            (false, true) => Leap::Negative,
            (true, true) => Leap::Both,
        }
    }

    /// Returns the data, from the offset that the header gives (SEED manual, chapter 8, field 17) to the record's end.
    ///
    /// # Errors
    ///
    /// `DataOffset` exactly where that offset lies within the header, or after the record's end.
    pub fn payload(&self) -> Result<&'a [u8], DataOffset>
        ensures ok { IsOk result ↔ HasPayload (view_of self.now) }
        ensures value { IfOk result (λ bytes. bytes.now ≡ payload_of (view_of self.now)) }
    {
        let begin = usize::from(self.order.u16_at(self.bytes, 44));
        if begin < FIXED_HEADER || begin > self.bytes.len() {
            return Err(DataOffset);
        }
        Ok(&self.bytes[begin..])
    }

    /// Returns whether an activity flag is set, by its bit; bit 0 is the lowest.
    fn has_flag(&self, bit: u32) -> bool
        requires { bit < 8 }
        ensures { result ≡ (bit_at (activity_at (view_of self.now).bytes) bit == 1) }
    {
        (self.bytes[36] >> bit) & 1 == 1
    }
}

/// Returns the byte order of the payload's words, by the blockette 1000 at an offset (in bytes).
fn word_order_at(bytes: &[u8], offset: usize) -> Order
    requires { offset + 5 < length bytes.now }
    ensures { result ≡ word_order_at bytes.now offset }
{
    if bytes[offset + 5] == 0 {
        Order::Little
    } else {
        Order::Big
    }
}

/// Returns the microseconds of the blockette 1001 at an offset (in bytes); 0 where there is none.
fn microseconds_at(bytes: &[u8], offset: Option<usize>) -> i8
    requires { IfSome offset (λ o. o + 8 ≤ length bytes.now) }
    ensures { result ≡ microseconds_at bytes.now offset }
{
    match offset {
        Some(offset) => i8_at(bytes, offset + 5),
        None => 0,
    }
}
