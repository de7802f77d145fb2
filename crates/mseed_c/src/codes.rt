//! The codes that calls return, and the numbers that belong to them.
ghost use Rattle.std.specs.Prelude.{◌≡◌};
ghost use Rattle.mseed_c.specs.Codes.{code_of, code_of_frame, code_of_read, code_of_refusal};
ghost use Rattle.mseed_c.specs.Codes.{code_of_misfit, code_of_stop, detail_of, index_of, detail_of_read};
ghost use Rattle.mseed_c.specs.Codes.{number, needed_by, IsOfSeries};

use mseed_pack::{BadOption, PackFault};
use mseed_record::FrameFault;
use mseed_steim::ReadFault;

/// Done; of an audit: each channel is continuous.
pub(crate) const OK: u32 = 0;

/// Of an audit: done, and some channel is broken.
pub(crate) const BROKEN: u32 = 1;

/// Of an audit: done, and the archive doesn't end where a record ends.
pub(crate) const FAULT: u32 = 2;

/// Memory was refused.
pub(crate) const NO_MEMORY: u32 = 3;

/// No row is left to be written to.
const NO_ROW: u32 = 4;

/// There are fewer places than samples.
const NO_ROOM: u32 = 5;

/// More bytes are needed before it is known whether they begin a record.
const TRUNCATED: u32 = 6;

/// No record begins there: these aren't the first bytes of a data record.
const NOT_DATA: u32 = 16;

/// The year and the day of its start can be read in neither byte order.
const ORDER: u32 = 17;

/// A blockette begins where none can.
const CHAIN: u32 = 18;

/// No blockette 1000 gives the record's length.
const NO_1000: u32 = 19;

/// The exponent of the length isn't in 7 to 20.
const LENGTH: u32 = 20;

/// Blockette 1000 lies outside of the record whose length it gives.
const OUTSIDE: u32 = 21;

/// It is miniSEED 3.
const VERSION_3: u32 = 22;

/// The samples of a record can't be read: it has a blockette 100.
const BLOCKETTE_100: u32 = 32;

/// The encoding isn't one that is read.
const ENCODING: u32 = 33;

/// Its Steim frames are of little-endian words.
const LITTLE_STEIM: u32 = 34;

/// Its data begin within the header or after the record's end.
const DATA_OFFSET: u32 = 35;

/// It has fewer differences or integers than samples.
const SHORT: u32 = 36;

/// One of its words means nothing.
const BAD_WORD: u32 = 37;

/// A sample leaves 32 bits.
const OVERFLOW: u32 = 38;

/// The last sample isn't the record's constant for it.
const LAST_DIFFERS: u32 = 39;

/// A series can't be packed: it has no samples.
const EMPTY: u32 = 48;

/// It has more than 500,000 samples a second.
const RATE_TOO_HIGH: u32 = 49;

/// A sample's time lies in no year from 1900 to 2100.
const TIME_OUT_OF_RANGE: u32 = 50;

/// The encoding doesn't hold a sample.
const SAMPLE_TOO_LARGE: u32 = 51;

/// The encoding doesn't hold the difference of a sample from the one before it.
const DIFFERENCE_TOO_LARGE: u32 = 52;

/// A heading is refused: no record is written with its length.
const BAD_LENGTH: u32 = 64;

/// No record is written with its encoding.
const BAD_ENCODING: u32 = 65;

/// Its sequence number is above 999,999.
const BAD_SEQUENCE: u32 = 66;

/// Its factor or multiplier is 0.
const BAD_RATE: u32 = 67;

/// Its start isn't in the years 1800 to 2199.
const BAD_START: u32 = 68;

/// Its leap second is of no kind, or doesn't stand after 1 to all of the samples.
const BAD_LEAP: u32 = 69;

/// A request for records is refused: an end of the window isn't in the years 1800 to 2199.
pub(crate) const BAD_TIME: u32 = 80;

/// The text isn't patterns of channels.
pub(crate) const BAD_PATTERNS: u32 = 81;

/// The window's end isn't after its beginning.
pub(crate) const BAD_WINDOW: u32 = 82;

/// Why no further record is read.
#[derive(Clone, Copy)]
pub enum Stop {
    /// No row is left to be written to.
    Rows,
    /// The next record has this number of samples, and there are fewer places.
    Room(usize),
    /// This number of bytes is needed, from the next record's first one on, before it is known whether they begin a
    /// record.
    Short(usize),
    /// The next bytes begin no record, whatever follows them.
    Not(FrameFault),
}

/// Why a record at the beginning of some bytes gives no samples.
#[derive(Clone, Copy)]
pub enum SampleFault {
    /// Its samples can't be read.
    Read(ReadFault),
    /// The bytes begin no record, or there is no room for its samples.
    Stop(Stop),
}

/// Why a heading is refused: the first reason that applies, in this order.
#[derive(Clone, Copy)]
pub enum Refusal {
    /// No record is written with this length or encoding, or the sequence number is above 999,999.
    Option(BadOption),
    /// The rate's factor or multiplier is 0.
    Rate,
    /// The start isn't in the years 1800 to 2199.
    Start,
    /// The leap second is of no kind, or doesn't stand after 1 to all of the samples.
    Leap,
}

/// The numbers that belong to a code.
#[repr(C)]
#[derive(Clone, Copy)]
pub struct Detail {
    /// How many samples were written, how many bytes or places are needed, or the first number of the reason; else 0.
    pub first: u64,
    /// Of a bad word its index in the frame, 1 to 15; else 0.
    pub second: u64,
    /// Of a last sample that isn't the record's constant, the sample; else 0.
    pub found: i32,
    /// Of such a last sample, the constant Xn; else 0.
    pub constant: i32,
}

/// Returns the code of what decoding a record came to: 0 where its samples were written.
pub(crate) fn code_of(answer: &Result<usize, SampleFault>) -> u32
    ensures { result ≡ code_of answer.now }
{
    match answer {
        Ok(_) => OK,
        Err(SampleFault::Read(fault)) => code_of_read(*fault),
        Err(SampleFault::Stop(stop)) => code_of_stop(*stop),
    }
}

/// Returns the numbers that belong to the code of what decoding a record came to.
pub(crate) fn detail_of(answer: &Result<usize, SampleFault>) -> Detail
    ensures { result ≡ detail_of answer.now }
{
    match answer {
        Ok(samples) => number(*samples),
        Err(SampleFault::Read(fault)) => detail_of_read(*fault),
        Err(SampleFault::Stop(stop)) => number(needed_by(*stop)),
    }
}

/// Returns the code of why no further record is read: 4 to 6, or 16 to 22.
pub(crate) fn code_of_stop(stop: Stop) -> u32
    ensures { result ≡ code_of_stop stop }
{
    match stop {
        Stop::Rows => NO_ROW,
        Stop::Room(_) => NO_ROOM,
        Stop::Short(_) => TRUNCATED,
        Stop::Not(fault) => code_of_frame(fault),
    }
}

/// Returns how many samples' places or bytes are needed to go on; of a length that no record has, its exponent; else 0.
pub(crate) fn needed_by(stop: Stop) -> usize
    ensures { result ≡ needed_by stop }
{
    match stop {
        Stop::Rows => 0,
        Stop::Room(places) => places,
        Stop::Short(bytes) => bytes,
        Stop::Not(FrameFault::Length(exponent)) => usize::from(exponent),
        Stop::Not(_) => 0,
    }
}

/// Returns the code of bytes that begin no record, 16 to 22.
fn code_of_frame(fault: FrameFault) -> u32
    ensures { result ≡ code_of_frame fault }
{
    match fault {
        FrameFault::NotData => NOT_DATA,
        FrameFault::Order => ORDER,
        FrameFault::Chain => CHAIN,
        FrameFault::No1000 => NO_1000,
        FrameFault::Length(_) => LENGTH,
        FrameFault::Outside => OUTSIDE,
        FrameFault::Version3 => VERSION_3,
    }
}

/// Returns the code of why a record's samples can't be read: 32 to 39, or 3 where memory was refused.
pub(crate) fn code_of_read(fault: ReadFault) -> u32
    ensures { result ≡ code_of_read fault }
{
    match fault {
        ReadFault::Memory => NO_MEMORY,
        ReadFault::Blockette100 => BLOCKETTE_100,
        ReadFault::Encoding(_) => ENCODING,
        ReadFault::LittleSteim => LITTLE_STEIM,
        ReadFault::DataOffset => DATA_OFFSET,
        ReadFault::Short(_) => SHORT,
        ReadFault::BadWord(_, _) => BAD_WORD,
        ReadFault::Overflow(_) => OVERFLOW,
        ReadFault::LastDiffers(_, _) => LAST_DIFFERS,
    }
}

/// Returns the numbers that belong to why a record's samples can't be read.
fn detail_of_read(fault: ReadFault) -> Detail
    ensures { result ≡ detail_of_read fault }
{
    match fault {
        ReadFault::Encoding(code) => number(usize::from(code)),
        ReadFault::Short(found) => number(found),
        ReadFault::BadWord(frame, word) => Detail {
            second: word as u64,
            ..number(frame)
        },
        ReadFault::Overflow(index) => number(index),
        ReadFault::LastDiffers(found, constant) => Detail {
            found,
            constant,
            ..number(0)
        },
        _ => number(0),
    }
}

/// Returns a detail of one number, with 0 for the others.
fn number(first: usize) -> Detail
    ensures { result ≡ number first }
{
    Detail {
        first: first as u64,
        second: 0,
        found: 0,
        constant: 0,
    }
}

/// Returns the code of why a heading is refused, 64 to 69.
pub(crate) fn code_of_refusal(refusal: Refusal) -> u32
    ensures { result ≡ code_of_refusal refusal }
{
    match refusal {
        Refusal::Option(BadOption::Exponent) => BAD_LENGTH,
        Refusal::Option(BadOption::Encoding) => BAD_ENCODING,
        Refusal::Option(BadOption::Sequence) => BAD_SEQUENCE,
        Refusal::Rate => BAD_RATE,
        Refusal::Start => BAD_START,
        Refusal::Leap => BAD_LEAP,
    }
}

/// Returns the code of why a series can't be packed, 48 to 52. `Write` doesn't come, since there is no sink.
pub(crate) fn code_of_misfit(fault: &PackFault) -> u32
    requires { IsOfSeries fault.now }
    ensures { result ≡ code_of_misfit fault.now }
{
    match fault {
        PackFault::Write(_) => unreachable!(),
        PackFault::Empty => EMPTY,
        PackFault::RateTooHigh(_) => RATE_TOO_HIGH,
        PackFault::TimeOutOfRange { .. } => TIME_OUT_OF_RANGE,
        PackFault::SampleTooLarge { .. } => SAMPLE_TOO_LARGE,
        PackFault::DifferenceTooLarge { .. } => DIFFERENCE_TOO_LARGE,
    }
}

/// Returns the index of the first sample that the encoding doesn't hold, where that is the reason; else 0.
pub(crate) fn index_of(fault: &PackFault) -> usize
    ensures { result ≡ index_of fault.now }
{
    match fault {
        PackFault::SampleTooLarge { index, .. } | PackFault::DifferenceTooLarge { index, .. } => {
            *index
        }
        _ => 0,
    }
}
