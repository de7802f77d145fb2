//! Calls of `mseed_record`.
ghost use Rattle.std.specs.Prelude.{◌≡◌, ◌≤◌, length, take, IfSome};
ghost use Rattle.mseed_record.specs.Record.{IsRecord};

use mseed_record::{
    All, Answer, BadCode, Choice, Codes, DataOffset, Fields, FrameFault, Framer, Leap, RecordView,
    Scan, TooShort, ViewFault, scan, trimmed, write_header,
};
use mseed_time::{Btime, LeapStep, Micros, NoRate, Order, Rate, TimeFault};

/// How many bytes the record has that begins these, if one does.
pub fn record_length(bytes: &[u8]) -> Option<usize>
    ensures { IfSome result (λ k. IsRecord (take k bytes.now)) }
{
    match scan(bytes) {
        Scan::Record(length) => Some(length),
        Scan::Need(_) | Scan::Not(_) => None,
    }
}

/// Frames bytes of which the first `first` come before the others, and looks at no blockette twice.
pub fn frame_in_two(bytes: &[u8], first: usize) -> Scan
    requires { first ≤ length bytes.now }
{
    let mut framer = Framer::new();
    match framer.look(&bytes[..first]) {
        Scan::Need(_) => framer.look(bytes),
        answer => answer,
    }
}

/// Whether no bytes that may come make a record of these.
pub fn is_refused(bytes: &[u8]) -> bool {
    matches!(RecordView::of(bytes), Err(ViewFault::Not(_)))
}

/// Whether the bytes are those of miniSEED 3, which isn't read.
pub fn is_version_3(bytes: &[u8]) -> bool {
    matches!(
        RecordView::of(bytes),
        Err(ViewFault::Not(FrameFault::Version3))
    )
}

/// How many samples a record has that was framed already.
pub fn samples_of(bytes: &[u8]) -> u16
    requires { IsRecord bytes.now }
{
    RecordView::of_record(bytes).samples()
}

/// The bytes after the record with which these begin.
pub fn after_first(bytes: &[u8]) -> Result<&[u8], ViewFault> {
    let record = RecordView::of(bytes)?;
    Ok(&bytes[record.bytes().len()..])
}

/// The instant of a record's first sample, and how many there are.
pub fn start_and_samples(record: &RecordView) -> Result<(Micros, u16), TimeFault> {
    Ok((record.start()?, record.samples()))
}

/// A record's sample rate, where no blockette 100 gives another.
pub fn only_rate(record: &RecordView) -> Result<Option<Rate>, NoRate> {
    let rate = record.rate()?;
    Ok(if record.has_rate_blockette() {
        None
    } else {
        Some(rate)
    })
}

/// A record's payload, where it is encoded in Steim-2 with words in the usual order.
pub fn steim_2_payload<'a>(record: &RecordView<'a>) -> Result<Option<&'a [u8]>, DataOffset> {
    if record.encoding() != 11 || record.payload_order() != Order::Big {
        return Ok(None);
    }
    Ok(Some(record.payload()?))
}

/// Whether a record's data were checked, by its quality indicator.
pub fn is_checked(record: &RecordView) -> bool {
    record.quality() == b'Q'
}

/// The leap second at a record's end; nothing where its flags contradict each other.
pub fn leap_second(record: &RecordView) -> Option<LeapStep> {
    let leap = record.leap();
    if leap == Leap::Both {
        None
    } else {
        leap.step()
    }
}

/// Whether two records are of one station.
pub fn are_of_one_station(one: &RecordView, other: &RecordView) -> bool {
    let (one, other) = (one.codes(), other.codes());
    one.network() == other.network() && one.station() == other.station()
}

/// Whether a channel has no location code.
pub fn has_no_location(codes: &Codes) -> bool {
    trimmed(codes.location()).is_empty()
}

/// Whether a channel is the vertical one of a broadband sensor, at no other place than the station's own.
pub fn is_vertical(codes: &Codes) -> bool {
    codes.channel() == b"BHZ".as_slice() && has_no_location(codes)
}

/// Whether a channel comes before another in lists.
pub fn comes_first(one: &Codes, other: &Codes) -> bool {
    one.key() < other.key()
}

/// The codes of a channel, of which only the station is free.
pub fn vertical_of(station: &[u8]) -> Result<Codes, BadCode> {
    Codes::new(b"XX", station, b"00", b"BHZ")
}

/// Whether a record is asked for, by any choice.
pub fn is_chosen<C: Choice>(choice: &C, view: &RecordView) -> bool {
    choice.answer(view) == Answer::AskedFor
}

/// What is answered of a record where all are asked for.
pub fn answer_of_all(view: &RecordView) -> Answer {
    All.answer(view)
}

/// Writes the header of a record of 512 bytes with 100 samples in Steim-2.
pub fn write_header_of(
    record: &mut [u8; 512],
    codes: Codes,
    start: Btime,
    rate: Rate,
) -> Result<(), TooShort> {
    let fields = Fields {
        sequence: 1,
        codes,
        start,
        usec: 0,
        samples: 100,
        rate,
        encoding: 11,
        exponent: 9,
        frames: 7,
        activity: 0,
    };
    write_header(record, &fields)
}

/// The codes of a channel, as their 12 bytes stand in a header.
pub fn codes_of(key: [u8; 12]) -> Codes
    ensures { result ≡ key }
{
    Codes::of_key(key)
}
