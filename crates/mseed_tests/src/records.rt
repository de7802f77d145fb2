//! The records of the rows, each one sound record but for some of its bytes.

use mseed_audit::{Channel, Finding, Findings, Head, Summary, Tail, Why};
use mseed_record::{Leap, RecordView};
use mseed_stream::StreamFault;
use mseed_time::{Micros, Ratio};
use std::process::Abort;

/// 16 samples at 20 a second from the first instant of 2024, of the channel XX_STA__BHZ.
pub(crate) static FIRST: [u8; 128] = [
    48, 48, 48, 48, 48, 49, 68, 32, // the sequence number, the quality and the reserved byte
    83, 84, 65, 32, 32, 32, 32, 66, 72, 90, 88, 88, // station, location, channel and network
    7, 232, 0, 1, 0, 0, 0, 0, 0, 0, // the start
    0, 16, 0, 20, 0, 1, // the samples, the factor and the multiplier
    0, 0, 0, 2, 0, 0, 0, 0, 0, 64, 0, 48, // flags, blockettes, correction, and where things stand
    3, 232, 0, 56, 3, 1, 7, 0, // blockette 1000
    3, 233, 0, 0, 0, 0, 0, 0, // blockette 1001
    0, 0, 0, 0, 0, 0, 0, 1, 0, 0, 0, 2, 0, 0, 0, 3, 0, 0, 0, 4, 0, 0, 0, 5, 0, 0, 0, 6, 0, 0, 0, 7,
    0, 0, 0, 8, 0, 0, 0, 9, 0, 0, 0, 10, 0, 0, 0, 11, 0, 0, 0, 12, 0, 0, 0, 13, 0, 0, 0, 14, 0, 0,
    0, 15,
];

/// Another start: the record follows the first one.
pub(crate) static NEXT: &[(usize, &[u8])] = &[(28, &[31, 64])];

/// Another start: the record begins half a sample and a microsecond late after the first one.
pub(crate) static LATE: &[(usize, &[u8])] = &[(28, &[32, 58]), (61, &[1])];

/// Another channel: XX_STA__BHN.
pub(crate) static BHN: &[(usize, &[u8])] = &[(17, b"N")];

/// Puts bytes into others from this offset on.
pub(crate) fn put(place: &mut [u8], offset: usize, bytes: &[u8]) {
    for (old, new) in place.iter_mut().skip(offset).zip(bytes) {
        *old = *new;
    }
}

/// Puts other bytes into a record at some offsets.
pub(crate) fn change(record: &mut [u8; 128], parts: &[(usize, &[u8])]) {
    for (offset, bytes) in parts {
        put(record, *offset, bytes);
    }
}

/// The first record with other bytes at some offsets.
pub(crate) fn with(parts: &[(usize, &[u8])]) -> [u8; 128] {
    let mut record = FIRST;
    change(&mut record, parts);
    record
}

/// The bytes of the first record and another.
pub(crate) fn two(next: &[u8; 128]) -> [u8; 256] {
    let mut bytes = [0; 256];
    put(&mut bytes, 0, &FIRST);
    put(&mut bytes, 128, next);
    bytes
}

/// The view of a record.
pub(crate) fn view<'a>(rt: &impl Abort, bytes: &'a [u8]) -> RecordView<'a> {
    RecordView::of(bytes).expect(rt, "a record")
}

/// When the first record begins, in microseconds.
pub(crate) const START: i64 = 1_704_067_200_000_000;

/// When the record begins that follows it.
pub(crate) const NEXT_START: i64 = 1_704_067_200_800_000;

/// When the record begins that is late after it.
pub(crate) const LATE_START: i64 = 1_704_067_200_825_001;

/// The beginning of a channel whose first record has this number, offset and start.
pub(crate) fn head(rt: &impl Abort, number: u64, offset: u64, start: i64) -> Head {
    Head {
        number,
        offset,
        start: Micros::new(start).expect(rt, "an instant"),
        rate: Ratio::new(20, 1).expect(rt, "a rate"),
    }
}

/// The end of a channel whose last record begins then.
pub(crate) fn tail(rt: &impl Abort, start: i64) -> Tail {
    Tail {
        start: Micros::new(start).expect(rt, "an instant"),
        samples: 16,
        rate: Ratio::new(20, 1).expect(rt, "a rate"),
        leap: Leap::None,
    }
}

/// The channel of one record alone, which begins then.
pub(crate) fn alone(rt: &impl Abort, start: i64) -> Channel {
    Channel {
        records: 1,
        samples: 16,
        findings: Findings::Nothing {
            head: head(rt, 1, 0, start),
            tail: tail(rt, start),
        },
    }
}

/// The channel of the first record and the late one after it.
pub(crate) fn both(rt: &impl Abort) -> Channel {
    Channel {
        records: 2,
        samples: 32,
        findings: Findings::Counted {
            count: 1,
            first: Finding {
                number: 2,
                offset: 128,
                why: Why::Gap(25_001),
            },
            head: Some(head(rt, 1, 0, START)),
            tail: Some(tail(rt, LATE_START)),
        },
    }
}

/// The summary of so many records and channels, of which so many are broken, and of how the archive ends.
pub(crate) fn summary(
    records: u64,
    channels: u64,
    broken: u64,
    end: Option<StreamFault>,
) -> Summary {
    Summary {
        records,
        channels,
        broken,
        fault: end.is_some(),
        end,
    }
}
