//! A header that is written: the bytes are those of the first record, which is laid out by hand from the
//! manual's tables.

use crate::records::FIRST;
use mseed_record::{BadCode, CodeField, Codes, Fields, TooShort, write_header};
use mseed_time::{Btime, Order, Rate};
use std::process::Abort;

/// The fields of the first record.
fn fields(rt: &impl Abort) -> Fields {
    Fields {
        sequence: 1,
        codes: Codes::new(b"XX", b"STA", b"", b"BHZ").expect(rt, "codes"),
        start: Btime::read(&[7, 232, 0, 1, 0, 0, 0, 0, 0, 0], Order::Big).expect(rt, "a time"),
        usec: 0,
        samples: 16,
        rate: Rate::of(20, 1).expect(rt, "a rate"),
        encoding: 3,
        exponent: 7,
        frames: 0,
        activity: 0,
    }
}

/// Whether a record has the header of the first one, and is otherwise as it was.
fn begins_as_the_first(record: &[u8; 128]) -> bool {
    record[..64] == FIRST[..64] && record[64..] == [7; 64]
}

#[test]
fn writes_the_first_header(rt: HostRuntime) {
    let fields = fields(&rt);
    let mut record = [7; 128];
    assert!(rt; write_header(&mut record, &fields) == Ok(()));
    assert!(rt; begins_as_the_first(&record));
    assert!(rt; write_header(&mut [7; 63], &fields) == Err(TooShort));
}

/// A network, a station, a location and a channel, and the first that is none.
type Bad = ([&'static [u8]; 4], CodeField);

static BAD: [Bad; 5] = [
    ([b"XXX", b"STATION", b"", b"BHZ"], CodeField::Network),
    ([b"XX", b"STATIO", b"", b"BHZZ"], CodeField::Station),
    ([b"", b"ST A", b"", b""], CodeField::Station),
    ([b"", b"", b"0\x7f", b""], CodeField::Location),
    ([b"XX", b"STA", b"00", b"BH "], CodeField::Channel),
];

/// Whether the codes of a row are refused so.
fn is_bad(([network, station, location, channel], field): &Bad) -> bool {
    Codes::new(network, station, location, channel) == Err(BadCode { field: *field })
}

#[test]
fn names_the_first_bad_code(rt: HostRuntime) {
    for (row, codes) in BAD.iter().enumerate() {
        assert!(rt; is_bad(codes), "row {row}");
    }
}
