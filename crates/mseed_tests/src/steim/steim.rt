//! Samples of Steim frames, worked by hand from the words.

use super::record::{Row, STEIM_1, is_record, record};
use mseed_steim::{BadWordAt, Differences, ReadFault, Scheme};
use std::alloc::Global;

/// A row of a table: its name, its encoding (10 is Steim-1, 11 Steim-2) and how many samples it has; its frames; and
/// what is read.
type Case = (
    (&'static str, u8, u8),
    &'static [&'static [u32]],
    Result<&'static [i32], ReadFault>,
);

static CASES: [Case; 19] = [
    (
        ("four differences", 10, 4),
        &[&[0x0100_0000, 100, 103, 0x0001_0101]],
        Ok(&[100, 101, 102, 103]),
    ),
    (
        ("one too few", 10, 5),
        &[&[0x0100_0000, 100, 103, 0x0001_0101]],
        Err(ReadFault::Short(4)),
    ),
    (
        ("another last", 10, 4),
        &[&[0x0100_0000, 100, 104, 0x0001_0101]],
        Err(ReadFault::LastDiffers(103, 104)),
    ),
    (
        ("the first isn't used", 10, 4),
        &[&[0x0100_0000, 100, 103, 0x0501_0101]],
        Ok(&[100, 101, 102, 103]),
    ),
    (
        ("past the greatest", 10, 2),
        &[&[0x0100_0000, 0x7FFF_FFFF, 0x7FFF_FFFF, 0x0001_0000]],
        Err(ReadFault::Overflow(1)),
    ),
    (
        ("too few, and past the greatest", 10, 5),
        &[&[0x0100_0000, 0x7FFF_FFFF, 0x7FFF_FFFF, 0x0001_0000]],
        Err(ReadFault::Short(4)),
    ),
    (
        ("past the least", 10, 2),
        &[&[0x03C0_0000, 0x8000_0000, 0, 0, 0xFFFF_FFFF]],
        Err(ReadFault::Overflow(1)),
    ),
    (
        ("past the least, to Xn by wrapping", 10, 2),
        &[&[0x03C0_0000, 0x8000_0000, 0x7FFF_FFFF, 0, 0xFFFF_FFFF]],
        Err(ReadFault::Overflow(1)),
    ),
    (
        ("32 bits", 10, 2),
        &[&[0x03C0_0000, 0xFFFF_FFFF, 0x7FFF_FFFE, 0, 0x7FFF_FFFF]],
        Ok(&[-1, 0x7FFF_FFFE]),
    ),
    (
        ("seven", 11, 7),
        &[&[0x0300_0000, 10, 9, 0x801F_782E]],
        Ok(&[10, 11, 10, 17, 9, 11, 9]),
    ),
    (
        ("seven, spare bits set", 11, 7),
        &[&[0x0300_0000, 10, 9, 0xB01F_782E]],
        Ok(&[10, 11, 10, 17, 9, 11, 9]),
    ),
    (
        ("code 2 without a row", 11, 4),
        &[&[0x0200_0000, 10, 9, 0]],
        Err(ReadFault::BadWord(0, 3)),
    ),
    (
        ("code 3 without a row", 11, 4),
        &[&[0x0300_0000, 10, 9, 0xC000_0000]],
        Err(ReadFault::BadWord(0, 3)),
    ),
    (
        ("a bad word behind the last", 11, 4),
        &[&[0x0180_0000, 100, 103, 0x0001_0101, 0]],
        Ok(&[100, 101, 102, 103]),
    ),
    (
        ("a bad word before the last", 11, 5),
        &[&[0x0180_0000, 100, 103, 0x0001_0101, 0]],
        Err(ReadFault::BadWord(0, 4)),
    ),
    (
        ("one sample", 10, 1),
        &[&[0x0100_0000, 100, 100, 0x0001_0101]],
        Ok(&[100]),
    ),
    (
        ("one sample, no difference", 10, 1),
        &[&[0, 100, 100]],
        Err(ReadFault::Short(0)),
    ),
    (
        ("the second frame", 10, 4),
        &[&[0, 5, 11], &[0x1000_0000, 0x0001_0203]],
        Ok(&[5, 6, 8, 11]),
    ),
    (
        ("a bad word of the second frame", 11, 4),
        &[&[0, 5, 11], &[0x0020_0000]],
        Err(ReadFault::BadWord(1, 5)),
    ),
];

/// Whether the record of a case is read so.
fn is_case(alloc: Global, ((_, encoding, samples), frames, wanted): &Case) -> bool {
    let row = Row {
        encoding: *encoding,
        samples: *samples,
        frames: *frames,
        ..STEIM_1
    };
    is_record(alloc, &record(&row), *wanted)
}

#[test]
fn reads_steim(rt: HostRuntime) {
    for case in &CASES {
        assert!(rt; is_case(rt.alloc(), case), "{}", case.0.0);
    }
}

/// Where the data of records begin that have no payload, their word order, and their faults.
static REFUSED: [(&str, u8, u8, ReadFault); 3] = [
    ("less than a frame", 200, 1, ReadFault::Short(0)),
    ("little-endian", 64, 0, ReadFault::LittleSteim),
    ("data within the header", 47, 1, ReadFault::DataOffset),
];

#[test]
fn refuses_what_is_no_payload(rt: HostRuntime) {
    for (name, data, word_order, fault) in &REFUSED {
        let bytes = record(&Row {
            data: *data,
            word_order: *word_order,
            ..STEIM_1
        });
        assert!(rt; is_record(rt.alloc(), &bytes, Err(*fault)), "{name}");
    }
}

/// A frame of fifteen words of code 01, after one that holds the constants alone.
const BYTES: [u32; 16] = [
    0x1555_5555,
    0x0101_0101,
    0x0101_0101,
    0x0101_0101,
    0x0101_0101,
    0x0101_0101,
    0x0101_0101,
    0x0101_0101,
    0x0101_0101,
    0x0101_0101,
    0x0101_0101,
    0x0101_0101,
    0x0101_0101,
    0x0101_0101,
    0x0101_0101,
    0x0101_01FF,
];

/// Whether a payload hands out one difference at first, and then has 59 others ready.
fn is_run(payload: &[u8]) -> bool {
    let mut rest = [1; 59];
    rest[58] = -1;
    let mut items = Differences::over(payload, Scheme::Two);
    items.ready().is_empty()
        && items.next() == Some(Ok(1))
        && items.ready() == rest.as_slice()
        && items.count() == 59
}

#[test]
fn unpacks_a_run_of_bytes(rt: HostRuntime) {
    let row = Row {
        samples: 29,
        frames: &[&[0, 5, 33], &BYTES],
        ..STEIM_1
    };
    let mut samples = [0; 29];
    for i in 0..29 {
        samples[i] = 5 + i as i32;
    }
    let bytes = record(&row);
    assert!(rt; is_record(rt.alloc(), &bytes, Ok(&samples)), "29 of 60");
    assert!(rt; is_run(&bytes[64..192]));
}

/// Whether the next difference is this one.
fn hands_out(items: &mut Differences<'_>, wanted: Option<Result<i32, BadWordAt>>) -> bool {
    items.next() == wanted
}

/// How many differences a payload hands out.
fn count_of(payload: &[u8], scheme: Scheme) -> usize {
    Differences::over(payload, scheme).count()
}

#[test]
fn hands_out_differences(rt: HostRuntime) {
    let bytes = record(&Row {
        encoding: 11,
        frames: &[&[0x0180_0000, 100, 103, 0x0001_0203, 0, 0x0001_0203]],
        ..STEIM_1
    });
    let payload = &bytes[64..];
    let mut items = Differences::over(payload, Scheme::Two);
    for wanted in 0..4 {
        assert!(rt; hands_out(&mut items, Some(Ok(wanted))), "{wanted}");
    }
    let bad = BadWordAt { frame: 0, word: 4 };
    assert!(rt; hands_out(&mut items, Some(Err(bad))));
    assert!(rt; hands_out(&mut items, None));
    assert!(rt; hands_out(&mut items, None));
    assert!(rt; count_of(payload, Scheme::One) == 6);
    assert!(rt; count_of(payload.get(..63).unwrap_or(payload), Scheme::Two) == 0);
}
