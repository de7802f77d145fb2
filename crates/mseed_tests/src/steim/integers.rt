//! Samples that are integers.

use super::record::{Row, is_record, record};
use mseed_steim::ReadFault;

const LONG: Row = Row {
    encoding: 3,
    word_order: 1,
    data: 64,
    samples: 3,
    frames: &[&[1, 0xFFFF_FFFF, 0x8000_0000]],
};

const SHORT: Row = Row {
    encoding: 1,
    word_order: 1,
    data: 64,
    samples: 4,
    frames: &[&[0x0001_FFFF, 0x8000_7FFF]],
};

const LONG_LITTLE: Row = Row {
    word_order: 0,
    frames: &[&[0x0100_0000, 0xFFFF_FFFF, 0x80]],
    ..LONG
};

const SHORT_LITTLE: Row = Row {
    word_order: 0,
    frames: &[&[0x0100_FFFF, 0x0080_FF7F]],
    ..SHORT
};

/// The samples of the rows of 32 bits.
const LONGS: &[i32] = &[1, -1, i32::MIN];

/// Those of the rows of 16.
const SHORTS: &[i32] = &[1, -1, -32768, 32767];

/// Rows, and what is read of them.
static ROWS: [(&str, Row, Result<&[i32], ReadFault>); 9] = [
    ("32 bits", LONG, Ok(LONGS)),
    ("32 bits, little-endian", LONG_LITTLE, Ok(LONGS)),
    ("16 bits", SHORT, Ok(SHORTS)),
    ("16 bits, little-endian", SHORT_LITTLE, Ok(SHORTS)),
    ("32 bits to the end", Row { data: 244, ..LONG }, Ok(LONGS)),
    (
        "32 bits past the end",
        Row {
            data: 244,
            samples: 4,
            ..LONG
        },
        Err(ReadFault::Short(3)),
    ),
    ("16 bits to the end", Row { data: 248, ..SHORT }, Ok(SHORTS)),
    (
        "16 bits past the end",
        Row { data: 249, ..SHORT },
        Err(ReadFault::Short(3)),
    ),
    ("another encoding", FLOATS, Err(ReadFault::Encoding(4))),
];

/// An encoding that isn't read.
const FLOATS: Row = Row {
    encoding: 4,
    data: 0,
    ..LONG
};

#[test]
fn reads_integers(rt: HostRuntime) {
    for (name, row, wanted) in &ROWS {
        assert!(rt; is_record(rt.alloc(), &record(row), *wanted), "{name}");
    }
}

#[test]
fn refuses_another_rate_first(rt: HostRuntime) {
    let mut bytes = record(&FLOATS);
    bytes[56] = 0;
    bytes[57] = 100;
    assert!(rt; is_record(rt.alloc(), &bytes, Err(ReadFault::Blockette100)));
}
