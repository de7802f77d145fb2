//! What shows of records that their samples are near one another.

ghost use Rattle.std.specs.Prelude.{◌<◌};
ghost use Rattle.mseed_record.specs.Viewing.{view_of};
ghost use Rattle.mseed_steim.specs.Reading.{count_of};

use super::record::{Row, STEIM_1, record};
use mseed_record::RecordView;
use mseed_steim::{check_samples, near_ends};

/// Two samples of Steim-2.
const STEIM_2: Row = Row {
    encoding: 11,
    samples: 2,
    frames: &[&[0x0280_0000, 0, 7, 0x4000_0000, 0x4000_0007]],
    ..STEIM_1
};

/// Two integers of 16 bits.
const SHORT: Row = Row {
    encoding: 1,
    samples: 2,
    frames: &[&[0x8000_7FFF]],
    ..STEIM_1
};

/// Two samples of Steim-1, the second by the last word of all.
const LAST_WORD: Row = Row {
    samples: 2,
    frames: &[
        &[0x0100_0000, 0, 0],
        &[3, 0, 0, 0, 0, 0, 0, 0, 0, 0, 0, 0, 0, 0, 0, 0x4000_0000],
    ],
    ..STEIM_1
};

/// Rows, and whether they show that.
static ROWS: [(&str, Row, bool); 4] = [
    ("steim-1", STEIM_1, true),
    ("steim-2", STEIM_2, true),
    ("16 bits", SHORT, true),
    ("the last word", LAST_WORD, false),
];

/// Two samples of Steim-1: the codes of the first frame, its constant for the last sample, its word 4, and whether they
/// show that.
static WORDS: [(&str, u32, u32, u32, bool); 5] = [
    // The words 3 and 4, of one difference each.
    ("30 bits", 0x03C0_0000, 0x1FFF_FFFF, 0x1FFF_FFFF, true),
    ("31 bits", 0x03C0_0000, 0x2000_0000, 0x2000_0000, false),
    ("30 bits down", 0x03C0_0000, 0xE000_0000, 0xE000_0000, true),
    ("31 bits down", 0x03C0_0000, 0xDFFF_FFFF, 0xDFFF_FFFF, false),
    // The same words, of two differences each.
    ("two differences", 0x0280_0000, 0, 0x7FFF_8000, true),
];

/// Two integers of 32 bits: their word order (1 is big-endian), their words, and whether they show that.
static INTEGERS: [(&str, u8, &[u32], bool); 6] = [
    ("29 bits", 1, &[0x0FFF_FFFF, 0xF000_0000], true),
    ("30 bits first", 1, &[0x1000_0000, 0], false),
    ("30 bits last", 1, &[0, 0xEFFF_FFFF], false),
    ("30 bits behind", 1, &[0, 0, 0x7FFF_FFFF], true),
    ("little", 0, &[0x1000_0000, 0], true),
    ("little and large", 0, &[0x0000_0010, 0], false),
];

/// Whether a row is a record with a reading that shows this.
fn shows(row: &Row, wanted: bool) -> bool {
    match RecordView::of(&record(row)) {
        Ok(view) => view.samples() != 0 && is_answered(&view, wanted),
        Err(_) => false,
    }
}

/// Whether a record has a reading, and its ends are returned exactly where this is wanted.
fn is_answered(view: &RecordView<'_>, wanted: bool) -> bool
    requires { 0 < count_of (view_of view.now) }
{
    match check_samples(view) {
        Ok(ends) => match near_ends(view) {
            Some(near) => wanted && near == ends,
            None => !wanted,
        },
        Err(_) => false,
    }
}

/// Two samples in this encoding, of this word order, and the words of their only frame.
fn pair_of<'a>(encoding: u8, word_order: u8, frames: &'a [&'a [u32]]) -> Row<'a> {
    Row {
        encoding,
        word_order,
        samples: 2,
        frames,
        ..STEIM_1
    }
}

#[test]
fn shows_what_is_near(rt: HostRuntime) {
    for (name, row, wanted) in &ROWS {
        assert!(rt; shows(row, *wanted), "{name}");
    }
    for (name, codes, last, word, wanted) in &WORDS {
        let words = [*codes, 0, *last, 0, *word];
        assert!(rt; shows(&pair_of(10, 1, &[&words]), *wanted), "{name}");
    }
    for (name, order, words, wanted) in &INTEGERS {
        assert!(rt; shows(&pair_of(3, *order, &[*words]), *wanted), "{name}");
    }
}
