//! Parts that are joined with a line for each border: rows with what is written, reported and answered.

use super::auditing::{OF_FIRST, OF_LATE};
use super::joining::{
    Answer, BOTH, BROKEN, CUT, CUT_OFF, EMPTY, FAULTY, NOTHING, REPORTED, Row, SOUND, TWO_OF_1,
    TWO_OF_3, WELL, assert_refusals, is_joined, joint, says_that_it_failed,
};
use mseed_join::{Closing, Flaw, JoinFault};

/// The line of the border between both records.
const BORDER: &str = "128 XX_STA__BHZ record 2 start 2024-01-01T00:00:00.825001 gap 25001\n";

/// That line, and the audit of both.
const EACH: &str = "128 XX_STA__BHZ record 2 start 2024-01-01T00:00:00.825001 gap 25001\n\
    XX_STA__BHZ broken findings 1 first record 2 offset 128 gap 25001\n\
    records 2 channels 1\n";

/// That line, and the audit of both, where the first ends with a fault that is passed.
const PASSED: &str = "128 XX_STA__BHZ record 2 start 2024-01-01T00:00:00.825001 gap 25001\n\
    XX_STA__BHZ broken findings 1 first record 2 offset 128 gap 25001\n\
    records 2 channels 1\n\
    faults 1\n";

const ROWS: [Row; 9] = [
    (NOTHING, (None, false, None), EMPTY, "", WELL),
    (SOUND, (None, false, None), EACH, "", BROKEN),
    (FAULTY, (None, false, None), CUT, "", CUT_OFF),
    (FAULTY, (None, true, None), PASSED, REPORTED, BOTH),
    (BAD, (None, false, Some(1)), BORDER, "", BAD_LINE),
    (SOUND, (None, false, Some(2)), EACH, "", BROKEN),
    (SOUND, (None, false, Some(1)), BORDER, "", TWO_OF_1),
    (FAULTY, (None, false, Some(3)), "", "", TWO_OF_3),
    (FAULTY, (None, true, Some(3)), BORDER, REPORTED, TWO_OF_3),
];

/// The parts of both records, and a text that is none; and what is answered there.
const BAD: [&str; 3] = [OF_FIRST, OF_LATE, "mseed part 2\n"];

const BAD_LINE: Answer = Err(JoinFault::Line {
    number: 7,
    offset: 312,
    flaw: Flaw::Ending(Closing::Neither),
});

#[test]
fn joins_with_borders(rt: HostRuntime) {
    for (index, row) in ROWS.iter().enumerate() {
        assert!(rt; is_joined(&rt, rt.alloc(), row), "row {index}");
    }
}

#[test]
fn says_that_no_line_was_taken(rt: HostRuntime) {
    let bytes = joint(&rt, rt.alloc(), &BAD);
    // The line of the border comes before the bad line is read.
    assert!(rt; says_that_it_failed(rt.alloc(), bytes.as_bytes(), (None, false, None)));
    // And before the parts are found to be too few.
    let bytes = joint(&rt, rt.alloc(), &SOUND);
    assert!(rt; says_that_it_failed(rt.alloc(), bytes.as_bytes(), (None, false, Some(3))));
}

#[test]
fn writes_a_prefix_where_memory_is_refused(rt: HostRuntime) {
    let bytes = joint(&rt, rt.alloc(), &SOUND);
    assert_refusals(&rt, rt.alloc(), bytes.as_bytes(), None, (EACH, EACH.len()));
}
