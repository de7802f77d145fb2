//! Parts that are joined: rows with what is written, reported and answered.

use super::auditing::{OF_FIRST, OF_LATE};
use crate::audit::devices::{self, sink_with};
use mseed_join::{Closing, Field, Flaw, Form, JoinFault, Joined, join, join_each};
use mseed_stream::Counted;
use std::alloc::{Allocator, Global};
use std::process::Abort;

/// The last line of the part of an archive that ends with a fault after its first record.
const FAULT: &str = "fault at 128 truncated 1\n";

/// No parts.
pub(super) const NOTHING: [&str; 3] = ["", "", ""];

/// The parts of both records, and the same where the first archive ends with a fault.
pub(super) const SOUND: [&str; 3] = [OF_FIRST, "", OF_LATE];

pub(super) const FAULTY: [&str; 3] = [OF_FIRST, FAULT, OF_LATE];

/// The audit of no parts.
pub(super) const EMPTY: &str = "records 0 channels 0\n";

/// The audit of both records.
const AUDIT: &str = "XX_STA__BHZ broken findings 1 first record 2 offset 128 gap 25001\n\
    records 2 channels 1\n";

/// Their part.
const PART: &str = "mseed part 1\n\
    58585354412020202042485A records 2 samples 32 head 1 0 1704067200000000 20/1 \
        tail 1704067200825001 16 20/1 none findings 1 first 2 128 gap 25001\n\
    records 2 bytes 256\n";

/// The audit of the first record, which ends with a fault.
pub(super) const CUT: &str =
    "XX_STA__BHZ continuous 2024-01-01T00:00:00.000000 rate 20/1 records 1 samples 16\n\
    records 1 channels 1\n\
    fault at 128 truncated 1\n";

/// The audit of both records, where the first ends with a fault that is passed.
const PASSED: &str = "XX_STA__BHZ broken findings 1 first record 2 offset 128 gap 25001\n\
    records 2 channels 1\n\
    faults 1\n";

/// What is reported of that fault.
pub(super) const REPORTED: &str = "mseed: part 1 fault at 128 truncated 1\n";

/// Three texts, one after another.
pub(super) fn joint(rt: &impl Abort, alloc: Global, parts: &[&str; 3]) -> String {
    let [first, second, third] = parts;
    format!(in alloc; "{first}{second}{third}").expect(rt, "memory")
}

/// What comes of a join: the answer, and what is written and reported.
#[derive(Drop)]
struct Outcome {
    answer: Result<Joined, JoinFault>,
    written: Vec<u8>,
    reported: Vec<u8>,
}

/// The form into which parts are joined, or else with borders, whether faults are passed, and how many parts are
/// expected.
type How = (Option<Form>, bool, Option<u64>);

/// Into an audit, and into a part.
const AN_AUDIT: Option<Form> = Some(Form::Audit);

const A_PART: Option<Form> = Some(Form::Part);

/// Joins the parts of a text with this memory into a form, or else with a line for each border, to an output with so
/// much room.
fn outcome_of<A: Allocator + Copy>(
    alloc: Global,
    memory: A,
    bytes: &[u8],
    (form, past_faults, expected): How,
    room: usize,
) -> Outcome {
    let mut source = Counted::new(bytes);
    let mut sink = sink_with(alloc, room);
    let mut errors = sink_with(alloc, ALL);
    let answer = match form {
        Some(form) => join(
            memory,
            form,
            past_faults,
            expected,
            &mut source,
            &mut sink,
            &mut errors,
        ),
        None => join_each(
            memory,
            past_faults,
            expected,
            &mut source,
            &mut sink,
            &mut errors,
        ),
    };
    Outcome {
        answer,
        written: sink.into_inner().taken,
        reported: errors.into_inner().taken,
    }
}

/// Room for all that is written.
const ALL: usize = 1 << 20;

/// What is answered of a join.
pub(super) type Answer = Result<Joined, JoinFault>;

/// Three texts of parts and how they are joined; and what is written, reported and answered.
pub(super) type Row = ([&'static str; 3], How, &'static str, &'static str, Answer);

/// What is answered where no channel is broken, and no archive ends with a fault.
pub(super) const WELL: Answer = Ok(Joined {
    broken: 0,
    fault: false,
});

/// What is answered where a channel is broken.
pub(super) const BROKEN: Answer = Ok(Joined {
    broken: 1,
    fault: false,
});

/// What is answered where an archive ends with a fault.
pub(super) const CUT_OFF: Answer = Ok(Joined {
    broken: 0,
    fault: true,
});

/// What is answered where a channel is broken, and an archive ends with a fault.
pub(super) const BOTH: Answer = Ok(Joined {
    broken: 1,
    fault: true,
});

/// What is answered where there are so many parts of those that are expected.
const NONE_OF_1: Answer = Err(JoinFault::Count(0, 1));

pub(super) const TWO_OF_1: Answer = Err(JoinFault::Count(2, 1));

pub(super) const TWO_OF_3: Answer = Err(JoinFault::Count(2, 3));

const ROWS: [Row; 5] = [
    (NOTHING, (AN_AUDIT, false, None), EMPTY, "", WELL),
    (SOUND, (AN_AUDIT, false, None), AUDIT, "", BROKEN),
    (SOUND, (A_PART, false, None), PART, "", BROKEN),
    (FAULTY, (AN_AUDIT, false, None), CUT, "", CUT_OFF),
    (FAULTY, (AN_AUDIT, true, None), PASSED, REPORTED, BOTH),
];

/// Parts of which a number is expected: the one that isn't counted after a fault too.
const COUNTED: [Row; 8] = [
    (SOUND, (AN_AUDIT, false, Some(2)), AUDIT, "", BROKEN),
    (SOUND, (A_PART, false, Some(2)), PART, "", BROKEN),
    (FAULTY, (AN_AUDIT, false, Some(2)), CUT, "", CUT_OFF),
    (FAULTY, (AN_AUDIT, true, Some(2)), PASSED, REPORTED, BOTH),
    (NOTHING, (AN_AUDIT, false, Some(1)), "", "", NONE_OF_1),
    (SOUND, (A_PART, false, Some(3)), "", "", TWO_OF_3),
    (FAULTY, (AN_AUDIT, false, Some(1)), "", "", TWO_OF_1),
    (FAULTY, (A_PART, true, Some(1)), "", REPORTED, TWO_OF_1),
];

/// Whether parts are joined as a row says.
pub(super) fn is_joined(rt: &impl Abort, alloc: Global, row: &Row) -> bool {
    let (parts, how, text, reported, joined) = row;
    let bytes = joint(rt, alloc, parts);
    let outcome = outcome_of(alloc, alloc, bytes.as_bytes(), *how, ALL);
    outcome.answer == *joined
        && outcome.written.as_slice() == text.as_bytes()
        && outcome.reported.as_slice() == reported.as_bytes()
}

#[test]
fn joins_parts(rt: HostRuntime) {
    for (index, row) in ROWS.iter().enumerate() {
        assert!(rt; is_joined(&rt, rt.alloc(), row), "row {index}");
    }
}

#[test]
fn counts_parts(rt: HostRuntime) {
    for (index, row) in COUNTED.iter().enumerate() {
        assert!(rt; is_joined(&rt, rt.alloc(), row), "row {index}");
    }
}

/// Texts that are no parts, their first bad lines, where these begin, and what is wrong with them.
const BAD_LINES: [(&str, u64, u64, Flaw); 6] = [
    ("mseed part 2\n", 1, 0, Flaw::Beginning),
    ("mseed part 1\n", 2, 13, Flaw::Missing),
    (
        "mseed part 1\nrecords 1 bytes\n",
        2,
        13,
        Flaw::Row(Field::AllBytes),
    ),
    ("mseed part 1\nfaults 1\n", 2, 13, Flaw::Row(Field::Key)),
    ("mseed part 1\nrecords 1 bytes 128", 2, 13, Flaw::Unended),
    (
        "mseed part 1\nrecords 1 bytes 128\nfaults 0\n",
        3,
        33,
        Flaw::Ending(Closing::Faults),
    ),
];

/// Whether the audit of a text is refused so, with nothing written.
fn is_refused(alloc: Global, text: &str, fault: JoinFault) -> bool {
    let how = (AN_AUDIT, false, None);
    let outcome = outcome_of(alloc, alloc, text.as_bytes(), how, ALL);
    outcome.answer == Err(fault) && outcome.written.is_empty()
}

#[test]
fn names_bad_lines(rt: HostRuntime) {
    for (text, number, offset, flaw) in &BAD_LINES {
        let fault = JoinFault::Line {
            number: *number,
            offset: *offset,
            flaw: *flaw,
        };
        assert!(rt; is_refused(rt.alloc(), text, fault), "{text}");
    }
}

/// Whether a join says that an output without room failed.
pub(super) fn says_that_it_failed(alloc: Global, bytes: &[u8], how: How) -> bool {
    outcome_of(alloc, alloc, bytes, how, 0).answer == Err(JoinFault::Write)
}

#[test]
fn says_that_the_output_failed(rt: HostRuntime) {
    let how = (A_PART, false, Some(1));
    assert!(rt; says_that_it_failed(rt.alloc(), OF_FIRST.as_bytes(), how));
}

/// Says whether memory was enough to write a text. Where it wasn't, at most so many bytes that begin it are written.
fn is_enough(rt: &impl Abort, outcome: &Outcome, text: &str, most: usize) -> bool {
    assert!(rt; text.as_bytes().starts_with(&outcome.written));
    let written = outcome.written.len();
    if outcome.answer.is_ok() {
        assert!(rt; written == text.len());
    } else {
        assert!(rt; outcome.answer == Err(JoinFault::Memory) && written <= most);
    }
    outcome.answer.is_ok()
}

/// Asserts that memory from 2 KiB on is enough or is refused, each at some time, where parts are joined to a text.
/// Where it is refused, at most so many bytes that begin the text are written.
pub(super) fn assert_refusals(
    rt: &impl Abort,
    alloc: Global,
    bytes: &[u8],
    form: Option<Form>,
    (text, most): (&str, usize),
) {
    // The buffer for lines takes 64 KiB of it.
    devices::assert_refusals(rt, alloc, 1..65, 2048, |heap| {
        let outcome = outcome_of(alloc, heap, bytes, (form, false, None), ALL);
        is_enough(rt, &outcome, text, most)
    });
}

#[test]
fn writes_nothing_where_memory_is_refused(rt: HostRuntime) {
    let bytes = OF_FIRST.as_bytes();
    assert_refusals(&rt, rt.alloc(), bytes, A_PART, (OF_FIRST, 0));
}
