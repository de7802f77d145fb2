//! Lines of a part: rows that are read and written back, and texts that are no lines.

mod auditing;
mod joining;
mod joining_each;

use crate::audit::devices::assert_refusals;
use crate::records::{START, alone, both};
use linked_list_allocator::LocalHeap;
use mseed_audit::Channel;
use mseed_join::{
    FIRST_LINE, Field, first_bad_field, push_channel_line, push_counts_line, push_faults_line,
    read_channel_line, read_counts_line, read_fault_line, read_faults_line,
};
use mseed_record::Codes;
use mseed_text::push_fault_line;
use std::alloc::Global;
use std::process::Abort;

/// A channel of a record, and the same with one that begins 25,001 microseconds late after it.
static LINES: [&str; 2] = [
    "58585354412020202042485A records 1 samples 16 head 1 0 1704067200000000 20/1 \
        tail 1704067200000000 16 20/1 none findings 0\n",
    "58585354412020202042485A records 2 samples 32 head 1 0 1704067200000000 20/1 \
        tail 1704067200825001 16 20/1 none findings 1 first 2 128 gap 25001\n",
];

/// Each way to write a field.
static FIELDS: [&str; 19] = [
    "head none tail none findings 9223372036854775807 first 9223372036854775807 9223372036854775807 time year",
    "head none tail none findings 1 first 1 0 time day",
    "head none tail none findings 1 first 1 0 time hour",
    "head none tail none findings 1 first 1 0 time minute",
    "head none tail none findings 1 first 1 0 time second",
    "head none tail none findings 1 first 1 0 time fraction",
    "head none tail none findings 1 first 1 0 norate",
    "head none tail none findings 1 first 1 0 blockette100",
    "head none tail -5364662400000000 1 1073741824/1073741824 positive findings 1 first 1 0 encoding 255",
    "head none tail -1 65535 1/1 negative findings 1 first 1 0 littlesteim",
    "head none tail 0 9 7/3 both findings 1 first 1 0 dataoffset",
    "head 3 0 -5364662400000000 1/1 tail none findings 1 first 4 128 short 9223372036854775807",
    "head 3 0 7258118399999999 1/1073741824 tail none findings 1 first 4 128 badword 0 15",
    "head 1 0 0 20/1 tail none findings 10 first 4 128 overflow 0",
    "head 1 0 -9 20/1 tail none findings 2 first 4 128 lastdiffers -2147483648 2147483647",
    "head 1 0 0 20/1 tail none findings 2 first 4 128 ratechange",
    "head 1 0 0 20/1 tail none findings 2 first 4 128 leap",
    "head 1 0 0 20/1 tail none findings 2 first 4 128 gap 340282366920938463463374607431768211455",
    "head 1 0 0 20/1 tail none findings 2 first 4 128 overlap 25001",
];

/// What comes after a key and the counts, and is no channel's line.
static REFUSED: [&str; 27] = [
    "head none tail none findings 0",
    "head 1 0 0 20/1 tail none findings 0",
    "head none tail 0 16 20/1 none findings 0",
    "head 1 0 0 20/1 tail 0 16 20/1 none findings 0 first 1 0 leap",
    "head none tail none findings 1",
    "head none tail none findings 01 first 1 0 leap",
    "head none tail none findings 9223372036854775808 first 1 0 leap",
    "head none tail none findings 1 first 1 0 leap ",
    "head none tail none findings 1 first 1 0 Leap",
    "head none tail none findings 1 first 1 0 time",
    "head none tail none findings 1 first 1 0 time week",
    "head none tail none findings 1 first 1 0 encoding 256",
    "head none tail none findings 1 first 1 0 badword 1  2",
    "head none tail none findings 1 first 1 0 lastdiffers -0 1",
    "head none tail none findings 1 first 1 0 lastdiffers 2147483648 1",
    "head none tail none findings 1 first 1 0 lastdiffers -2147483649 1",
    "head none tail none findings 1 first 1 0 gap 340282366920938463463374607431768211456",
    "head none tail none findings 1 first 1 0 gap -1",
    "head 1 0 -0 20/1 tail none findings 1 first 1 0 leap",
    "head 1 0 00 20/1 tail none findings 1 first 1 0 leap",
    "head 1 0 -5364662400000001 20/1 tail none findings 1 first 1 0 leap",
    "head 1 0 7258118400000000 20/1 tail none findings 1 first 1 0 leap",
    "head 1 0 0 0/1 tail none findings 1 first 1 0 leap",
    "head 1 0 0 1/1073741825 tail none findings 1 first 1 0 leap",
    "head none tail 0 0 20/1 none findings 1 first 1 0 leap",
    "head none tail 0 65536 20/1 none findings 1 first 1 0 leap",
    "head none tail 0 16 20/1 neither findings 1 first 1 0 leap",
];

/// The lines of faults after 128 bytes.
static FAULTS: [&str; 10] = [
    "fault at 128 notdata\n",
    "fault at 128 order\n",
    "fault at 128 chain\n",
    "fault at 128 no1000\n",
    "fault at 128 length 255\n",
    "fault at 128 outside\n",
    "fault at 128 version3\n",
    "fault at 128 truncated 9223372036854775807\n",
    "fault at 128 read\n",
    "fault at 128 turns\n",
];

/// What is no line of a fault after 128 bytes.
static NO_FAULTS: [&str; 6] = [
    "fault at 127 read\n",
    "fault at 0128 read\n",
    "fault at 128 read",
    "fault at 128 length 256\n",
    "fault at 128 truncated\n",
    "faults 128\n",
];

/// Lines that are neither of a channel nor of the counts, and the first bad field of each.
const BAD_FIELDS: [(&str, Field); 23] = [
    ("\n", Field::Key),
    ("faults 3\n", Field::Key),
    ("58585354412020202042485a records 1\n", Field::Key),
    ("58585354412020202042485A0 records 1\n", Field::Key),
    ("58585354412020202042485A\n", Field::Records),
    (
        "58585354412020202042485A records 01 samples x\n",
        Field::Records,
    ),
    (
        "58585354412020202042485A records 1 sample 16\n",
        Field::Samples,
    ),
    (
        "58585354412020202042485A records 1 samples 16 head 1 0 0 20 tail x\n",
        Field::HeadRate,
    ),
    (
        "58585354412020202042485A records 1 samples 16 head nonex tail x\n",
        Field::HeadNumber,
    ),
    (
        "58585354412020202042485A records 1 samples 16 head -1 0 0 20/1 tail x\n",
        Field::HeadNumber,
    ),
    (
        "58585354412020202042485A records 1 samples 16 head 1 00 0 20/1 tail x\n",
        Field::HeadOffset,
    ),
    (
        "58585354412020202042485A records 1 samples 16 head 1 0 -0 20/1 tail x\n",
        Field::HeadStart,
    ),
    (
        "58585354412020202042485A records 1 samples 16 head none tail x 1 20/1 none\n",
        Field::TailStart,
    ),
    (
        "58585354412020202042485A records 1 samples 16 head none tail 0 0 20/1 none findings x\n",
        Field::TailSamples,
    ),
    (
        "58585354412020202042485A records 1 samples 16 head none tail 0 1 20/0 none findings x\n",
        Field::TailRate,
    ),
    (
        "58585354412020202042485A records 1 samples 16 head none tail 0 1 20/1 leap findings x\n",
        Field::TailLeap,
    ),
    (
        "58585354412020202042485A records 1 samples 16 head none tail 0 1 20/1 none findings 0\n",
        Field::Findings,
    ),
    (
        "58585354412020202042485A records 1 samples 16 head none tail none findings -1\n",
        Field::Findings,
    ),
    (
        "58585354412020202042485A records 1 samples 16 head none tail none findings 1\n",
        Field::First,
    ),
    (
        "58585354412020202042485A records 1 samples 16 head 1 0 0 20/1 tail 0 1 20/1 none findings 0 \n",
        Field::First,
    ),
    ("records\n", Field::Key),
    ("records 9223372036854775808 bytes x\n", Field::AllRecords),
    ("records 2 bytes 256 \n", Field::AllBytes),
];

/// The line of a channel with these fields.
fn line_with(rt: &impl Abort, alloc: Global, fields: &str) -> String {
    let line = format!(in alloc; "000A1F20FF30390941465F7E records 12 samples 345 {fields}\n");
    line.expect(rt, "memory")
}

/// Whether the line of XX_STA__BHZ reads so.
fn is_read(line: &str, wanted: &Channel) -> bool {
    match read_channel_line(line.as_bytes()) {
        Some((codes, channel)) => codes == Codes::of_key(*b"XXSTA    BHZ") && channel == *wanted,
        None => false,
    }
}

#[test]
fn reads_rows(rt: HostRuntime) {
    assert!(rt; is_read(LINES[0], &alone(&rt, START)));
    assert!(rt; is_read(LINES[1], &both(&rt)));
    assert!(rt; read_counts_line(b"records 2 bytes 256\n") == Some((2, 256)));
    assert!(rt; read_faults_line(b"faults 3\n") == Some(3));
    assert!(rt; FIRST_LINE == b"mseed part 1\n".as_slice());
}

/// The first bad field of a line, where it is neither of a channel nor of the counts.
fn bad_field(line: &[u8]) -> Option<Field> {
    if let Some(_) = read_channel_line(line) {
        return None;
    }
    match read_counts_line(line) {
        Some(_) => None,
        None => Some(first_bad_field(line)),
    }
}

#[test]
fn names_bad_fields(rt: HostRuntime) {
    for (line, field) in &BAD_FIELDS {
        assert!(rt; bad_field(line.as_bytes()) == Some(*field), "{line}");
    }
}

/// Whether what is read of a channel's line is written as it was.
fn is_written_again(rt: &impl Abort, alloc: Global, line: &[u8]) -> bool {
    let mut text = Vec::new(alloc);
    let Some((codes, channel)) = read_channel_line(line) else {
        return false;
    };
    push_channel_line(&mut text, &codes, &channel).expect(rt, "memory");
    text.as_slice() == line
}

/// Whether what is read of a fault's line is written as it was.
fn is_fault_written_again(rt: &impl Abort, alloc: Global, line: &[u8]) -> bool {
    let mut text = Vec::new(alloc);
    match read_fault_line(line, 128) {
        Some(fault) => push_fault_line(&mut text, &fault).expect(rt, "memory"),
        None => return false,
    }
    text.as_slice() == line
}

/// The lines of counts, of no faults and of three.
fn counts(rt: &impl Abort, alloc: Global) -> Vec<u8> {
    let mut text = Vec::new(alloc);
    push_counts_line(&mut text, 2, 256).expect(rt, "memory");
    push_faults_line(&mut text, 0).expect(rt, "memory");
    push_faults_line(&mut text, 3).expect(rt, "memory");
    text
}

#[test]
fn writes_what_it_reads(rt: HostRuntime) {
    for fields in &FIELDS {
        let line = line_with(&rt, rt.alloc(), fields);
        let is_same = is_written_again(&rt, rt.alloc(), line.as_bytes());
        assert!(rt; is_same, "{fields}");
    }
    for fault in &FAULTS {
        let line = fault.as_bytes();
        assert!(rt; is_fault_written_again(&rt, rt.alloc(), line), "{fault}");
    }
    let text = counts(&rt, rt.alloc());
    assert!(rt; text.as_slice() == b"records 2 bytes 256\nfaults 3\n".as_slice());
}

/// Asserts that no prefix of a line is a channel's.
fn assert_whole(rt: &impl Abort, line: &[u8]) {
    for end in 0..line.len() {
        assert!(rt; read_channel_line(&line[..end]).is_none(), "{end}");
    }
}

/// What is no line of a channel, and none of counts or faults.
fn refuses_each() -> bool {
    read_channel_line(b"58585354412020202042485a records 1").is_none()
        && read_faults_line(b"faults 0\n").is_none()
        && read_counts_line(b"records 2 channels 1\n").is_none()
}

#[test]
fn refuses_other_texts(rt: HostRuntime) {
    for fields in &REFUSED {
        let line = line_with(&rt, rt.alloc(), fields);
        assert!(rt; read_channel_line(line.as_bytes()).is_none(), "{fields}");
    }
    for text in &NO_FAULTS {
        assert!(rt; read_fault_line(text.as_bytes(), 128).is_none(), "{text}");
    }
    assert_whole(&rt, LINES[0].as_bytes());
    assert!(rt; refuses_each());
}

/// Writes the second line with the memory of a heap, and says whether it was enough. Where it wasn't, a prefix is
/// written.
fn is_enough(rt: &impl Abort, heap: &LocalHeap) -> bool {
    let line = LINES[1].as_bytes();
    let (codes, channel) = read_channel_line(line).expect(rt, "a channel");
    let mut text = Vec::new(heap);
    let is_whole = push_channel_line(&mut text, &codes, &channel).is_ok();
    assert!(rt; line.starts_with(&text) && (!is_whole || text.len() == line.len()));
    is_whole
}

#[test]
fn refuses_memory(rt: HostRuntime) {
    assert_refusals(&rt, rt.alloc(), 1..65, 16, |heap| is_enough(&rt, heap));
}
