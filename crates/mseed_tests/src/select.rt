//! Records that are asked for. Instants were computed by Python's `datetime` and `fractions`.

use crate::audit::devices::{assert_refusals, sink_with};
use crate::records::{BHN, FIRST, START, put, two, view, with};
use linked_list_allocator::LocalHeap;
use mseed_record::{FrameFault, RecordView};
use mseed_select::{
    Answer, BadTime, BadWindow, Patterns, SelectFault, Selected, Selector, read_time, select,
};
use mseed_stream::{Counted, StreamFault};
use mseed_time::Micros;
use std::alloc::Global;
use std::process::Abort;

/// Texts, and whether they are patterns of channels.
static TEXTS: [(&[u8], bool); 18] = [
    (b"XX_STA__BHZ", true),
    (b"XX_STA_--_BHZ", true),
    (b"*_*_*_*", true),
    (b"??_az09AZ-_*_B*Z", true),
    (b"___", true),
    (b"X-_-_-_-,___", true),
    (b"XX_STA__BH?,IU_ANMO_00_*", true),
    (b"", false),
    (b"XX_STA_BHZ", false),
    (b"XX_STA___BHZ", false),
    (b"____", false),
    (b",___", false),
    (b"___,", false),
    (b"___,,___", false),
    (b"XX_STA__BHZ ", false),
    (b"XX_ST.__BHZ", false),
    (b"XX_STA__BH\x00", false),
    (b"XX_STA__BH[Z]", false),
];

#[test]
fn reads_patterns(rt: HostRuntime) {
    for (text, is_read) in &TEXTS {
        assert!(rt; Patterns::read(text).is_ok() == *is_read, "{text:?}");
    }
}

/// Words, and the microseconds from 1970-01-01T00:00:00 that they say.
static WORDS: [(&[u8], i64); 17] = [
    (b"2024-05-14", 1_715_644_800_000_000),
    (b"2024-135", 1_715_644_800_000_000),
    (b"2024-135Z", 1_715_644_800_000_000),
    (b"1900-01-01", -2_208_988_800_000_000),
    (b"1901-001", -2_177_452_800_000_000),
    (b"2000-060", 951_782_400_000_000),
    (b"2024-02-29T03", 1_709_175_600_000_000),
    (b"1999-12-31T00Z", 946_598_400_000_000),
    (b"2024-12-01", 1_733_011_200_000_000),
    (b"2024-366", 1_735_603_200_000_000),
    (b"2024-05-14T03:20Z", 1_715_656_800_000_000),
    (b"2024-135T03:20:07", 1_715_656_807_000_000),
    (b"2024-05-14T03:20:07.5", 1_715_656_807_500_000),
    (b"2024-05-14T03:20:07.05", 1_715_656_807_050_000),
    (b"2024-05-14T03:20:07.000001Z", 1_715_656_807_000_001),
    // Second 60 of a minute that has no leap second, and of the last minute.
    (b"2024-05-14T12:34:60", 1_715_690_100_000_000),
    (b"2100-12-31T23:59:60.999999Z", 4_133_980_800_999_999),
];

/// Words that are no times.
static NO_WORDS: [&[u8]; 36] = [
    b"",
    b"Z",
    b"2024",
    b"2024-5-14",
    b"2024-05",
    b"2024-05-1",
    b"2024-05-014",
    b"24-05-14",
    b"02024-05-14",
    b"2024-05-14-01",
    b"2024-13-01",
    b"2024-00-01",
    b"2024-01-00",
    b"2023-02-29",
    b"1900-02-29",
    b"2024-04-31",
    b"2023-366",
    b"2024-367",
    b"2024-000",
    b"1899-12-31",
    b"2101-01-01",
    b"2024-05-14T",
    b"2024-05-14T3",
    b"2024-05-14T24",
    b"2024-05-14T03:60",
    b"2024-05-14T03:20:61",
    b"2024-05-14T03:20:07.",
    b"2024-05-14T03:20:07.1234567",
    b"2024-05-14T03:20:07.5.5",
    b"2024-05-14T03:20:07:08",
    b"2024-05-14T03.5",
    b"2024-05-14t03",
    b"2024-05-14T03z",
    b"2024-05-14T03ZZ",
    b"2024-05-14 03:20",
    b"2024-05-1/",
];

#[test]
fn reads_times(rt: HostRuntime) {
    for (word, micros) in &WORDS {
        let time = read_time(word).expect(&rt, "a time");
        assert_eq!(rt; time.get(), *micros);
    }
    for word in &NO_WORDS {
        assert!(rt; read_time(word).is_err());
    }
    assert!(rt; read_time(b"now") == Err(BadTime));
}

/// An instant, where there is one.
fn instant(micros: Option<i64>) -> Option<Micros> {
    Micros::new(micros?)
}

/// Patterns, where there are some.
fn patterns(text: Option<&[u8]>) -> Option<Patterns<'_>> {
    match text {
        Some(text) => Patterns::read(text).ok(),
        None => None,
    }
}

/// What asks for the records of these channels, in this window.
pub(crate) fn selector_of<'a>(
    channels: Option<&'a [u8]>,
    from: Option<i64>,
    until: Option<i64>,
) -> Result<Selector<'a>, BadWindow> {
    Selector::new(patterns(channels), instant(from), instant(until))
}

/// Whether a record is asked for; `None` where the window is refused.
fn answer_for(
    channels: Option<&[u8]>,
    from: Option<i64>,
    until: Option<i64>,
    record: &RecordView,
) -> Option<Answer> {
    match selector_of(channels, from, until) {
        Ok(selector) => Some(selector.asks_for(record)),
        Err(BadWindow) => None,
    }
}

/// A pattern, a channel's station, location, channel and network as they stand in a header, and whether it matches.
static PATTERNS: [(&[u8], &[u8; 12], bool); 26] = [
    (b"XX_STA__BHZ", b"STA    BHZXX", true),
    (b"XX_STA_--_BHZ", b"STA    BHZXX", true),
    (b"XX_STA_--_BHZ", b"STA  --BHZXX", true),
    (b"XX_STA__BHZ", b"STA  --BHZXX", false),
    (b"XX_STA_-?_BHZ", b"STA    BHZXX", false),
    (b"XX_STA__BHZ", b"STA\x00\x00\x00\x00BHZXX", true),
    (b"XX_STA__BHZ", b"STA  00BHZXX", false),
    (b"XX_STA_*_BHZ", b"STA  00BHZXX", true),
    (b"XX_STA_??_BHZ", b"STA    BHZXX", false),
    (b"XX_STA__BH?", b"STA    BHZXX", true),
    (b"XX_STA__BH?", b"STA    BH XX", false),
    (b"XX_STA__BH*", b"STA    BH XX", true),
    (b"XX_STA__bhz", b"STA    BHZXX", false),
    (b"XX_STA?__BHZ", b"STA    BHZXX", false),
    (b"XX_STA*__BHZ", b"STA    BHZXX", true),
    (b"XX_*A__BHZ", b"STA    BHZXX", true),
    (b"XX_*T__BHZ", b"STA    BHZXX", false),
    (b"XX_*T*__BHZ", b"STA    BHZXX", true),
    (b"XX_**?**A**__***", b"STA    BHZXX", true),
    (b"XX_*?*?*?*?__BHZ", b"STA    BHZXX", false),
    // A code with a `_` in it, or with a byte that can't be printed.
    (b"XX_S?A__BHZ", b"S_A    BHZXX", true),
    (b"XX_S?A__BHZ", b"S\x07A    BHZXX", true),
    // A space before another byte is of the code.
    (b"XX_?STA__BHZ", b" STA   BHZXX", true),
    (b"___", b"            ", true),
    (b"_STA__BHZ,XX_STB__BHZ", b"STA    BHZXX", false),
    (b"XX_STB__BHZ,X?_STA__*", b"STA    BHZXX", true),
];

#[test]
fn matches_channels(rt: HostRuntime) {
    for (pattern, codes, is_matched) in &PATTERNS {
        let record = with(&[(8, codes.as_slice())]);
        let expected = if *is_matched {
            Answer::AskedFor
        } else {
            Answer::Left
        };
        assert!(rt; answer_for(Some(pattern), None, None, &view(&rt, &record)) == Some(expected));
    }
}

/// A number of samples, a factor and a multiplier as they stand in a header, and how many microseconds the last sample
/// is after the first, rounded down.
static SPANS: [(&[u8; 6], i64); 12] = [
    // 1/3600, 1/7 and 1/1,000,000 samples a second.
    (&[0, 3, 241, 240, 0, 1], 7_200_000_000),
    (&[0, 4, 255, 249, 0, 1], 21_000_000),
    (&[0, 2, 252, 24, 252, 24], 1_000_000_000_000),
    // 3, 20, 100 and 1000.
    (&[0, 5, 0, 3, 0, 1], 1_333_333),
    (&[0, 16, 0, 20, 0, 1], 750_000),
    (&[255, 255, 0, 100, 0, 1], 655_340_000),
    (&[3, 232, 3, 232, 0, 1], 999_000),
    // 30/7 and 333.
    (&[0, 10, 0, 30, 255, 249], 2_100_000),
    (&[0, 2, 1, 77, 0, 1], 3003),
    // One sample, no sample, and no rate.
    (&[0, 1, 255, 255, 0, 1], 0),
    (&[0, 0, 0, 20, 0, 1], 0),
    (&[0, 16, 0, 0, 0, 1], 0),
];

#[test]
fn bounds_a_window_exactly(rt: HostRuntime) {
    for (fields, span) in &SPANS {
        let bytes = with(&[(30, fields.as_slice())]);
        let record = view(&rt, &bytes);
        let last = START.saturating_add(*span);
        let behind = last.saturating_add(1);
        let at = |from, until| answer_for(None, from, until, &record);
        assert!(rt; at(Some(last), None) == Some(Answer::AskedFor));
        assert!(rt; at(Some(behind), None) == Some(Answer::Left));
        assert!(rt; at(None, Some(START + 1)) == Some(Answer::AskedFor));
        assert!(rt; at(None, Some(START)) == Some(Answer::Left));
        assert!(rt; at(Some(last), Some(behind)) == Some(Answer::AskedFor));
        assert!(rt; at(Some(START - 1), Some(START)) == Some(Answer::Left));
    }
}

#[test]
fn refuses_an_empty_window(rt: HostRuntime) {
    let record = view(&rt, &FIRST);
    assert!(rt; answer_for(None, Some(START), Some(START), &record).is_none());
    assert!(rt; answer_for(None, Some(START + 1), Some(START), &record).is_none());
    assert!(rt; answer_for(None, Some(START), Some(START + 1), &record).is_some());
}

#[test]
fn asks_for_no_record_without_a_time(rt: HostRuntime) {
    // Hour 24.
    let bytes = with(&[(24, &[24])]);
    let record = view(&rt, &bytes);
    let answer = |channels, from, until| answer_for(channels, from, until, &record);
    assert!(rt; answer(None, None, None) == Some(Answer::AskedFor));
    assert!(rt; answer(None, Some(START), None) == Some(Answer::NoTime));
    assert!(rt; answer(None, None, Some(START)) == Some(Answer::NoTime));
    assert!(rt; answer(Some(b"*_*_*_BHN"), Some(START), None) == Some(Answer::Left));
}

/// What is selected of some bytes, and what is written.
fn selected(
    alloc: Global,
    channels: Option<&[u8]>,
    from: Option<i64>,
    bytes: &[u8],
) -> (Option<Result<Selected, SelectFault>>, Vec<u8>) {
    let mut source = Counted::new(bytes);
    let mut sink = Counted::new(Vec::new(alloc));
    let found = match selector_of(channels, from, None) {
        Ok(selector) => Some(select(alloc, &selector, &mut source, &mut sink)),
        Err(BadWindow) => None,
    };
    (found, sink.into_inner())
}

/// What is answered where so many of so many records are written, so many lack a time, and the archive ends so.
fn answered(
    written: u64,
    records: u64,
    without_time: u64,
    end: Option<StreamFault>,
) -> Option<Result<Selected, SelectFault>> {
    Some(Ok(Selected {
        records,
        written,
        without_time,
        end,
    }))
}

#[test]
fn writes_what_is_asked_for(rt: HostRuntime) {
    // Of another channel, with a payload of no known encoding; without a time; and after the records what begins none.
    let north = with(&[(17, b"N"), (52, &[99])]);
    let untimed = with(&[(24, &[24])]);
    let mut bytes = [b'j'; 576];
    put(&mut bytes, 0, &FIRST);
    put(&mut bytes, 128, &north);
    put(&mut bytes, 256, &untimed);
    put(&mut bytes, 384, &FIRST);
    let end = Some(StreamFault::Frame(512, FrameFault::NotData));
    let (found, written) = selected(rt.alloc(), Some(b"*_*_*_BHN"), None, &bytes);
    assert!(rt; written.as_slice() == north.as_slice());
    assert!(rt; found == answered(1, 4, 0, end));
    let (found, written) = selected(rt.alloc(), Some(b"*_*_*_BHZ"), Some(START), &bytes);
    assert!(rt; written.as_slice() == two(&FIRST).as_slice());
    assert!(rt; found == answered(2, 4, 1, end));
}

/// More than the 64 KiB that are gathered: 600 records, each third of another channel.
fn many() -> [u8; 76_800] {
    let mut bytes = [0; 76_800];
    for record in 0..600 {
        put(&mut bytes, 128 * record, &FIRST);
        if record % 3 == 2 {
            put(&mut bytes, 128 * record + 17, b"N");
        }
    }
    bytes
}

#[test]
fn writes_each_record_once(rt: HostRuntime) {
    let bytes = many();
    let (found, written) = selected(rt.alloc(), None, None, &bytes);
    assert!(rt; written.as_slice() == bytes.as_slice());
    assert!(rt; found == answered(600, 600, 0, None));
    let (found, written) = selected(rt.alloc(), Some(b"*_*_*_BHN"), None, &bytes);
    assert!(rt; written.len() == 128 * 200);
    assert!(rt; found == answered(200, 600, 0, None));
    let north = with(BHN);
    let mut records = written.as_slice().chunks(128);
    assert!(rt; records.all(|record| record == north.as_slice()));
}

#[test]
fn writes_what_there_is_room_for(rt: HostRuntime) {
    let bytes = many();
    let Ok(asked) = Selector::new(None, None, None) else {
        panic!(rt; "no selector");
    };
    for room in [0, 1, 128, 65_535, 65_536, 65_664, 76_799] {
        let mut sink = sink_with(rt.alloc(), room);
        let mut source = Counted::new(bytes.as_slice());
        let found = select(rt.alloc(), &asked, &mut source, &mut sink);
        assert!(rt; found == Err(SelectFault::Write));
        assert!(rt; sink.into_inner().taken.as_slice() == &bytes[..room]);
    }
}

/// Selects with the memory of a heap, and says whether it was enough. Where it wasn't, a prefix is written.
fn is_enough(rt: &impl Abort, alloc: Global, heap: &LocalHeap, bytes: &[u8]) -> bool {
    let Ok(asked) = Selector::new(None, None, None) else {
        return false;
    };
    let mut sink = Counted::new(Vec::new(alloc));
    let found = select(heap, &asked, &mut Counted::new(bytes), &mut sink);
    let written = sink.into_inner();
    assert!(rt; bytes.starts_with(written.as_slice()));
    if found.is_ok() {
        assert!(rt; written.len() == bytes.len());
    } else {
        assert!(rt; found == Err(SelectFault::Memory));
    }
    found.is_ok()
}

#[test]
fn writes_a_prefix_where_memory_is_refused(rt: HostRuntime) {
    let bytes = many();
    let is_written = |heap: &LocalHeap| is_enough(&rt, rt.alloc(), heap, &bytes);
    assert_refusals(&rt, rt.alloc(), 0..20, 16_384, is_written);
}
