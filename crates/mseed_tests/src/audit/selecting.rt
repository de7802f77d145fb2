//! Audits of the records that are asked for: rows computed by hand.

use super::devices::sink_with;
use super::telling::many;
use crate::records::{START, summary};
use crate::select::selector_of;
use mseed_audit::{SelectedSummary, audit_each_selected, audit_selected};
use mseed_stream::{Counted, StreamFault};
use std::alloc::Global;

/// What the whole audit says of the channel BHN, and of its records with a finding.
const OF_CHANNEL: &str =
    "384 XX_STA__BHN record 4 start 2024-01-01T00:00:00.000000 overlap 800000\n\
    XX_STA__BHN broken findings 1 first record 4 offset 384 overlap 800000\n\
    records 2 channels 1\n\
    fault at 768 truncated 1\n";

/// What is said of BHZ from 2024 on. The record whose hour is none, and the silent one after it, lack a time.
const FROM_ON: &str = "640 XX_STA__BHZ record 6 start 2024-01-01T00:00:00.000000 norate\n\
    XX_STA__BHZ broken findings 1 first record 6 offset 640 norate\n\
    records 2 channels 1\n\
    fault at 768 truncated 1\n";

/// What is said of no record.
const NOTHING: &str = "records 0 channels 0\nfault at 768 truncated 1\n";

/// Patterns, a begin if there is one, what is written, and how many records, channels and records without a time there
/// are.
type Row = (&'static [u8], Option<i64>, &'static str, (u64, u64, u64));

static ROWS: [Row; 3] = [
    (b"*_*_*_BHN", None, OF_CHANNEL, (2, 1, 0)),
    (b"XX_STA_--_?HZ", Some(START), FROM_ON, (2, 1, 2)),
    (b"YY_*_*_*", None, NOTHING, (0, 0, 0)),
];

/// What is answered of so many records and channels, of which all are broken.
fn found(numbers: (u64, u64, u64)) -> SelectedSummary {
    let (records, channels, without_time) = numbers;
    let end = Some(StreamFault::Truncated(768, 1));
    SelectedSummary {
        summary: summary(records, channels, channels, end),
        without_time,
    }
}

/// Whether a row's records are audited so, with the lines of findings and without.
fn is_selected(alloc: Global, row: &Row) -> bool {
    let (patterns, from, text, numbers) = *row;
    let Ok(selector) = selector_of(Some(patterns), from, None) else {
        return false;
    };
    let bytes = many();
    let mut each = sink_with(alloc, 1 << 16);
    let told = audit_each_selected(alloc, &selector, &mut Counted::new(&bytes[..]), &mut each);
    let mut sink = sink_with(alloc, 1 << 16);
    let audited = audit_selected(alloc, &selector, &mut Counted::new(&bytes[..]), &mut sink);
    let (each, sink) = (each.into_inner(), sink.into_inner());
    told == Ok(found(numbers))
        && audited == Ok(found(numbers))
        && each.taken.as_slice() == text.as_bytes()
        && text.as_bytes().ends_with(sink.taken.as_slice())
}

#[test]
fn audits_what_is_asked_for(rt: HostRuntime) {
    for (index, row) in ROWS.iter().enumerate() {
        assert!(rt; is_selected(rt.alloc(), row), "row {index}");
    }
}
