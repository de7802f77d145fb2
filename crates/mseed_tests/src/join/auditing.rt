//! Audits that write the part of what was read.

use crate::records::{FIRST, LATE, put, summary, with};
use mseed_audit::Summary;
use mseed_join::{audit_part, audit_part_each};
use mseed_stream::{Counted, StreamFault};
use std::alloc::Global;

/// The part of the first record.
pub(super) const OF_FIRST: &str = "mseed part 1\n\
    58585354412020202042485A records 1 samples 16 head 1 0 1704067200000000 20/1 \
        tail 1704067200000000 16 20/1 none findings 0\n\
    records 1 bytes 128\n";

/// The part of the record that begins 25,001 microseconds late after it.
pub(super) const OF_LATE: &str = "mseed part 1\n\
    58585354412020202042485A records 1 samples 16 head 1 0 1704067200825001 20/1 \
        tail 1704067200825001 16 20/1 none findings 0\n\
    records 1 bytes 128\n";

/// The part of both, and of a byte more.
static OF_BOTH: &str = "mseed part 1\n\
    58585354412020202042485A records 2 samples 32 head 1 0 1704067200000000 20/1 \
        tail 1704067200825001 16 20/1 none findings 1 first 2 128 gap 25001\n\
    records 2 bytes 256\n\
    fault at 256 truncated 1\n";

/// What is reported of both.
static REPORTED: &str = "128 XX_STA__BHZ record 2 start 2024-01-01T00:00:00.825001 gap 25001\n";

/// The first record, the late one and a byte more.
fn both() -> [u8; 257] {
    let mut bytes = [48; 257];
    put(&mut bytes, 0, &FIRST);
    put(&mut bytes, 128, &with(LATE));
    bytes
}

/// How those bytes end.
const CUT_OFF: Option<StreamFault> = Some(StreamFault::Truncated(256, 1));

/// Whether the audit of these bytes writes this part, and answers so.
fn is_part(alloc: Global, bytes: &[u8], text: &str, wanted: Summary) -> bool {
    let mut sink = Counted::new(Vec::new(alloc));
    audit_part(alloc, &mut Counted::new(bytes), &mut sink) == Ok(wanted)
        && sink.into_inner().as_slice() == text.as_bytes()
}

#[test]
fn writes_parts(rt: HostRuntime) {
    let one = summary(1, 1, 0, None);
    assert!(rt; is_part(rt.alloc(), &FIRST, OF_FIRST, one));
    assert!(rt; is_part(rt.alloc(), &with(LATE), OF_LATE, one));
    assert!(rt; is_part(rt.alloc(), &both(), OF_BOTH, summary(2, 1, 1, CUT_OFF)));
}

/// Whether a text is what is reported of both, and their part after it.
fn is_both(text: &[u8]) -> bool {
    text.starts_with(REPORTED.as_bytes())
        && text.ends_with(OF_BOTH.as_bytes())
        && text.len() == REPORTED.len() + OF_BOTH.len()
}

#[test]
fn tells_each_before_the_part(rt: HostRuntime) {
    let bytes = both();
    let mut sink = Counted::new(Vec::new(rt.alloc()));
    let answer = audit_part_each(rt.alloc(), &mut Counted::new(bytes.as_slice()), &mut sink);
    assert!(rt; answer == Ok(summary(2, 1, 1, CUT_OFF)));
    assert!(rt; is_both(&sink.into_inner()));
}
