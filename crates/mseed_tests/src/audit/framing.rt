//! How much of a record has to be there, by the framing step that asks.

use crate::records::{FIRST, put, with};
use mseed_record::{FrameFault, Scan, scan};

/// The answer for the first bytes alone.
fn scan_first(bytes: &[u8], len: usize) -> Scan {
    let (prefix, _) = bytes.split_at(len.min(bytes.len()));
    scan(prefix)
}

/// How many bytes there are of a record, and how many are needed.
static NEEDED: [(usize, usize); 9] = [
    (0, 48),
    (2, 48),
    (47, 48),
    (48, 52),
    (51, 52),
    (52, 56),
    (55, 56),
    (56, 128),
    (127, 128),
];

#[test]
fn needs_what_the_step_names(rt: HostRuntime) {
    for (len, needed) in &NEEDED {
        assert!(rt; scan_first(&FIRST, *len) == Scan::Need(*needed), "{len}");
    }
    assert!(rt; scan_first(&FIRST, 128) == Scan::Record(128));
    let mut longer = [7; 300];
    put(&mut longer, 0, &FIRST);
    assert!(rt; scan(&longer) == Scan::Record(128));
}

/// Whether the first record with these other bytes needs so many.
fn needs(parts: &[(usize, &[u8])], needed: usize) -> bool {
    scan(&with(parts)) == Scan::Need(needed)
}

#[test]
fn needs_what_the_chain_names(rt: HostRuntime) {
    let second = with(&[
        (48, &[3, 233, 0, 56, 0, 0, 0, 0]),
        (56, &[3, 232, 0, 0, 3, 1, 7, 0]),
    ]);
    assert!(rt; scan_first(&second, 56) == Scan::Need(60));
    assert!(rt; needs(&[(46, &[0, 124]), (124, &[3, 232])], 132));
    assert!(rt; needs(&[(54, &[8])], 256));
    assert!(rt; needs(&[(54, &[20])], 1_048_576));
    assert!(rt; scan(b"MS") == Scan::Need(48));
    assert!(rt; scan(b"MS\x03") == Scan::Not(FrameFault::Version3));
}
