//! A channel whose clock drifts, and which has a gap, packed anew by its stretches; and an archive with a log.
ghost use Rattle.std.specs.Prelude.{◌≤◌, ◌^◌, length};

use crate::records::{change, put, view, with};
use crate::select::selector_of;
use mseed_pack::Options;
use mseed_record::RecordView;
use mseed_repack::{
    ChannelFault, LeftOut, RepackFault, repack_channel, repack_selected, repack_selected_stretches,
    repack_stretches,
};
use mseed_stream::{Counted, StreamFault};
use std::alloc::Global;
use std::process::Abort;

/// The first record by its last number, with other bytes at some offsets.
fn numbered(parts: &[(usize, &[u8])]) -> [u8; 128] {
    let mut record = with(&[(0, b"999999")]);
    change(&mut record, parts);
    record
}

/// Three records, one after another.
fn three(first: &[u8; 128], second: &[u8; 128], third: &[u8; 128]) -> [u8; 384] {
    let mut bytes = [0; 384];
    put(&mut bytes, 0, first);
    put(&mut bytes, 128, second);
    put(&mut bytes, 256, third);
    bytes
}

/// Packs the records of a channel anew from this number on. Answers how that went, and what is written.
fn repacked(
    rt: &impl Abort,
    alloc: Global,
    records: &[RecordView],
    number: u32,
) -> (Result<(), ChannelFault>, Vec<u8>)
    requires { length records.now ≤ 2 ^ 40 }
{
    let options = Options::new(7, 3, number).expect(rt, "options");
    let mut output = Counted::new(Vec::new(alloc));
    let answer = repack_channel(alloc, records, &options, &mut output);
    (answer, output.into_inner())
}

#[test]
fn packs_a_channel_by_its_stretches(rt: HostRuntime) {
    let first = numbered(&[]);
    // 10 ms late, less than the 12.5 ms of a quarter of a period; and 8.4 s late.
    let drifted = numbered(&[(28, &[31, 164])]);
    let apart = numbered(&[(26, &[10])]);
    let records = [view(&rt, &first), view(&rt, &drifted), view(&rt, &apart)];
    let (answer, packed) = repacked(&rt, rt.alloc(), &records, 999_999);
    assert!(rt; answer == Ok(()));
    // The second record is written by the clock of the first, the third by its own, and the numbers run on.
    let second = with(&[(0, b"000000"), (28, &[31, 64])]);
    let third = with(&[(0, b"000001"), (26, &[10])]);
    assert!(rt; packed.as_slice() == three(&first, &second, &third).as_slice());
}

/// Whether a channel of the first record and these bytes is broken, and nothing is written of it.
fn is_broken(rt: &impl Abort, alloc: Global, bytes: &[u8; 128]) -> bool {
    let first = numbered(&[]);
    let records = [view(rt, &first), view(rt, bytes)];
    let (answer, packed) = repacked(rt, alloc, &records, 1);
    answer == Err(ChannelFault::Broken) && packed.is_empty()
}

#[test]
fn refuses_what_is_not_sound(rt: HostRuntime) {
    let silent = numbered(&[(30, &[0, 0])]);
    assert!(rt; is_broken(&rt, rt.alloc(), &silent), "no samples");
    // Doubles (encoding 5), which aren't read.
    let doubles = numbered(&[(52, &[5])]);
    assert!(rt; is_broken(&rt, rt.alloc(), &doubles), "doubles");
}

/// Whether these are both records of an archive without its log, with the first two numbers.
fn are_both(packed: &[u8]) -> bool {
    let first = with(&[(0, b"000001")]);
    let second = with(&[(0, b"000002"), (26, &[10])]);
    packed.strip_prefix(first.as_slice()) == Some(second.as_slice())
}

/// An archive of a record, a log and a record after a gap of 8.4 s. The log is text (encoding 0), which isn't read, of
/// another channel.
fn with_log() -> [u8; 384] {
    let log = numbered(&[(15, b"LOG"), (52, &[0])]);
    three(&numbered(&[]), &log, &numbered(&[(26, &[10])]))
}

/// Packs an archive anew by its stretches, without what can't be packed; or those of its records that are of these
/// channels, which all have to be. Answers what was left, what is written, and what is reported.
fn left_of(
    rt: &impl Abort,
    alloc: Global,
    channels: Option<&[u8]>,
    archive: &[u8],
) -> (Result<LeftOut, RepackFault>, Vec<u8>, Vec<u8>) {
    let options = Options::new(7, 3, 1).expect(rt, "options");
    let mut input = Counted::new(archive);
    let mut output = Counted::new(Vec::new(alloc));
    let mut lines = Counted::new(Vec::new(alloc));
    let left = match selector_of(channels, None, None) {
        Ok(selector) if channels.is_some() => repack_selected_stretches(
            alloc,
            &selector,
            &options,
            false,
            &mut input,
            &mut output,
            &mut lines,
        ),
        _ => repack_stretches(alloc, &options, true, &mut input, &mut output, &mut lines),
    };
    (left, output.into_inner(), lines.into_inner())
}

/// What is reported of the log.
const REPORTED: &[u8] = b"mseed: XX_STA__LOG is broken\n";

#[test]
fn packs_an_archive_and_leaves_out_its_log(rt: HostRuntime) {
    let (left, packed, reported) = left_of(&rt, rt.alloc(), None, &with_log());
    assert!(rt; left == Ok(LeftOut::Broken) && are_both(&packed));
    assert!(rt; reported.as_slice() == REPORTED);
}

/// What packing records that are asked for came to: how it went, what is written, and what is reported.
#[derive(Drop)]
struct Packed {
    answer: Result<(), RepackFault>,
    bytes: Vec<u8>,
    lines: Vec<u8>,
}

/// Packs those records of an archive anew, from number 1 on, that are of the channels and begin before this instant.
fn packed_before(
    rt: &impl Abort,
    alloc: Global,
    channels: &[u8],
    until: Option<i64>,
    archive: &[u8],
) -> Packed {
    let options = Options::new(7, 3, 1).expect(rt, "options");
    let mut input = Counted::new(archive);
    let mut output = Counted::new(Vec::new(alloc));
    let mut lines = Counted::new(Vec::new(alloc));
    let answer = match selector_of(Some(channels), None, until) {
        Ok(selector) => repack_selected(
            alloc,
            &selector,
            &options,
            &mut input,
            &mut output,
            &mut lines,
        ),
        Err(_) => Err(RepackFault::Memory),
    };
    Packed {
        answer,
        bytes: output.into_inner(),
        lines: lines.into_inner(),
    }
}

/// The microseconds from 1970 to the record after a gap.
const APART: i64 = 1_704_067_210_000_000;

#[test]
fn packs_what_is_asked_for(rt: HostRuntime) {
    let first = with(&[(0, b"000001")]);
    // The channel is broken for the record after the gap, but that begins too late.
    let archive = with_log();
    let packed = packed_before(&rt, rt.alloc(), b"*_*_*_BH?", Some(APART), &archive);
    assert!(rt; packed.answer == Ok(()) && packed.lines.is_empty());
    assert!(rt; packed.bytes.as_slice() == first.as_slice());
    let all = packed_before(&rt, rt.alloc(), b"*_*_*_BH?", None, &archive);
    assert!(rt; matches!(all.answer, Err(RepackFault::Broken(..))) && all.bytes.is_empty());
    let none = packed_before(&rt, rt.alloc(), b"IU_*_*_*", None, &archive);
    assert!(rt; none.answer == Ok(()) && none.bytes.is_empty());
}

/// What is reported of a record without a time.
const WITHOUT_TIME: &[u8] = b"mseed: 1 records without a time\n";

#[test]
fn tells_what_lacks_a_time(rt: HostRuntime) {
    let first = with(&[(0, b"000001")]);
    // Hour 24, and the same of a channel that isn't asked for.
    let untimed = numbered(&[(24, &[24])]);
    let other = numbered(&[(15, b"BHN"), (24, &[24])]);
    let archive = three(&untimed, &other, &numbered(&[]));
    let packed = packed_before(&rt, rt.alloc(), b"*_*_*_BHZ", Some(APART), &archive);
    assert!(rt; packed.answer == Ok(()) && packed.lines.as_slice() == WITHOUT_TIME);
    assert!(rt; packed.bytes.as_slice() == first.as_slice());
    // Without a window it is asked for, and its channel broken.
    let all = packed_before(&rt, rt.alloc(), b"*_*_*_BHZ", None, &archive);
    assert!(rt; matches!(all.answer, Err(RepackFault::Broken(..))) && all.lines.is_empty());
}

#[test]
fn refuses_a_fault_behind_what_is_asked_for(rt: HostRuntime) {
    let archive = three(&numbered(&[]), &numbered(&[(15, b"BHN")]), &numbered(&[]));
    let front = archive.get(..300).expect(&rt, "300 bytes");
    let cut = packed_before(&rt, rt.alloc(), b"*_*_*_BHN", None, front);
    let fault = StreamFault::Truncated(256, 44);
    assert!(rt; cut.answer == Err(RepackFault::Stream(fault)) && cut.bytes.is_empty());
}

#[test]
fn packs_stretches_of_what_is_asked_for(rt: HostRuntime) {
    let (left, packed, lines) = left_of(&rt, rt.alloc(), Some(b"*_*_*_BHZ"), &with_log());
    assert!(rt; left == Ok(LeftOut::Nothing) && are_both(&packed));
    assert!(rt; lines.is_empty());
}
