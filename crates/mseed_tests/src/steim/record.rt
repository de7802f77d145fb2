//! Records of 256 bytes, made of the parts that their samples hang on.

ghost use Rattle.std.specs.Prelude.{◌≡◌, ◌<◌, List, ℤ, length};
ghost use Rattle.mseed_record.specs.Viewing.{view_of};
ghost use Rattle.mseed_steim.specs.Reading.{IsSteim, IsWhole, count_of};

use crate::records::{FIRST, put};
use mseed_record::RecordView;
use mseed_steim::{
    Ends, ReadFault, check_samples, ends_of, fill_differences, fill_samples, is_steim,
    read_samples, unpack_differences,
};
use std::alloc::Global;

/// The parts of a record that its samples hang on.
#[derive(Clone, Copy)]
pub struct Row<'a> {
    /// The encoding of blockette 1000.
    pub encoding: u8,
    /// Its word order: 1 is big-endian.
    pub word_order: u8,
    /// Where the data begin.
    pub data: u8,
    /// How many samples there are.
    pub samples: u8,
    /// The first words of each frame.
    pub frames: &'a [&'a [u32]],
}

/// Four samples of Steim-1, from 100 to 103.
pub const STEIM_1: Row = Row {
    encoding: 10,
    word_order: 1,
    data: 64,
    samples: 4,
    frames: &[&[0x0100_0000, 100, 103, 0x0001_0101]],
};

/// Puts words into a record from this offset on.
fn put_words(bytes: &mut [u8; 256], offset: usize, words: &[u32]) {
    let mut at = offset;
    for word in words {
        put(bytes, at, &word.to_be_bytes());
        at = at.saturating_add(4);
    }
}

/// The record of a row, zeros after the words of each frame.
pub fn record(row: &Row) -> [u8; 256] {
    let mut bytes = [0; 256];
    put(&mut bytes, 0, &FIRST[..64]);
    bytes[31] = row.samples;
    bytes[45] = row.data;
    bytes[52] = row.encoding;
    bytes[53] = row.word_order;
    bytes[54] = 8;
    let mut frame = usize::from(row.data).max(64);
    for words in row.frames {
        put_words(&mut bytes, frame, words);
        frame = frame.saturating_add(64);
    }
    bytes
}

/// Whether a record's check answers the ends of these samples, or this fault.
pub fn is_checked(view: &RecordView<'_>, wanted: Result<&[i32], ReadFault>) -> bool
    requires { 0 < count_of (view_of view.now) }
{
    let ends = check_samples(view);
    match wanted {
        Ok(samples) => ends == Ok(ends_among(samples)),
        Err(fault) => ends == Err(fault),
    }
}

/// The first and the last of some samples.
fn ends_among(samples: &[i32]) -> Ends {
    Ends {
        first: samples.first().copied().unwrap_or(0),
        last: samples.last().copied().unwrap_or(0),
    }
}

/// Whether these samples are filled in of a record, for which there are places enough, or this fault is answered.
fn is_filled(view: &RecordView<'_>, places: &mut [i32], wanted: Result<&[i32], ReadFault>) -> bool {
    let count = usize::from(view.samples());
    if count == 0 || places.len() < count {
        return false;
    }
    match fill_samples(view, &mut places[..count]) {
        Ok(()) => wanted == Ok(&places[..count]),
        Err(fault) => wanted == Err(fault),
    }
}

/// Whether each step is a sample less the one before it, and the first the first sample.
fn are_steps(steps: &[i32], samples: &[i32]) -> bool {
    let mut last = 0i32;
    for i in 0..steps.len() {
        if i >= samples.len() || samples[i].wrapping_sub(last) != steps[i] {
            return false;
        }
        last = samples[i];
    }
    steps.len() == samples.len()
}

/// Whether the steps of these samples are filled in of a record of Steim frames, or this fault is answered.
fn is_stepped(
    view: &RecordView<'_>,
    places: &mut [i32],
    wanted: Result<&[i32], ReadFault>,
) -> bool {
    let count = usize::from(view.samples());
    if count == 0 || places.len() < count {
        return false;
    }
    if !is_steim(view) {
        return true;
    }
    match fill_differences(view, &mut places[..count]) {
        Ok(()) => match wanted {
            Ok(samples) => {
                are_steps(&places[..count], samples)
                    && are_unpacked(view, &mut places[..count], samples)
            }
            Err(_) => false,
        },
        Err(fault) => wanted == Err(fault),
    }
}

/// Whether the steps of these samples are unpacked of a record that is known to have a reading.
fn are_unpacked(view: &RecordView<'_>, places: &mut [i32], samples: &[i32]) -> bool
    requires whole { (s : List ℤ) × IsWhole (view_of view.now) s }
    requires steim { IsSteim (view_of view.now) }
    requires places { length places.old ≡ count_of (view_of view.now) }
{
    places.fill(0);
    unpack_differences(view, places);
    are_steps(places, samples)
}

/// Whether these samples are checked and filled in, in these places, of a record that has some, and their steps too, or
/// this fault is answered.
pub fn is_read_in(
    view: &RecordView<'_>,
    places: &mut [i32],
    wanted: Result<&[i32], ReadFault>,
) -> bool {
    view.samples() != 0
        && is_checked(view, wanted)
        && is_filled(view, places, wanted)
        && is_stepped(view, places, wanted)
}

/// Whether a record of 320 samples or fewer is checked, and filled in, with these samples, or this fault is answered.
pub fn is_read(view: &RecordView<'_>, wanted: Result<&[i32], ReadFault>) -> bool {
    is_read_in(view, &mut [0; 320], wanted)
}

/// Whether a list of these samples is made of a record, and they have its ends, or this fault is answered.
fn is_listed(alloc: Global, view: &RecordView<'_>, wanted: Result<&[i32], ReadFault>) -> bool
    requires { 0 < count_of (view_of view.now) }
{
    match read_samples(alloc, view) {
        Ok(samples) => { ends_of(view) == ends_among(&samples) && wanted == Ok(samples.as_slice()) }
        Err(fault) => wanted == Err(fault),
    }
}

/// Whether all calls read these samples of a record, or answer this fault.
pub fn is_record(alloc: Global, bytes: &[u8], wanted: Result<&[i32], ReadFault>) -> bool {
    match RecordView::of(bytes) {
        Ok(view) => {
            view.samples() != 0 && is_read(&view, wanted) && is_listed(alloc, &view, wanted)
        }
        Err(_) => false,
    }
}
