//! The records of some channels, and of a window of time, of an archive that lies in memory.
ghost use Rattle.std.specs.Prelude.{◌≡◌, ◌≢◌, ◌+◌, ◌^◌, ◌<◌, ◌≤◌, ◌++◌, ℕ, List, length, drop};
ghost use Rattle.std.specs.Prelude.{IfSome, IfNone, IfErr, OnOk, OnErr};
ghost use Rattle.mseed_time.specs.Btime.{IsInstant};
ghost use Rattle.mseed_select.specs.Selecting.{selection_of};
ghost use Rattle.mseed_c.specs.Asked.{IsSelectOutcome, IsSelectedTo, bound_of};
ghost use Rattle.mseed_c.specs.Decoded.{IsStopAt};
ghost use Rattle.mseed_c.specs.Room.{overwritten};
ghost use Rattle.mseed_c.specs.private.Copied.{IsSmall, IsSoFar, added, counted};

use crate::codes::{BAD_PATTERNS, BAD_TIME, BAD_WINDOW, OK, Stop, code_of_stop, needed_by};
use crate::decoding::view_at;
use mseed_pack::overwrite;
use mseed_select::{Answer, Patterns, Selector};
use mseed_time::Micros;

/// A window of time, from an instant up to another, which isn't part of it.
#[repr(C)]
#[derive(Clone, Copy)]
pub struct Window {
    /// The first instant, in microseconds from 1970-01-01T00:00:00.
    pub from: i64,
    /// The first instant after it, in microseconds from 1970-01-01T00:00:00.
    pub until: i64,
    /// 0 where the window has no beginning: then `from` isn't read.
    pub has_from: u8,
    /// 0 where the window has no end: then `until` isn't read.
    pub has_until: u8,
}

/// What a selection came to.
#[repr(C)]
#[derive(Clone, Copy)]
pub struct Selected {
    /// How many records were read.
    pub records: usize,
    /// How many of them are asked for.
    pub asked_for: usize,
    /// How many records of the channels that are asked for have no valid start, and so lie in no window; 0 without a
    /// window.
    pub without_time: usize,
    /// The length in bytes of all records that are asked for, also where the room was shorter.
    pub length: usize,
    /// Where the next record would begin, in bytes from the beginning of the archive.
    pub offset: usize,
    /// How many bytes, from there on, are needed to go on; of a length that no record has, its exponent; else 0.
    pub needed: usize,
}

/// Copies the records of an archive that are asked for, byte for byte and in their order: those of the channels that
/// the patterns match, or of all where `channels` is empty, that lie in the window, whole also where they straddle
/// its ends. The room gets as many bytes of them as it has; what lies after them stays. `reported` gets the counts, and
/// the length of all. Their samples aren't read.
///
/// Returns 0 at the end of the archive, else the code of why it stopped: 6 where more bytes are needed, 16 to 22 where
/// the next bytes begin no record. Or it returns 80, 81 or 82, the first that applies, where an end of the window is no
/// instant, the text isn't patterns, or the window doesn't end after it begins: then nothing is written.
#[unsafe(no_mangle)]
pub extern "C" fn mseed_select(
    bytes: &[u8],
    channels: &[u8],
    window: &Window,
    room: &mut [u8],
    reported: &mut Selected,
) -> u32
    ensures { IsSelectOutcome channels.now window.now bytes.now room.old room.new reported.old reported.new result }
{
    let Some(from) = bound_of(window.has_from, window.from) else {
        return BAD_TIME;
    };
    let Some(until) = bound_of(window.has_until, window.until) else {
        return BAD_TIME;
    };
    let mut patterns = None;
    if !channels.is_empty() {
        match Patterns::read(channels) {
            Ok(read) => patterns = Some(read),
            Err(_) => return BAD_PATTERNS,
        }
    }
    let Ok(selector) = Selector::new(patterns, from, until) else {
        return BAD_WINDOW;
    };
    select_all(&selector, bytes, room, reported)
}

/// Returns one end of a window, if it has it; `None` where that is no instant.
fn bound_of(has: u8, micros: i64) -> Option<Option<Micros>>
    ensures some { IfSome result (λ bound. (bound ≡ bound_of has micros) × (has ≢ 0 → IsInstant micros)) }
    ensures none { IfNone result ((has ≢ 0) × ¬ (IsInstant micros)) }
{
    if has == 0 {
        return Some(None);
    }
    match Micros::new(micros) {
        Some(micros) => Some(Some(micros)),
        None => None,
    }
}

/// Reads all records of an archive, and writes those that are asked for. Returns 0, or the code of why it stopped.
fn select_all(selector: &Selector, bytes: &[u8], room: &mut [u8], reported: &mut Selected) -> u32
    ensures { IsSelectedTo (selection_of selector.now) bytes.now room.old room.new reported.new result }
{
    *reported = Selected {
        records: 0,
        asked_for: 0,
        without_time: 0,
        length: 0,
        offset: 0,
        needed: 0,
    };
    while reported.offset < bytes.len() {
        if let Err(stop) = select_next(selector, bytes, room, reported) {
            reported.needed = needed_by(stop);
            return code_of_stop(stop);
        }
    }
    OK
}

/// Writes the next record where it is asked for, and goes past it.
///
/// # Errors
///
/// Why the next bytes begin no record, or how many are needed: then nothing is changed.
fn select_next(
    selector: &Selector,
    bytes: &[u8],
    room: &mut [u8],
    reported: &mut Selected,
) -> Result<(), Stop>
    requires { (first : List ℕ) × IsSoFar (selection_of selector.now) bytes.now first room.old reported.old }
    ensures ok { OnOk result ((first : List ℕ)
        → IsSoFar (selection_of selector.now) bytes.now first room.old reported.old
        → IsSoFar (selection_of selector.now) bytes.now first room.new reported.new) }
    ensures further { OnOk result (reported.old.offset < reported.new.offset) }
    ensures stopped { IfErr result (λ stop. IsStopAt (drop reported.new.offset bytes.now) stop) }
    ensures stays { OnErr result ((room.new ≡ room.old) × (reported.new ≡ reported.old)) }
{
    let view = match view_at(&bytes[reported.offset..]) {
        Ok(view) => view,
        Err(stop) => return Err(stop),
    };
    put_record(selector.asks_for(&view), view.bytes(), room, reported);
    Ok(())
}

/// Counts a record, and writes its bytes after the others where it is asked for.
fn put_record(answer: Answer, bytes: &[u8], room: &mut [u8], reported: &mut Selected)
    requires small { IsSmall reported.old }
    requires some { 0 < length bytes.now }
    requires fits { reported.old.offset + length bytes.now < 2 ^ 64 }
    ensures counted { reported.new ≡ counted answer (length bytes.now) reported.old }
    ensures room { (first text : List ℕ) → room.old ≡ overwritten text first → reported.old.length ≡ length text
        → room.new ≡ overwritten (text ++ added answer bytes.now) first }
    ensures small { IsSmall reported.new }
{
    reported.records += 1;
    reported.offset += bytes.len();
    match answer {
        Answer::AskedFor => {
            let from = reported.length.min(room.len());
            overwrite(bytes, &mut room[from..]);
            reported.length += bytes.len();
            reported.asked_for += 1;
        }
        Answer::NoTime => reported.without_time += 1,
        Answer::Left => {}
    }
}
