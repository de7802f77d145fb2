//! Lines of what a source gives.
ghost use Rattle.std.specs.Prelude.{◌≡◌, ◌==◌, ◌+◌, ◌-◌, ◌*◌, ◌^◌, ◌<◌, ◌≤◌, ◌++◌, [], length, take, drop, false, true};
ghost use Rattle.std.specs.Prelude.{IfOk, OnOk, IfErr, IfSome, IfNone, IsTrue, Ok, position};
ghost use Rattle.std.specs.List.{position_or_len};
ghost use Rattle.std.specs.Io.KnownBytes.{ReadConsumes};
ghost use Rattle.mseed_stream.specs.Calls.{ReadsOn};
ghost use Rattle.mseed_stream.specs.Device.{read_also};
ghost use Rattle.mseed_join.specs.Joined.{HasNoEnd};
ghost use Rattle.mseed_join.specs.ReadParts.{IsReadFault};
ghost use Rattle.mseed_join.specs.private.LineReading.{Grows, IsReadBy, GoesOn, IfGoesOn, IsLineAhead, IsOpen};
ghost use Rattle.mseed_join.specs.private.LineReading.{IsOneRead, LiesAhead};

use mseed_audit::Memory;
use mseed_stream::{Failed, READS, Source, StreamFault};
use std::alloc::Allocator;
use std::marker::Model;
use std::simd::prelude::*;

/// How many bytes the buffer has.
const ROOM: usize = 1 << 16;

/// No line has more bytes, its LF included.
const LONGEST: usize = 512;

/// How many bytes are compared at once.
const LANES: usize = 32;

/// What lies ahead of a reader of lines.
#[derive(Clone, Copy)]
pub(crate) enum NextLine {
    /// A line.
    Line,
    /// As many bytes as the longest line has, without an LF.
    TooLong,
    /// Bytes without an LF, and then the input's end.
    Unended,
    /// The input's end.
    Nothing,
}

/// Reads lines out of a source, each of 512 bytes at most, and lends each out of its one buffer.
///
/// Contracts see it as a `LinesRead`, and say by `IsReadBy` how it stands to what its source gave.
#[derive(Drop)]
pub(crate) struct LineReader<A: Allocator> {
    buffer: Vec<u8, A>,
    // From here on the buffer has bytes that weren't passed.
    begin: usize,
    // From here on it has room.
    end: usize,
    // The length of the line that was found at `begin`.
    size: usize,
    // How many lines were passed.
    lines: u64,
    // How many bytes were read in all.
    bytes: u64,
    // How often the source was called.
    reads: u64,
}

impl<A: Allocator> Model for LineReader<A> {
    ghost use Rattle.std.specs.Prelude.{◌≡◌, ◌≤◌, ◌+◌, ◌-◌, ◌*◌, slice_range};
    ghost use Rattle.std.specs.Vec.{vec_len};
    ghost use Rattle.mseed_join.specs.declared.line_reader.TheConstants.{ROOM};
    ghost use Rattle.mseed_stream.specs.declared.device.TheConstants.{READS};
    ghost use Rattle.mseed_join.specs.private.LineReading.{LinesRead};

    ghost Value = { LinesRead };

    ghost view = { λ r. record {
      held = slice_range r.buffer.items r.begin r.end;
      size = r.size;
      room = ROOM - r.end;
      lines = r.lines;
      bytes = r.bytes;
      reads = r.reads;
    } };

    ghost invariant = { λ r. (vec_len r.buffer ≡ ROOM) × (r.begin + r.size ≤ r.end) × (r.end ≤ ROOM)
        × (r.reads ≤ READS) × (r.bytes ≤ ROOM * r.reads) × (r.lines + r.end ≤ r.bytes + r.begin) };
}

impl<A: Allocator> LineReader<A> {
    /// A reader of which nothing was called yet.
    ///
    /// # Errors
    ///
    /// Where there is no memory for its buffer.
    pub(crate) fn new(alloc: A) -> Result<LineReader<A>, Memory>
        ensures held { IfOk result (λ r. r.held ≡ []) }
        ensures lines { IfOk result (λ r. r.lines ≡ 0) }
        ensures counts { IfOk result (λ r. (r.bytes ≡ 0) × (r.reads ≡ 0)) }
    {
        let mut buffer = Vec::new(alloc);
        if buffer.resize(ROOM, 0).is_err() {
            return Err(Memory);
        }
        Ok(LineReader {
            buffer,
            begin: 0,
            end: 0,
            size: 0,
            lines: 0,
            bytes: 0,
            reads: 0,
        })
    }

    /// Finds what lies ahead, and reads as much as that takes. The source is the same at each call.
    ///
    /// # Errors
    ///
    /// `Read` where the source failed, `Turns` where it wasn't at its end after 2^40 reads: each with the number of
    /// bytes that were read in all.
    pub(crate) fn look<R: Source>(&mut self, source: &mut R) -> Result<NextLine, StreamFault>
        requires along { IsReadBy (R.read source.old) self.old }
        requires goes_on { GoesOn (R.read source.old) }
        ensures ahead { IfOk result (λ a. LiesAhead a self.new (R.read source.new).is_at_end) }

        // What is reported is held after what was held before, and no line is passed.
        ensures more { Grows (R.read source.old) (R.read source.new) (R.remaining source.old) (R.remaining source.new)
            self.old self.new }
        ensures goes_on { IfGoesOn result (GoesOn (R.read source.new)) }

        // A fault is that of all reads since the reader was made.
        ensures fault { IfErr result (λ e. IsReadFault e (R.read source.new)) }

        // No line lies ahead then, and no more bytes than a line has.
        ensures open { IfErr result (λ e. IsOpen self.new.held) }

        // The input's end is that of the bytes that the source is known to have.
        ensures reads { ReadsOn (R.read source.old) (R.read source.new) (R.remaining source.old)
            (R.remaining source.new) (R.beside source.old) (R.beside source.new) }
    {
        loop {
            if let Some(ahead) = self.see() {
                return Ok(ahead);
            }
            if self.fill(source)? {
                return Ok(self.left());
            }
        }
    }

    /// The line ahead, with its LF.
    pub(crate) fn line(&self) -> &[u8]
        ensures { result.now ≡ take self.now.size self.now.held }
    {
        &self.buffer[self.begin..self.begin + self.size]
    }

    /// Passes the line ahead, and counts it.
    pub(crate) fn pass(&mut self)
        requires { IsLineAhead self.old.size self.old.held }
        ensures held { self.old.held ≡ take self.old.size self.old.held ++ self.new.held }
        ensures lines { self.new.lines ≡ self.old.lines + 1 }
        ensures counts { (self.new.bytes ≡ self.old.bytes) × (self.new.reads ≡ self.old.reads) }
    {
        self.begin += self.size;
        self.size = 0;
        self.lines += 1;
    }

    /// Returns how many lines were passed.
    pub(crate) fn lines(&self) -> u64
        ensures value { result ≡ self.now.lines }
        ensures few { self.now.bytes ≤ 2 ^ 56 }
        ensures reads { self.now.bytes ≤ ROOM * self.now.reads }
    {
        self.lines
    }

    /// Returns the offset, in bytes from the input's beginning, of what wasn't passed yet.
    pub(crate) fn offset(&self) -> u64
        ensures { result + length self.now.held ≡ self.now.bytes }
    {
        self.bytes - (self.end - self.begin) as u64
    }

    /// Returns what lies ahead, where the bytes that are held show it.
    fn see(&mut self) -> Option<NextLine>
        ensures some { IfSome result (λ a. LiesAhead a self.new false) }
        ensures none { IfNone result ((length self.new.held < LONGEST) × HasNoEnd self.new.held) }
        ensures stays { self.new ≡ record self.old { size = self.new.size } }
    {
        let held = &self.buffer[self.begin..self.end];
        let is_long = held.len() >= LONGEST;
        match size_of_line(held) {
            Some(size) => {
                self.size = size;
                Some(NextLine::Line)
            }
            None if is_long => Some(NextLine::TooLong),
            None => None,
        }
    }

    /// Returns what lies ahead at the input's end.
    fn left(&self) -> NextLine
        requires no_end { HasNoEnd self.now.held }
        requires short { length self.now.held < LONGEST }
        ensures ahead { LiesAhead result self.now true }
        ensures ends { IfGoesOn (Ok result) ⊥ }
    {
        if self.begin == self.end {
            NextLine::Nothing
        } else {
            NextLine::Unended
        }
    }

    /// Reads once, and returns whether the input ended.
    fn fill<R: Source>(&mut self, source: &mut R) -> Result<bool, StreamFault>
        requires { length self.old.held < LONGEST }
        ensures more { Grows (R.read source.old) (R.read source.new) (R.remaining source.old) (R.remaining source.new)
            self.old self.new }
        ensures read { IsOneRead result (R.read source.old) (R.read source.new) (R.remaining source.new) self.old
            self.new }
        ensures turns { OnOk result (self.new.reads ≤ READS) }
        ensures beside { R.beside source.new ≡ R.beside source.old }
    {
        if self.reads == READS {
            return Err(StreamFault::Turns(self.bytes));
        }
        self.make_room();
        self.read(source)
    }

    /// Moves what is held to the buffer's start.
    fn make_room(&mut self)
        ensures { self.new ≡ record self.old { room = ROOM - length self.old.held } }
    {
        self.buffer.copy_within(self.begin..self.end, 0);
        self.end -= self.begin;
        self.begin = 0;
    }

    /// Reads into the room after what is held, and returns whether the input ended.
    fn read<R: Source>(&mut self, source: &mut R) -> Result<bool, StreamFault>
        requires room { 0 < self.old.room }
        requires turns { self.old.reads < READS }
        ensures more { Grows (R.read source.old) (R.read source.new) (R.remaining source.old) (R.remaining source.new)
            self.old self.new }
        ensures read { IsOneRead result (R.read source.old) (R.read source.new) (R.remaining source.new) self.old
            self.new }
        ensures beside { R.beside source.new ≡ R.beside source.old }
    {
        self.reads += 1;
        match pull_after(source, &mut self.buffer, self.end) {
            Ok(n) => {
                self.end += n;
                self.bytes += n as u64;
                Ok(n == 0)
            }
            Err(Failed) => Err(StreamFault::Read(self.bytes)),
        }
    }
}

/// Returns the length in bytes of the line that the bytes begin with, its LF included.
fn size_of_line(held: &[u8]) -> Option<usize>
    ensures some { IfSome result (λ size. IsLineAhead size held.now) }
    ensures none { IfNone result (HasNoEnd (take LONGEST held.now)) }
{
    match place_of_end(&held[..held.len().min(LONGEST)]) {
        Some(place) => Some(place + 1),
        None => None,
    }
}

/// Returns the index of the first LF.
fn place_of_end(bytes: &[u8]) -> Option<usize>
    ensures { result ≡ position (λ b. b == 10) bytes.now }
{
    let passed = pass_lanes(bytes);
    match place_one_by_one(&bytes[passed..]) {
        Some(place) => Some(passed + place),
        None => None,
    }
}

/// Returns the index of the first LF of a few bytes.
fn place_one_by_one(bytes: &[u8]) -> Option<usize>
    ensures { result ≡ position (λ b. b == 10) bytes.now }
{
    bytes.iter().position(|b| *b == b'\n')
}

/// Returns how many bytes from the start are known to hold no LF: all before the first, or all but the last thirty-one
/// at most.
#[tactic(auto, using(crate::proofs::LineEnds::no_end_farther))]
fn pass_lanes(bytes: &[u8]) -> usize
    ensures within { result ≤ length bytes.now }
    ensures lacks { HasNoEnd (take result bytes.now) }
{
    let mut at = 0;
    while LANES <= bytes.len() - at {
        let place = place_in_lanes(bytes, at);
        if place < LANES {
            return at + place;
        }
        at += LANES;
    }
    at
}

/// Returns the index of the first LF among the thirty-two bytes from `at` on, counted from there, or 32 where none is
/// one.
fn place_in_lanes(bytes: &[u8], at: usize) -> usize
    requires { at + LANES ≤ length bytes.now }
    ensures { result ≡ position_or_len (λ b. b == 10) (take LANES (drop at bytes.now)) }
{
    let ends = u8x32::from_slice(&bytes[at..])
        .simd_eq(u8x32::splat(b'\n'))
        .to_bitmask();
    if ends == 0 {
        return LANES;
    }
    ends.trailing_zeros() as usize
}

/// Reads once, into the bytes from `end` on.
fn pull_after<R: Source>(source: &mut R, buffer: &mut [u8], end: usize) -> Result<usize, Failed>
    requires { end < length buffer.old }
    ensures bound { IfOk result (λ n. end + n ≤ length buffer.old) }
    ensures before { take end buffer.new ≡ take end buffer.old }
    ensures read { R.read source.new ≡ read_also (R.read source.old) result (drop end buffer.new) }
    ensures silent { IsTrue (R.read source.old).is_at_end → result ≡ Ok 0 }
    ensures known { ReadConsumes (R.remaining source.old) (R.remaining source.new) result (drop end buffer.new) }
    ensures beside { R.beside source.new ≡ R.beside source.old }
{
    source.pull(&mut buffer[end..])
}
