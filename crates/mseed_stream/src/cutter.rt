//! Cutting what is read of a source into records.
ghost use Rattle.std.specs.Prelude.{◌≡◌, ◌↔◌, ◌+◌, ◌*◌, ◌^◌, ◌<◌, ◌≤◌, length, take, drop, true, false, IfOk};
ghost use Rattle.std.specs.Prelude.{IfErr, OnErr, OnOk, IsTrue, Ok, slice_range, [], ℕ, IfNone, IfSome, Some, None};
ghost use Rattle.std.specs.Prelude.{Err, ⊤, List, ◌∷◌, ◌++◌};
ghost use Rattle.std.specs.Bool.{OnTrue};
ghost use Rattle.std.specs.Io.KnownBytes.{Consumes, ReadConsumes};
ghost use Rattle.mseed_record.specs.Record.{IsRecord};
ghost use Rattle.mseed_record.specs.Scan.{Decides};
ghost use Rattle.mseed_record.specs.View.{View, IsView};
ghost use Rattle.mseed_record.specs.Viewing.{view_of};
ghost use Rattle.mseed_record.specs.declared.framer.Scan.TheVariants.{Need, Record};
ghost use Rattle.mseed_stream.specs.Device.{read_also, nothing_read};
ghost use Rattle.mseed_stream.specs.Archive.{HasRecords};
ghost use Rattle.mseed_stream.specs.Cutting.{IsRead, IsAlong, IsNextAnswer, asks_of, count_of};
ghost use Rattle.mseed_stream.specs.Cutting.{held_of, read_from, moves_by, answer_of, kept_of, IfEnds, IsAhead};
ghost use Rattle.mseed_stream.specs.Cutting.{lent_whole};
ghost use Rattle.mseed_stream.specs.Walk.{HasHandedOut, AreAllViews, IfGoesOn, end_of};
ghost use Rattle.mseed_stream.specs.Calls.{ReadsOn};
ghost use Rattle.mseed_stream.specs.private.Steps.{IsAnswerAtEnd, IsCut, MayCut, HoldsMore, IsFilled, lent_of};
ghost use Rattle.mseed_stream.specs.private.Steps.{after_found, forgot};

use crate::device::{Failed, READS, Source};
use crate::fault::StreamFault;
use mseed_record::{FIXED_HEADER, Framer, LONGEST_RECORD, RecordView, Scan};
use std::alloc::{Allocator, Global};
use std::marker::Model;

/// How a cutter ended: it returns the same from then on.
#[derive(Clone, Copy)]
pub(crate) enum Ending {
    /// The input ended where a record ended.
    Clean,
    /// A fault other than `Memory`.
    Fault(StreamFault),
}

impl Ending {
    /// Returns what the cutter returns from then on.
    fn answer(self) -> Result<Option<usize>, StreamFault>
        ensures { result ≡ answer_of self }
    {
        match self {
            Ending::Clean => Ok(None),
            Ending::Fault(fault) => Err(fault),
        }
    }
}

/// Cuts what is read of a source into records, and lends each out of its one buffer.
///
/// It reads as many bytes as framing asks for ([`Scan::Need`]), or to the input's end, before it frames them again, and
/// so never past a record's end. The buffer stays from record to record: once it has room for the longest, no more
/// memory is requested.
///
/// Contracts see a cutter as a `CutterState`, and say by `IsAlong` that it holds what was read of its source.
#[derive(Drop)]
pub struct Cutter<A: Allocator = Global> {
    // The bytes that were read and not handed out, and room after them.
    held: Vec<u8, A>,
    // How many bytes stand at its beginning.
    have: usize,
    // They are a record that was lent, and are dropped before the next read.
    is_lent: bool,
    // The offset of the next record, in bytes from the input's beginning.
    offset: u64,
    // How often the source was called.
    reads: u64,
    // How far framing has come along the bytes at the buffer's beginning.
    framer: Framer,
    // How it ended, once it has.
    ending: Option<Ending>,
}

impl<A: Allocator> Model for Cutter<A> {
    ghost use Rattle.std.specs.Prelude.{◌≤◌, ◌+◌, ◌*◌, ◌^◌, take, if◌then◌else◌};
    ghost use Rattle.std.specs.Vec.{vec_len};
    ghost use Rattle.mseed_record.specs.Framer.{IsFramerOf};
    ghost use Rattle.mseed_record.specs.declared.framer.TheConstants.{LONGEST_RECORD};
    ghost use Rattle.mseed_stream.specs.declared.device.TheConstants.{READS};
    ghost use Rattle.mseed_stream.specs.CutterState.{CutterState};

    ghost Value = { CutterState };

    ghost view = { λ c. record {
      offset = c.offset;
      prefix = take c.have c.held.items;
      is_lent = c.is_lent;
      room = vec_len c.held;
      reads = c.reads;
      answer = c.ending;
    } };

    ghost invariant = { λ c. (c.have ≤ vec_len c.held) × (vec_len c.held ≤ LONGEST_RECORD) × (c.reads ≤ READS)
        × (c.offset + (if c.is_lent then 0 else c.have) ≤ LONGEST_RECORD * c.reads)
        × IsFramerOf c.framer (take c.have c.held.items) };
}

impl<A: Allocator> Cutter<A> {
    ghost use Rattle.mseed_stream.specs.contracts.cutter.Cutter.{the_row};
    ghost use mathlib.Core.Option.{none};
    ghost use denote.Follow.{follows_so};
    ghost use Rattle.std.specs.Borrow.{sem};

    /// Returns a cutter of an input of which nothing was read yet. It requests no memory.
    pub fn new(alloc: A) -> Cutter<A>
        ensures along { IsAlong nothing_read result }
        ensures offset { result.offset ≡ 0 }
        ensures records { HasRecords [] result.offset [] }
        ensures handed { HasHandedOut nothing_read result [] }
        ensures goes_on { result.answer ≡ None }
        ensures room { result.room ≡ 0 }
    {
        Cutter {
            held: Vec::new(alloc),
            have: 0,
            is_lent: false,
            offset: 0,
            reads: 0,
            framer: Framer::new(),
            ending: None,
        }
    }

    /// Returns the offset of the next record, in bytes from the input's beginning.
    pub fn offset(&self) -> u64
        ensures { result ≡ self.now.offset }
    {
        self.offset
    }

    /// Returns the length of the buffer in bytes, which never becomes shorter.
    pub fn room(&self) -> usize
        ensures value { result ≡ self.now.room }
        ensures most { result ≤ LONGEST_RECORD }
    {
        self.held.len()
    }

    /// Returns the next record, or `None` where the input ended where a record ended.
    ///
    /// The record is lent. The cutter then stands after it, and has read no byte that follows. The source has to be the
    /// same at each call, and the cutter alone may read it, from its first read on.
    ///
    /// After `None`, and after any fault but `Memory`, each call returns the same, and the source isn't called again.
    ///
    /// # Errors
    ///
    /// `Frame` where the bytes at the offset begin no record, whatever follows them; `Truncated` where the input ended
    /// while more was needed; `Read` where the source failed; `Turns` where 2^40 reads were made and more was needed;
    /// `Memory` where memory for a longer buffer was refused. After `Memory` no byte that was read is lost, and a
    /// further call goes on.
    pub fn next<R: Source>(&mut self, source: &mut R) -> Result<Option<RecordView<'_>>, StreamFault>
        requires { IsAlong (R.read source.old) self.old }

        // What is returned is what became of the input: what was read, which record is next, how the records end, and
        // when the same is returned again.
        ensures answer { IsNextAnswer result self.old (R.read source.old) (R.read source.new)
            (R.remaining source.old) (R.remaining source.new) }

        // A record is lent as its view: the bytes read from the offset on.
        ensures record { IfOk result (λ o. IfSome o (λ r. IsView (view_of r)
            × ((view_of r).bytes ≡ read_from self.old.offset (R.read source.new)))) }

        // Where the records end, those so far are all of what was read.
        ensures all { (views : List View) → HasHandedOut (R.read source.old) self.old views
            → IfEnds result (AreAllViews (R.read source.new) views (end_of result)) }

        // For a record the source was called.
        ensures called { IfOk result (λ o. IfSome o (λ r. (R.read source.old).calls < (R.read source.new).calls)) }

        // What the source takes stays as it was.
        ensures beside { R.beside source.new ≡ R.beside source.old }

        // Then the cutter stands after the record, goes on or has ended, and its buffer is no shorter.
        ensures* after { sem 𝓛 (follows_so (the_row A.row A.Allocator)
            (the_row A.row A.Allocator) self.entry.ghost_name none (λ _ _. ⊤)
            (λ c. IsAlong (R.read source.new) c
            × (c.offset ≡ self.old.offset + moves_by result (read_from self.old.offset (R.read source.new)))
            × (c.answer ≡ kept_of result) × (self.old.room ≤ c.room)
            × ((views : List View) → HasHandedOut (R.read source.old) self.old views
            → IfGoesOn result (λ more. HasHandedOut (R.read source.new) c (views ++ more))))) }
    {
        match self.advance(source)? {
            Some(length) => Ok(Some(RecordView::of_record(&self.held[..length]))),
            None => Ok(None),
        }
    }

    /// Returns the next record where it lies, where the source holds it whole: it is lent from there, and not copied.
    ///
    /// It is returned exactly where it begins what the source holds, and the cutter goes on, holds no bytes and has two
    /// reads left. Neither the cutter nor the source moves: [`pass`](Cutter::pass) goes past the record. Where this
    /// returns `None`, [`next`](Cutter::next) reads on.
    #[inline(always)]
    pub fn peek<'a, R: Source>(&self, source: &'a R) -> Option<RecordView<'a>>
        // A record is lent as its view, and is what is read next.
        ensures record { IfSome result (λ r. IsView (view_of r)
            × ((view_of r).bytes ≡ take (length (view_of r).bytes) (R.lent source.now))) }
        ensures ahead { IfSome result (λ r. IsAhead (length (view_of r).bytes) self.now (R.lent source.now)) }

        // Where nothing is lent, no record lies ahead.
        ensures nothing { IfNone result ((size : ℕ) → ¬ (IsAhead size self.now (R.lent source.now))) }
    {
        if !self.is_ready() {
            return None;
        }
        match RecordView::of(source.lend()) {
            Ok(view) => Some(view),
            Err(_) => None,
        }
    }

    /// Returns whether it goes on, holds no bytes, and has two reads left, as many as a record takes.
    fn is_ready(&self) -> bool
        ensures { IsTrue result ↔ ((held_of self.now ≡ []) × (self.now.answer ≡ None)
            × (self.now.reads + 2 ≤ READS)) }
    {
        if self.ending.is_some() || self.reads > READS - 2 {
            return false;
        }
        self.is_lent || self.have == 0
    }

    /// Goes past a record of `size` bytes that the source holds whole, as [`next`](Cutter::next) does where it returns
    /// one: by two calls of the source, for the header and for the rest. It is the record that [`peek`](Cutter::peek)
    /// returned, and neither the cutter nor the source moved since.
    pub fn pass<R: Source>(&mut self, source: &mut R, size: usize)
        requires along { IsAlong (R.read source.old) self.old }
        requires ahead { IsAhead size self.old (R.lent source.old) }

        // The source gave the record, by two calls that didn't fail, and holds what follows.
        ensures reported { R.read source.new ≡ lent_whole (R.read source.old) (take size (R.lent source.old)) }
        ensures rest { R.lent source.new ≡ drop size (R.lent source.old) }
        ensures known { Consumes (R.remaining source.old) (R.remaining source.new) (take size (R.lent source.old)) }
        ensures beside { R.beside source.new ≡ R.beside source.old }

        // The cutter stands after it, goes on, and keeps its buffer.
        ensures along { IsAlong (R.read source.new) self.new }
        ensures offset { self.new.offset ≡ self.old.offset + size }
        ensures goes_on { self.new.answer ≡ None }
        ensures room { self.new.room ≡ self.old.room }

        // It is the next record of the archive.
        ensures records { (records : List (List ℕ)) → HasRecords (R.read source.old).bytes self.old.offset records
            → HasRecords (R.read source.new).bytes self.new.offset
            (records ++ take size (R.lent source.old) ∷ []) }
        ensures handed { (views : List View) (v : View) → HasHandedOut (R.read source.old) self.old views → IsView v
            → v.bytes ≡ take size (R.lent source.old) → HasHandedOut (R.read source.new) self.new (views ++ v ∷ []) }
    {
        self.forget();
        pass_whole(source, self.offset, size);
        self.reads += 2;
        self.offset += size as u64;
    }

    /// Finds the next record, and returns its length in bytes, or `None` where the input ended where a record ended.
    ///
    /// # Errors
    ///
    /// Those of [`next`](Cutter::next).
    fn advance<R: Source>(&mut self, source: &mut R) -> Result<Option<usize>, StreamFault>
        requires { IsAlong (R.read source.old) self.old }
        ensures along { IsAlong (R.read source.new) self.new }
        ensures answer { IsNextAnswer result self.old (R.read source.old) (R.read source.new)
            (R.remaining source.old) (R.remaining source.new) }
        ensures record { IfOk result (λ o. IfSome o (λ n. (n ≡ length self.new.prefix) × IsRecord self.new.prefix
            × (self.new.prefix ≡ read_from self.old.offset (R.read source.new)))) }
        ensures offset { self.new.offset ≡ self.old.offset + moves_by result self.new.prefix }
        ensures called { (R.read source.old).calls + 2 * count_of result + asks_of (held_of self.new) ≤
            (R.read source.new).calls + asks_of (held_of self.old) }
        ensures kept { self.new.answer ≡ kept_of result }
        ensures room { self.old.room ≤ self.new.room }
        ensures beside { R.beside source.new ≡ R.beside source.old }
    {
        if let Some(ending) = self.ending {
            return ending.answer();
        }
        self.forget();
        let found = self.cut(source);
        self.pass_found(found)
    }

    /// Drops the record that was lent from the buffer.
    fn forget(&mut self)
        ensures { self.new ≡ forgot self.old }
    {
        if self.is_lent {
            self.have = 0;
            self.is_lent = false;
            self.framer = Framer::new();
        }
    }

    /// Goes past the record that was found and returns its length in bytes, or ends.
    ///
    /// # Errors
    ///
    /// The fault that was found.
    fn pass_found(&mut self, found: Result<bool, StreamFault>) -> Result<Option<usize>, StreamFault>
        requires { self.old.is_lent ≡ false }
        ensures after { self.new ≡ after_found self.old found }
        ensures answer { result ≡ lent_of (length self.old.prefix) found }
    {
        match found {
            Ok(true) => {
                self.offset += self.have as u64;
                self.is_lent = true;
                Ok(Some(self.have))
            }
            Ok(false) => {
                self.ending = Some(Ending::Clean);
                Ok(None)
            }
            Err(StreamFault::Memory) => Err(StreamFault::Memory),
            Err(fault) => {
                self.ending = Some(Ending::Fault(fault));
                Err(fault)
            }
        }
    }

    /// Reads up to the next record's end, as many bytes at a time as framing asks for, and returns true; false where
    /// the input ended where a record ended.
    ///
    /// # Errors
    ///
    /// Those of [`next`](Cutter::next).
    fn cut<R: Source>(&mut self, source: &mut R) -> Result<bool, StreamFault>
        requires { MayCut (R.read source.old) self.old }
        ensures cut { IsCut result self.old self.new (R.read source.old) (R.read source.new) }
        ensures reads { ReadsOn (R.read source.old) (R.read source.new) (R.remaining source.old)
            (R.remaining source.new) (R.beside source.old) (R.beside source.new) }
    {
        if self.take_lent(source) {
            return Ok(true);
        }
        let mut is_at_end = false;
        'stops: loop {
            match self.look() {
                Scan::Record(size) => {
                    self.note_held(source, size);
                    return Ok(true);
                }
                Scan::Not(fault) => return Err(StreamFault::Frame(self.offset, fault)),
                Scan::Need(_) if is_at_end => return self.end(),
                Scan::Need(needed) => is_at_end = self.fill(source, needed)?,
            }
        }
    }

    /// Takes the next record out of what the source holds, where it is whole there and the buffer has room for it: by
    /// two calls, as it would be read. Returns whether it did; nothing has changed where it didn't.
    #[inline(always)]
    fn take_lent<R: Source>(&mut self, source: &mut R) -> bool
        requires { MayCut (R.read source.old) self.old }
        ensures cut { OnTrue result (IsCut (Ok true) self.old self.new (R.read source.old) (R.read source.new)) }
        ensures reads { OnTrue result (ReadsOn (R.read source.old) (R.read source.new) (R.remaining source.old)
            (R.remaining source.new) (R.beside source.old) (R.beside source.new)) }
        ensures unchanged { result ≡ false → (self.new ≡ self.old) × (source.new ≡ source.old) }
    {
        let lent = source.lend();
        // Fewer bytes than the longest record so far has may end within the next, which would be framed for nothing.
        if self.have > 0 || self.reads > READS - 2 || lent.len() < self.held.len() {
            return false;
        }
        let Ok(view) = RecordView::of(lent) else {
            return false;
        };
        let size = view.bytes().len();
        if self.held.len() < size {
            return false;
        }
        self.hold(view.bytes());
        pass_whole(source, self.offset, size);
        true
    }

    /// Tells the source of the record of `size` bytes that is held.
    #[inline(always)]
    fn note_held<R: Source>(&self, source: &mut R, size: usize)
        requires read { IsRead (R.read source.old) self.now }
        requires not_lent { self.now.is_lent ≡ false }
        requires inside { size ≤ length self.now.prefix }
        requires is_record { IsRecord (take size self.now.prefix) }
        ensures read { R.read source.new ≡ R.read source.old }
        ensures remaining { R.remaining source.new ≡ R.remaining source.old }
        ensures beside { R.beside source.new ≡ R.beside source.old }
    {
        source.note_record(self.offset, size);
    }

    /// Holds these bytes in place of those that it held: two reads more have brought them.
    fn hold(&mut self, bytes: &[u8])
        requires room { length bytes.now ≤ self.old.room }
        requires reads { self.old.reads + 2 ≤ READS }
        ensures { self.new ≡ record self.old { prefix = bytes.now; reads = self.old.reads + 2 } }
    {
        copy_to_front(bytes, &mut self.held);
        self.have = bytes.len();
        self.reads += 2;
        self.framer = Framer::new();
    }

    /// Returns false where no bytes are left at the input's end.
    ///
    /// # Errors
    ///
    /// `Truncated` where some are left.
    fn end(&self) -> Result<bool, StreamFault>
        ensures { IsAnswerAtEnd result self.now.offset self.now.prefix }
    {
        if self.have == 0 {
            Ok(false)
        } else {
            Err(StreamFault::Truncated(self.offset, self.have))
        }
    }

    /// Returns what framing says of the bytes that are held. It goes on where it ended.
    fn look(&mut self) -> Scan
        ensures stays { self.new ≡ self.old }
        ensures decides { Decides self.old.prefix result }
        ensures record { (k : ℕ) → result ≡ Record k
            → (k ≤ length self.old.prefix) × IsRecord (take k self.old.prefix) }
        ensures needed { (k : ℕ) → result ≡ Need k → (length self.old.prefix < k) × (k ≤ LONGEST_RECORD) }
    {
        self.framer.look(&self.held[..self.have])
    }

    /// Makes the buffer at least `needed` bytes long.
    ///
    /// # Errors
    ///
    /// `Memory` where memory is refused; the cutter is unchanged then.
    fn make_room(&mut self, needed: usize) -> Result<(), StreamFault>
        requires { needed ≤ LONGEST_RECORD }
        ensures ok { OnOk result (needed ≤ self.new.room) }
        ensures err { IfErr result (λ e. (e ≡ StreamFault.Memory) × (self.old.room < needed) × (self.new ≡ self.old)) }
        ensures stays { self.new ≡ record self.old { room = self.new.room } }
        ensures longer { self.old.room ≤ self.new.room }
        ensures small { self.new.room ≤ LONGEST_RECORD }
    {
        if self.held.len() < needed && self.held.resize(needed, 0).is_err() {
            return Err(StreamFault::Memory);
        }
        Ok(())
    }

    /// Reads until `needed` bytes are held, and returns whether the input ended before.
    ///
    /// # Errors
    ///
    /// `Memory`, `Turns` and `Read`, as of [`next`](Cutter::next).
    fn fill<R: Source>(&mut self, source: &mut R, needed: usize) -> Result<bool, StreamFault>
        requires read { IsRead (R.read source.old) self.old }
        requires not_lent { self.old.is_lent ≡ false }
        requires more { length self.old.prefix < needed }
        requires most { needed ≤ LONGEST_RECORD }
        requires going_on { (R.read source.old).is_at_end ≡ false }
        ensures holds { HoldsMore self.old self.new (R.read source.old) (R.read source.new) }
        ensures reads { ReadsOn (R.read source.old) (R.read source.new) (R.remaining source.old)
            (R.remaining source.new) (R.beside source.old) (R.beside source.new) }
        ensures filled { IsFilled result needed self.old self.new (R.read source.old) (R.read source.new) }
    {
        self.make_room(needed)?;
        while self.have < needed {
            if self.reads == READS {
                return Err(StreamFault::Turns(self.offset));
            }
            self.reads += 1;
            match pull_between(source, &mut self.held, self.have, needed) {
                Ok(0) => return Ok(true),
                Ok(n) => self.have += n,
                Err(Failed) => return Err(StreamFault::Read(self.offset)),
            }
        }
        Ok(false)
    }
}

/// Goes past a record of `size` bytes that the source holds, as framing asks for them: the header, and then the rest.
/// It begins at an offset, where reading has come to.
fn pass_whole<R: Source>(source: &mut R, offset: u64, size: usize)
    requires header { FIXED_HEADER ≤ size }
    requires whole { size ≤ length (R.lent source.old) }
    requires offset { offset ≡ length (R.read source.old).bytes }
    requires is_record { IsRecord (take size (R.lent source.old)) }
    ensures reported { R.read source.new ≡ lent_whole (R.read source.old) (take size (R.lent source.old)) }
    ensures rest { R.lent source.new ≡ drop size (R.lent source.old) }
    ensures known { Consumes (R.remaining source.old) (R.remaining source.new) (take size (R.lent source.old)) }
    ensures beside { R.beside source.new ≡ R.beside source.old }
{
    source.consume(FIXED_HEADER);
    source.consume(size - FIXED_HEADER);
    source.note_record(offset, size);
}

/// Copies these bytes to the beginning of a buffer.
#[inline(always)]
fn copy_to_front(bytes: &[u8], held: &mut [u8])
    requires { length bytes.now ≤ length held.old }
    ensures { take (length bytes.now) held.new ≡ bytes.now }
{
    held[..bytes.len()].copy_from_slice(bytes);
}

/// Reads once, into the bytes from index `begin` to `end`, and returns how many bytes were read.
///
/// # Errors
///
/// `Failed` where the source failed.
fn pull_between<R: Source>(
    source: &mut R,
    held: &mut [u8],
    begin: usize,
    end: usize,
) -> Result<usize, Failed>
    requires low { begin ≤ end }
    requires high { end ≤ length held.old }
    ensures bound { IfOk result (λ n. begin + n ≤ end) }
    ensures before { take begin held.new ≡ take begin held.old }
    ensures read { R.read source.new ≡ read_also (R.read source.old) result (slice_range held.new begin end) }
    ensures known { ReadConsumes (R.remaining source.old) (R.remaining source.new) result
        (slice_range held.new begin end) }
    ensures beside { R.beside source.new ≡ R.beside source.old }
{
    source.pull(&mut held[begin..end])
}
