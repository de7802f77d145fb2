//! Files one after another, as a source that lends what it holds.
ghost use Rattle.std.specs.Prelude.{◌≡◌, ◌<◌, IfOk, IfSome, None, OnErr, Ok, [], false, length};
ghost use Rattle.std.specs.Io.KnownBytes.{Keeps};
ghost use Rattle.mseed_stream.specs.Device.{nothing_read, read_also};
ghost use Rattle.mseed_files.specs.ChainState.{IsChain, beside_of, left_of, unread_chain};
ghost use Rattle.mseed_files.specs.Found.{contents_of};
ghost use Rattle.mseed_files.specs.ReaderState.{HasEnded, IsPlace};

use crate::files::Files;
use crate::place::Place;
use crate::reader::Reader;
use crate::reason::Reason;
use mseed_stream::{Failed, Source, Tally};
use std::alloc::{AllocError, Allocator, Global};
use std::marker::Model;

/// Files one after another, as a source of their bytes, which lends what it holds: as many bytes are read at once as
/// its buffer has room for. One file is open at a time.
///
/// The end of a file that others follow is no end, and neither is an empty file. Where a file can't be opened, or a
/// read fails, so does each call from then on, and no file is read any more.
///
/// Contracts see it as a `ChainState`.
#[derive(Drop)]
pub struct Chain<'a, F: Files, A: Allocator = Global> {
    reader: Reader<'a, F, A>,
    buffer: Vec<u8, A>,
    // What stands in the buffer and wasn't handed on.
    begin: usize,
    end: usize,
    is_at_end: bool,
    reads: Tally,
}

impl<'a, F: Files, A: Allocator> Model for Chain<'a, F, A> {
    ghost use Rattle.std.specs.Prelude.{◌<◌, ◌≤◌, slice_range};
    ghost use Rattle.std.specs.Vec.{vec_len};
    ghost use Rattle.mseed_files.specs.ChainState.{ChainState, IsChain, handed_on};

    ghost Value = { ChainState };

    ghost view = { λ c. record {
      files = c.reader;
      held = slice_range c.buffer.items c.begin c.end;
      read = handed_on c.reads c.is_at_end;
    } };

    ghost invariant = { λ c. (0 < vec_len c.buffer) × (c.begin ≤ c.end) × (c.end ≤ vec_len c.buffer) × IsChain (record {
      files = c.reader;
      held = slice_range c.buffer.items c.begin c.end;
      read = handed_on c.reads c.is_at_end;
    }) };
}

impl<'a, F: Files, A: Allocator + Copy> Chain<'a, F, A> {
    /// The files that these words name, none of which was opened yet, with a buffer of `room` bytes.
    ///
    /// # Errors
    ///
    /// Where there is no memory for the buffer, or for where the files begin.
    pub fn new(
        alloc: A,
        files: &'a mut F,
        words: &'a [&'a [u8]],
        room: usize,
    ) -> Result<Chain<'a, F, A>, AllocError>
        requires { 0 < room }
        ensures { IfOk result (λ chain. chain ≡ unread_chain (contents_of (F.found files.old) words.entry.now)
            (F.failures files.old)) }
    {
        let reader = Reader::new(alloc, files, words)?;
        let mut buffer = Vec::new(alloc);
        buffer.resize(room, 0)?;
        Ok(Chain {
            reader,
            buffer,
            begin: 0,
            end: 0,
            is_at_end: false,
            reads: Tally::new(),
        })
    }
}

impl<'a, F: Files, A: Allocator> Chain<'a, F, A> {
    /// The file that couldn't be opened or read, by its number, if one couldn't.
    pub fn failed(&self) -> Option<usize>
        ensures file { result ≡ self.now.files.failed }
        ensures chain { IsChain self.now }
    {
        self.reader.failed()
    }

    /// Why that file couldn't be opened or read, as the system says.
    pub fn reason(&self) -> Reason {
        self.reader.reason()
    }

    /// The number of bytes that were read of all files.
    pub fn bytes_read(&self) -> u64
        ensures { result ≡ self.now.files.bytes }
    {
        self.reader.bytes_read()
    }

    /// Where the byte lies before which `offset` bytes were read: in the last file of those that were opened that
    /// doesn't begin after it. None where no file was opened.
    pub fn place_of(&self, offset: u64) -> Option<Place>
        ensures place { IfSome result (IsPlace self.now.files offset) }
        ensures none { result ≡ None → self.now.files.begins ≡ [] }
    {
        self.reader.place_of(offset)
    }

    /// Reads once into the buffer, of which all was handed on, and returns how many bytes it holds then: 0 where no
    /// file is left.
    ///
    /// # Errors
    ///
    /// `Failed` where a file couldn't be opened or read, now or before.
    fn fill(&mut self) -> Result<usize, Failed>
        requires none { self.old.held ≡ [] }
        requires goes_on { self.old.read.is_at_end ≡ false }
        ensures held { IfOk result (λ n. n ≡ length self.new.held) }
        ensures none { OnErr result (self.new.held ≡ []) }
        ensures known { Keeps (left_of self.old) (left_of self.new) }
        ensures files { self.new.files.contents ≡ self.old.files.contents }
        ensures ended { result ≡ Ok 0 → HasEnded self.new.files }
        ensures read { IfOk result (λ _. self.new.read ≡ self.old.read) }
        ensures failed { OnErr result (self.new.read ≡ read_also self.old.read result []) }
    {
        if self.reader.failed().is_some() {
            self.reads.record(&[], true);
            return Err(Failed);
        }
        self.begin = 0;
        self.end = 0;
        match self.reader.read(&mut self.buffer) {
            Ok(n) => {
                self.end = n;
                Ok(n)
            }
            Err(_) => {
                self.reads.record(&[], true);
                Err(Failed)
            }
        }
    }
}

impl<'a, F: Files, A: Allocator> Source for Chain<'a, F, A> {
    ghost read = { λ c. c.read };

    ghost remaining = { left_of };

    ghost lent = { λ c. c.held };

    ghost beside = { beside_of };

    fn pull(&mut self, buf: &mut [u8]) -> Result<usize, Failed> {
        if self.is_at_end || buf.is_empty() {
            self.reads.record(&[], false);
            return Ok(0);
        }
        if self.begin == self.end && self.fill()? == 0 {
            self.is_at_end = true;
            self.reads.record(&[], false);
            return Ok(0);
        }
        let held = self.lend();
        let n = held.len().min(buf.len());
        buf[..n].copy_from_slice(&held[..n]);
        self.consume(n);
        Ok(n)
    }

    fn lend(&self) -> &[u8] {
        &self.buffer[self.begin..self.end]
    }

    #[inline(always)]
    fn consume(&mut self, amount: usize) {
        self.reads
            .record(&self.buffer[self.begin..self.begin + amount], false);
        self.begin += amount;
    }
}
