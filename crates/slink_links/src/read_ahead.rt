//! A stream that is read ahead.
ghost use Rattle.std.specs.Prelude.{◌≡◌, ◌≤◌};
ghost use Rattle.slink_links.specs.declared.read_ahead.TheConstants.{ROOM};

use std::io;
use std::io::{Read, Write};
use std::marker::Model;

/// How many bytes are read at once, where they are there.
pub(crate) const ROOM: usize = 1 << 15;

/// Room for the bytes that are read ahead, which is lent to one link after another.
pub(crate) type Room = [u8; ROOM];

/// A stream of which all that is there is read at once, and handed on piece by piece. It isn't called while something
/// is left to hand on, so that a client that takes a packet at a time costs the system one read for many.
#[derive(Drop)]
pub struct ReadAhead<S> {
    stream: S,
    room: Box<Room>,
    reported: usize,
    count: usize,
}

impl<S> Model for ReadAhead<S> {
    ghost Value = { S };

    ghost view = { λ a. a.stream };

    ghost invariant = { λ a. (a.reported ≤ a.count) × (a.count ≤ ROOM) };
}

impl<S> ReadAhead<S> {
    /// The stream, of which nothing was read ahead yet.
    pub(crate) fn new(stream: S, room: Box<Room>) -> ReadAhead<S>
        ensures { result ≡ stream }
    {
        ReadAhead {
            stream,
            room,
            reported: 0,
            count: 0,
        }
    }

    /// The stream.
    pub(crate) fn stream(&self) -> &S
        ensures { result.now ≡ self.now }
    {
        &self.stream
    }
}

impl<S: Drop> ReadAhead<S> {
    /// The room, for the next link. What was read ahead and isn't handed on is lost, and the stream is let go of.
    pub(crate) fn into_room(self) -> Box<Room> {
        self.room
    }
}

impl<S: Read> Read for ReadAhead<S> {
    fn read(&mut self, buf: &mut [u8]) -> io::Result<usize> {
        let room = &mut *self.room;
        if self.reported == self.count {
            let count = self.stream.read(room)?;
            self.reported = 0;
            self.count = count;
        }
        let held = &room[self.reported..self.count];
        let n = held.len().min(buf.len());
        buf[..n].copy_from_slice(&held[..n]);
        self.reported += n;
        Ok(n)
    }
}

impl<S: Write> Write for ReadAhead<S> {
    fn write(&mut self, bytes: &[u8]) -> io::Result<usize> {
        self.stream.write(bytes)
    }

    fn flush(&mut self) -> io::Result<()> {
        self.stream.flush()
    }
}
