//! A stream whose packets are written many at once.
ghost use Rattle.std.specs.Prelude.{◌≡◌, ◌≤◌, IfOk, length};
ghost use Rattle.slink_links.specs.declared.packet_buffer.TheConstants.{ROOM};

use slink_wire::PACKET;
use std::io;
use std::io::{Read, Write};
use std::marker::Model;

/// The most bytes that are gathered: those of 63 packets.
pub(crate) const ROOM: usize = 63 * PACKET;

/// Room for the packets that are gathered, which one link has after another.
pub(crate) type Room = [u8; ROOM];

/// A stream that gathers packets. They are written before anything shorter is, before the stream is read, and before a
/// packet for which there is no room, which then goes out at once. An error in writing them is reported at that call.
#[derive(Drop)]
pub struct PacketBuffer<S> {
    stream: S,
    room: Box<Room>,
    count: usize,
}

impl<S> Model for PacketBuffer<S> {
    ghost Value = { S };

    ghost view = { λ g. g.stream };

    ghost invariant = { λ g. g.count ≤ ROOM };
}

impl<S> PacketBuffer<S> {
    /// The stream, for which nothing was gathered yet.
    pub(crate) fn new(stream: S, room: Box<Room>) -> PacketBuffer<S>
        ensures { result ≡ stream }
    {
        PacketBuffer {
            stream,
            room,
            count: 0,
        }
    }

    /// The stream.
    pub(crate) fn stream(&self) -> &S
        ensures { result.now ≡ self.now }
    {
        &self.stream
    }
}

impl<S: Write> PacketBuffer<S> {
    /// Writes what was gathered.
    ///
    /// # Errors
    ///
    /// Where the stream fails, or takes nothing. What it didn't take by then is lost, as the link is.
    fn write_gathered(&mut self) -> io::Result<()> {
        let count = self.count;
        self.count = 0;
        self.stream.write_all(&self.room[..count])
    }

    /// Writes these bytes after what was gathered, or as many of them as the stream takes at once.
    ///
    /// # Errors
    ///
    /// As for [`PacketBuffer::write_gathered`].
    fn write_further(&mut self, bytes: &[u8]) -> io::Result<usize>
        ensures { IfOk result (λ n. n ≤ length bytes.now) }
    {
        self.write_gathered()?;
        self.stream.write(bytes)
    }

    /// The stream, once what was gathered is written, unless it fails; and the room, for the next link.
    pub(crate) fn into_parts(mut self) -> (S, Box<Room>) {
        let _ = self.write_gathered();
        (self.stream, self.room)
    }
}

impl<S: Read + Write> Read for PacketBuffer<S> {
    fn read(&mut self, buf: &mut [u8]) -> io::Result<usize> {
        self.write_gathered()?;
        self.stream.read(buf)
    }
}

impl<S: Write> Write for PacketBuffer<S> {
    fn write(&mut self, bytes: &[u8]) -> io::Result<usize> {
        if bytes.len() != PACKET {
            return self.write_further(bytes);
        }
        if self.count > ROOM - PACKET {
            return self.write_further(bytes);
        }
        let end = self.count + PACKET;
        let room = &mut *self.room;
        room[self.count..end].copy_from_slice(bytes);
        self.count = end;
        Ok(PACKET)
    }

    fn flush(&mut self) -> io::Result<()> {
        self.write_gathered()?;
        self.stream.flush()
    }
}
