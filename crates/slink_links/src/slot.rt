//! A link over TCP, and what is known of it.
ghost use Rattle.std.specs.Prelude.{◌≤◌, length};

use mio::net::TcpStream;
use slink_live::{Interest, MOST_PENDING};
use slink_wire::PACKET;
use std::io::{ErrorKind, Read, Write};
use std::time::{Duration, Instant};

/// What a server wants of a new link.
const FIRST_INTEREST: Interest = Interest {
    reads: true,
    writes: false,
    is_streaming: false,
};

/// After a write of more bytes than these, more is to be written: all that a link has waiting had no room.
const LONG: usize = MOST_PENDING - PACKET;

/// A stream, what the server wants of it, and what may be had.
#[derive(Drop)]
struct Connection {
    stream: TcpStream,
    interest: Interest,
    may_read: bool,
    may_write: bool,
    // The client says nothing more. What it requested is written all the same.
    is_at_end: bool,
    is_gone: bool,
    // What is written goes out at once, also where it is less than a segment.
    is_prompt: bool,
    // Since when it has only so much time.
    waits_since: Option<Instant>,
}

/// A slot for a link.
#[derive(Drop)]
pub(crate) struct Slot {
    connection: Option<Connection>,
}

/// What can be done with the link in a slot.
#[derive(Clone, Copy, Debug, PartialEq, Eq)]
pub(crate) enum Readiness {
    /// Nothing can be done.
    None,
    /// The link may have bytes.
    Readable,
    /// The link may take bytes.
    Writable,
    /// The link is at its end, or failed, or was silent for too long.
    Gone,
}

impl Connection {
    /// Whether it has only so much time: in the handshake, and while it takes nothing though there is something to
    /// write.
    fn is_timed(&self) -> bool {
        !self.interest.is_streaming || self.interest.writes && !self.may_write
    }

    /// What the server wants, and whether that is something else than before.
    fn wants(&mut self, interest: Interest) -> bool {
        if interest == self.interest {
            return false;
        }
        if interest.is_streaming && !self.interest.is_streaming {
            self.waits_since = None;
        }
        if !interest.writes {
            self.be_prompt(true);
        }
        self.interest = interest;
        true
    }

    /// Whether what is written goes out at once. While more follows, the system puts it together to longer segments,
    /// of which each wakes the client once.
    fn be_prompt(&mut self, is_prompt: bool) {
        if self.is_prompt != is_prompt && self.stream.set_nodelay(is_prompt).is_ok() {
            self.is_prompt = is_prompt;
        }
    }

    /// Takes note of the time, and answers whether the link has waited for too long: then it is gone.
    fn look_at(&mut self, now: Instant, limit: Duration) -> bool {
        if !self.is_timed() {
            self.waits_since = None;
            return false;
        }
        match self.waits_since {
            Some(since) => {
                self.is_gone = self.is_gone || now.saturating_duration_since(since) >= limit;
                self.is_gone
            }
            None => {
                self.waits_since = Some(now);
                false
            }
        }
    }

    /// What can be done. A write comes before a read.
    fn readiness(&self) -> Readiness {
        if self.is_gone || self.is_at_end && !self.interest.writes {
            Readiness::Gone
        } else if self.interest.writes && self.may_write {
            Readiness::Writable
        } else if self.interest.reads && self.may_read && !self.is_at_end {
            Readiness::Readable
        } else {
            Readiness::None
        }
    }

    /// Reads once.
    fn read(&mut self, buf: &mut [u8]) -> usize
        ensures { result ≤ length buf.new }
    {
        match self.stream.read(buf) {
            Ok(0) => {
                self.is_at_end = true;
                0
            }
            Ok(count) => count,
            Err(error) => {
                match error.kind() {
                    ErrorKind::WouldBlock => self.may_read = false,
                    ErrorKind::Interrupted => {}
                    _ => self.is_gone = true,
                }
                0
            }
        }
    }

    /// Writes once. Whoever takes something has all the time again.
    fn write(&mut self, bytes: &[u8]) -> usize
        ensures { result ≤ length bytes.now }
    {
        self.be_prompt(bytes.len() <= LONG);
        match self.stream.write(bytes) {
            Ok(0) => {
                self.is_gone = true;
                0
            }
            Ok(count) => {
                if self.interest.is_streaming {
                    self.waits_since = None;
                }
                count
            }
            Err(error) => {
                match error.kind() {
                    ErrorKind::WouldBlock => self.may_write = false,
                    ErrorKind::Interrupted => {}
                    _ => self.is_gone = true,
                }
                0
            }
        }
    }
}

impl Slot {
    /// A slot without a link.
    pub(crate) fn new() -> Slot {
        Slot { connection: None }
    }

    /// Takes a link, of which a read and a write are tried at once.
    pub(crate) fn open(&mut self, stream: TcpStream) {
        self.connection = Some(Connection {
            stream,
            interest: FIRST_INTEREST,
            may_read: true,
            may_write: true,
            is_at_end: false,
            is_gone: false,
            is_prompt: true,
            waits_since: None,
        });
    }

    /// The stream of the link, which stands here no more.
    pub(crate) fn leave(&mut self) -> Option<TcpStream> {
        self.connection.take().map(|connection| connection.stream)
    }

    /// What the server wants, and whether that is something else than before.
    pub(crate) fn wants(&mut self, interest: Interest) -> bool {
        self.connection
            .as_mut()
            .is_some_and(|connection| connection.wants(interest))
    }

    /// Notes what an event reports of the link.
    pub(crate) fn set_ready(&mut self, reads: bool, writes: bool) {
        if let Some(connection) = &mut self.connection {
            connection.may_read = connection.may_read || reads;
            connection.may_write = connection.may_write || writes;
        }
    }

    /// Whether it has only so much time.
    pub(crate) fn is_timed(&self) -> bool {
        self.connection
            .as_ref()
            .is_some_and(|connection| connection.is_timed())
    }

    /// Takes note of the time, and answers whether the link has waited for too long.
    pub(crate) fn look_at(&mut self, now: Instant, limit: Duration) -> bool {
        self.connection
            .as_mut()
            .is_some_and(|connection| connection.look_at(now, limit))
    }

    /// What can be done.
    pub(crate) fn readiness(&self) -> Readiness {
        match &self.connection {
            Some(connection) => connection.readiness(),
            None => Readiness::None,
        }
    }

    /// Reads once.
    pub(crate) fn read(&mut self, buf: &mut [u8]) -> usize
        ensures { result ≤ length buf.new }
    {
        match &mut self.connection {
            Some(connection) if !buf.is_empty() => connection.read(buf),
            _ => 0,
        }
    }

    /// Writes once.
    pub(crate) fn write(&mut self, bytes: &[u8]) -> usize
        ensures { result ≤ length bytes.now }
    {
        match &mut self.connection {
            Some(connection) if !bytes.is_empty() => connection.write(bytes),
            _ => 0,
        }
    }
}
