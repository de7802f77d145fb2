//! Links that are closed so that what was written to them comes through.
ghost use Rattle.std.specs.Prelude.{◌<◌, IfSome, length};

use crate::closing::{Leftover, MOST};
use mio::net::TcpStream;
use mio::{Interest, Registry, Token};
use std::alloc::{AllocError, Global};
use std::io::ErrorKind;
use std::net::Shutdown;
use std::time::Instant;

/// A stream on which nothing is written any more.
#[derive(Drop)]
struct DrainingStream {
    stream: TcpStream,
    leftover: Leftover,
    may_read: bool,
}

impl DrainingStream {
    /// Whether it stays: the other side hasn't closed it, sent too many bytes, or had its time.
    fn stays(&mut self, now: Instant) -> bool {
        if self.leftover.time_left(now).is_zero() {
            return false;
        }
        if !self.may_read {
            return true;
        }
        self.may_read = false;
        for read in 0..MOST {
            match self.leftover.throw_away(&mut self.stream) {
                Ok(true) => {}
                Ok(false) => return false,
                Err(error) => return error.kind() == ErrorKind::WouldBlock,
            }
        }
        false
    }
}

/// Streams that are let go of once the other side has closed them, or has sent many bytes more, or was given time to.
#[derive(Drop)]
pub(crate) struct Draining {
    streams: Vec<Option<DrainingStream>>,
    // The token of the first stream.
    first: usize,
    count: usize,
}

impl Draining {
    /// Room for `count` streams, whose tokens begin with `first`.
    ///
    /// # Errors
    ///
    /// Where there is no memory.
    pub(crate) fn new(alloc: Global, first: usize, count: usize) -> Result<Self, AllocError> {
        let mut streams = Vec::new(alloc);
        for stream in 0..count {
            streams.push(None)?;
        }
        Ok(Draining {
            streams,
            first,
            count: 0,
        })
    }

    /// Writes nothing more on a stream that is registered, and takes it. Without room for it, it is let go of at once.
    pub(crate) fn add(&mut self, mut stream: TcpStream, registry: &Registry, since: Instant) {
        let Some(index) = self.free() else {
            return;
        };
        let token = Token(self.first.saturating_add(index));
        if stream.shutdown(Shutdown::Write).is_ok()
            && registry
                .reregister(&mut stream, token, Interest::READABLE)
                .is_ok()
        {
            self.streams[index] = Some(DrainingStream {
                stream,
                leftover: Leftover::new(since),
                may_read: true,
            });
            self.count = self.count.saturating_add(1);
        }
    }

    /// Returns the index of a free entry, if there is one.
    fn free(&self) -> Option<usize>
        ensures { IfSome result (λ index. index < length self.now.streams.items) }
    {
        self.streams.iter().position(|stream| stream.is_none())
    }

    /// An event says that the stream with a token may have bytes, or be at its end.
    pub(crate) fn set_ready(&mut self, token: usize) {
        let index = token.saturating_sub(self.first);
        if let Some(Some(draining_stream)) = self.streams.get_mut(index) {
            draining_stream.may_read = true;
        }
    }

    /// Whether there is none.
    pub(crate) fn is_empty(&self) -> bool {
        self.count == 0
    }

    /// Reads what still comes, and lets go of those that are done.
    pub(crate) fn drain(&mut self, now: Instant) {
        for index in 0..self.streams.len() {
            let stays = match &mut self.streams[index] {
                Some(draining_stream) => draining_stream.stays(now),
                None => true,
            };
            if !stays {
                self.streams[index] = None;
                self.count = self.count.saturating_sub(1);
            }
        }
    }
}
