//! A host whose clock stands still, and what a device reads as its input.

use std::cell::Cell;
use std::io;
use std::io::{ErrorKind, Read};
use std::net::{Net, SocketAddr};
use std::os::fd::{AsRawFd, RawFd};
use std::os::unix::net::UnixStream;
use std::time::{Clock, Duration};

/// A host over the network of another one. Its clock stands still until it is moved on.
#[derive(Drop)]
pub(crate) struct Still<'a, N: Net> {
    net: &'a N,
    millis: Cell<u64>,
}

impl<'a, N: Net> Still<'a, N> {
    /// A host whose clock is at its beginning.
    pub(crate) fn new(net: &'a N) -> Still<'a, N> {
        Still {
            net,
            millis: Cell::new(0),
        }
    }

    /// What the clock shows, in milliseconds.
    pub(crate) fn now(&self) -> u64 {
        self.millis.get()
    }

    /// Moves the clock on.
    pub(crate) fn pass(&self, millis: u64) {
        self.millis.set(self.millis.get().saturating_add(millis));
    }
}

impl<N: Net> Net for Still<'_, N> {
    type Stream = N::Stream;

    type Listener = N::Listener;

    fn bind(&self, addr: SocketAddr) -> io::Result<N::Listener> {
        self.net.bind(addr)
    }

    fn connect(&self, addr: SocketAddr) -> io::Result<N::Stream> {
        self.net.connect(addr)
    }

    fn unix_pair(&self) -> io::Result<(UnixStream, UnixStream)> {
        self.net.unix_pair()
    }
}

impl<N: Net> Clock for Still<'_, N> {
    fn monotonic(&self) -> io::Result<Duration> {
        Ok(Duration::from_millis(self.now()))
    }

    fn since_1970(&self) -> io::Result<Duration> {
        Ok(Duration::from_millis(self.now()))
    }
}

/// An input of a device.
#[derive(Drop)]
pub(crate) enum Input {
    /// Gives a byte so many times, and is always ready, as a file. Then it ends, or fails.
    File { left: u32, fails: bool },
    /// The other end of a link.
    Pipe(UnixStream),
}

impl AsRawFd for Input {
    fn as_raw_fd(&self) -> RawFd {
        match self {
            Input::File { .. } => -1,
            Input::Pipe(stream) => stream.as_raw_fd(),
        }
    }
}

impl Read for Input {
    fn read(&mut self, buf: &mut [u8]) -> io::Result<usize> {
        match self {
            Input::File { left, fails } => {
                if *left > 0 {
                    *left -= 1;
                    Ok(buf.len().min(1))
                } else if *fails {
                    Err(ErrorKind::Other.into())
                } else {
                    Ok(0)
                }
            }
            Input::Pipe(stream) => stream.read(buf),
        }
    }
}
