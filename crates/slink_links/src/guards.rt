//! Keeping sockets off the descriptors of the standard streams. Where one of these is closed, the next socket takes its
//! place, and what is written to the stream would go over a link.

use mio::Poll;
use std::alloc::Global;
use std::io;
use std::net::{Net, OpenListener, OpenStream};
use std::os::fd::{AsRawFd, RawFd};

/// The descriptors below this one are those of the standard streams.
const FIRST_FREE: RawFd = 3;

/// Whether a descriptor is that of a standard stream.
fn is_of_streams(descriptor: RawFd) -> bool {
    descriptor < FIRST_FREE
}

/// A connection at a descriptor of its own: a duplicate of one that stands where a standard stream is closed. A
/// duplicate never stands there.
///
/// # Errors
///
/// Where there is no descriptor for the duplicate.
pub(crate) fn off_streams<S: OpenStream + AsRawFd + Drop>(stream: S) -> io::Result<S> {
    if is_of_streams(stream.as_raw_fd()) {
        stream.try_clone()
    } else {
        Ok(stream)
    }
}

/// A listener at a descriptor of its own, as [`off_streams`] has it.
///
/// # Errors
///
/// Where there is no descriptor for the duplicate.
pub(crate) fn listener_off_streams<L: OpenListener + AsRawFd + Drop>(listener: L) -> io::Result<L> {
    if is_of_streams(listener.as_raw_fd()) {
        listener.try_clone()
    } else {
        Ok(listener)
    }
}

/// What stands at the descriptors of those standard streams that are closed. Nothing can be read there or written.
#[derive(Drop)]
pub(crate) struct Guards {
    taken: Vec<Poll>,
}

impl Guards {
    /// Takes the descriptors of the standard streams that are closed.
    ///
    /// # Errors
    ///
    /// Where there are no descriptors, or there is no memory.
    pub(crate) fn new<N: Net>(host: &N, alloc: Global) -> io::Result<Self> {
        let mut taken = Vec::new(alloc);
        for stream in 0..FIRST_FREE {
            let guard = Poll::new(host)?;
            if !is_of_streams(guard.as_raw_fd()) {
                break;
            }
            taken.push(guard)?;
        }
        Ok(Guards { taken })
    }

    /// Whether the stream at a descriptor is closed.
    pub(crate) fn is_closed(&self, descriptor: RawFd) -> bool {
        self.taken
            .iter()
            .any(|guard| guard.as_raw_fd() == descriptor)
    }
}
