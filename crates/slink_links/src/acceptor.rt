//! Where links dial.

use mio::net::{TcpListener, TcpStream};
use std::io;
use std::io::ErrorKind;
use std::net::SocketAddr;

/// A listener, and whether somebody may dial there.
#[derive(Drop)]
pub(crate) struct Acceptor {
    listener: TcpListener,
    may_accept: bool,
    wants_links: bool,
    // The system had no descriptor or no memory for a link: it is tried again after a while.
    is_short: bool,
}

impl Acceptor {
    /// An acceptor of links, which are wanted at first.
    pub(crate) fn new(listener: TcpListener) -> Acceptor {
        Acceptor {
            listener,
            may_accept: true,
            wants_links: true,
            is_short: false,
        }
    }

    /// Where links dial.
    ///
    /// # Errors
    ///
    /// Where the system doesn't say.
    pub(crate) fn address(&self) -> io::Result<SocketAddr> {
        self.listener.local_addr()
    }

    /// An event says that somebody dials.
    pub(crate) fn set_ready(&mut self) {
        self.may_accept = true;
    }

    /// Notes whether a link is wanted.
    pub(crate) fn wants(&mut self, wanted: bool) {
        self.wants_links = wanted;
    }

    /// Whether a link may be had, and is wanted.
    pub(crate) fn is_dialled(&self) -> bool {
        self.may_accept && self.wants_links
    }

    /// Whether it is to be tried again after a while.
    pub(crate) fn is_short(&self) -> bool {
        self.is_short && self.wants_links
    }

    /// It is tried again, if the system was short of something.
    pub(crate) fn try_again(&mut self) {
        self.may_accept = self.may_accept || self.is_short;
        self.is_short = false;
    }

    /// A link that dials, if there is one. Its bytes go out at once, where the stream can be made so.
    pub(crate) fn accept(&mut self) -> Option<TcpStream> {
        match self.listener.accept() {
            Ok((stream, _)) => {
                let _ = stream.set_nodelay(true);
                Some(stream)
            }
            Err(error) => {
                match error.kind() {
                    ErrorKind::Interrupted | ErrorKind::ConnectionAborted => {}
                    ErrorKind::WouldBlock => self.may_accept = false,
                    _ => {
                        self.may_accept = false;
                        self.is_short = true;
                    }
                }
                None
            }
        }
    }
}
