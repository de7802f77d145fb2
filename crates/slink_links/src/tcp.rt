//! Links over TCP.
ghost use Rattle.std.specs.Prelude.{◌≡◌, [], IfOk, IfSome};
ghost use Rattle.mseed_stream.specs.Counted.{read_by, written_by};
ghost use Rattle.mseed_stream.specs.Device.{nothing_read, nothing_written};
ghost use Rattle.slink_links.specs.Dialled.{dialled, dialled_by, nothing_dialled};
ghost use Rattle.slink_links.specs.Out.{AreOut};
ghost use Rattle.slink_links.specs.Taken.{nothing_taken, taken, taken_by};

use crate::accept::{Accept, AcceptLog};
use crate::closing::close;
use crate::dial::{Dial, DialLog};
use crate::guards::{listener_off_streams, off_streams};
use crate::handshake::EndsHandshake;
use crate::listen_fault::ListenFault;
use crate::network_fault::NetworkFault;
use crate::packet_buffer::{PacketBuffer, ROOM, Room};
use crate::plan::Server;
use crate::read_ahead;
use crate::read_ahead::ReadAhead;
use crate::time_limited::{Limits, TimeLimited};
use crate::trouble::{DialFault, Loss, Trouble};
use mseed_stream::Counted;
use slink_wire::{Address, Host, Name, Timeout};
use std::alloc::{AllocError, Global};
use std::io;
use std::io::{ErrorKind, Read, Write};
use std::net::{Ipv4Addr, Net, OpenListener, OpenStream, SocketAddr, TcpListener, TcpStream};
use std::os::fd::AsRawFd;
use std::time::{Clock, Duration, Instant};

/// A port at an address.
fn socket_of(address: Address, port: u16) -> SocketAddr {
    SocketAddr::from((Ipv4Addr::from(address.octets), port))
}

/// A new stream with its bounds. Its bytes go out at once, where the stream can be made so.
///
/// # Errors
///
/// Where the clock can't be read.
fn link_over<'a, C: Clock, S: OpenStream + Drop>(
    clock: &'a C,
    stream: S,
    limits: Limits,
) -> io::Result<TimeLimited<'a, C, S>> {
    let _ = stream.set_nodelay(true);
    TimeLimited::new(clock, stream, limits)
}

impl<C: Clock, S: Read + Write + OpenStream + Drop> EndsHandshake
    for Counted<PacketBuffer<TimeLimited<'_, C, S>>> {
    fn end_handshake(&self) {
        self.get_ref().stream().end_handshake();
    }
}

impl<C: Clock, S: Read + Write + OpenStream + Drop> EndsHandshake
    for Counted<ReadAhead<TimeLimited<'_, C, S>>> {
    fn end_handshake(&self) {
        self.get_ref().stream().end_handshake();
    }
}

/// A listener at a port of this host, at a descriptor of its own.
///
/// # Errors
///
/// Where the port can't be had, as one that is taken, or at an address that isn't of this host.
fn listener_at<N: Net>(net: &N, socket: SocketAddr) -> io::Result<N::Listener> {
    listener_off_streams(TcpListener::bind(net, socket)?)
}

/// The next connection to a port.
///
/// # Errors
///
/// Where there is none.
fn next_stream<L: OpenListener>(listener: &L) -> io::Result<L::Stream>
where
    L::Stream: OpenStream + AsRawFd,
{
    let (stream, _) = listener.accept()?;
    off_streams(stream)
}

/// A connection to a port, within a time if there is one.
///
/// # Errors
///
/// Where there is none.
fn stream_to<N: Net>(
    net: &N,
    socket: SocketAddr,
    limit: Option<Duration>,
) -> io::Result<N::Stream> {
    let stream = match limit {
        Some(limit) => TcpStream::connect_timeout(net, &socket, limit)?,
        None => TcpStream::connect(net, socket)?,
    };
    off_streams(stream)
}

/// The most addresses of a name that are tried.
const ADDRESSES: usize = 32;

/// Why no connection could be made, by the error of a call.
fn unconnected(error: &io::Error) -> DialFault {
    DialFault::Unconnected(NetworkFault::of(error))
}

/// A connection to a port of the first IPv4 address of a name that answers, within a time for all of them.
///
/// # Errors
///
/// Where none answers, or where there are none.
fn stream_to_name<N: Net + Clock>(
    host: &N,
    name: &Name,
    port: u16,
    limit: Option<Duration>,
) -> Result<N::Stream, DialFault> {
    let mut found = [SocketAddr::from((Ipv4Addr::UNSPECIFIED, port)); ADDRESSES];
    let Ok(count) = host.lookup_host(name.text(), port, &mut found) else {
        return Err(DialFault::Unresolved);
    };
    match Instant::now(host) {
        Ok(start) => stream_to_first(host, &found[..count], start, limit),
        Err(error) => Err(unconnected(&error)),
    }
}

/// A connection to the first IPv4 address that answers, within a time for all of them, which began at an instant.
///
/// # Errors
///
/// Where none answers, or where there are none.
fn stream_to_first<N: Net + Clock>(
    host: &N,
    addresses: &[SocketAddr],
    start: Instant,
    limit: Option<Duration>,
) -> Result<N::Stream, DialFault> {
    let mut last = DialFault::Unresolved;
    for address in addresses {
        if address.is_ipv4() {
            match stream_in_time(host, *address, start, limit) {
                Ok(stream) => return Ok(stream),
                Err(error) => last = unconnected(&error),
            }
        }
    }
    Err(last)
}

/// A connection to a port, within what is left of a time, which began at an instant.
///
/// # Errors
///
/// Where there is none, or nothing is left of the time.
fn stream_in_time<N: Net + Clock>(
    host: &N,
    socket: SocketAddr,
    start: Instant,
    limit: Option<Duration>,
) -> io::Result<N::Stream> {
    let Some(limit) = limit else {
        return stream_to(host, socket, None);
    };
    let left = limit.saturating_sub(start.elapsed(host)?);
    if left.is_zero() {
        return Err(ErrorKind::TimedOut.into());
    }
    stream_to(host, socket, Some(left))
}

/// A port of this host that takes one connection after another, with its calls counted.
#[derive(Drop)]
pub struct TcpAcceptor<'a, N: Net + Clock> {
    host: &'a N,
    listener: N::Listener,
    timeout: Timeout,
    log: AcceptLog,
    // It is with the link that is out, if one is.
    room: Option<Box<Room>>,
}

impl<'a, N: Net + Clock> TcpAcceptor<'a, N> {
    /// Takes connections at an address and port of this host from now on, and returns the device, at which no call was
    /// made yet. A link's handshake may take `timeout` as a whole, and each write to it after that.
    ///
    /// # Errors
    ///
    /// Where the port can't be had, as one that is taken, or at an address that isn't of this host, or where there is
    /// no memory for the packets that are gathered.
    // The packets' room stands in its frame before it is on the heap.
    #[inline(never)]
    pub fn bind(
        host: &'a N,
        alloc: Global,
        address: Address,
        port: u16,
        timeout: Timeout,
    ) -> io::Result<TcpAcceptor<'a, N>>
        ensures new { IfOk result (λ acceptor. taken (⟦<TcpAcceptor<'a, N> as Accept>⟧.calls acceptor)
            (⟦<TcpAcceptor<'a, N> as Accept>⟧.failures acceptor) (⟦<TcpAcceptor<'a, N> as Accept>⟧.lost acceptor)
            (⟦<TcpAcceptor<'a, N> as Accept>⟧.given_back acceptor) ≡ nothing_taken) }
        ensures out { IfOk result (λ acceptor. AreOut 0 (⟦<TcpAcceptor<'a, N> as Accept>⟧.calls acceptor)
            (⟦<TcpAcceptor<'a, N> as Accept>⟧.failures acceptor)
            (⟦<TcpAcceptor<'a, N> as Accept>⟧.given_back acceptor)) }
    {
        let room = Box::new(alloc, [0; ROOM])?;
        Ok(TcpAcceptor {
            host,
            listener: listener_at(host, socket_of(address, port))?,
            timeout,
            log: AcceptLog::new(),
            room: Some(room),
        })
    }

    /// Takes no more connections, and returns what is known of those that were taken.
    pub fn into_log(self) -> AcceptLog
        ensures { taken_by result ≡ taken (⟦<TcpAcceptor<'a, N> as Accept>⟧.calls self.entry)
            (⟦<TcpAcceptor<'a, N> as Accept>⟧.failures self.entry) (⟦<TcpAcceptor<'a, N> as Accept>⟧.lost self.entry)
            (⟦<TcpAcceptor<'a, N> as Accept>⟧.given_back self.entry) }
    {
        self.log
    }

    /// The next connection, which waits for no longer than it may.
    ///
    /// # Errors
    ///
    /// Where there is none.
    fn next_limited(&self) -> io::Result<TimeLimited<'a, N, N::Stream>> {
        // A client that has sent all may be silent for as long as it likes.
        let limits = Limits {
            all: self.timeout.limit(),
            reads: None,
        };
        link_over(self.host, next_stream(&self.listener)?, limits)
    }
}

/// A link that gathers packets, for which there is room while no other one is out.
fn gathering_of<S: Read + Write + Drop>(
    stream: S,
    room: &mut Option<Box<Room>>,
) -> Option<Counted<PacketBuffer<S>>>
    ensures { IfSome result (λ link. (read_by link ≡ nothing_read) × (written_by link ≡ nothing_written)) }
{
    match room.take() {
        Some(room) => Some(Counted::new(PacketBuffer::new(stream, room))),
        None => None,
    }
}

impl<'a, N: Net + Clock> Accept for TcpAcceptor<'a, N> {
    type Link = Counted<PacketBuffer<TimeLimited<'a, N, N::Stream>>>;

    ghost calls = { λ a. a.log.calls.calls };

    ghost failures = { λ a. a.log.calls.failures };

    ghost lost = { λ a. a.log.lost.failures };

    ghost given_back = { λ a. a.log.given_back.all };

    fn accept(&mut self) -> Option<Counted<PacketBuffer<TimeLimited<'a, N, N::Stream>>>> {
        let link = match self.next_limited() {
            Ok(stream) => gathering_of(stream, &mut self.room),
            Err(_) => None,
        };
        self.log.calls.record(&[], link.is_none());
        link
    }

    fn hang_up(
        &mut self,
        link: Counted<PacketBuffer<TimeLimited<'a, N, N::Stream>>>,
        failed: bool,
    ) {
        self.log.given_back.record(&link);
        self.log.lost.record(&[], failed);
        let (stream, room) = link.into_inner().into_parts();
        self.room = Some(room);
        close(self.host, stream.into_stream());
    }
}

/// A server that is dialled, with the calls counted, and what went wrong in the last try.
#[derive(Drop)]
pub struct TcpDialler<'a, N: Net + Clock> {
    net: &'a N,
    server: Server,
    timeout: Timeout,
    log: DialLog,
    // It is with the link that is out, if one is.
    room: Option<Box<read_ahead::Room>>,
}

/// A link that reads ahead, for which there is room while no other one is out.
///
/// # Errors
///
/// Where there is no room.
fn ahead_of<S: Read + Write + Drop>(
    stream: S,
    room: &mut Option<Box<read_ahead::Room>>,
) -> Result<Counted<ReadAhead<S>>, DialFault>
    ensures { IfOk result (λ link. (read_by link ≡ nothing_read) × (written_by link ≡ nothing_written)) }
{
    match room.take() {
        Some(room) => Ok(Counted::new(ReadAhead::new(stream, room))),
        None => Err(DialFault::Unconnected(NetworkFault::Other(ListenFault::NoMemory))),
    }
}

impl<'a, N: Net + Clock> TcpDialler<'a, N> {
    /// Returns a device that dials a server, at which no call was made yet. Within `timeout` a connection has to be
    /// made, a link's handshake is over, and so is each read and write after it.
    ///
    /// # Errors
    ///
    /// Where there is no memory for what is read ahead.
    // The room for what is read ahead stands in its frame before it is on the heap.
    #[inline(never)]
    pub fn new(
        net: &'a N,
        alloc: Global,
        server: Server,
        timeout: Timeout,
    ) -> Result<TcpDialler<'a, N>, AllocError>
        ensures new { IfOk result (λ dialler. dialled (⟦<TcpDialler<'a, N> as Dial>⟧.calls dialler)
            (⟦<TcpDialler<'a, N> as Dial>⟧.failures dialler) (⟦<TcpDialler<'a, N> as Dial>⟧.given_back dialler)
            (⟦<TcpDialler<'a, N> as Dial>⟧.trouble dialler) [] ≡ nothing_dialled) }
        ensures out { IfOk result (λ dialler. AreOut 0 (⟦<TcpDialler<'a, N> as Dial>⟧.calls dialler)
            (⟦<TcpDialler<'a, N> as Dial>⟧.failures dialler)
            (⟦<TcpDialler<'a, N> as Dial>⟧.given_back dialler)) }
    {
        let room = Box::new(alloc, [0; read_ahead::ROOM])?;
        Ok(TcpDialler {
            net,
            server,
            timeout,
            log: DialLog::new(),
            room: Some(room),
        })
    }

    /// Dials no more, and returns what is known of the calls that were made.
    pub fn into_log(self) -> DialLog
        ensures { dialled_by result [] ≡ dialled (⟦<TcpDialler<'a, N> as Dial>⟧.calls self.entry)
            (⟦<TcpDialler<'a, N> as Dial>⟧.failures self.entry) (⟦<TcpDialler<'a, N> as Dial>⟧.given_back self.entry)
            (⟦<TcpDialler<'a, N> as Dial>⟧.trouble self.entry) [] }
    {
        self.log
    }

    /// A new connection, within a time if there is one.
    ///
    /// # Errors
    ///
    /// Why there is none.
    fn next_stream(&self, limit: Option<Duration>) -> Result<N::Stream, DialFault> {
        match &self.server.host {
            Host::Address(address) => {
                match stream_to(self.net, socket_of(*address, self.server.port), limit) {
                    Ok(stream) => Ok(stream),
                    Err(error) => Err(unconnected(&error)),
                }
            }
            Host::Name(name) => stream_to_name(self.net, name, self.server.port, limit),
        }
    }

    /// A new connection that waits for no longer than it may.
    ///
    /// # Errors
    ///
    /// Why there is none.
    fn next_limited(&self) -> Result<TimeLimited<'a, N, N::Stream>, DialFault> {
        let limit = self.timeout.limit();
        let limits = Limits {
            all: limit,
            reads: limit,
        };
        let stream = self.next_stream(limit)?;
        match link_over(self.net, stream, limits) {
            Ok(link) => Ok(link),
            Err(error) => Err(unconnected(&error)),
        }
    }
}

impl<'a, N: Net + Clock> Dial for TcpDialler<'a, N> {
    type Link = Counted<ReadAhead<TimeLimited<'a, N, N::Stream>>>;

    ghost calls = { λ d. d.log.calls.calls };

    ghost failures = { λ d. d.log.calls.failures };

    ghost given_back = { λ d. d.log.given_back.all };

    ghost trouble = { λ d. d.log.trouble };

    fn dial(&mut self) -> Result<Counted<ReadAhead<TimeLimited<'a, N, N::Stream>>>, DialFault> {
        let dialled = match self.next_limited() {
            Ok(stream) => ahead_of(stream, &mut self.room),
            Err(fault) => Err(fault),
        };
        self.log.calls.record(&[], dialled.is_err());
        if let Err(fault) = &dialled {
            self.log.trouble = Some(Trouble::Undialled(*fault));
        }
        dialled
    }

    fn hang_up(&mut self, link: Counted<ReadAhead<TimeLimited<'a, N, N::Stream>>>) -> Loss {
        self.log.given_back.record(&link);
        let loss = link.get_ref().stream().loss();
        self.room = Some(link.into_inner().into_room());
        self.log.trouble = Some(Trouble::Lost(loss));
        loss
    }
}
