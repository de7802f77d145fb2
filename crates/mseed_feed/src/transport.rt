//! How links are had: where a server listens, or which server is dialled.
ghost use Rattle.std.specs.Prelude.{◌≡◌, ◌≢◌, [], IfErr, IfOk, Option, Some};
ghost use Rattle.std.specs.IoError.{error_kind};
ghost use Rattle.slink_links.specs.Dialled.{dialled, nothing_dialled};
ghost use Rattle.slink_links.specs.Taken.{nothing_taken, taken};
ghost use Rattle.mseed_feed.specs.Transport.{Fetched, InTurn, NotYet, Over, Refused, TransportOutcome, came_of};

use mseed_stream::Tally;
use mseed_words::Endpoint;
use slink_links::{
    Accept, AcceptLog, Dial, DialLog, ListenFault, LivePlan, LiveTcp, Pause, Server, Sleeper,
    TcpAcceptor, TcpDialler,
};
use slink_live::Ready;
use slink_wire::{Address, Host};
use std::alloc::{AllocError, Global};
use std::io::{Error, ErrorKind, Read};
use std::net::Net;
use std::os::fd::AsRawFd;
use std::time::Clock;

/// An input and links of which it is known whether they failed all together.
pub trait Device: Ready {
    /// Whether nothing comes any more.
    fn has_failed(&self) -> bool
        ensures { result ≡ Self.has_failed self.now };
}

impl<C: Clock, I: Read + AsRawFd + Drop> Device for LiveTcp<'_, C, I> {
    fn has_failed(&self) -> bool {
        LiveTcp::has_failed(self)
    }
}

/// Where links are to be had, and how.
#[derive(Clone, Copy)]
pub enum Planned {
    /// Many that are taken at once, beside an input.
    Live(LivePlan),
    /// One after another that are taken.
    InTurn(Endpoint<Address>),
    /// One after another of a server that is dialled.
    Fetch(Endpoint<Host>),
}

/// Why there is no device.
#[derive(Clone, Copy, Debug, PartialEq, Eq)]
pub enum DeviceFault {
    /// There is no memory for the device.
    Memory,
    /// The system refuses the port, or what is waited by, and why.
    Port(ListenFault),
}

impl DeviceFault {
    /// Why the system refuses, by its error.
    fn of(error: &Error) -> DeviceFault
        ensures memory { error_kind error.now ≡ ErrorKind.OutOfMemory → result ≡ DeviceFault.Memory }
        ensures port { error_kind error.now ≢ ErrorKind.OutOfMemory
            → (fault : ListenFault) × (result ≡ DeviceFault.Port fault) }
    {
        if error.kind() == ErrorKind::OutOfMemory {
            DeviceFault::Memory
        } else {
            DeviceFault::Port(ListenFault::of(error))
        }
    }
}

/// How links are had: where a server listens, and by what a client dials one. It makes the device of the links, once,
/// and is given it back. A live server has many links at once, beside its input; another one, and a client, have one
/// link after another.
pub trait Transport {
    ghost use Rattle.mseed_feed.specs.declared.transport.Planned.{Planned};

    type Device: Device + Drop;

    type Acceptor: Accept + Drop;

    type Dialler: Dial + Drop;

    type Pauses: Pause + Drop;

    // Where links were to be had, and how.
    ghost planned: { Self → Option Planned };

    // What came of it: at last, all that happened at the device.
    ghost came: { Self → TransportOutcome };

    /// Listens as planned, and returns the device of the input and many links, at which nothing happened yet.
    ///
    /// # Errors
    ///
    /// Where the system refuses it, or there is too little memory.
    fn listen(&mut self, alloc: Global, plan: LivePlan) -> Result<Self::Device, DeviceFault>
        requires { came self.old ≡ NotYet }
        ensures planned { planned self.new ≡ Some (Planned.Live plan) }
        ensures fresh { IfOk result (λ device. Self.Device.Ready.log device ≡ []) }
        ensures refused { IfErr result (λ fault. came self.new ≡ Refused fault) };

    /// Takes the device back, and waits until what was written to its links has come through, or had its time.
    fn hang_up(&mut self, device: Self::Device)
        ensures planned { planned self.new ≡ planned self.old }
        ensures came { came self.new
            ≡ Over (Self.Device.Ready.log device) (Self.Device.Ready.has_failed device) };

    /// Listens at an address and port, with a time-out for each link, and returns the device of one link after another,
    /// at which no call was made yet.
    ///
    /// # Errors
    ///
    /// Where the system refuses it, or there is too little memory.
    fn listen_in_turn(
        &mut self,
        alloc: Global,
        listener: Endpoint<Address>,
    ) -> Result<Self::Acceptor, DeviceFault>
        requires { came self.old ≡ NotYet }
        ensures planned { planned self.new ≡ Some (Planned.InTurn listener) }
        ensures fresh { IfOk result (λ acceptor. taken (Self.Acceptor.calls acceptor)
            (Self.Acceptor.failures acceptor) (Self.Acceptor.lost acceptor) (Self.Acceptor.given_back acceptor)
            ≡ nothing_taken) }
        ensures refused { IfErr result (λ fault. came self.new ≡ Refused fault) };

    /// Takes the device of one link after another back, and takes no more links.
    fn close(&mut self, acceptor: Self::Acceptor)
        ensures planned { planned self.new ≡ planned self.old }
        ensures came { came self.new ≡ InTurn (taken (Self.Acceptor.calls acceptor) (Self.Acceptor.failures acceptor)
            (Self.Acceptor.lost acceptor) (Self.Acceptor.given_back acceptor)) };

    /// Returns the device by which a server is dialled, with a time-out for each link, and what waits between the
    /// tries. No call was made of either yet.
    ///
    /// # Errors
    ///
    /// Where there is too little memory.
    fn reach(
        &mut self,
        alloc: Global,
        server: Endpoint<Host>,
    ) -> Result<(Self::Dialler, Self::Pauses), AllocError>
        requires { came self.old ≡ NotYet }
        ensures planned { planned self.new ≡ Some (Planned.Fetch server) }
        ensures fresh { IfOk result (λ devices. dialled (Self.Dialler.calls devices.0)
            (Self.Dialler.failures devices.0) (Self.Dialler.given_back devices.0) (Self.Dialler.trouble devices.0)
            (Self.Pauses.called devices.1) ≡ nothing_dialled) }
        ensures refused { IfErr result (λ _. came self.new ≡ Refused DeviceFault.Memory) };

    /// Takes the device by which a server was dialled back, and what waited.
    fn leave(&mut self, dialler: Self::Dialler, pauses: Self::Pauses)
        ensures planned { planned self.new ≡ planned self.old }
        ensures came { came self.new ≡ Fetched (dialled (Self.Dialler.calls dialler)
            (Self.Dialler.failures dialler) (Self.Dialler.given_back dialler) (Self.Dialler.trouble dialler)
            (Self.Pauses.called pauses)) };
}

/// What came of it over TCP.
#[derive(Drop)]
enum Outcome<'a, N: Clock, I: Drop> {
    /// It wasn't tried yet, or the device is out.
    NotYet,
    /// It was refused.
    Refused(DeviceFault),
    /// The device was given back, and this is whether it had failed by then.
    Over(LiveTcp<'a, N, I>, bool),
    /// The device of one link after another was given back, and this is known of it.
    InTurn(AcceptLog),
    /// The device by which a server was dialled was given back, and this is known of it, and of the pauses.
    Fetched(DialLog, Tally),
}

/// A host at which a server listens over TCP, or from which one is dialled, and the input of a live server. The device
/// of many links that was given back stays there, so that it is known what happened at it.
#[derive(Drop)]
pub struct TcpTransport<'a, N: Clock, I: Drop> {
    host: &'a N,
    input: Option<I>,
    planned: Option<Planned>,
    outcome: Outcome<'a, N, I>,
}

impl<'a, N: Clock, I: Drop> TcpTransport<'a, N, I> {
    /// A host at which nobody listens yet, and from which nobody is dialled, and the input of a live server.
    pub fn new(host: &'a N, input: I) -> TcpTransport<'a, N, I>
        ensures { came_of result ≡ NotYet }
    {
        TcpTransport {
            host,
            input: Some(input),
            planned: None,
            outcome: Outcome::NotYet,
        }
    }

    /// Notes why there is no device.
    fn refuse(&mut self, fault: DeviceFault) -> DeviceFault
        ensures returned { result ≡ fault }
        ensures planned { self.new.planned ≡ self.old.planned }
        ensures came { came_of self.new ≡ Refused fault }
    {
        self.outcome = Outcome::Refused(fault);
        fault
    }
}

impl<'a, N: Net + Clock, I: Read + AsRawFd + Drop> Transport for TcpTransport<'a, N, I> {
    type Device = LiveTcp<'a, N, I>;

    type Acceptor = TcpAcceptor<'a, N>;

    type Dialler = TcpDialler<'a, N>;

    type Pauses = Sleeper<'a, N>;

    ghost planned = { λ l. l.planned };

    ghost came = { came_of };

    fn listen(&mut self, alloc: Global, plan: LivePlan) -> Result<LiveTcp<'a, N, I>, DeviceFault> {
        self.planned = Some(Planned::Live(plan));
        let Some(input) = self.input.take() else {
            return Err(self.refuse(DeviceFault::Port(ListenFault::Other)));
        };
        match LiveTcp::bind(self.host, alloc, plan, input) {
            Ok(device) => Ok(device),
            Err(error) => Err(self.refuse(DeviceFault::of(&error))),
        }
    }

    fn hang_up(&mut self, mut device: LiveTcp<'a, N, I>) {
        let has_failed = device.has_failed();
        device.finish();
        self.outcome = Outcome::Over(device, has_failed);
    }

    fn listen_in_turn(
        &mut self,
        alloc: Global,
        listener: Endpoint<Address>,
    ) -> Result<TcpAcceptor<'a, N>, DeviceFault> {
        self.planned = Some(Planned::InTurn(listener));
        let Endpoint {
            host: address,
            port,
            timeout,
        } = listener;
        match TcpAcceptor::bind(self.host, alloc, address, port, timeout) {
            Ok(acceptor) => Ok(acceptor),
            Err(error) => Err(self.refuse(DeviceFault::of(&error))),
        }
    }

    fn close(&mut self, acceptor: TcpAcceptor<'a, N>) {
        self.outcome = Outcome::InTurn(acceptor.into_log());
    }

    fn reach(
        &mut self,
        alloc: Global,
        server: Endpoint<Host>,
    ) -> Result<(TcpDialler<'a, N>, Sleeper<'a, N>), AllocError> {
        self.planned = Some(Planned::Fetch(server));
        let Endpoint {
            host,
            port,
            timeout,
        } = server;
        match TcpDialler::new(self.host, alloc, Server { host, port }, timeout) {
            Ok(dialler) => Ok((dialler, Sleeper::new(self.host))),
            Err(AllocError) => {
                self.refuse(DeviceFault::Memory);
                Err(AllocError)
            }
        }
    }

    fn leave(&mut self, dialler: TcpDialler<'a, N>, pauses: Sleeper<'a, N>) {
        self.outcome = Outcome::Fetched(dialler.into_log(), pauses.into_log());
    }
}
