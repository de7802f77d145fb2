//! Why a server can't listen, by the errors of a host that gives no port.

use super::{ALL, output, serve, serve_plan_of, taken_by};
use crate::model::three_pushed;
use std::alloc::Global;
use std::io;
use std::net::{Net, SocketAddr};
use std::process::Abort;
use std::time::{Clock, Duration};

/// A host at which no port can be had, by the number of the error.
#[derive(Drop)]
struct Refusing<'a, N: Net> {
    host: &'a N,
    number: i32,
}

impl<N: Net> Net for Refusing<'_, N> {
    type Stream = N::Stream;

    type Listener = N::Listener;

    fn bind(&self, _addr: SocketAddr) -> io::Result<N::Listener> {
        Err(io::Error::from_raw_os_error(self.number))
    }

    fn connect(&self, addr: SocketAddr) -> io::Result<N::Stream> {
        self.host.connect(addr)
    }
}

impl<N: Net + Clock> Clock for Refusing<'_, N> {
    fn monotonic(&self) -> io::Result<Duration> {
        self.host.monotonic()
    }

    fn since_1970(&self) -> io::Result<Duration> {
        self.host.since_1970()
    }
}

/// The numbers of Linux, and what they are in words.
static REASONS: [(i32, &str); 11] = [
    (1, "operation not permitted"),
    (12, "cannot allocate memory"),
    (13, "permission denied"),
    (23, "too many open files"),
    (24, "too many open files"),
    (97, "address family not supported"),
    (98, "address in use"),
    (99, "address not available"),
    (105, "no buffer space available"),
    (22, "error of the system"),
    (-98, "error of the system"),
];

/// Whether a server at a host is refused for this, and nothing is reported.
fn is_refused<N: Net + Clock>(rt: &impl Abort, host: &N, alloc: Global, words: &str) -> bool {
    let plan = serve_plan_of(three_pushed(rt, alloc, 0), 1, 0);
    let mut errors = output(alloc, ALL);
    match serve(host, alloc, &plan, &mut errors) {
        Ok(_) => false,
        Err(fault) => fault.text() == words && taken_by(errors).is_empty(),
    }
}

#[test]
fn tells_why_it_cannot_listen(rt: HostRuntime) {
    for (number, words) in &REASONS {
        let host = Refusing {
            host: &rt,
            number: *number,
        };
        assert!(rt; is_refused(&rt, &host, rt.alloc(), words), "{number}");
    }
}
