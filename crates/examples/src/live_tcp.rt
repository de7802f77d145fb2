//! Calls of `slink_links`: many links over TCP.
ghost use Rattle.slink_live.specs.Served.{IsSound};

use slink_links::{LivePlan, LiveTcp};
use slink_live::{InputFault, Server};
use std::alloc::Global;
use std::io;
use std::io::Read;
use std::net::{Ipv4Addr, Net, SocketAddr};
use std::os::fd::AsRawFd;
use std::time::{Clock, Duration};

/// Serves an input to at most 64 clients at once, at port 18000 of this machine. What is wrong with the input is
/// answered, and what came before it stays served.
pub fn serve_over_tcp<N: Net + Clock, I: Read + AsRawFd + Drop>(
    host: &N,
    alloc: Global,
    server: &mut Server,
    input: I,
) -> io::Result<Result<(), InputFault>>
    requires { IsSound server.old }
{
    let plan = LivePlan {
        address: SocketAddr::from((Ipv4Addr::LOCALHOST, 18_000)),
        clients: 64,
        timeout: Some(Duration::from_secs(600)),
    };
    let mut tcp = LiveTcp::bind(host, alloc, plan, input)?;
    serve_until_done(server, &mut tcp)
}

/// Where clients dial.
pub fn address_of<C: Net + Clock, I: Read + AsRawFd + Drop>(
    tcp: &LiveTcp<'_, C, I>,
) -> io::Result<SocketAddr> {
    tcp.address()
}

/// Serves the input, and on where something is wrong with it, until all links are done.
pub fn serve_until_done<C: Net + Clock, I: Read + AsRawFd + Drop>(
    server: &mut Server,
    tcp: &mut LiveTcp<'_, C, I>,
) -> io::Result<Result<(), InputFault>>
    requires { IsSound server.old }
{
    let served = server.serve(tcp);
    if served.is_err() {
        let _ = server.serve(tcp);
    }
    if tcp.has_failed() {
        return Err(io::ErrorKind::Other.into());
    }
    tcp.finish();
    Ok(served)
}
