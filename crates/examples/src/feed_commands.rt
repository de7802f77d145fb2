//! Calls of `mseed_feed`.
ghost use Rattle.std.specs.Prelude.{◌≡◌, []};
ghost use Rattle.mseed_stream.specs.Device.{nothing_read};
ghost use Rattle.mseed_feed.specs.Transport.{NotYet};
ghost use Rattle.mseed_words.specs.FeedWords.{CanFetch, CanServe, CanServeLive};

use mseed_feed::{
    Device, TcpTransport, Transport, fetch, plan_fetch, plan_serve, serve, serve_live,
    serve_live_at,
};
use mseed_stream::{Buffered, Sink, Source};
use mseed_words::{Endpoint, Fetching, LiveServing, Serving};
use slink_links::LivePlan;
use slink_wire::{Address, Host};
use std::alloc::Global;
use std::io;
use std::io::{BufReader, Read};
use std::net::Net;
use std::os::fd::AsRawFd;
use std::time::Clock;

/// How many connections are to be served with the records of an input: none where they aren't all of the stations.
pub fn connections_planned<R: Source, E: Sink>(
    alloc: Global,
    serving: &Serving,
    input: &mut R,
    errors: &mut E,
) -> u32
    requires unread { R.read input.old ≡ nothing_read }
    requires called { CanServe serving.now }
{
    match plan_serve(alloc, serving, input, errors) {
        Ok(plan) => plan.connections,
        Err(_) => 0,
    }
}

/// Serves what a reader gives, over a transport, and answers the exit status.
pub fn serve_reader<T: Transport, R: Read + Drop, E: Sink>(
    alloc: Global,
    serving: &Serving,
    reader: R,
    transport: &mut T,
    errors: &mut E,
) -> io::Result<u8>
    requires new { T.came transport.old ≡ NotYet }
    requires called { CanServe serving.now }
{
    let input = Buffered::new(BufReader::new(alloc, reader)?);
    Ok(serve(alloc, serving, input, transport, errors))
}

/// Serves over a transport, and answers whether all went well.
pub fn has_served_at<T: Transport, E: Sink>(
    alloc: Global,
    live: &LiveServing,
    transport: &mut T,
    errors: &mut E,
) -> bool
    requires new { T.came transport.old ≡ NotYet }
    requires called { CanServeLive live.now }
{
    serve_live_at(alloc, live, transport, errors) == 0
}

/// Serves over TCP what an input gives, and answers whether all went well.
pub fn has_served_at_port<N: Net + Clock, I: Read + AsRawFd + Drop, E: Sink>(
    host: &N,
    alloc: Global,
    live: &LiveServing,
    input: I,
    errors: &mut E,
) -> bool
    requires { CanServeLive live.now }
{
    has_served_at(alloc, live, &mut TcpTransport::new(host, input), errors)
}

/// Whether it can be listened by a plan. Nobody is served.
pub fn can_listen<T: Transport>(alloc: Global, plan: LivePlan, transport: &mut T) -> bool
    requires { T.came transport.old ≡ NotYet }
{
    match transport.listen(alloc, plan) {
        Ok(device) => {
            transport.hang_up(device);
            true
        }
        Err(_) => false,
    }
}

/// Whether it can be listened for one connection after another. Nobody is served.
pub fn can_listen_in_turn<T: Transport>(
    alloc: Global,
    listener: Endpoint<Address>,
    transport: &mut T,
) -> bool
    requires { T.came transport.old ≡ NotYet }
{
    match transport.listen_in_turn(alloc, listener) {
        Ok(acceptor) => {
            transport.close(acceptor);
            true
        }
        Err(_) => false,
    }
}

/// Serves over a device, and answers whether that failed meanwhile.
pub fn has_failed_serving<R: Device, E: Sink>(
    alloc: Global,
    live: &LiveServing,
    ready: &mut R,
    errors: &mut E,
) -> bool
    requires new { R.log ready.old ≡ [] }
    requires called { CanServeLive live.now }
{
    serve_live(alloc, live, ready, errors);
    ready.has_failed()
}

/// How many connections are tried at most.
pub fn tries_planned(fetching: &Fetching) -> u32
    requires { CanFetch fetching.now }
{
    plan_fetch(fetching).tries
}

/// Fetches what is requested over a transport, and answers whether the server said that there are no more records.
pub fn has_fetched_all<T: Transport, W: Sink, E: Sink>(
    alloc: Global,
    fetching: &Fetching,
    transport: &mut T,
    output: &mut W,
    errors: &mut E,
) -> bool
    requires new { T.came transport.old ≡ NotYet }
    requires called { CanFetch fetching.now }
{
    fetch(alloc, fetching, transport, output, errors) == 0
}

/// Whether there is what dials a server. Nobody is dialled.
pub fn can_reach<T: Transport>(alloc: Global, server: Endpoint<Host>, transport: &mut T) -> bool
    requires { T.came transport.old ≡ NotYet }
{
    match transport.reach(alloc, server) {
        Ok((dialler, pauses)) => {
            transport.leave(dialler, pauses);
            true
        }
        Err(_) => false,
    }
}
