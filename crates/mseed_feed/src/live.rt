//! Serving the records of an input to many clients at once, while they come.
ghost use Rattle.std.specs.Prelude.{◌≡◌, ◌⊎◌, [], List, IfOk, length, true};
ghost use Rattle.slink_feed.specs.Window.{Window};
ghost use Rattle.slink_live.specs.Awake.{IsAwake};
ghost use Rattle.slink_live.specs.Served.{IsFinished, IsServing, IsSound, ServerState};
ghost use Rattle.mseed_words.specs.FeedWords.{CanServeLive};
ghost use Rattle.mseed_feed.specs.Filling.{feed_of};
ghost use Rattle.mseed_feed.specs.Transport.{IsListenedFor, IsPlanFor, NotYet};
ghost use Rattle.mseed_feed.specs.Live.{EndsWith, HasServed, HasServedAt};

use crate::filling::open;
use crate::refusal::{link_failed, refuse_memory, report_filling, report_unlistened};
use crate::transport::{Device, DeviceFault, Transport};
use mseed_stream::Sink;
use mseed_words::LiveServing;
use slink_links::{DONE, FAULT, LivePlan};
use slink_live::Server;
use std::alloc::{AllocError, Global};
use std::net::{IpAddr, Ipv4Addr, SocketAddr};

/// Serves a feed to many clients at once, as the records of an input come, over the device that is had by listening at
/// the address and the port that are requested. It is given back at last.
///
/// Returns the exit status, as [`serve_live`] does. A port that can't be had is as a link that failed, and a line more
/// says at which address and port, and why.
// Its buffers stand in its own frame, and not in that of every command.
#[inline(never)]
pub fn serve_live_at<T: Transport, E: Sink>(
    alloc: Global,
    live: &LiveServing,
    transport: &mut T,
    errors: &mut E,
) -> u8
    requires new { T.came transport.old ≡ NotYet }
    requires called { CanServeLive live.now }
    ensures served { HasServedAt live.now (T.came transport.new) result (E.written errors.old)
        (E.written errors.new) }
    ensures planned { IsListenedFor live.now (T.planned transport.new) }
{
    match transport.listen(alloc, plan_of(live)) {
        Ok(mut device) => {
            let status = serve_live(alloc, live, &mut device, errors);
            transport.hang_up(device);
            status
        }
        Err(DeviceFault::Memory) => refuse_memory(errors),
        Err(DeviceFault::Port(fault)) => report_unlistened(errors, &live.serving.listener, fault),
    }
}

/// Where links are taken, how many stand at once, and how long a handshake may take and a link take nothing.
fn plan_of(live: &LiveServing) -> LivePlan
    ensures { IsPlanFor live.now result }
{
    let listener = &live.serving.listener;
    let address = Ipv4Addr::from_octets(listener.host.octets);
    LivePlan {
        address: SocketAddr::new(IpAddr::V4(address), listener.port),
        clients: live.clients as usize,
        timeout: listener.timeout.limit(),
    }
}

/// Serves a feed to the links of a device, at which nothing happened yet, as the records of its input come. Each place
/// has a ring of the capacity that was requested, without records at first.
///
/// Returns the exit status: 0, without a line, where the input is read no more and no link is left, and else 2, after a
/// line on `errors` that says why. What is wrong with the input is reported at once: what came before it stays served,
/// and nothing after it is.
pub fn serve_live<R: Device, E: Sink>(
    alloc: Global,
    live: &LiveServing,
    ready: &mut R,
    errors: &mut E,
) -> u8
    requires new { R.log ready.old ≡ [] }
    requires called { CanServeLive live.now }
    ensures { HasServed (feed_of live.now.serving []) live.now.clients (R.has_failed ready.new) (R.log ready.new) result
        (E.written errors.old) (E.written errors.new) }
{
    match server_of(alloc, live) {
        Ok(mut server) => serve_to_the_end(&mut server, ready, errors),
        Err(AllocError) => refuse_memory(errors),
    }
}

/// A server of the rings that were requested, without records, and with a slot for each client that is served at once.
///
/// # Errors
///
/// Where there is no memory for the rings or the slots.
fn server_of(alloc: Global, live: &LiveServing) -> Result<Server, AllocError>
    requires { CanServeLive live.now }
    ensures serving { IfOk result (λ server. IsServing (feed_of live.now.serving []) server []) }
    ensures sound { IfOk result IsSound }
    ensures awake { IfOk result (λ server. IsAwake server []) }
    ensures clients { IfOk result (λ server. length server.links ≡ live.now.clients) }
{
    match open(alloc, &live.serving) {
        Ok(feed) => Server::new(alloc, feed, live.clients as usize),
        Err(_) => Err(AllocError),
    }
}

/// Serves until nothing is left to do, or the device failed, and returns the exit status.
fn serve_to_the_end<R: Device, E: Sink>(server: &mut Server, ready: &mut R, errors: &mut E) -> u8
    requires sound { IsSound server.old }
    requires new { R.log ready.old ≡ [] }
    ensures { (start : List Window) → IsServing start server.old (R.log ready.old)
        → IsAwake server.old (R.log ready.old)
        → HasServed start (length server.old.links) (R.has_failed ready.new) (R.log ready.new) result
        (E.written errors.old) (E.written errors.new) }
{
    match server.serve(ready) {
        Ok(()) => end_of(ready, DONE, errors),
        Err(fault) => {
            report_filling(errors, &fault);
            match server.serve(ready) {
                Ok(()) => end_of(ready, FAULT, errors),
                Err(_) => link_failed(errors),
            }
        }
    }
}

/// The exit status that is due, unless the device failed.
fn end_of<R: Device, E: Sink>(ready: &R, due: u8, errors: &mut E) -> u8
    ensures { (s : ServerState) → IsFinished s ⊎ (R.has_failed ready.now ≡ true)
        → EndsWith s (R.has_failed ready.now) due result (E.written errors.old) (E.written errors.new) }
{
    if ready.has_failed() {
        link_failed(errors)
    } else {
        due
    }
}
