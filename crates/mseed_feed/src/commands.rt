//! The two commands of a feed that have one link after another.
ghost use Rattle.std.specs.Prelude.{◌≡◌, Option};
ghost use Rattle.mseed_stream.specs.Device.{BytesRead, nothing_read};
ghost use Rattle.mseed_words.specs.FeedWords.{CanFetch, CanServe};
ghost use Rattle.mseed_feed.specs.Commands.{HasFetchedRequested, HasReadInput, HasServedInput};
ghost use Rattle.mseed_feed.specs.InTurn.{HasServedInTurn, IsListenedInTurn, listener_of};
ghost use Rattle.mseed_feed.specs.Transport.{NotYet, transport_state};

use crate::planning::{plan_fetch, plan_serve};
use crate::refusal::{refuse_memory, report_unlistened};
use crate::transport::{DeviceFault, Transport};
use mseed_stream::{Sink, Source};
use mseed_words::{Endpoint, Fetching, Serving};
use slink_links::{ServePlan, fetch_planned};
use std::alloc::{AllocError, Allocator, Global};

/// Serves the records of an input to one connection after another, once all of it is read, over the device that is had
/// by listening at the address and the port that are requested. It is given back at last.
///
/// Returns the exit status: 0 where each of the connections was served to its end, and 2 otherwise, after a line on
/// `errors` that says why; where the port can't be had, a line more says at which address and port, and why. Nothing
/// may have been read of the input before; it is dropped before the first connection is taken.
// Its buffers stand in its own frame, and not in that of every command.
#[inline(never)]
pub fn serve<T: Transport, R: Source + Drop, E: Sink>(
    alloc: Global,
    serving: &Serving,
    mut input: R,
    transport: &mut T,
    errors: &mut E,
) -> u8
    requires unread { R.read input ≡ nothing_read }
    requires new { T.came transport.old ≡ NotYet }
    requires called { CanServe serving.now }
    ensures { (read : BytesRead) × HasReadInput (R.remaining input) (R.beside input) read
        × HasServedInput serving.now read result (E.written errors.old) (E.written errors.new)
        (transport_state (T.planned transport.old) (T.came transport.old))
        (transport_state (T.planned transport.new) (T.came transport.new)) }
{
    let planned = plan_serve(alloc, serving, &mut input, errors);
    drop(input);
    match planned {
        Ok(plan) => serve_planned(alloc, &plan, transport, errors),
        Err(status) => status,
    }
}

/// Serves the feed of a plan where it says, and returns the exit status.
fn serve_planned<T: Transport, A: Allocator, E: Sink>(
    alloc: Global,
    plan: &ServePlan<A>,
    transport: &mut T,
    errors: &mut E,
) -> u8
    requires { T.came transport.old ≡ NotYet }
    ensures served { HasServedInTurn (listener_of plan.now) plan.now.connections plan.now.feed (T.came transport.new)
        result (E.written errors.old) (E.written errors.new) }
    ensures planned { IsListenedInTurn (listener_of plan.now) (T.planned transport.new) }
{
    let listener = Endpoint {
        host: plan.address,
        port: plan.port,
        timeout: plan.timeout,
    };
    match transport.listen_in_turn(alloc, listener) {
        Ok(mut acceptor) => {
            let status = slink_links::serve_planned(plan, &mut acceptor, errors);
            transport.close(acceptor);
            status
        }
        Err(DeviceFault::Memory) => refuse_memory(errors),
        Err(DeviceFault::Port(fault)) => report_unlistened(errors, &listener, fault),
    }
}

/// Fetches the records that are requested over the device that is had by dialling the server that is requested, writes
/// each once it is whole, and returns the exit status: 0 where the server said that there are no more, and 2 otherwise,
/// after a line on `errors` that says why, and one more: what went wrong in the last try, or what the server refused or
/// sent. The device is given back at last.
// Its buffers stand in its own frame, and not in that of every command.
#[inline(never)]
pub fn fetch<T: Transport, W: Sink, E: Sink>(
    alloc: Global,
    fetching: &Fetching,
    transport: &mut T,
    output: &mut W,
    errors: &mut E,
) -> u8
    requires new { T.came transport.old ≡ NotYet }
    requires called { CanFetch fetching.now }
    ensures { HasFetchedRequested fetching.now (transport_state (T.planned transport.new) (T.came transport.new)) result
        (W.written output.old) (W.written output.new) (E.written errors.old) (E.written errors.new) }
{
    match transport.reach(alloc, fetching.server) {
        Ok((mut dialler, mut pauses)) => {
            let mut plan = plan_fetch(fetching);
            let status = fetch_planned(&mut plan, &mut dialler, &mut pauses, output, errors);
            transport.leave(dialler, pauses);
            status
        }
        Err(AllocError) => refuse_memory(errors),
    }
}
