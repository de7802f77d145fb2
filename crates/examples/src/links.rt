//! Calls of `slink_links`.
ghost use Rattle.std.specs.Prelude.{◌≡◌, ◌∷◌, ◌++◌, []};
ghost use Rattle.std.specs.Net.Text.{ipv4_text};
ghost use Rattle.slink_links.specs.Out.{AreOut};
ghost use Rattle.slink_links.specs.Served.{IsServed};

use mseed_stream::{Sink, Tally};
use mseed_text::Line;
use slink_feed::{Client, Feed, LinkFault};
use slink_links::{
    Accept, AcceptLog, Dial, DialFault, DialLog, EndsHandshake, FetchEnd, FetchPlan, FetchTerms,
    ListenFault, Loss, NetworkFault, Pause, ServePlan, Server, Sleeper, TcpAcceptor, TcpDialler,
    fetch_all, fetch_link, fetch_planned, put_address, serve_all, serve_link, serve_planned,
};
use slink_wire::{Address, Host, Timeout};
use std::alloc::{AllocError, Global};
use std::io;
use std::io::Error;
use std::net::Net;
use std::time::Clock;

/// Serves a feed to one connection at port 18000 of this machine, and returns the exit status.
///
/// # Errors
///
/// Where the port can't be had, or there is no memory for the packets that are gathered.
pub fn serve_one<N: Net + Clock, E: Sink>(
    host: &N,
    alloc: Global,
    feed: Feed,
    errors: &mut E,
) -> io::Result<u8> {
    let plan = ServePlan {
        address: Address::local(),
        port: 18_000,
        connections: 1,
        timeout: Timeout { seconds: 600 },
        feed,
    };
    let mut acceptor = TcpAcceptor::bind(host, alloc, plan.address, plan.port, plan.timeout)?;
    Ok(serve_planned(&plan, &mut acceptor, errors))
}

/// Takes no more connections, and returns what is known of those that were taken: nothing at run time.
pub fn closed<N: Net + Clock>(acceptor: TcpAcceptor<'_, N>) -> AcceptLog {
    acceptor.into_log()
}

/// Why a port can't be had, by the error of a call that was to listen there.
pub fn words_of_refusal(error: &Error) -> &'static str {
    ListenFault::of(error).text()
}

/// A line with nothing but an address: its octets in decimal digits, with `.` between them.
pub fn line_of_address(address: Address) -> Line
    ensures { result ≡ ipv4_text address.octets }
{
    let mut line = Line::new();
    put_address(&mut line, address);
    line
}

/// Fetches from port 18000 of this machine, over at most three connections, and returns the exit status.
///
/// # Errors
///
/// Where there is no memory for what is read ahead.
pub fn fetch_thrice<N: Net + Clock, W: Sink, E: Sink>(
    net: &N,
    alloc: Global,
    client: Client,
    output: &mut W,
    errors: &mut E,
) -> Result<u8, AllocError> {
    let mut plan = FetchPlan {
        host: Host::Address(Address::local()),
        port: 18_000,
        tries: 3,
        timeout: Timeout { seconds: 600 },
        report_next: false,
        client,
    };
    let server = Server {
        host: plan.host,
        port: plan.port,
    };
    let mut dialler = TcpDialler::new(net, alloc, server, plan.timeout)?;
    let mut sleeper = Sleeper::new(net);
    Ok(fetch_planned(&mut plan, &mut dialler, &mut sleeper, output, errors))
}

/// Dials no more, and returns what is known of the calls that were made.
pub fn dialled<N: Net + Clock>(dialler: TcpDialler<'_, N>) -> DialLog {
    dialler.into_log()
}

/// Waits no more, and returns how long it was to wait: nothing at run time.
pub fn slept<C: Clock>(sleeper: Sleeper<'_, C>) -> Tally {
    sleeper.into_log()
}

/// Serves a feed over links of the caller's, and says whether none failed.
pub fn serve_ten<A: Accept, E: Sink>(feed: &Feed, acceptor: &mut A, errors: &mut E) -> bool
    requires { AreOut 0 (A.calls acceptor.old) (A.failures acceptor.old) (A.given_back acceptor.old) }
{
    serve_all(feed, 10, acceptor, errors) == 0
}

/// Carries out a plan over links of the caller's.
pub fn serve_plan<A: Accept, E: Sink>(plan: &ServePlan, acceptor: &mut A, errors: &mut E) -> u8
    requires { AreOut 0 (A.calls acceptor.old) (A.failures acceptor.old) (A.given_back acceptor.old) }
{
    serve_planned(plan, acceptor, errors)
}

/// Fetches over at most ten links of the caller's, reports how to go on, and says whether all came. Where the last link
/// fails, a line names port 18000 of this machine.
pub fn fetch_ten<D: Dial, P: Pause, W: Sink, E: Sink>(
    client: &mut Client,
    dialler: &mut D,
    waits: &mut P,
    output: &mut W,
    errors: &mut E,
) -> bool
    requires { AreOut 0 (D.calls dialler.old) (D.failures dialler.old) (D.given_back dialler.old) }
{
    let terms = FetchTerms {
        server: Server {
            host: Host::Address(Address::local()),
            port: 18_000,
        },
        tries: 10,
        report_next: true,
    };
    fetch_all(client, &terms, dialler, waits, output, errors) == 0
}

/// Carries out a plan over links of the caller's.
pub fn fetch_plan<D: Dial, P: Pause, W: Sink, E: Sink>(
    plan: &mut FetchPlan,
    dialler: &mut D,
    waits: &mut P,
    output: &mut W,
    errors: &mut E,
) -> u8
    requires { AreOut 0 (D.calls dialler.old) (D.failures dialler.old) (D.given_back dialler.old) }
{
    fetch_planned(plan, dialler, waits, output, errors)
}

/// Serves one link, until nothing more is to be sent.
pub fn serve_over<S: EndsHandshake>(feed: &Feed, link: &mut S) -> Result<(), LinkFault>
    ensures { IsServed feed.now result (S.read link.old) (S.read link.new) (S.written link.old) (S.written link.new) }
{
    serve_link(feed, link)
}

/// Fetches over one link; whether the server has sent all that was requested.
pub fn fetch_over<S: EndsHandshake, W: Sink>(
    client: &mut Client,
    link: &mut S,
    output: &mut W,
) -> bool {
    fetch_link(client, link, output) == FetchEnd::Done
}

/// Takes the next link, and closes it unserved; whether there was one.
pub fn turn_away<A: Accept>(acceptor: &mut A) -> bool
    requires { AreOut 0 (A.calls acceptor.old) (A.failures acceptor.old) (A.given_back acceptor.old) }
{
    match acceptor.accept() {
        Some(link) => {
            acceptor.hang_up(link, false);
            true
        }
        None => false,
    }
}

/// Asks for a link, and closes it at once; whether there was one.
pub fn is_there<D: Dial>(dialler: &mut D) -> bool
    requires { AreOut 0 (D.calls dialler.old) (D.failures dialler.old) (D.given_back dialler.old) }
{
    match dialler.dial() {
        Ok(link) => {
            dialler.hang_up(link);
            true
        }
        Err(_) => false,
    }
}

/// Why there is no link to a server, by the error of a call that was to connect.
pub fn words_of_dial(error: &Error) -> &'static str {
    DialFault::Unconnected(NetworkFault::of(error)).text()
}

/// Why a link came to no end, where no call of it failed.
pub fn words_of_loss() -> &'static str {
    Loss::Closed.text()
}

/// Why a call of a link failed.
pub fn words_of_fault(error: &Error) -> &'static str {
    NetworkFault::of(error).text()
}

/// Tells a link that its handshake is over.
pub fn settled<S: EndsHandshake>(link: S) -> S {
    link.end_handshake();
    link
}

/// Waits for a second.
pub fn wait_a_second<P: Pause>(waits: &mut P)
    ensures { P.called waits.new ≡ P.called waits.old ++ 10 ∷ [] }
{
    waits.pause(10);
}
