//! From a plan to the loop over links.
ghost use Rattle.std.specs.Prelude.{◌≡◌, ◌+◌, ◌≤◌, ◌↔◌, Option};
ghost use Rattle.slink_feed.specs.declared.dialogue.Ending.{Ending};
ghost use Rattle.slink_feed.specs.declared.dialogue.Stage.{Stage};
ghost use Rattle.slink_links.specs.Fetched.{FetchesAll, HasCalled, IsQuiet, calls_of, server_of};
ghost use Rattle.slink_links.specs.Out.{AreOut};
ghost use Rattle.slink_links.specs.Served.{HasServed, HasServedEach};
ghost use Rattle.slink_links.specs.Trouble.{IsOfLastTry};
ghost use Rattle.slink_links.specs.declared.trouble.Trouble.{Trouble};

use crate::accept::Accept;
use crate::dial::Dial;
use crate::fetching::{FetchEnd, fetch_all};
use crate::pause::Pause;
use crate::plan::{FetchPlan, FetchTerms, ServePlan, Server};
use crate::serving::serve_all;
use mseed_stream::Sink;
use std::alloc::Allocator;

/// Serves the feed of a plan to as many connections as it says, by [`serve_all`].
pub fn serve_planned<B: Allocator, A: Accept, E: Sink>(
    plan: &ServePlan<B>,
    acceptor: &mut A,
    errors: &mut E,
) -> u8
    requires { AreOut 0 (A.calls acceptor.old) (A.failures acceptor.old) (A.given_back acceptor.old) }
    ensures accepts { A.calls acceptor.new ≡ A.calls acceptor.old + plan.now.connections }
    ensures fine { result ≡ 0
        ↔ (A.failures acceptor.new ≡ A.failures acceptor.old) × (A.lost acceptor.new ≡ A.lost acceptor.old) }
    ensures reported { HasServed result (E.written errors.old) (E.written errors.new) }
    ensures out { AreOut 0 (A.calls acceptor.new) (A.failures acceptor.new) (A.given_back acceptor.new) }
    ensures served { HasServedEach plan.now.feed (A.given_back acceptor.old) (A.given_back acceptor.new) }
{
    serve_all(&plan.feed, u64::from(plan.connections), acceptor, errors)
}

/// Fetches what a plan says by at most as many tries as it says, by [`fetch_all`].
pub fn fetch_planned<D: Dial, P: Pause, W: Sink, E: Sink>(
    plan: &mut FetchPlan,
    dialler: &mut D,
    waits: &mut P,
    output: &mut W,
    errors: &mut E,
) -> u8
    requires { AreOut 0 (D.calls dialler.old) (D.failures dialler.old) (D.given_back dialler.old) }
    ensures dials { D.calls dialler.new ≤ D.calls dialler.old + plan.old.tries }
    ensures done { result ≡ 0 → plan.new.client.talk.stage ≡ Stage.Ended Ending.End }
    ensures end { (end : FetchEnd) × (trouble : Option Trouble)
        × FetchesAll end (server_of plan.old) trouble plan.old.report_next result plan.old.client plan.new.client
        (W.written output.old) (W.written output.new) (E.written errors.old) (E.written errors.new)
        × HasCalled end plan.old.tries plan.old.client plan.new.client (W.written output.old) (W.written output.new)
        (calls_of (D.calls dialler.old) (D.given_back dialler.old) (P.called waits.old))
        (calls_of (D.calls dialler.new) (D.given_back dialler.new) (P.called waits.new))
        × IsOfLastTry plan.old.tries trouble (D.trouble dialler.new) }
    ensures quiet { IsQuiet (server_of plan.old) plan.old.report_next plan.old.client.talk.holes plan.new.client.talk
        result (E.written errors.old) (E.written errors.new) }
    ensures out { AreOut 0 (D.calls dialler.new) (D.failures dialler.new) (D.given_back dialler.new) }
{
    let terms = FetchTerms {
        server: Server {
            host: plan.host,
            port: plan.port,
        },
        tries: u64::from(plan.tries),
        report_next: plan.report_next,
    };
    fetch_all(&mut plan.client, &terms, dialler, waits, output, errors)
}
