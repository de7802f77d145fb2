//! The plans of the two commands of a feed.
ghost use Rattle.std.specs.Prelude.{◌≡◌};
ghost use Rattle.mseed_stream.specs.Calls.{ReadsOn};
ghost use Rattle.mseed_stream.specs.Device.{nothing_read};
ghost use Rattle.mseed_words.specs.FeedWords.{CanFetch, CanServe};
ghost use Rattle.mseed_feed.specs.Plans.{IsFetchPlan, IsServeRun, first_client};

use crate::filling::fill;
use crate::keeping::report_kept;
use crate::law::one_filling;
use crate::refusal::report_filling;
use mseed_stream::{Sink, Source};
use mseed_words::{Fetching, Serving};
use slink_feed::{Client, Mode};
use slink_links::{FAULT, FetchPlan, ServePlan};
use std::alloc::Allocator;

/// Fills the feed that is to be served with the records of an input, of which nothing was read yet, and returns how it
/// is served. Of each station of which more records came than its ring keeps, in their order, `errors` takes a line
/// that says how many of how many are kept.
///
/// # Errors
///
/// The exit status, 2, after a line on `errors` that says why there is no feed: the input's records aren't all the
/// feed's, or it doesn't end where a record ends, or there was no memory.
pub fn plan_serve<A: Allocator + Copy, R: Source, E: Sink>(
    alloc: A,
    serving: &Serving,
    input: &mut R,
    errors: &mut E,
) -> Result<ServePlan<A>, u8>
    requires unread { R.read input.old ≡ nothing_read }
    requires called { CanServe serving.now }
    ensures planned { IsServeRun serving.now result (R.read input.new) (E.written errors.old) (E.written errors.new) }

    // What the input is known to have left is what was read of it, up to its end where it is at its end.
    ensures reads { ReadsOn (R.read input.old) (R.read input.new) (R.remaining input.old) (R.remaining input.new)
        (R.beside input.old) (R.beside input.new) }
{
    one_filling();
    match fill(alloc, serving, input) {
        Ok(feed) => {
            report_kept(&feed, serving, errors);
            Ok(ServePlan {
                address: serving.listener.host,
                port: serving.listener.port,
                connections: serving.connections,
                timeout: serving.listener.timeout,
                feed,
            })
        }
        Err(fault) => {
            report_filling(errors, &fault);
            Err(FAULT)
        }
    }
}

/// How the records that are requested are fetched: by a new client, from the host and over as many tries as are named.
pub fn plan_fetch(fetching: &Fetching) -> FetchPlan
    requires { CanFetch fetching.now }
    ensures { IsFetchPlan fetching.now result }
{
    FetchPlan {
        host: fetching.server.host,
        port: fetching.server.port,
        tries: fetching.tries,
        timeout: fetching.server.timeout,
        report_next: fetching.report_next,
        client: client_of(fetching),
    }
}

/// A new client of the places that are requested, which goes past holes where that is requested.
fn client_of(fetching: &Fetching) -> Client
    requires { CanFetch fetching.now }
    ensures { result ≡ first_client fetching.now }
{
    let places = fetching.places.as_slice();
    if fetching.holes {
        Client::past_holes(places, Mode::Fetch)
    } else {
        Client::new(places, Mode::Fetch)
    }
}
