//! Serving a feed to one connection after another.
ghost use Rattle.std.specs.Prelude.{◌≡◌, ◌+◌, ◌<◌, ◌↔◌, false, if◌then◌else◌, true};
ghost use Rattle.slink_links.specs.Out.{AreOut};
ghost use Rattle.slink_links.specs.Served.{HasServed, HasServedEach, IsServed};

use crate::accept::Accept;
use crate::handshake::EndsHandshake;
use crate::status::{DONE, FAULT};
use mseed_stream::{Sink, report};
use slink_feed::{Feed, LinkFault, Session, Turn, serve_turn};
use std::alloc::Allocator;

/// The most steps that are taken with one link.
pub const TURNS: u64 = 1 << 40;

/// Serves the feed to `connections` connections, one after another, each by a session of its own. An `accept` that
/// fails uses up a connection.
///
/// Returns the exit status: 0 exactly where no `accept` failed, and no link that was given back had failed. Else it
/// is 2, and `errors` takes a line that says so.
pub fn serve_all<B: Allocator, A: Accept, E: Sink>(
    feed: &Feed<B>,
    connections: u64,
    acceptor: &mut A,
    errors: &mut E,
) -> u8
    requires { AreOut 0 (A.calls acceptor.old) (A.failures acceptor.old) (A.given_back acceptor.old) }
    ensures accepts { A.calls acceptor.new ≡ A.calls acceptor.old + connections }
    ensures fine { result ≡ 0
        ↔ (A.failures acceptor.new ≡ A.failures acceptor.old) × (A.lost acceptor.new ≡ A.lost acceptor.old) }
    ensures reported { HasServed result (E.written errors.old) (E.written errors.new) }
    // Each link was given back before the next connection, and was served by then.
    ensures out { AreOut 0 (A.calls acceptor.new) (A.failures acceptor.new) (A.given_back acceptor.new) }
    ensures served { HasServedEach feed.now (A.given_back acceptor.old) (A.given_back acceptor.new) }
{
    if serve_connections(feed, connections, acceptor) {
        return DONE;
    }
    report(errors, b"mseed: link failed\n");
    FAULT
}

/// Serves `connections` connections, and answers whether no `accept` and no link failed.
fn serve_connections<B: Allocator, A: Accept>(
    feed: &Feed<B>,
    connections: u64,
    acceptor: &mut A,
) -> bool
    requires { AreOut 0 (A.calls acceptor.old) (A.failures acceptor.old) (A.given_back acceptor.old) }
    ensures accepts { A.calls acceptor.new ≡ A.calls acceptor.old + connections }
    ensures fine { result ≡ true
        → (A.failures acceptor.new ≡ A.failures acceptor.old) × (A.lost acceptor.new ≡ A.lost acceptor.old) }
    ensures failed { result ≡ false
        → A.failures acceptor.old + A.lost acceptor.old < A.failures acceptor.new + A.lost acceptor.new }
    ensures out { AreOut 0 (A.calls acceptor.new) (A.failures acceptor.new) (A.given_back acceptor.new) }
    ensures served { HasServedEach feed.now (A.given_back acceptor.old) (A.given_back acceptor.new) }
{
    let mut is_fine = true;
    for connection in 0..connections {
        if !serve_next(feed, acceptor) {
            is_fine = false;
        }
    }
    is_fine
}

/// Serves the next connection, and answers whether it could be had and didn't fail.
fn serve_next<B: Allocator, A: Accept>(feed: &Feed<B>, acceptor: &mut A) -> bool
    requires { AreOut 0 (A.calls acceptor.old) (A.failures acceptor.old) (A.given_back acceptor.old) }
    ensures accepts { A.calls acceptor.new ≡ A.calls acceptor.old + 1 }
    ensures fine { result ≡ true
        → (A.failures acceptor.new ≡ A.failures acceptor.old) × (A.lost acceptor.new ≡ A.lost acceptor.old) }
    ensures failed { A.failures acceptor.new + A.lost acceptor.new
        ≡ A.failures acceptor.old + A.lost acceptor.old + (if result then 0 else 1) }
    ensures out { AreOut 0 (A.calls acceptor.new) (A.failures acceptor.new) (A.given_back acceptor.new) }
    ensures served { HasServedEach feed.now (A.given_back acceptor.old) (A.given_back acceptor.new) }
{
    match acceptor.accept() {
        Some(mut link) => {
            let is_fine = serve_link(feed, &mut link).is_ok();
            acceptor.hang_up(link, !is_fine);
            is_fine
        }
        None => false,
    }
}

/// Serves a link by a session of its own, until nothing more is to be sent, or until 2^40 steps
/// were taken.
///
/// # Errors
///
/// Why the link failed.
pub fn serve_link<B: Allocator, S: EndsHandshake>(
    feed: &Feed<B>,
    link: &mut S,
) -> Result<(), LinkFault>
    ensures { IsServed feed.now result (S.read link.old) (S.read link.new) (S.written link.old) (S.written link.new) }
{
    let mut session = Session::new();
    for turn in 0..TURNS {
        match serve_turn(&mut session, feed, link)? {
            Turn::Goes => end_handshake(&session, link),
            Turn::Closed | Turn::Ended | Turn::Stopped(_) => break,
        }
    }
    Ok(())
}

/// Informs the link where the handshake is over.
fn end_handshake<S: EndsHandshake>(session: &Session, link: &S) {
    if session.is_streaming() {
        link.end_handshake();
    }
}
