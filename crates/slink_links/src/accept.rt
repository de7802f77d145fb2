//! Where the links of a server come from.
ghost use Rattle.std.specs.Prelude.{◌≡◌, ◌+◌, ◌++◌, ◌∷◌, [], ℕ, List, IfSome, is_none, if◌then◌else◌};
ghost use Rattle.mseed_stream.specs.Device.{nothing_read, nothing_written};
ghost use Rattle.mseed_stream.specs.Exchanges.{Exchange, exchange};
ghost use Rattle.slink_links.specs.Out.{AreOut};
ghost use Rattle.slink_links.specs.Served.{has_failed};

use crate::handshake::EndsHandshake;
use mseed_stream::{Exchanges, Tally};

/// All calls for links, one after another, for proofs: it has no bytes.
#[derive(Drop)]
pub struct AcceptLog {
    /// The calls for a link, and how many of them failed.
    pub calls: Tally,
    /// The links that were given back, and how many of them had failed.
    pub lost: Tally,
    /// What went over the links that were given back, in order.
    pub given_back: Exchanges,
}

impl AcceptLog {
    ghost use Rattle.slink_links.specs.Taken.{nothing_taken, taken_by};

    /// Returns the log of no call.
    pub(crate) fn new() -> AcceptLog
        ensures { taken_by result ≡ nothing_taken }
    {
        AcceptLog {
            calls: Tally::new(),
            lost: Tally::new(),
            given_back: Exchanges::new(),
        }
    }
}

/// Where links come from, one after another: each is given back before the next one is requested.
pub trait Accept {
    type Link: EndsHandshake + Drop;

    // How many calls were made so far.
    ghost calls: { Self → ℕ };

    // How many of them failed.
    ghost failures: { Self → ℕ };

    // How many links were given back that had failed.
    ghost lost: { Self → ℕ };

    // What went over the links that were given back, in order.
    ghost given_back: { Self → List Exchange };

    /// Returns the next link, of which nothing was read and to which nothing was written, or `None` where the call
    /// failed.
    fn accept(&mut self) -> Option<Self::Link>
        requires { AreOut 0 (calls self.old) (failures self.old) (given_back self.old) }
        ensures calls { calls self.new ≡ calls self.old + 1 }
        ensures failures { failures self.new ≡ failures self.old + (if is_none result then 1 else 0) }
        ensures lost { lost self.new ≡ lost self.old }
        ensures given_back { given_back self.new ≡ given_back self.old }
        ensures unread { IfSome result (λ link. Self.Link.Source.read link ≡ nothing_read) }
        ensures unwritten { IfSome result (λ link. Self.Link.Sink.written link ≡ nothing_written) };

    /// Takes a link back and closes it, and is informed whether it failed.
    fn hang_up(&mut self, link: Self::Link, failed: bool)
        requires out { AreOut 1 (calls self.old) (failures self.old) (given_back self.old) }
        requires reported { failed ≡ has_failed (Self.Link.Source.read link) (Self.Link.Sink.written link) }
        ensures lost { lost self.new ≡ lost self.old + (if failed then 1 else 0) }
        ensures given_back { given_back self.new
            ≡ given_back self.old ++ exchange (Self.Link.Source.read link) (Self.Link.Sink.written link) ∷ [] }
        ensures calls { calls self.new ≡ calls self.old }
        ensures failures { failures self.new ≡ failures self.old };
}
