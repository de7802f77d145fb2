//! Where a client asks for links.
ghost use Rattle.std.specs.Prelude.{◌≡◌, ◌+◌, ◌++◌, ◌∷◌, [], ℕ, List, IfErr, IfOk, Option, Some, is_err, if◌then◌else◌};
ghost use Rattle.mseed_stream.specs.Device.{nothing_read, nothing_written};
ghost use Rattle.mseed_stream.specs.Exchanges.{Exchange, exchange};
ghost use Rattle.slink_links.specs.Out.{AreOut};

use crate::handshake::EndsHandshake;
use crate::trouble::{DialFault, Loss, Trouble};
use mseed_stream::{Exchanges, Tally};

/// All calls for links to a server, one after another, for proofs, and what went wrong in the last try.
#[derive(Drop)]
pub struct DialLog {
    /// The calls for a link, and how many of them failed.
    pub calls: Tally,
    /// What went over the links that were given back, in order.
    pub given_back: Exchanges,
    /// What went wrong in the last try.
    pub trouble: Option<Trouble>,
}

impl DialLog {
    ghost use Rattle.slink_links.specs.Dialled.{dialled_by, nothing_dialled};

    /// Returns the log of no call.
    pub(crate) fn new() -> DialLog
        ensures { dialled_by result [] ≡ nothing_dialled }
    {
        DialLog {
            calls: Tally::new(),
            given_back: Exchanges::new(),
            trouble: None,
        }
    }
}

/// Where links are requested, one after another: each is given back before the next one is requested.
pub trait Dial {
    ghost use Rattle.slink_links.specs.declared.trouble.Trouble.{Trouble};

    type Link: EndsHandshake + Drop;

    // How many calls were made so far.
    ghost calls: { Self → ℕ };

    // How many of them failed.
    ghost failures: { Self → ℕ };

    // What went over the links that were given back, in order.
    ghost given_back: { Self → List Exchange };

    // What went wrong in the last try: why there was no link, or why nothing more came over the last one.
    ghost trouble: { Self → Option Trouble };

    /// Returns a new link, of which nothing was read and to which nothing was written.
    ///
    /// # Errors
    ///
    /// Why there is none.
    fn dial(&mut self) -> Result<Self::Link, DialFault>
        requires { AreOut 0 (calls self.old) (failures self.old) (given_back self.old) }
        ensures calls { calls self.new ≡ calls self.old + 1 }
        ensures failures { failures self.new ≡ failures self.old + (if is_err result then 1 else 0) }
        ensures given_back { given_back self.new ≡ given_back self.old }
        ensures unread { IfOk result (λ link. Self.Link.Source.read link ≡ nothing_read) }
        ensures unwritten { IfOk result (λ link. Self.Link.Sink.written link ≡ nothing_written) }
        ensures trouble { IfErr result (λ fault. trouble self.new ≡ Some (Trouble.Undialled fault)) };

    /// Takes a link back and closes it, and returns why nothing more came over it.
    fn hang_up(&mut self, link: Self::Link) -> Loss
        requires { AreOut 1 (calls self.old) (failures self.old) (given_back self.old) }
        ensures given_back { given_back self.new
            ≡ given_back self.old ++ exchange (Self.Link.Source.read link) (Self.Link.Sink.written link) ∷ [] }
        ensures calls { calls self.new ≡ calls self.old }
        ensures failures { failures self.new ≡ failures self.old }
        ensures trouble { trouble self.new ≡ Some (Trouble.Lost result) };
}
