//! The laws of what the link of one session accepts in its steps.
ghost use Rattle.std.specs.Prelude.{◌≡◌, ◌++◌, List, ℕ};
ghost use Rattle.mseed_stream.specs.Device.{BytesRead, IsPrefixOf};
ghost use Rattle.slink_feed.specs.declared.turn.LinkFault.{LinkFault};
ghost use Rattle.slink_feed.specs.declared.turn.Turn.{Turn};
ghost use Rattle.slink_feed.specs.Attending.{Attends, IsServeFault};
ghost use Rattle.slink_feed.specs.Connection.{AreAlike, FailsInTurn, SendsSlices, TakesTurns, EmittedAlike};
ghost use Rattle.slink_feed.specs.Rounds.{Attending, SendsAll};
ghost use Rattle.slink_feed.specs.Running.{Stands};
ghost use Rattle.slink_feed.specs.Session.{IsBefore};
ghost use Rattle.slink_feed.specs.Window.{Window};

use crate::session::Phase;

/// A step of a session with its link comes to one thing: what the session comes to, which bytes the link accepts and
/// what the step returns are determined by the session, by its feed, and by what the link gave.
#[tactic(auto, using(crate::proofs::OneTurn::turned_once, crate::proofs::OneTurn::cut_once))]
pub fn one_turn()
    ensures turn { (feed : List Window) (old a b : Attending) (before after : BytesRead) (t u : Turn)
        → Stands old.session
        → Attends feed old a before after t → Attends feed old b before after u → (t ≡ u) × AreAlike a b }
    // So are the rounds in which it sends what is due.
    ensures rounds { (feed : List Window) (old a b : Attending) → SendsAll feed old a → SendsAll feed old b
        → AreAlike a b }
    // So is a step in which the link fails: by how many bytes it accepted, and by what was read before.
    ensures fault { (feed : List Window) (old a b : Attending) (before after : BytesRead) (fault : LinkFault)
        → Stands old.session → IsServeFault feed old a before after fault
        → IsServeFault feed old b before after fault → EmittedAlike a b }
{}

/// From the moment on when a session streams, what its link accepts in steps, with whatever is pushed between them and
/// whatever the link gives, are packets, and `END` where all that was requested was sent. The packets of each station
/// with a grant are a slice of its records from the grant on, and no other station has any. Before that moment there
/// are none.
#[tactic(auto, using(crate::proofs::Connected::turns_sent, crate::proofs::Connected::turns_failed))]
pub fn turns_send_slices()
    ensures before { (feed : List Window) (old new : Attending) → IsBefore old.session.state.phase
        → SendsAll feed old new → (new.session ≡ old.session) × (new.written.bytes ≡ old.written.bytes) }
    ensures taken { (feeds : List (List Window)) (old new : Attending) → old.session.state.phase ≡ Phase.Streaming
        → Stands old.session → TakesTurns old feeds new
        → (bytes : List ℕ) × (new.written.bytes ≡ old.written.bytes ++ bytes)
        × SendsSlices feeds old.session.state bytes }
    // Where the link failed in the last step, it accepted a prefix of such bytes.
    ensures failed { (feeds : List (List Window)) (old new : Attending) → old.session.state.phase ≡ Phase.Streaming
        → Stands old.session → FailsInTurn old feeds new → (bytes prefix : List ℕ) × IsPrefixOf prefix bytes
        × (new.written.bytes ≡ old.written.bytes ++ prefix) × SendsSlices feeds old.session.state bytes }
{}
