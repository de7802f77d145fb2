//! One read of a link.
ghost use Rattle.std.specs.Prelude.{◌≡◌, ◌<◌, ◌≤◌, IfOk, OnErr, length, take};
ghost use Rattle.slink_feed.specs.Turns.{failed_once, read_once};

use mseed_stream::{Duplex, Failed};

/// Reads once, and returns how many bytes stand at the front of the room then: none where the link is at its end.
#[tactic(auto, using(crate::proofs::Attended::read_is, crate::proofs::Attended::failed_is))]
pub(crate) fn read_once<S: Duplex>(link: &mut S, room: &mut [u8]) -> Result<usize, Failed>
    requires { 0 < length room.old }
    ensures within { IfOk result (λ n. n ≤ length room.new) }
    ensures read { IfOk result (λ n. S.read link.new ≡ read_once (S.read link.old) (take n room.new)) }
    ensures failed { OnErr result (S.read link.new ≡ failed_once (S.read link.old)) }
    ensures written { S.written link.new ≡ S.written link.old }
{
    link.pull(room)
}
