//! What is wrong with an input, by the fault with which a command ended.
ghost use Rattle.std.specs.Prelude.{◌≡◌};
ghost use Rattle.mseed.specs.Blame.{join_blame, packing_blame};

use mseed_files::{Blame, blame_of};
use mseed_join::JoinFault;
use mseed_repack::RepackFault;

/// What is wrong with parts that weren't joined: a bad line lies where it begins.
pub fn join_blame(fault: &JoinFault) -> Blame
    ensures { result ≡ join_blame fault.now }
{
    match fault {
        JoinFault::Line { offset, .. } => Blame::Fault(*offset),
        JoinFault::Stream(fault) => blame_of(fault),
        _ => Blame::Nothing,
    }
}

/// What is wrong with an input that wasn't packed anew.
pub fn packing_blame(fault: &RepackFault) -> Blame
    ensures { result ≡ packing_blame fault.now }
{
    match fault {
        RepackFault::Stream(fault) => blame_of(fault),
        _ => Blame::Nothing,
    }
}
