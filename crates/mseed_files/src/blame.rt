//! What is wrong with an input, by the fault with which it ended.
ghost use Rattle.std.specs.Prelude.{◌≡◌};
ghost use Rattle.mseed_files.specs.Blame.{blame_by, blame_of};

use mseed_stream::StreamFault;

/// What is wrong with an input, where its files are named.
#[derive(Clone, Copy)]
pub enum Blame {
    /// Nothing of which more is to be said.
    Nothing,
    /// A read failed.
    Read,
    /// There is a fault, or a record that is cut off, after this number of bytes.
    Fault(u64),
}

/// What is wrong with an input that ended with this fault, if with one.
pub fn blame_by(end: &Option<StreamFault>) -> Blame
    ensures { result ≡ blame_by end.now }
{
    match end {
        Some(fault) => blame_of(fault),
        None => Blame::Nothing,
    }
}

/// What is wrong with an input that ended with this fault.
pub fn blame_of(fault: &StreamFault) -> Blame
    ensures { result ≡ blame_of fault.now }
{
    match fault {
        StreamFault::Frame(offset, _)
        | StreamFault::Truncated(offset, _)
        | StreamFault::Turns(offset) => Blame::Fault(*offset),
        StreamFault::Read(_) => Blame::Read,
        StreamFault::Memory => Blame::Nothing,
    }
}
