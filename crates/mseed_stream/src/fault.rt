//! Why a stream wasn't read to its end.
ghost use Rattle.std.specs.Prelude.{◌≡◌};
ghost use Rattle.mseed_stream.specs.Fault.{offset_of};

use mseed_record::FrameFault;

/// Why an input wasn't read to its end.
///
/// The first number of each is an offset in bytes: from the input's beginning to where the next record begins, for a
/// [`Cutter`](crate::Cutter) and for [`split`](crate::split); from where the call began, for
/// [`read_all`](crate::read_all).
#[derive(Debug, Clone, Copy, PartialEq, Eq)]
pub enum StreamFault {
    /// The bytes from the offset on begin no record, whatever follows them: by the first framing step that applies.
    Frame(u64, FrameFault),
    /// The input ended while more was needed: an offset, and how many bytes there were from it on of what might
    /// have been a record.
    Truncated(u64, usize),
    /// The source failed.
    Read(u64),
    /// The input wasn't at its end after 2^40 reads; for [`split`](crate::split), a 2^40th record begins at the offset.
    Turns(u64),
    /// An allocation was refused.
    Memory,
}

impl StreamFault {
    /// Returns the offset (in bytes) of what is no record, of the record that is cut off, or where the reads ran out
    /// (`Turns`); `None` for a read that failed and memory that was refused, which lie in no byte of the input.
    pub fn offset(&self) -> Option<u64>
        ensures { result ≡ offset_of self.now }
    {
        match self {
            StreamFault::Frame(offset, _) => Some(*offset),
            StreamFault::Truncated(offset, _) => Some(*offset),
            StreamFault::Turns(offset) => Some(*offset),
            StreamFault::Read(_) | StreamFault::Memory => None,
        }
    }
}
