//! Why parts weren't read, or weren't joined.
use crate::flaw::Flaw;
use mseed_stream::StreamFault;
use thiserror::Error;

/// Why parts weren't read, or weren't joined, or what they are joined to wasn't written whole. Where the parts are at
/// fault or couldn't be read, nothing was written, or by `join_each` the lines of the borders so far.
#[derive(Clone, Copy, Debug, PartialEq, Eq, Error)]
pub enum JoinFault {
    /// A line is bad.
    #[error("bad part at line {number}")]
    Line {
        /// Its number, from 1 over all parts.
        number: u64,
        /// The offset at which it begins, in bytes of the input: where the input ends and lacks it, its length.
        offset: u64,
        /// What is wrong with it.
        flaw: Flaw,
    },
    /// The number of parts that were read isn't the number that was expected: both, in this order.
    #[error("{0} parts, not {1}")]
    Count(u64, u64),
    /// The source failed (`Read`), or wasn't at its end after 2^40 reads (`Turns`).
    #[error("the input failed")]
    Stream(StreamFault),
    /// The output failed. A prefix of the text was written. `read_parts` writes nothing, and never returns it.
    #[error("the output failed")]
    Write,
    /// An allocation was refused. Nothing was written, or by `join_each` a prefix of the text.
    #[error("no memory")]
    Memory,
}
