//! What a selection found.
use mseed_stream::StreamFault;

/// What a selection found in an archive.
#[derive(Clone, Copy, Debug, PartialEq, Eq)]
pub struct Selected {
    /// How many records there were.
    pub records: u64,
    /// How many records are asked for, and were written.
    pub written: u64,
    /// How many records lack a time: their channel is asked for and a window is given, and their start isn't valid.
    pub without_time: u64,
    /// The fault with which the input ended; `None` where it ended after a record.
    pub end: Option<StreamFault>,
}
