//! How much a feed has at most.

/// The most stations of a feed, each with its ring, and of a client.
pub const STATIONS: usize = 16;

/// The most records that the ring of a station keeps.
pub const MOST_RECORDS: usize = 1_000_000;
