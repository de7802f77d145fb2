//! Why bytes begin no record, and why a record has no payload.

/// Why the bytes at the beginning of an input begin no record, whatever follows them: the first framing step that
/// applies.
#[derive(Clone, Copy, Debug, PartialEq, Eq)]
pub enum FrameFault {
    /// The bytes before the station aren't those of a data record's header.
    NotData,
    /// The start's year and day can be read in neither byte order.
    Order,
    /// A blockette begins within the header, or isn't at least 4 bytes further on than the one that names it.
    Chain,
    /// The chain of blockettes ends without a blockette 1000, so that the record's length isn't known.
    No1000,
    /// Blockette 1000's length exponent isn't in 7..=20.
    Length(u8),
    /// Blockette 1000 lies outside the record whose length it gives.
    Outside,
    /// The bytes begin as those of miniSEED 3.
    Version3,
}

/// Why no record begins some bytes, as framing says.
#[derive(Clone, Copy, Debug, PartialEq, Eq)]
pub enum ViewFault {
    /// They begin no record, whatever follows them.
    Not(FrameFault),
    /// This number of bytes is needed, from the first of them on, before it is known whether they begin a record.
    Short(usize),
}

/// The beginning of data lies within the header, or after the record's end.
#[derive(Clone, Copy, Debug, PartialEq, Eq)]
pub struct DataOffset;
