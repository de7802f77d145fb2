/// Why a record's samples can't be read, the first that applies.
#[derive(Clone, Copy, Debug, PartialEq, Eq)]
pub enum ReadFault {
    /// A blockette 100 gives another sample rate.
    Blockette100,
    /// An encoding that isn't read.
    Encoding(u8),
    /// Steim frames in little-endian words.
    LittleSteim,
    /// The data begin within the header or after the record's end.
    DataOffset,
    /// The payload has this many differences or integers, fewer than the record has samples.
    Short(usize),
    /// A word that spells nothing, before the last difference that is needed: its frame, from 0, and its
    /// word in it, from 1 to 15.
    BadWord(usize, usize),
    /// The sample at this index, from 0, is the first that leaves 32 bits.
    Overflow(usize),
    /// The last sample, and the payload's constant for it.
    LastDiffers(i32, i32),
    /// No memory for the samples.
    Memory,
}

/// The first and the last sample of a record.
#[derive(Clone, Copy, Debug, PartialEq, Eq)]
pub struct Ends {
    /// The first sample, in counts.
    pub first: i32,
    /// The last sample, in counts; the first, where there is only one.
    pub last: i32,
}
