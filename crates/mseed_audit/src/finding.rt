//! What is found of a record.
use mseed_steim::ReadFault;
use mseed_time::TimeFault;

/// What is found of a record within its channel: the first reason that holds, in this order.
#[derive(Clone, Copy, Debug, PartialEq, Eq)]
pub enum Why {
    /// Its start is no time.
    Time(TimeFault),
    /// Its factor and multiplier give no sample rate.
    Rate,
    /// Its samples can't be read, or don't end on their constant.
    Read(ReadFault),
    /// Its sample rate isn't that of the record before.
    RateChange,
    /// The record before carries both leap flags, so that nobody can say where it ends.
    Leap,
    /// It begins after that record's end, by this number of microseconds.
    Gap(u128),
    /// It begins before that record's end, by this number of microseconds.
    Overlap(u128),
}

/// What was found of a record.
#[derive(Clone, Copy, Debug, PartialEq, Eq)]
pub struct Finding {
    /// The record's number among all that were added, from 1.
    pub number: u64,
    /// Where the record begins, in bytes from the input's beginning.
    pub offset: u64,
    /// What breaks the channel there.
    pub why: Why,
}
