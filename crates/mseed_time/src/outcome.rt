//! How one record follows another.

/// A leap second that happened during a record: the clock counts a second more, or one less (SEED Reference Manual 2.4,
/// chapter 8, field 12).
#[derive(Clone, Copy, Debug, PartialEq, Eq)]
pub enum LeapStep {
    /// A second was inserted (activity bit 4).
    Plus,
    /// A second was left out (activity bit 5).
    Minus,
}

/// Where a record begins, measured from the end of the one before it, a sample period after its last sample.
#[derive(Clone, Copy, Debug, PartialEq, Eq)]
pub enum Join {
    /// Within half a sample period of it.
    Meets,
    /// Later by this number of microseconds, rounded down: a gap.
    Late(u128),
    /// Earlier by this number of microseconds, rounded down: the two overlap.
    Early(u128),
}
