//! Whether a record is asked for.

/// Whether a record is asked for.
#[derive(Clone, Copy, Debug, PartialEq, Eq)]
pub enum Answer {
    /// It is.
    AskedFor,
    /// It isn't: it is of another channel, or stands outside the window.
    Left,
    /// It isn't, though its channel is: its start isn't valid, and a window is given.
    NoTime,
}
