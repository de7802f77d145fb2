//! A place in one of several files.

/// A place in one of several files.
#[derive(Clone, Copy, Debug, PartialEq, Eq)]
pub struct Place {
    /// The file's number in the list, from 0.
    pub file: usize,
    /// The number of bytes before the place in the file.
    pub offset: u64,
}
