//! How large the archives of a run are.

/// How large the archives of a run are.
#[derive(Clone, Copy)]
pub(crate) enum Scale {
    /// As large as those that users have.
    Full,
    /// So small that all jobs together take less than a second.
    Small,
}

impl Scale {
    /// `full` of archives as users have them, `small` of small ones.
    pub(crate) fn of(self, full: usize, small: usize) -> usize {
        match self {
            Scale::Full => full,
            Scale::Small => small,
        }
    }
}
