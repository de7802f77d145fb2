//! How the stretches of a channel are packed.
ghost use Rattle.std.specs.Prelude.{◌≡◌};
ghost use Rattle.mseed_repack.specs.private.Planning.{most_of};

/// How a stretch comes into what is written.
#[derive(Clone, Copy)]
pub(crate) enum Way {
    /// From frames to frames: each record is unpacked where its differences are wanted, and no list is made of the
    /// samples. This is how many there are.
    Frames(usize),
    /// By a list of its samples.
    Listed,
}

/// How a stretch is packed.
#[derive(Clone, Copy)]
pub(crate) struct Plan {
    /// How many records it has; where there is no number, all that are left.
    pub(crate) records: Option<usize>,
    /// Which way it goes.
    pub(crate) way: Way,
}

impl Plan {
    /// Returns how many records the stretch has at the most.
    pub(crate) fn most(&self) -> usize
        ensures { result ≡ most_of self.now }
    {
        self.records.unwrap_or(usize::MAX)
    }
}
