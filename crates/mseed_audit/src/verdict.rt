//! What an audit says of a channel.
ghost use Rattle.std.specs.Prelude.{◌≡◌};
ghost use Rattle.mseed_audit.specs.Verdict.{says_continuous};

use crate::finding::Finding;
use mseed_time::{Micros, Ratio};

/// What an audit says of a channel.
#[derive(Clone, Copy, Debug, PartialEq, Eq)]
pub enum Verdict {
    /// Nothing was found of any record.
    Continuous {
        /// The first sample's instant.
        start: Micros,
        /// The first record's rate.
        rate: Ratio,
        /// The number of records with samples.
        records: u64,
        /// The number of samples in all of them.
        samples: u64,
    },
    /// Something was.
    Broken {
        /// The first finding.
        first: Finding,
        /// The number of records with a finding.
        count: u64,
    },
}

impl Verdict {
    /// Returns whether the channel is continuous.
    pub fn is_continuous(&self) -> bool
        ensures { result ≡ says_continuous self.now }
    {
        match self {
            Verdict::Continuous { .. } => true,
            Verdict::Broken { .. } => false,
        }
    }
}
