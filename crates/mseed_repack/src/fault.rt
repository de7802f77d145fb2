//! How packing anew ends early.
use mseed_audit::Finding;
use mseed_pack::PackFault;
use mseed_record::Codes;
use mseed_stream::StreamFault;
use std::alloc::AllocError;

/// Why an archive wasn't packed anew, whole channels or their stretches. Nothing was written then, but for `Write`.
#[derive(Clone, Copy, Debug, PartialEq, Eq)]
pub enum RepackFault {
    /// The input failed, or doesn't end where a record ends.
    Stream(StreamFault),
    /// The first channel, by its key, that isn't continuous, and its first finding; by stretches, the first of which a
    /// record has a finding of its own, and the first such finding. Number and offset are those in all that was read.
    Broken(Codes, Finding),
    /// The first channel, by its key, of which a stretch can't be packed; the number of its first such stretch, from
    /// 1; and why. A channel that is packed whole is one stretch.
    Misfit(Codes, u64, PackFault),
    /// The output failed.
    Write,
    /// An allocation was refused.
    Memory,
}

impl From<StreamFault> for RepackFault {
    ghost use Rattle.std.specs.Prelude.{◌≡◌};
    ghost use Rattle.mseed_repack.specs.Repack.{stream_fault};

    ghost from_gives = { λ fault result. result ≡ stream_fault fault };

    fn from(fault: StreamFault) -> RepackFault {
        match fault {
            StreamFault::Memory => RepackFault::Memory,
            fault => RepackFault::Stream(fault),
        }
    }
}

impl From<AllocError> for RepackFault {
    ghost use Rattle.std.specs.Prelude.{◌≡◌};
    ghost use Rattle.mseed_repack.specs.declared.fault.RepackFault.{RepackFault};

    ghost from_gives = { λ _ fault. fault ≡ RepackFault.Memory };

    fn from(_error: AllocError) -> RepackFault {
        RepackFault::Memory
    }
}
