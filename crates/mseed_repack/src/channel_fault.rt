//! How packing a channel by its stretches ends early.
use mseed_pack::PackFault;
use std::alloc::AllocError;

/// Why a channel wasn't packed by its stretches. Nothing was written then, but for `Write`.
#[derive(Clone, Copy, Debug, PartialEq, Eq)]
pub enum ChannelFault {
    /// A record has no samples, or a finding of its own.
    Broken,
    /// The first stretch that can't be packed, by its number, from 1, and why.
    Misfit(u64, PackFault),
    /// The output failed.
    Write,
    /// An allocation was refused.
    Memory,
}

impl From<AllocError> for ChannelFault {
    ghost use Rattle.std.specs.Prelude.{◌≡◌};
    ghost use Rattle.mseed_repack.specs.declared.channel_fault.ChannelFault.{ChannelFault};

    ghost from_gives = { λ _ fault. fault ≡ ChannelFault.Memory };

    fn from(_error: AllocError) -> ChannelFault {
        ChannelFault::Memory
    }
}
