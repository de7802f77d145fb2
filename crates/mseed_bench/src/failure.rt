//! Why a job wasn't run to its end.

use mseed_stream::StreamFault;
use std::alloc::{AllocError, AllocFailed};
use thiserror::Error;

/// Why a job wasn't run to its end.
#[derive(Clone, Copy, Debug, PartialEq, Eq, Error)]
pub(crate) enum Failure {
    /// The arguments name no job, or no seed.
    #[error("wants the name of a job and a seed")]
    Words,
    /// An allocation was refused.
    #[error("no memory")]
    Memory,
    /// A call refused what was made for it.
    #[error("a call refused its input")]
    Refused,
}

impl From<AllocError> for Failure {
    fn from(_: AllocError) -> Self {
        Failure::Memory
    }
}

impl<T: Drop> From<AllocFailed<T>> for Failure {
    fn from(_: AllocFailed<T>) -> Self {
        Failure::Memory
    }
}

impl From<StreamFault> for Failure {
    fn from(_: StreamFault) -> Self {
        Failure::Refused
    }
}
