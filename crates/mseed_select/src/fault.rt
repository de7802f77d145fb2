//! The errors of a selection.
use std::alloc::AllocError;
use thiserror::Error;

/// A text that is no list of patterns.
#[derive(Clone, Copy, Debug, PartialEq, Eq, Error)]
#[error("no patterns of channels")]
pub struct BadPatterns;

/// A text that is no time.
#[derive(Clone, Copy, Debug, PartialEq, Eq, Error)]
#[error("no time")]
pub struct BadTime;

/// A window whose end isn't after its beginning.
#[derive(Clone, Copy, Debug, PartialEq, Eq, Error)]
#[error("the window is empty")]
pub struct BadWindow;

/// Why a selection wasn't written whole. A prefix of it was written.
#[derive(Clone, Copy, Debug, PartialEq, Eq, Error)]
pub enum SelectFault {
    /// The output failed.
    #[error("the output failed")]
    Write,
    /// Memory was refused.
    #[error("no memory")]
    Memory,
}

impl From<AllocError> for SelectFault {
    ghost use Rattle.std.specs.Prelude.{◌≡◌};
    ghost use Rattle.mseed_select.specs.declared.fault.SelectFault.{SelectFault};

    ghost from_gives = { λ _ fault. fault ≡ SelectFault.Memory };

    fn from(_error: AllocError) -> SelectFault {
        SelectFault::Memory
    }
}
