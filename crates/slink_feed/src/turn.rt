//! What a step with a link comes to.

use crate::dialogue::Event;
use thiserror::Error;

/// What a step with a link comes to.
#[derive(Debug, PartialEq, Eq, Drop)]
pub enum Turn {
    /// The next step is to be taken.
    Goes,
    /// Nothing more comes of the link: it reported its end, or the session is closed.
    Closed,
    /// The client has all that was requested.
    Ended,
    /// The client takes nothing more of the link, for the reason that this event reports.
    Stopped(Event),
}

/// Why a step wasn't done: a device failed.
#[derive(Clone, Copy, Debug, PartialEq, Eq, Error)]
pub enum LinkFault {
    /// The link failed at a read.
    #[error("the link failed at a read")]
    Read,
    /// The link failed at a write, once it had accepted this number of bytes in the step.
    #[error("the link failed after {0} bytes")]
    Write(usize),
    /// The output failed, once it had accepted this number of bytes in the step.
    #[error("the output failed after {0} bytes")]
    Output(usize),
}
