//! An input that is waited for with the links.
ghost use Rattle.std.specs.Prelude.{◌≡◌, ◌≤◌, IfSome, length};

use crate::guards::Guards;
use mio::unix::SourceFd;
use mio::{Interest, Registry, Token};
use slink_live::Event;
use std::io::{ErrorKind, Read};
use std::os::fd::AsRawFd;

/// The token of the input.
pub(crate) const INPUT: usize = 0;

/// How far an input is.
#[derive(Clone, Copy, Debug, PartialEq, Eq)]
enum Stage {
    /// It goes on.
    Open,
    /// It has ended: so it is reported next.
    Ended,
    /// It has failed: so it is reported next.
    Failed,
    /// That was reported, or it isn't wanted any more.
    Left,
}

/// An input, and what may be had of it.
#[derive(Drop)]
pub(crate) struct Input<I: Drop> {
    source: I,
    // The system can't wait for it, as for a regular file: it is always ready.
    is_file: bool,
    may_read: bool,
    stage: Stage,
}

impl<I: Read + AsRawFd + Drop> Input<I> {
    /// An input, for which the system waits if it can.
    pub(crate) fn new(source: I, guards: &Guards, registry: &Registry) -> Input<I> {
        let descriptor = source.as_raw_fd();
        let is_file = guards.is_closed(descriptor)
            || registry
                .register(&mut SourceFd(&descriptor), Token(INPUT), Interest::READABLE)
                .is_err();
        Input {
            source,
            is_file,
            may_read: is_file,
            stage: Stage::Open,
        }
    }

    /// An event says that it may have bytes, or be at its end.
    pub(crate) fn set_ready(&mut self) {
        self.may_read = true;
    }

    /// What can be done with it. How it ended is reported once.
    pub(crate) fn readiness(&mut self) -> Option<Event>
        ensures { IfSome result (λ event. event ≡ Event.Nothing → ⊥) }
    {
        match self.stage {
            Stage::Open => self.may_read.then_some(Event::Input),
            Stage::Ended => {
                self.stage = Stage::Left;
                Some(Event::InputEnded)
            }
            Stage::Failed => {
                self.stage = Stage::Left;
                Some(Event::InputFailed)
            }
            Stage::Left => None,
        }
    }

    /// Reads once, and has the system report what is left. A signal is no failure.
    pub(crate) fn read(&mut self, registry: &Registry, buf: &mut [u8]) -> usize
        ensures { result ≤ length buf.new }
    {
        let count = match self.source.read(buf) {
            Ok(0) => {
                self.stage = Stage::Ended;
                0
            }
            Ok(count) => count,
            Err(error) => {
                match error.kind() {
                    ErrorKind::WouldBlock | ErrorKind::Interrupted => {}
                    _ => self.stage = Stage::Failed,
                }
                0
            }
        };
        self.report(registry);
        count
    }

    /// Has the system report what is left.
    fn report(&mut self, registry: &Registry) {
        if self.is_file {
            return;
        }
        self.may_read = false;
        let descriptor = self.source.as_raw_fd();
        let again = registry.reregister(
            &mut SourceFd(&descriptor),
            Token(INPUT),
            Interest::READABLE,
        );
        if again.is_err() {
            self.stage = Stage::Failed;
        }
    }

    /// It isn't read any more.
    pub(crate) fn leave(&mut self, registry: &Registry) {
        self.stage = Stage::Left;
        if !self.is_file {
            let descriptor = self.source.as_raw_fd();
            let _ = registry.deregister(&mut SourceFd(&descriptor));
        }
    }
}
