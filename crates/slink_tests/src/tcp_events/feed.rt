//! What a device may report of its input.

use super::host::Input;
use super::pattern::Pattern;
use slink_live::Event;
use std::io::Write;
use std::os::unix::net::UnixStream;

/// The direction of an input's bytes.
const DIRECTION: usize = 1_000_003;

/// An input, and how far it is.
#[derive(Drop)]
pub(crate) struct Feed {
    // The other end of a pipe, until it is closed.
    pipe: Option<UnixStream>,
    // So often a file has bytes, until it ends or fails.
    left: u32,
    is_file: bool,
    fails: bool,
    // So many bytes were written to the pipe, and so many of these brought.
    written: usize,
    brought: usize,
    has_ended: bool,
    is_told: bool,
    is_left: bool,
}

impl Feed {
    /// The feed of a pipe with this other end, or of a file.
    fn new(pipe: Option<UnixStream>, left: u32, fails: bool) -> Feed {
        let is_file = pipe.is_none();
        Feed {
            pipe,
            left,
            is_file,
            fails,
            written: 0,
            brought: 0,
            has_ended: false,
            is_told: false,
            is_left: false,
        }
    }

    /// The feed of a file.
    pub(crate) fn of_file(left: u32, fails: bool) -> (Feed, Input) {
        (Feed::new(None, left, fails), Input::File { left, fails })
    }

    /// The feed of a pipe.
    pub(crate) fn of_pipe(near: UnixStream, far: UnixStream) -> (Feed, Input) {
        let _ = near.set_nonblocking(true);
        let _ = far.set_nonblocking(true);
        (Feed::new(Some(near), 0, false), Input::Pipe(far))
    }

    /// Writes so many bytes to a pipe.
    pub(crate) fn write(&mut self, pattern: &Pattern, count: usize) {
        let bytes = pattern.beyond(DIRECTION, self.written, count);
        if let Some(pipe) = &mut self.pipe
            && let Ok(count) = pipe.write(bytes)
        {
            self.written = self.written.saturating_add(count);
        }
    }

    /// Ends a pipe.
    pub(crate) fn end(&mut self) {
        self.pipe = None;
    }

    /// It isn't read any more.
    pub(crate) fn leave(&mut self) {
        self.is_left = true;
    }

    /// Whether there is always something to report of it, so that no wait lasts.
    pub(crate) fn is_always_ready(&self) -> bool {
        self.is_file && !self.is_left && !self.has_ended
    }

    /// Whether it has bytes, or is at an end that wasn't met.
    fn is_ready(&self) -> bool {
        let is_pipe_ready = self.brought < self.written || self.pipe.is_none();
        !self.is_left && !self.has_ended && (self.is_file || is_pipe_ready)
    }

    /// Whether its end was met, and wasn't reported.
    fn is_at_end(&self) -> bool {
        !self.is_left && self.has_ended && !self.is_told
    }

    /// Whether the device may report this of it.
    pub(crate) fn may_be(&self, event: Event) -> bool {
        match event {
            Event::Input => self.is_ready(),
            Event::InputEnded => self.is_at_end() && !self.fails,
            Event::InputFailed => self.is_at_end() && self.fails,
            _ => false,
        }
    }

    /// Whether the device has to report something of it. A file is always due, until it has ended, and not waited for.
    pub(crate) fn is_due(&self) -> bool {
        !self.is_file && self.is_ready() || self.is_at_end()
    }

    /// Its end was reported.
    pub(crate) fn report_end(&mut self) {
        self.is_told = true;
    }

    /// The device brought some bytes, into a room of at least one. Whether these are the next ones.
    pub(crate) fn bring(&mut self, pattern: &Pattern, bytes: &[u8]) -> bool {
        if self.is_file {
            self.has_ended = self.left == 0;
            self.left = self.left.saturating_sub(1);
            return bytes.len() == if self.has_ended { 0 } else { 1 };
        }
        let is_right = pattern.is(DIRECTION, self.brought, bytes);
        self.has_ended = bytes.is_empty() && self.pipe.is_none() && self.brought == self.written;
        self.brought = self.brought.saturating_add(bytes.len());
        is_right && self.brought <= self.written
    }
}
