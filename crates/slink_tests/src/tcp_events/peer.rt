//! A client, and what a device may report of its link.

use super::pattern::Pattern;
use slink_live::Interest;
use std::io::{ErrorKind, Read, Write};
use std::net::{OpenStream, Shutdown};

/// What is reported to a device of a link before anything else.
const FIRST_INTEREST: Interest = Interest {
    reads: true,
    writes: false,
    is_streaming: false,
};

/// So many bytes that a client says don't have its link reset once it is closed.
const FEW: usize = 1_000;

/// So often in a row a link may be writable and accept nothing, though its client did nothing: the system moves bytes
/// on by itself.
const VAIN: u32 = 8;

/// How far a link is.
#[derive(Clone, Copy, Debug, PartialEq, Eq)]
pub(crate) enum Stage {
    /// Its client dialled.
    Dialled,
    /// It stands in a slot.
    Standing,
    /// The device closed it.
    Closed,
}

/// What a client received.
#[derive(Clone, Copy, Debug, PartialEq, Eq)]
pub(crate) enum Received {
    /// Nothing now.
    Nothing,
    /// Bytes, as they were sent.
    Bytes,
    /// Other bytes than were sent.
    Others,
    /// The end.
    End,
    /// That its link failed.
    Failure,
}

/// A client, its link, and how far each is.
#[derive(Drop)]
pub(crate) struct Peer<S: Read + Write + OpenStream + Drop> {
    stream: Option<S>,
    number: usize,
    pub(crate) stage: Stage,
    // Of the client's bytes so many were said, and so many of these brought by the device.
    said: usize,
    brought: usize,
    // Of the device's bytes so many were accepted, and so many of these received by the client.
    accepted: usize,
    received: usize,
    has_shut: bool,
    // Whether all that was accepted has to come through, once the link is closed.
    pub(crate) is_sure: bool,
    pub(crate) closed: u64,
    // What was reported to the device last.
    pub(crate) interest: Interest,
    // Whether it may have bytes, or be at its end: a read brought some the last time, or the client did something
    // since.
    may_read: bool,
    // So many writes accepted nothing since one did, or the client did something.
    vain: u32,
    // Whether it accepted nothing the last time.
    is_blocked: bool,
    is_at_end: bool,
    may_have_failed: bool,
    // In milliseconds when it was accepted, or began to stream, or accepted bytes while it did so; and since when the
    // device has noticed that its time is bounded.
    moved: u64,
    noticed: Option<u64>,
    // Whether it may be given up by now, and whether it has to be.
    may_be_given_up: bool,
    is_given_up: bool,
}

impl<S: Read + Write + OpenStream + Drop> Peer<S> {
    /// A client that has dialled.
    pub(crate) fn new(stream: S, number: usize) -> Peer<S> {
        let _ = stream.set_nonblocking(true);
        let _ = stream.set_nodelay(true);
        Peer {
            stream: Some(stream),
            number,
            stage: Stage::Dialled,
            said: 0,
            brought: 0,
            accepted: 0,
            received: 0,
            has_shut: false,
            is_sure: true,
            closed: 0,
            interest: FIRST_INTEREST,
            may_read: true,
            vain: 0,
            is_blocked: false,
            is_at_end: false,
            may_have_failed: false,
            moved: 0,
            noticed: None,
            may_be_given_up: false,
            is_given_up: false,
        }
    }

    /// Its link stands.
    pub(crate) fn open(&mut self, now: u64) {
        self.stage = Stage::Standing;
        self.moved = now;
    }

    /// The device closes its link. Whether all has to come through is said.
    pub(crate) fn close(&mut self, now: u64, is_sure: bool) {
        self.stage = Stage::Closed;
        self.closed = now;
        let unread = self.said.saturating_sub(self.brought);
        self.is_sure = is_sure && !self.may_have_failed && unread <= FEW;
    }

    /// Whether the client's end is still there.
    pub(crate) fn is_open(&self) -> bool {
        self.stream.is_some()
    }

    /// Whether the client says nothing more, and goes on to receive.
    pub(crate) fn is_halved(&self) -> bool {
        self.has_shut && self.stream.is_some()
    }

    /// Whether the client says nothing more.
    fn has_ended(&self) -> bool {
        self.has_shut || self.stream.is_none()
    }

    /// Whether bytes that the client said weren't brought.
    fn has_more(&self) -> bool {
        self.brought < self.said
    }

    /// Whether bytes that the device accepted weren't received.
    pub(crate) fn lacks_some(&self) -> bool {
        self.received < self.accepted
    }

    /// The client says so many bytes.
    pub(crate) fn say(&mut self, pattern: &Pattern, count: usize) {
        if self.has_shut {
            return;
        }
        let bytes = pattern.beyond(self.number.wrapping_mul(2), self.said, count);
        if let Some(stream) = &mut self.stream
            && let Ok(count) = stream.write(bytes)
        {
            self.said = self.said.saturating_add(count);
            self.may_read = true;
            self.is_sure = self.is_sure && (self.stage != Stage::Closed || count <= FEW);
        }
    }

    /// The client says nothing more, and goes on to receive.
    pub(crate) fn shut(&mut self) {
        if let Some(stream) = &self.stream
            && stream.shutdown(Shutdown::Write).is_ok()
        {
            self.has_shut = true;
            self.may_read = true;
        }
    }

    /// The client leaves: if it hasn't received all that was sent, its link is reset.
    pub(crate) fn leave(&mut self) {
        self.stream = None;
        self.may_read = true;
        self.vain = 0;
    }

    /// The client receives once.
    pub(crate) fn receive(&mut self, pattern: &Pattern, room: &mut [u8]) -> Received {
        let Some(stream) = &mut self.stream else {
            return Received::Nothing;
        };
        match stream.read(room) {
            Ok(0) => Received::End,
            Ok(count) => {
                let direction = self.number.wrapping_mul(2).wrapping_add(1);
                let bytes = room.get(..count).unwrap_or(b"");
                let is_right = pattern.is(direction, self.received, bytes);
                self.received = self.received.saturating_add(count);
                self.vain = 0;
                if is_right && self.received <= self.accepted {
                    Received::Bytes
                } else {
                    Received::Others
                }
            }
            Err(error) => match error.kind() {
                ErrorKind::WouldBlock | ErrorKind::Interrupted => Received::Nothing,
                _ => Received::Failure,
            },
        }
    }

    /// What the device is to write next, so many bytes.
    pub(crate) fn sent<'a>(&self, pattern: &'a Pattern, count: usize) -> &'a [u8] {
        pattern.beyond(
            self.number.wrapping_mul(2).wrapping_add(1),
            self.accepted,
            count,
        )
    }

    /// The device brought some bytes, into a room of at least one. Whether these are the client's next ones.
    pub(crate) fn bring(&mut self, pattern: &Pattern, bytes: &[u8]) -> bool {
        if bytes.is_empty() {
            self.may_read = false;
            self.is_at_end = self.has_ended() && !self.has_more();
            self.may_have_failed = self.may_have_failed || self.stream.is_none();
            return true;
        }
        let is_right = pattern.is(self.number.wrapping_mul(2), self.brought, bytes);
        self.brought = self.brought.saturating_add(bytes.len());
        is_right && self.brought <= self.said
    }

    /// The device accepted so many bytes, of at least one. Whether that can be.
    pub(crate) fn accept(&mut self, count: usize, now: u64) -> bool {
        self.is_blocked = count == 0;
        if self.is_blocked {
            if self.vain > 0 {
                self.noticed = None;
                self.is_given_up = false;
            }
            self.vain = self.vain.saturating_add(1);
            self.may_have_failed = self.may_have_failed || self.stream.is_none();
            return self.stream.is_none() || self.lacks_some();
        }
        self.vain = 0;
        self.accepted = self.accepted.saturating_add(count);
        if self.interest.is_streaming {
            self.noticed = None;
            self.moved = now;
        }
        true
    }

    /// What is reported to the device.
    pub(crate) fn wish(&mut self, interest: Interest, now: u64) {
        if interest.is_streaming && !self.interest.is_streaming {
            self.noticed = None;
            self.moved = now;
        }
        self.interest = interest;
    }

    /// Whether its time is bounded.
    fn is_bounded(&self) -> bool {
        !self.interest.is_streaming || self.interest.writes && self.vain > 0
    }

    /// Whether it may be given up by now: in its handshake, or since it accepted nothing that was to be written.
    pub(crate) fn bound(&mut self, now: u64, limit: u64) {
        let may_be_bounded = !self.interest.is_streaming || self.interest.writes && self.is_blocked;
        if may_be_bounded && now.saturating_sub(self.moved) >= limit {
            self.may_be_given_up = true;
        }
    }

    /// The device looks at the clock: whether it has to be given up.
    pub(crate) fn look(&mut self, now: u64, limit: u64) {
        match self.noticed {
            Some(since) if self.is_bounded() => {
                self.is_given_up = self.is_given_up || now.saturating_sub(since) >= limit;
            }
            _ => self.noticed = if self.is_bounded() { Some(now) } else { None },
        }
    }

    /// Whether the device may report that it can be read.
    pub(crate) fn may_be_readable(&self) -> bool {
        self.interest.reads && self.may_read
    }

    /// Whether the device may report that it can be written.
    pub(crate) fn may_be_writable(&self) -> bool {
        self.interest.writes && self.vain < VAIN
    }

    /// Whether the device may report that it is gone.
    pub(crate) fn may_be_gone(&self) -> bool {
        self.is_at_end && !self.interest.writes || self.may_have_failed || self.may_be_given_up
    }

    /// Whether the device has to report something of it.
    pub(crate) fn is_due(&self) -> bool {
        let is_read = self.interest.reads
            && !self.is_at_end
            && (self.has_more() || self.has_ended());
        // A link that was full has room for sure once its client received all.
        let is_full = self.is_blocked && self.lacks_some();
        let is_written = self.interest.writes && self.vain == 0 && !is_full;
        let is_gone = self.is_at_end && !self.interest.writes || self.is_given_up;
        self.stage == Stage::Standing && (is_read || is_written || is_gone)
    }
}
