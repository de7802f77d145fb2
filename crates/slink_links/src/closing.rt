//! Closing a link so that what was written to it comes through.

use std::io;
use std::io::{ErrorKind, Read};
use std::net::{OpenStream, Shutdown};
use std::time::{Clock, Duration, Instant};

/// The most bytes that still come and are thrown away.
pub(crate) const MOST: usize = 1 << 16;

/// The most seconds for which they are waited for, all together.
const PATIENCE: u64 = 2;

/// The bytes that one read has room for.
const ROOM: usize = 1024;

/// What may still come over a stream on which nothing is written any more, and is thrown away before it is closed. The
/// system resets a stream that is closed while a byte of it is unread, or to which one comes later, and then drops what
/// the other side hasn't received.
#[derive(Drop)]
pub(crate) struct Leftover {
    since: Instant,
    left: usize,
}

impl Leftover {
    /// Nothing came yet since this instant.
    pub(crate) fn new(since: Instant) -> Leftover {
        Leftover { since, left: MOST }
    }

    /// For how long it is waited for.
    pub(crate) fn time_left(&self, now: Instant) -> Duration {
        Duration::from_secs(PATIENCE).saturating_sub(now.saturating_duration_since(self.since))
    }

    /// Throws away what one read brings, and answers whether more of it is waited for: the stream isn't at its end, and
    /// not too many bytes came.
    ///
    /// # Errors
    ///
    /// Where the stream fails.
    pub(crate) fn throw_away<S: Read>(&mut self, stream: &mut S) -> io::Result<bool> {
        let mut room = [0; ROOM];
        let most = self.left.min(ROOM);
        let count = stream.read(&mut room[..most])?;
        self.left = self.left.saturating_sub(count);
        Ok(count > 0 && self.left > 0)
    }
}

/// Closes a stream once the other side has closed it, or has sent many bytes more, or was given time to.
pub(crate) fn close<C: Clock, S: Read + OpenStream + Drop>(clock: &C, mut stream: S) {
    if stream.shutdown(Shutdown::Write).is_ok() {
        let _ = throw_away(clock, &mut stream);
    }
}

/// Reads what still comes, up to its end, but at most `MOST` bytes, and for `PATIENCE` seconds.
///
/// # Errors
///
/// Where the clock or the stream fails, or nothing comes in time.
fn throw_away<C: Clock, S: Read + OpenStream>(clock: &C, stream: &mut S) -> io::Result<()> {
    let mut leftover = Leftover::new(Instant::now(clock)?);
    for read in 0..MOST {
        let time = leftover.time_left(Instant::now(clock)?);
        if time.is_zero() {
            return Err(ErrorKind::TimedOut.into());
        }
        stream.set_read_timeout(Some(time))?;
        if !leftover.throw_away(stream)? {
            break;
        }
    }
    Ok(())
}
