//! A stream whose calls wait no longer than a time, and whose handshake is over by then.
ghost use Rattle.std.specs.Prelude.{◌≡◌, IfErr, None, OnOk, Some, unwrap_or};
ghost use Rattle.slink_links.specs.Trouble.{IsLossBy};

use crate::network_fault::NetworkFault;
use crate::trouble::Loss;
use std::cell::Cell;
use std::io;
use std::io::{ErrorKind, Read, Write};
use std::net::OpenStream;
use std::time::{Clock, Duration, Instant};

/// What a call that waits may take, if there is a bound.
#[derive(Clone, Copy)]
pub(crate) struct Limits {
    /// The handshake as a whole, and after it a write.
    pub(crate) all: Option<Duration>,
    /// A read after the handshake.
    pub(crate) reads: Option<Duration>,
}

/// A stream whose reads and writes fail where they wait for longer than they may. In the handshake each may take what
/// is left of its time.
#[derive(Drop)]
pub struct TimeLimited<'a, C: Clock, S: OpenStream> {
    clock: &'a C,
    stream: S,
    limits: Limits,
    start: Instant,
    is_streaming: Cell<bool>,
    loss: Option<Loss>,
}

impl<'a, C: Clock, S: OpenStream + Drop> TimeLimited<'a, C, S> {
    /// A new stream, whose handshake begins now.
    ///
    /// # Errors
    ///
    /// Where the clock can't be read.
    pub(crate) fn new(
        clock: &'a C,
        stream: S,
        limits: Limits,
    ) -> io::Result<TimeLimited<'a, C, S>> {
        Ok(TimeLimited {
            clock,
            stream,
            limits,
            start: Instant::now(clock)?,
            is_streaming: Cell::new(false),
            loss: None,
        })
    }

    /// The stream.
    pub(crate) fn into_stream(self) -> S {
        self.stream
    }

    /// Why nothing more comes over it: why the last call failed; or, where it didn't, that the other side closed it.
    pub(crate) fn loss(&self) -> Loss
        ensures { result ≡ unwrap_or self.now.loss Loss.Closed }
    {
        self.loss.unwrap_or(Loss::Closed)
    }

    /// What a call came to, once it is noted that it failed, and why, or that it didn't.
    fn noted(&mut self, came: io::Result<usize>) -> io::Result<usize>
        ensures came { result ≡ came }
        ensures ok { OnOk came (self.new.loss ≡ None) }
        ensures failed { IfErr came (λ error. (loss : Loss) × (self.new.loss ≡ Some loss) × IsLossBy error loss) }
    {
        self.loss = match &came {
            Ok(_) => None,
            Err(error) => Some(self.loss_by(error)),
        };
        came
    }

    /// Why a call failed. One that takes too long in the handshake has used up the time of all of it.
    fn loss_by(&self, error: &io::Error) -> Loss
        ensures { IsLossBy error.now result }
    {
        let fault = NetworkFault::of(error);
        if fault == NetworkFault::TimedOut && !self.is_streaming.get() {
            Loss::LongHandshake
        } else {
            Loss::Failed(fault)
        }
    }

    /// The handshake is over: from here on each call has a time of its own.
    pub(crate) fn end_handshake(&self) {
        if !self.is_streaming.replace(true) && self.limits.all.is_some() {
            let _ = self.stream.set_read_timeout(self.limits.reads);
            let _ = self.stream.set_write_timeout(self.limits.all);
        }
    }

    /// Grants the next call what is left of the time of the handshake, while that isn't over.
    ///
    /// # Errors
    ///
    /// Where nothing is left, or where the clock or the stream fails.
    fn grant(&self) -> io::Result<()> {
        let Some(limit) = self.limits.all else {
            return Ok(());
        };
        if self.is_streaming.get() {
            return Ok(());
        }
        let left = limit.saturating_sub(self.start.elapsed(self.clock)?);
        if left.is_zero() {
            return Err(ErrorKind::TimedOut.into());
        }
        self.stream.set_read_timeout(Some(left))?;
        self.stream.set_write_timeout(Some(left))
    }
}

impl<C: Clock, S: Read + OpenStream + Drop> Read for TimeLimited<'_, C, S> {
    fn read(&mut self, buf: &mut [u8]) -> io::Result<usize> {
        let came = match self.grant() {
            Ok(()) => self.stream.read(buf),
            Err(error) => Err(error),
        };
        self.noted(came)
    }
}

impl<C: Clock, S: Write + OpenStream + Drop> Write for TimeLimited<'_, C, S> {
    fn write(&mut self, bytes: &[u8]) -> io::Result<usize> {
        let came = match self.grant() {
            Ok(()) => self.stream.write(bytes),
            Err(error) => Err(error),
        };
        self.noted(came)
    }

    fn flush(&mut self) -> io::Result<()> {
        self.stream.flush()
    }
}
