//! The device of a server: its input, its links, and what can be done next with them.
ghost use Rattle.std.specs.Prelude.{◌≡◌, ◌≤◌, ◌∷◌, ◌++◌, [], List, Bool, true, length, take, if◌then◌else◌};
ghost use Rattle.slink_live.specs.Happening.{Happening, Input, Opened, Received, Emitted, Gone, Next, Missed, Wants};
ghost use Rattle.slink_live.specs.Happening.{WantsLinks, Left, Handed};

/// What can be done next.
#[derive(Clone, Copy, Debug, PartialEq, Eq)]
pub enum Event {
    /// The input has bytes.
    Input,
    /// The input has no more bytes.
    InputEnded,
    /// The input failed.
    InputFailed,
    /// Somebody dials.
    Dialled,
    /// The link in a slot may have bytes.
    Readable(usize),
    /// The link in a slot may take bytes.
    Writable(usize),
    /// The link in a slot is at its end, or failed, or was silent for too long.
    Gone(usize),
    /// Nothing comes any more.
    Nothing,
}

/// What a server wants of a link.
#[derive(Clone, Copy, Debug, PartialEq, Eq)]
pub struct Interest {
    /// It would read.
    pub reads: bool,
    /// It has something to write.
    pub writes: bool,
    /// The handshake is over: the client has sent all its commands.
    pub is_streaming: bool,
}

/// The input and the links of a server, none of which is waited for but by `next`.
///
/// The links stand in slots, whose number the server chooses. The device decides what is ready, and how long it waits:
/// no clause speaks of time.
pub trait Ready {
    // What happened so far, and what was reported to the device, in order.
    ghost log: { Self → List Happening };

    // Nothing comes any more.
    ghost has_failed: { Self → Bool };

    /// Returns what can be done next. A link that is `Readable` or `Writable` may have no bytes, or no room, after all.
    fn next(&mut self) -> Event
        ensures log { log self.new ≡ log self.old ++ Next result ∷ [] }
        ensures failed { result ≡ Event.Nothing → has_failed self.new ≡ true };

    /// Returns the number of bytes that one read of the input put into `buf`; 0 where there are none now.
    fn read_input(&mut self, buf: &mut [u8]) -> usize
        ensures bound { result ≤ length buf.new }
        ensures log { log self.new ≡ log self.old ++ Input (take result buf.new) ∷ [] };

    /// Takes note that the input isn't read any more.
    fn leave_input(&mut self)
        ensures log { log self.new ≡ log self.old ++ Left ∷ [] };

    /// Returns whether a link that dials was put into a slot; it wasn't where nobody dials any more.
    fn accept(&mut self, slot: usize) -> bool
        ensures log { log self.new ≡ log self.old ++ (if result then Opened slot else Missed slot) ∷ [] };

    /// Returns the number of bytes that one read of the link in a slot put into `buf`; 0 where there are none now.
    fn read(&mut self, slot: usize, buf: &mut [u8]) -> usize
        ensures bound { result ≤ length buf.new }
        ensures log { log self.new ≡ log self.old ++ Received slot (take result buf.new) ∷ [] };

    /// Returns the number of bytes that the link in a slot accepted of these, which are handed to it once, and of which
    /// it accepts a prefix; 0 where it accepts none now.
    fn write(&mut self, slot: usize, bytes: &[u8]) -> usize
        ensures bound { result ≤ length bytes.now }
        ensures log { log self.new
            ≡ (log self.old ++ Handed slot bytes.now ∷ []) ++ Emitted slot (take result bytes.now) ∷ [] };

    /// Closes the link in a slot.
    fn close(&mut self, slot: usize)
        ensures log { log self.new ≡ log self.old ++ Gone slot ∷ [] };

    /// Takes note of what the server wants of the link in a slot.
    fn wants(&mut self, slot: usize, interest: Interest)
        ensures log { log self.new ≡ log self.old ++ Wants slot interest ∷ [] };

    /// Takes note whether the server would take another link.
    fn wants_links(&mut self, wanted: bool)
        ensures log { log self.new ≡ log self.old ++ WantsLinks wanted ∷ [] };
}
