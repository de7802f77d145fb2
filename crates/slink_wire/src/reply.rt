//! The replies of a server.
ghost use Rattle.std.specs.Prelude.{◌≡◌};
ghost use Rattle.slink_wire.specs.Reply.{reply_bytes};

/// What a server answers to a line.
#[derive(Clone, Copy, Debug, PartialEq, Eq)]
pub enum Reply {
    /// No byte is answered.
    Nothing,
    /// The command is taken.
    Ok,
    /// The command isn't taken.
    Error,
    /// The server's name, in two lines.
    Hello,
}

impl Reply {
    /// Returns the bytes of the reply: one or two lines, each with CR LF, or none.
    pub fn bytes(self) -> &'static [u8]
        ensures { result.now ≡ reply_bytes self }
    {
        match self {
            Reply::Nothing => b"",
            Reply::Ok => b"OK\r\n",
            Reply::Error => b"ERROR\r\n",
            Reply::Hello => b"SeedLink v3.0 (mseed)\r\nmseed feed\r\n",
        }
    }
}
