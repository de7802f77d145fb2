//! A link that is informed when its handshake is over.

use mseed_stream::Duplex;

/// A link that is informed when its handshake is over, so that it can bound the time that one takes. Nothing is read or
/// written by it.
pub trait EndsHandshake: Duplex {
    /// The client has sent all that it has to say, and packets are sent. It may be reported more than once.
    fn end_handshake(&self) {}
}
