//! Calls of `slink_live`.
ghost use Rattle.std.specs.Prelude.{◌≡◌, ◌≤◌, ◌^◌, ◌++◌, ◌∷◌, [], IfOk, List};
ghost use Rattle.slink_feed.specs.Window.{Window};
ghost use Rattle.slink_live.specs.Happening.{Happening, Received};
ghost use Rattle.slink_live.specs.Served.{IsServing, IsSound};

use slink_feed::{Feed, Ring};
use slink_live::{Event, InputFault, Interest, Log, Ready, Server};
use std::alloc::{AllocError, Global};

/// A server of one ring, with room for 64 links.
pub fn server_of(alloc: Global, ring: Ring) -> Result<Server, AllocError>
    requires { ring.next ≤ 2 ^ 62 }
    ensures serving { IfOk result (λ server. IsServing (ring ∷ []) server []) }
    ensures sound { IfOk result IsSound }
{
    let mut feed = Feed::new();
    feed.add_other(ring);
    Server::new(alloc, feed, 64)
}

/// Serves until all is over, also after what is wrong with the input, which is answered.
pub fn serve_to_the_end<R: Ready>(server: &mut Server, ready: &mut R) -> Result<(), InputFault>
    requires { IsSound server.old }
    ensures { (start : List Window) → IsServing start server.old (R.log ready.old)
        → IsServing start server.new (R.log ready.new) }
{
    let served = server.serve(ready);
    if served.is_err() {
        let _ = server.serve(ready);
    }
    served
}

/// Has a device carry out one event by hand, and answers how many bytes came.
pub fn read_by_hand<R: Ready>(ready: &mut R, bytes: &mut [u8]) -> usize {
    match ready.next() {
        Event::Input => ready.read_input(bytes),
        Event::InputEnded | Event::InputFailed => {
            ready.leave_input();
            0
        }
        Event::Dialled => {
            ready.wants_links(false);
            usize::from(ready.accept(0))
        }
        Event::Readable(slot) => ready.read(slot, bytes),
        Event::Writable(slot) => ready.write(slot, b"OK\r\n"),
        Event::Gone(slot) => {
            ready.close(slot);
            0
        }
        Event::Nothing => {
            let interest = Interest {
                reads: true,
                writes: false,
                is_streaming: false,
            };
            ready.wants(0, interest);
            0
        }
    }
}

/// A log of a link that came, sent hello, accepted a line, and left, while the input gave a byte.
pub fn log_of_a_link() -> Log {
    let mut log = Log::new();
    log.next(Event::Dialled);
    log.opened(0);
    log.received(0, b"HELLO\r");
    log.input(b"0");
    log.handed(0, b"OK\r\n");
    log.emitted(0, b"OK\r\n");
    log.gone(0);
    log
}

/// A log of what a device was asked: that a link is read and written, that no further one is wanted, though one that
/// dialled was gone already, and that the input is read no more.
pub fn log_of_interest(interest: Interest) -> Log {
    let mut log = Log::new();
    log.wants(0, interest);
    log.missed(1);
    log.wants_links(false);
    log.left();
    log
}
