//! The feed of SeedLink 3 over one link after another: serving it to as many connections as are requested, fetching
//! over as many tries, and TCP; and the device of `slink_live` over TCP.
//!
//! [`serve_all`] takes its links from an [`Accept`], and [`fetch_all`] from a [`Dial`]; each gives every link back, and
//! what went over it stands in a list for proofs, so that a contract can say of each link what was done with it.
//! Between its tries [`fetch_all`] waits by a [`Pause`]. A link that is silent for too long fails as by any other
//! cause.
//! [`serve_planned`] and [`fetch_planned`] carry out a plan over such devices. Over TCP a [`TcpAcceptor`] is an
//! [`Accept`], and a [`TcpDialler`] is a [`Dial`]; a [`Sleeper`] is a [`Pause`] by a clock.
//!
//! A [`LiveTcp`] is standard input and many links over TCP at once, by one wait for all of them.
#![tactic(auto)]

mod accept;
mod acceptor;
mod closing;
mod dial;
mod draining;
mod ending;
mod fetching;
mod guards;
mod handshake;
mod input;
mod listen_fault;
mod live_tcp;
mod network_fault;
mod packet_buffer;
mod pause;
mod plan;
mod planned;
mod read_ahead;
mod round;
mod serving;
mod slot;
mod status;
mod tcp;
mod time_limited;
mod trouble;

pub use accept::{Accept, AcceptLog};
pub use dial::{Dial, DialLog};
pub use ending::put_address;
pub use fetching::{FetchEnd, fetch_all, fetch_link};
pub use handshake::EndsHandshake;
pub use listen_fault::ListenFault;
pub use live_tcp::{LivePlan, LiveTcp};
pub use network_fault::NetworkFault;
pub use pause::{Pause, Sleeper};
pub use plan::{FetchPlan, FetchTerms, ServePlan, Server};
pub use planned::{fetch_planned, serve_planned};
pub use serving::{serve_all, serve_link};
pub use status::{DONE, FAULT};
pub use tcp::{TcpAcceptor, TcpDialler};
pub use trouble::{DialFault, Loss, Trouble};
