//! The program's commands of a feed: `serve`, `serve --live` and `fetch`, from what the arguments request to the exit
//! status.
//!
//! Over any [`Transport`], such as a [`TcpTransport`] over TCP, [`serve`] fills the rings of a feed with the records of
//! an input and then serves them over one connection after another, [`serve_live_at`] serves many clients at once while
//! the records of an input come, and [`fetch`] writes the records that a server sends; [`serve_live`] serves over any
//! [`Device`].
#![tactic(auto)]

mod commands;
mod filling;
mod keeping;
mod law;
mod live;
mod planning;
mod refusal;
mod transport;

pub use commands::{fetch, serve};
pub use law::{kept_by_records, one_filling};
pub use live::{serve_live, serve_live_at};
pub use planning::{plan_fetch, plan_serve};
pub use transport::{Device, DeviceFault, Planned, TcpTransport, Transport};
