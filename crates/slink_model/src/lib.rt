//! Worlds of SeedLink 3: a server, a client and the link between them, what the steps of a schedule make of them, and
//! series that are relayed through one. No command calls this: it says what sessions and clients come to over links
//! that are cut off and come again.
#![tactic(auto)]

mod carry;
mod law;
mod memory_sink;
mod relaying;
mod schedule;
mod world;

pub use law::{
    answers_the_number_wanted, carries_a_slice, counts_whole_packets, goes_on_after_the_last,
    holds_one_slice, holds_whole_packets, is_the_counted_world, one_world, pushes_what_is_appended,
    resumes_after_the_last, spares_the_client, streams_after_the_replies,
};
pub use relaying::{RelayFault, relay};
pub use schedule::run_schedule;
pub use world::{Link, Memory, Setup, Step, World};
