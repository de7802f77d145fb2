//! A feed of SeedLink 3 that is served to many links at once, by one thread, while its input comes.
#![tactic(auto)]

mod intake;
mod law;
mod link;
mod links;
mod log;
mod pending;
mod places;
mod ready;
mod server;

pub use law::{
    a_link_is_sent_slices, each_moment_has_a_history, in_turns, input_in_order,
    no_other_link_matters, other_places_change_nothing,
};
pub use log::Log;
pub use pending::MOST_PENDING;
pub use ready::{Event, Interest, Ready};
pub use server::Server;
pub use slink_feed::InputFault;
