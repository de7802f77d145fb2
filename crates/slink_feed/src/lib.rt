//! The feed of SeedLink 3: the last records of up to sixteen stations in rings, the session that
//! serves them to one connection, and the client that fetches them.
#![tactic(auto)]

mod client;
mod connection;
mod cutting;
mod dialogue;
mod feed;
mod fetching;
mod grant;
mod input;
mod law;
mod progress;
mod reading;
mod reported;
mod reporter;
mod ring;
mod serving;
mod session;
mod turn;

pub use client::Client;
pub use connection::{one_turn, turns_send_slices};
pub use dialogue::{Answer, Bytes, Ending, Event, Stage, Wanted};
pub use feed::{Feed, FeedFault};
pub use fetching::{Room, fetch_turn, fetch_turn_in};
pub use grant::{Grant, Mode};
pub use input::{ForeignRecord, InputFault};
pub use law::{
    a_slice_is_sent, a_slice_is_wanted, each_record_once, granted_after_the_last, no_record_twice,
    one_reading, whole_packets_are_reported,
};
pub use reported::wants_move_by_records;
pub use reporter::Reporter;
pub use ring::{Ring, RingFault};
pub use serving::serve_turn;
pub use session::{Phase, Sent, Session, Unsent};
pub use turn::{LinkFault, Turn};
