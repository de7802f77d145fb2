//! The bytes of SeedLink 3: packets, command lines and replies; and where a link leads over which they go.
#![tactic(auto)]

mod command;
mod cut;
mod hexadecimal;
mod host;
mod keyword;
mod law;
mod limits;
mod lines;
mod packet;
mod place;
mod putting;
mod reply;
mod request;
mod words;

pub use command::Command;
pub use hexadecimal::six_digits;
pub use host::{Address, Host, Name, Timeout};
pub use law::{any_pieces, lines_read_back, one_command, one_packet, requests_are_lines};
pub use limits::{MOST_RECORDS, STATIONS};
pub use lines::{LineOutcome, Lines, Took};
pub use packet::{HEAD, NotPacket, PACKET, Packet};
pub use place::{BadPlace, CODES, Place, header_codes};
pub use putting::put;
pub use reply::Reply;
pub use request::Request;
