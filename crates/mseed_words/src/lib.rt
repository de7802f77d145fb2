//! The arguments of a command line, and what they request.
#![tactic(auto)]

mod arguments;
mod command_name;
mod feed_words;
mod files;
mod found;
mod halves;
mod help;
mod host_words;
mod mistake;
mod numbers;
mod options;
mod places;
mod refusal;
mod request;
mod selecting;
mod texts;
mod words;

pub use arguments::{Arguments, CommandLine, Process};
pub use command_name::CommandName;
pub use mistake::{Mistake, PlaceFault, Valued, Wanted};
pub use places::Places;
pub use refusal::Refusal;
pub use request::{Command, Endpoint, Fetching, Joining, LiveServing, Packing, Request, Serving};
pub use texts::word_of;
pub use words::read;
