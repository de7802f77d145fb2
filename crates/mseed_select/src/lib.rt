//! The records of an archive that are asked for, by channel and by a window of time: as they are, a line for each, or
//! in another format.
#![tactic(auto)]

mod choice;
mod clocks;
mod copying;
mod counts;
mod dates;
mod fault;
mod fields;
mod format;
mod law;
mod lines;
mod listing;
mod matching;
mod numbers;
mod parts;
mod patterns;
mod selected;
mod selector;
mod word;

pub use copying::{select, write_selected};
pub use counts::Counts;
pub use fault::{BadPatterns, BadTime, BadWindow, SelectFault};
pub use format::Format;
pub use law::{
    asked_for_exactly, fits_exactly, lacks_time_exactly, patterns_exactly, samples_in_window,
    times_exactly, two_halves,
};
pub use listing::{show, show_selected};
pub use mseed_record::{All, Answer, Choice};
pub use patterns::Patterns;
pub use selected::Selected;
pub use selector::Selector;
pub use word::read_time;
