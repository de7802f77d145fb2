//! The samples of a record: what the words of its Steim frames and its integers spell (SEED Reference
//! Manual 2.4, appendix B).
#![tactic(auto)]

mod adding;
mod check;
mod data_words;
mod differences;
mod encoding;
mod ends;
mod fault;
mod form;
mod frame;
mod group;
mod keep;
mod known;
mod lanes;
mod law;
mod read;
mod ready;
mod scheme;
mod sum;
mod unpack;
mod walk;
mod widen;
mod word;

pub use check::check_samples;
pub use differences::{BadWordAt, Differences};
pub use encoding::Encoding;
pub use ends::{ends_of, near_ends};
pub use fault::{Ends, ReadFault};
pub use known::unpack_differences;
pub use law::{one_fault, one_reading, reading_has_count};
pub use read::{fill_differences, fill_samples, is_steim, read_samples};
pub use scheme::Scheme;
pub use widen::widen_bytes;
pub use word::{BadWord, unpack_word};
