//! Packing a series into miniSEED records (SEED Reference Manual 2.4, chapter 8 and appendix B).
//!
//! What is packed is one list of records, byte for byte: which one is stated in `specs/Packing`.
#![tactic(auto)]

mod batch;
mod clock;
mod fault;
mod fitting;
mod frames;
mod integers;
mod known_samples;
mod law;
mod lent;
mod listed;
mod options;
mod packing;
mod payload;
mod payloads;
mod record;
mod series_head;
mod series_view;
mod span;
mod supply;
mod window;

pub use fault::PackFault;
pub use fitting::{fit, fit_head, fit_view};
pub use law::{
    a_packing_exists, a_stretch_keeps_time, a_stretch_reads_back, archive_reads_back,
    called_continuous, fewest_words, one_length, one_misfit, one_packing, one_prefix, reads_back,
};
pub use lent::{overwrite, pack_into};
pub use listed::Listed;
pub use options::{BadOption, Encoding, Options};
pub use packing::{Packer, pack, pack_view};
pub use series_head::SeriesHead;
pub use series_view::SeriesView;
pub use supply::Supply;
pub use window::MOST_DIFFERENCES;
