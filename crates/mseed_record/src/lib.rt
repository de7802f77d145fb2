//! miniSEED data records: their header, their blockettes and their payload (SEED Reference Manual 2.4,
//! chapter 8); and which of them are asked for, as a [`Choice`] that a loop over records takes.
#![tactic(auto)]

mod answer;
mod chain;
mod choice;
mod codes;
mod fault;
mod fields;
mod framer;
mod framing;
mod header;
mod law;
mod leap;
mod naming;
mod view;
mod write;

pub use answer::Answer;
pub use choice::{All, Choice};
pub use codes::Codes;
pub use fault::{DataOffset, FrameFault, ViewFault};
pub use fields::Fields;
pub use framer::{Framer, LONGEST_RECORD, Scan};
pub use framing::scan;
pub use header::{FIXED_HEADER, trimmed};
pub use law::header_reads_back;
pub use leap::Leap;
pub use naming::{BadCode, CodeField};
pub use view::RecordView;
pub use write::{TooShort, WRITTEN_HEADER, write_header};
