//! The files that the words of a command line name, one after another, as the bytes of one input; and what is reported
//! of the file in which a fault lies.
//!
//! What the system gives is behind [`Files`]: made files can stand in its place. A [`Chain`] is a source of the files'
//! bytes, in the order of the words, one file open at a time, and knows in which of them each byte that it gave lies.
//! [`find_unreadable`] looks at them before anything is read. [`System`] opens the files of the system.
//!
//! A [`TrackedSource`] knows where the last record is that was cut of it. [`report_blame`] reports what is wrong with
//! an input, its [`Blame`], of the file in which it lies, and [`report_reason`] why a read of one failed that has no
//! name.
#![tactic(auto)]

mod blame;
mod chain;
mod files;
mod given;
mod law;
mod lines;
mod look;
mod naming;
mod place;
mod reader;
mod reason;
mod system;
mod tracked_source;

pub use blame::{Blame, blame_by, blame_of};
pub use chain::Chain;
pub use files::Files;
pub use given::report_given;
pub use law::one_place;
pub use lines::{report_fault, report_no_memory, report_number};
pub use look::find_unreadable;
pub use naming::{report_blame, report_reason, report_unreadable};
pub use place::Place;
pub use reason::Reason;
pub use system::{Input, STANDARD_INPUT, System};
pub use tracked_source::TrackedSource;
