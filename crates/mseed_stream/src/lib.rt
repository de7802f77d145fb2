//! Reading and writing devices, whose bytes, calls and failures contracts can name.
//!
//! Bytes are read from a [`Source`] and written to a [`Sink`]. Each has a record, for proofs alone, of all
//! the bytes that went through it, of the calls that were made and of those that failed, so that a
//! contract can speak of a whole run over a device. [`Counted`] makes either of any reader or
//! writer of `std::io`, and a [`Duplex`] of what does both. A [`Tally`] is that record: whoever
//! counts other calls for proofs has one too. [`Exchanges`] are those of one link after another.
//!
//! A [`Cutter`] hands out the records of a source, one by one, and [`split`] those of a slice. [`read_all`] and
//! [`write_all_of`] are the plain loops over devices, [`write_beyond`] writes a text that is gathered some at a time,
//! and [`report`] writes a line as far as the device takes it.
#![tactic(auto)]

mod buffered;
mod counted;
mod cutter;
mod device;
mod exchanges;
mod fault;
mod law;
mod noting;
mod reporting;
mod slices;
mod tally;
mod whole;

pub use buffered::Buffered;
pub use counted::Counted;
pub use cutter::Cutter;
pub use device::{Duplex, Failed, READS, Sink, Source};
pub use exchanges::Exchanges;
pub use fault::StreamFault;
pub use law::one_input;
pub use noting::split_read;
pub use reporting::report;
pub use slices::{split, split_in};
pub use tally::Tally;
pub use whole::{GATHERED, read_all, read_all_in, read_all_into, write_all_of, write_beyond};
