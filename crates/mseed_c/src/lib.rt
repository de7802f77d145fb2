//! `mseed` for C: the records of a miniSEED archive that lies in memory, with their samples, its audit, its part, the
//! records of some channels and a window of time, and packing (SEED Reference Manual 2.4).
//!
//! Each call returns a code, writes its results into memory that its caller lends, and keeps no state. The codes are
//! defined in `specs/Codes`, but those of a selection that can't be asked for in `specs/Asked`; `include/mseed.h`
//! declares the calls for C.
#![tactic(auto)]

mod auditing;
mod codes;
mod decoding;
mod going;
mod heading;
mod heads;
mod lent;
mod packing;
mod reading;
mod row;
mod selecting;

pub use auditing::{Totals, mseed_audit, mseed_audit_each, mseed_part};
pub use codes::{Detail, Refusal, SampleFault, Stop};
pub use decoding::mseed_samples;
pub use going::Progress;
pub use heading::Heading;
pub use heads::mseed_rows;
pub use lent::Lent;
pub use packing::{Packed, mseed_pack};
pub use reading::mseed_read;
pub use row::Row;
pub use selecting::{Selected, Window, mseed_select};
