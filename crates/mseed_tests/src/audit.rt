//! Rows of the audit and of the crates below it: what no clause says and no script over the program sees.

mod assembling;
mod auditing;
mod cutting;
pub(crate) mod devices;
mod framing;
mod growing;
mod keeping;
mod selecting;
mod telling;
mod times;
mod writing;
