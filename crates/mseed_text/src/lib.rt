//! Lines of text: one that is built in place, and how channels, instants, rates, faults and what was given are written
//! in it.
#![tactic(auto)]

mod digits;
mod fault;
mod line;
mod name;
mod shown;
mod time;

pub use fault::push_fault_line;
pub use line::{LONGEST_LINE, Line, push_line};
pub use shown::shown_byte;
