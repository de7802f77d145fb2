//! Instants, sample rates and joins: when a record begins, how fast it was sampled, and whether the
//! next record begins where it ends (SEED Reference Manual 2.4, chapters 3 and 8).
#![tactic(auto)]

mod btime;
mod calendar;
mod fault;
mod joins;
mod law;
mod micros;
mod order;
mod outcome;
mod rate;
mod ratio;
mod show;

pub use btime::Btime;
pub use calendar::day_in_year;
pub use fault::{OutOfRange, TimeFault};
pub use joins::{drift, join, step_micros};
pub use law::{one_date, one_name};
pub use micros::Micros;
pub use order::Order;
pub use outcome::{Join, LeapStep};
pub use rate::{NoRate, Rate};
pub use ratio::Ratio;
pub use show::{show_time, two_digits};
