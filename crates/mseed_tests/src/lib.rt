//! Tests of the calls of the libraries for records: what no clause says, and rows that were computed by hand.
//! They stand in a library of their own, since a library with tests in it is proved once with them and once without.
#![tactic(auto)]

#[cfg(test)]
mod audit;
#[cfg(test)]
mod join;
#[cfg(test)]
mod pack;
#[cfg(test)]
mod parts;
#[cfg(test)]
mod records;
#[cfg(test)]
mod repack;
#[cfg(test)]
mod select;
#[cfg(test)]
mod steim;
