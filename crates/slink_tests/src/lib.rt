//! Tests of the calls of the libraries for feeds: what no clause says, and transcripts that were written by hand.
//! They stand in a library of their own, since a library with tests in it is proved once with them and once without.
#![tactic(auto)]

#[cfg(test)]
mod links;
#[cfg(test)]
mod live;
#[cfg(test)]
mod live_tcp;
#[cfg(test)]
mod model;
#[cfg(test)]
mod noise;
#[cfg(test)]
mod tcp_events;
#[cfg(test)]
mod wire;
