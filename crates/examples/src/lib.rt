//! Examples of calls, which the pages for callers quote: `crates/NAME/CALLING.md`.
#![tactic(auto)]

pub mod audits;
pub mod feed;
pub mod feed_commands;
pub mod files;
pub mod input;
pub mod join;
pub mod links;
pub mod listing;
pub mod live;
pub mod live_tcp;
pub mod model;
pub mod pack;
pub mod part_lines;
pub mod parts;
pub mod record;
pub mod repacks;
pub mod selecting;
pub mod steim;
pub mod steim_pack;
pub mod stream;
pub mod stretches;
pub mod text;
pub mod time;
pub mod wire;
pub mod words;
