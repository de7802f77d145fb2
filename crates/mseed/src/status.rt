//! The exit statuses that only the command has, beside those of `slink_links`.

/// The exit status of a command that did all that was requested, and found that a channel is broken.
pub const BROKEN: u8 = 1;

/// The exit status of a bad command line.
pub const BAD_COMMAND: u8 = 3;
