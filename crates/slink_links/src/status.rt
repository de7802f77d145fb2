//! The exit statuses of serving and fetching, which are those of the program's other commands too.

/// The exit status of a command that did all that was requested.
pub const DONE: u8 = 0;

/// The exit status of a command that met a fault, which it named on standard error or in its text.
pub const FAULT: u8 = 2;
