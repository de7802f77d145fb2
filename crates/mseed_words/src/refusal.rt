//! Why arguments request nothing.
use crate::mistake::Mistake;

/// Why the arguments of a command line request nothing that can be done.
#[derive(Debug, Drop)]
pub enum Refusal<'a> {
    /// The arguments aren't those of a command line, or ask for the help or the version. The text is for the user.
    Text(String),
    /// The arguments are those of a command line, but request nothing that there is: why, and the option's value or
    /// the word as it was given, empty where none was.
    NoRequest(Mistake, &'a str),
    /// An allocation was refused.
    Memory,
}
