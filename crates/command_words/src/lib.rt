//! The words of a command line, and the command that they are.
//!
//! Crates above use this: `read_words` answers the one command that the words are, and nothing where they are none.
//! Begin at `specs/Words.antt`.
#![tactic(auto)]

mod command;
mod given;
mod item;
mod laws;
mod number;
mod table;
mod usage;

pub use command::{Command, Task, read_words};
pub use laws::words_are_one_command;
pub use usage::usage_text;
