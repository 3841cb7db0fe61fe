//! The top call: the words of the command line, the command that they are, and the exit status.
//!
//! Begin at `specs/Runs.antt`, which says what every command does; which words are a command stands in `command_words`, and each
//! command but `help` in a crate below.
#![tactic(auto)]

mod first_lanes;
mod help;
pub mod laws;
mod top;

pub use command_io::Status;
pub use top::run_words;
