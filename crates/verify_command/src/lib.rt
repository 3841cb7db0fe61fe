//! The command `verify`: it asks the sources for the relations that the rules name, and tells whether their rows meet the
//! rules.
//!
//! Begin at `specs/Ends.antt`, which says how the command ends.
#![tactic(auto)]

mod command;

pub use command::verify_rules;
