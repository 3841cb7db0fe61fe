//! The command `exec`: it reads a plan, tests that it is lawful, executes it and writes its rows.
//!
//! Begin at `specs/Ends.antt`, which says how the command ends.
#![tactic(auto)]

mod exec;
mod known;

pub use exec::exec_plan;
