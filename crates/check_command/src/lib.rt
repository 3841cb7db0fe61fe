//! The command `check`: it reads a query and a plan, judges the plan and prints the verdict.
//!
//! Begin at `specs/Ends.antt`, which says how the command ends.
#![tactic(auto)]

mod check;

pub use check::check_plan;
