//! Firing the rules once, in the rule order.
//!
//! Crates above use this: `run_rules` leaves a state in which nothing is active, or has spent its budget, and its log is
//! a base run whatever it answers; a map that carries the start of a run into an instance that meets the rules extends to
//! its end. Begin at `specs/States.antt`.
#![tactic(auto)]

mod choose;
mod firing;
pub mod laws;
mod levels;
mod log;
mod order;
mod pass;
mod state;

pub use choose::active;
pub use firing::fire;
pub use log::Log;
pub use order::rule_order;
pub use pass::{HIGHEST_FIRST_LABEL, MOST_FIRINGS, Stopped, run_in_order, run_rules};
pub use state::State;
