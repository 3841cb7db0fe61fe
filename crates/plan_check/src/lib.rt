//! Whether a plan answers a statement, on every instance of integers that meets the rules of a schema.
//!
//! Crates above use this: `judge` says that a plan is equivalent to a statement only where it is, and otherwise tells the place that is
//! not lawful, or such an instance with a row that separates, or the firings that were spent. Begin at
//! `specs/Verdicts.antt`.
#![tactic(auto)]

mod branch_query;
mod chase;
mod conclude;
mod forms;
mod judge_plan;
pub mod laws;
mod legality;
mod rows;
mod sorts;
mod trial;

pub use judge_plan::judge;
