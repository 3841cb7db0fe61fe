//! Plans for statements, read off proofs, or refutations of every plan.
//!
//! Crates above use this: `decide` gives a plan that is lawful over the known constants and equivalent to the statement, or two
//! instances that refute every plan, or the log of a proof whose firings are spent. Begin at `specs/Decisions.antt`.
#![tactic(auto)]

mod attempting;
mod bounding;
mod branches;
mod choosing;
mod deciding;
mod exposing;
mod forms;
mod goals;
mod outcome;
mod planning;
mod proving;
mod question;
mod reading;
mod refuting;
mod sparing;

pub use deciding::{MOST_UNITS, decide};
