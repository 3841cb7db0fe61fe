//! Branches of plans, read off exposures and off proofs.
//!
//! Crates above use this: `extract` gives the branch of a proof in which a query has a match, without the accesses on which the
//! match does not rest, and `extract_arranged` gives the same accesses in an order in which few rows are expected to come together;
//! `read_off` gives the branch that asks for exposed facts in order; and `laws` says that the branch of all atoms of a query has the
//! query's answers, and that rows do not depend on the order. Begin at `specs/Trimmed.antt` and `src/extracting.rt`.
#![tactic(auto)]

mod arranging;
mod branch;
mod columns;
mod exposures;
mod extracting;
mod frozen;
pub mod laws;
mod marking;
mod matched;
mod origins;
mod ranking;
mod showing;
mod wanting;
mod weighing;

pub use branch::read_off;
pub use exposures::Exposure;
pub use extracting::{extract, extract_arranged};
pub use frozen::frozen_values;
