//! Proofs over access schemas: base facts, exposed facts and copy facts, with the log of the firings that made them.
//!
//! Crates above use this: every call leaves a proof that is the one of its log. Begin at `specs/Proving.antt`.
#![tactic(auto)]

mod entry;
mod exposed_facts;
mod exposing;
mod first_places;
mod goals;
mod going;
mod history;
mod holders;
mod known;
pub mod laws;
mod listing;
mod marks;
mod method_index;
mod open_facts;
mod proof;
mod rounds;
mod settling;
mod values;
mod ways;

pub use entry::{Entry, Exposed, Mark, Sizes};
pub use exposing::expose;
pub use goals::{Match, goal, head_match, no_values};
pub use going::goes_on;
pub use holders::Holders;
pub use listing::{exposures, indexed_exposures};
pub use marks::{mark, undo};
pub use method_index::MethodIndex;
pub use proof::{Proof, opening_state};
pub use rounds::round;
pub use settling::{Round, settle};
