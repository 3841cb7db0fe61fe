//! Stores of labelled facts, and the assignments that make atoms facts of a store.
//!
//! Crates above use this: `first_match` and `all_matches` are exactly the assignments that agree with given values, and
//! `first_unmet` answers none exactly where the facts meet a rule. Begin at `specs/Matches.antt`.
#![tactic(auto)]

mod arrange;
mod assignment;
mod bind;
mod code;
mod coded_lists;
mod conditions;
mod extend;
mod fact_index;
mod find;
mod frontier;
mod grounding;
mod groups;
mod head;
mod instance;
mod key;
mod key_lists;
mod keyed;
mod matching;
mod number_list;
mod parts;
mod positions;
mod rules;
mod search;
mod start;
mod store;
mod texts;
mod turning;
mod walk;

pub use assignment::{Assignment, Assignments, Bindings};
pub use bind::{could_be, unify};
pub use conditions::{is_covered, is_numbered};
pub use find::{all_matches, first_match};
pub use grounding::{Assigns, Freezing, ground_under, values_under};
pub use head::Head;
pub use positions::Positions;
pub use rules::{body_matches, first_unmet, is_met, variables_width};
pub use store::Store;
pub use texts::row_under;
pub use walk::Walk;
