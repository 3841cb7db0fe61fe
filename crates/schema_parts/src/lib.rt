//! Parts of schemas: the same relations, methods and constants, with some of the rules.
//!
//! Crates above use this to plan over fewer rules: `with_some_rules` makes a part, and `laws` says that a rival over a part is one
//! over the whole schema. Begin at `specs/Parts.antt`.
#![tactic(auto)]

pub mod laws;
mod parting;

pub use parting::with_some_rules;
