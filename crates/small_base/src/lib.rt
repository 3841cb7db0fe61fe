//! A small base: facts closed under the rules of a schema with few labels, and what such facts show of a query.
//!
//! Crates above use this: `closing` closes facts, `closed_query` makes a query with more atoms over which no base firing is due, and
//! `laws` says what follows. Begin at `specs/Closing.antt`.
#![tactic(auto)]

mod closed;
pub mod laws;
mod sharing;

pub use closed::closed_query;
pub use sharing::closing;
