//! Several queries from one text.
//!
//! Crates above use this: a text is cut behind the semicolons that have tokens behind them, each part is read as a query of its own,
//! and otherwise the first fault of the first kind is told. Begin at `specs/Batches.antt`.
#![tactic(auto)]

mod batch;
mod cutting;
mod laws;
mod reading;

pub use batch::{MOST_STATEMENTS, read_batch};
pub use laws::{batches_have_no_fault, one_batch, one_batch_fault, one_query_is_a_batch};
