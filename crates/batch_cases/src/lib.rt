//! Tests of texts of several queries and of several selects, worked out by hand.
//!
//! There is nothing here but tests: a crate with tests is proved twice, so these stand in a crate above.
#![tactic(auto)]

#[cfg(test)]
mod of_sql_batch;
#[cfg(test)]
mod of_unions;
