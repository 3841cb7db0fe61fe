//! Tests of the lower crates, on small values that are worked out by hand.
//!
//! There is nothing here but tests: a crate with tests is proved twice, so these stand in a crate above.
#![tactic(auto)]

#[cfg(test)]
mod of_access_schema;
#[cfg(test)]
mod of_lists;
#[cfg(test)]
mod of_meaning;
#[cfg(test)]
mod of_pq_text;
#[cfg(test)]
mod of_row_text;
#[cfg(test)]
mod of_shared_rounds;
#[cfg(test)]
mod of_state_path;
