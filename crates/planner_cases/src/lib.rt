//! Tests of the proofs that the planner makes, over small schemas that are worked out by hand, and of refutations that are read.
//!
//! There is nothing here but tests: a crate with tests is proved twice, so these stand in a crate above.
#![tactic(auto)]

#[cfg(test)]
mod of_proofs;
#[cfg(test)]
mod of_witnesses;
