//! The rows of the relations that rules need, asked for whole on the first lane, and the rules tested on them.
//!
//! Crates above call `verify_rows`, which tests the rules alone, or `execute_verified`, which tests them and then executes a plan where they
//! are met. Begin at `specs/Verifying.antt`.
#![tactic(auto)]

mod ask;
mod executing;
mod fault;
mod relations;
mod testing;
mod verifying;

pub use executing::execute_verified;
pub use fault::{VerifiedFault, VerifyFault, WholeFault};
pub use relations::{rule_relations, with_accessed};
pub use testing::test_rules;
pub use verifying::verify_rows;
