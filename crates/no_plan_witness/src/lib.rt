//! Refutations: two instances and a row, which show that a statement has no plan.
//!
//! Crates above use this: `witness` gives the pair of a proof, and by the law `witnesses_refute` it refutes where nothing is active
//! in the proof and no query has a goal. `named_pair` does the same for facts that are put together otherwise, by the law
//! `stuck_refutes`. `check_witness` answers `Ok` exactly where a pair refutes. Begin at `specs/Texts.antt` and
//! `specs/Witnesses.antt`.
#![tactic(auto)]

mod accessible;
mod constants;
mod fault;
mod find_witness;
mod free_texts;
mod judge_witness;
mod labels;
pub mod laws;
mod naming;

pub use fault::{Which, WitnessFault};
pub use find_witness::{base_facts, copy_facts, named_pair, witness};
pub use judge_witness::check_witness;
pub use naming::Naming;
