//! What was found of a statement or of a plan: decisions, refutations and verdicts, as plain data.
//!
//! The crates that find them say in their contracts what each means; those that print them read nothing else.
#![tactic(auto)]

mod decision;
mod least;
mod refutation;
mod verdict;

pub use decision::{Chosen, ChosenList, Decision};
pub use least::Least;
pub use refutation::Witness;
pub use verdict::{Side, Verdict};
