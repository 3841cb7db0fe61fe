//! The printed texts of decisions, and refutations read back.
//!
//! Crates above use this: the text of a decision is exactly that of its plan, behind a comment line for each select, its
//! refutation or its firings. A printed plan is read again as that plan, and a printed refutation with the same answer and facts. Begin at `specs/Printing.antt` and `specs/Grammar.antt`.
#![tactic(auto)]

mod chosen;
mod decision;
mod fault;
mod firings;
mod laws;
mod progress;
mod push;
mod read;
mod refutation;
mod verdict;

pub use decision::decision_text;
pub use fault::WitnessReadFault;
pub use firings::undecided_text;
pub use laws::{printed_plans_say_the_plan, printed_refutations_are_read};
pub use read::read_witness;
pub use refutation::witness_text;
pub use verdict::verdict_text;
