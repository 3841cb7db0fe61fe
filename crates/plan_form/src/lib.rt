//! Plans over access methods: their text, and which of them are lawful.
//!
//! Crates above use this: `lawful` answers `Ok` exactly for lawful plans and otherwise the first fault, a text is read
//! exactly where the grammar relates it to a plan, and a printed plan is read again as the same plan. Begin at
//! `specs/Grammar.antt` and `specs/Faults.antt`.
#![tactic(auto)]

mod fault;
mod illegal;
mod judge;
mod known;
mod laws;
mod parts;
mod print;
mod progress;
mod read;

pub use fault::{PlanFault, PlanFaultKind, PlanReadFault};
pub use illegal::illegal_text;
pub use judge::lawful;
pub use laws::{lawful_plans_have_no_fault, plan_texts_have_no_fault, printed_plans_are_read};
pub use print::plan_text;
pub use read::read_plan;
