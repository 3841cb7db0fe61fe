//! Selects as conjunctive queries.
//!
//! Crates above use this: `conjunctive` gives the one query that has a select's answers on every instance of the schema,
//! or tells that the select has no answer on any; `select_forms` does so for each select of a statement. Begin at `specs/Form.antt`.
#![tactic(auto)]

mod conjoin;
mod fits;
mod form;
mod limits;
mod merging;
mod numbering;
mod rows;
mod selects;

pub use conjoin::conjunctive;
pub use fits::{is_instance, select_fits, statement_fits};
pub use form::Conjunctive;
pub use limits::MOST_FROMS;
pub use rows::answers;
pub use selects::select_forms;
