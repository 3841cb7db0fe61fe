//! Statements from SQL text.
//!
//! Crates above use this: a text is read exactly where the grammar relates it to a statement over the schema, and
//! otherwise its one fault is told. Begin at `specs/Statements.antt`.
#![tactic(auto)]

mod columns;
mod constants;
mod fault;
mod laws;
mod limits;
mod misfit;
mod named;
mod naming;
mod piece;
mod raw;
mod reading;
mod resolve;
mod sorts;
mod state;
mod statement;
mod widths;
mod words;

pub use constants::known;
pub use fault::SqlFault;
pub use laws::{
    one_fault, one_reading, one_statement, places_reach_the_end, statements_have_no_fault,
};
pub use limits::{MOST_CONDITIONS, MOST_FROMS, MOST_ITEMS, MOST_SELECTS};
pub use statement::{read_select, result_names};
