//! Which of the rows received have another value than an integer at an integer column: bad numbers.
//!
//! Begin at `specs/Numbers.antt`. Crates above ask `bad_in` or `bad_in_packed` of the rows of each answer, and take the `lower` of two
//! findings of one relation, and the `earlier` of two findings of any relations.
#![tactic(auto)]

mod found;
mod rows;

pub use found::{BadNumber, earlier, lower};
pub use rows::{bad_in, bad_in_packed};
