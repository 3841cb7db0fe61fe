//! The command `schema`: it reads a schema text and writes the schema.
//!
//! Begin at `specs/Ends.antt`, which says how the command ends.
#![tactic(auto)]

mod print;

pub use print::print_schema;
