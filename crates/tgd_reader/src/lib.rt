//! Schema text: declarations, one on a line.
//!
//! Crates above use this: a text is read exactly where the grammar relates it to its parts, and otherwise the first line
//! that is no declaration is told. Begin at `specs/Grammar.antt`.
#![tactic(auto)]

mod column;
mod declaration;
mod fault;
mod laws;
mod listed;
mod parts;
mod pieces;
mod print;
mod read;
mod version;

pub use column::{Column, Columns};
pub use declaration::read_declaration;
pub use fault::{PartsFault, ReadFault};
pub use laws::{printed_schemas_are_read, schema_texts_have_no_fault};
pub use listed::Listing;
pub use parts::{Declared, read_parts};
pub use print::schema_text;
pub use read::read_schema;
