//! Rows in ascending order without doubles, and their text: a header and a line for each row.
//!
//! Crates above use this: `PackedRows` holds rows in one buffer, `ascending_distinct` sorts them and keeps each once, and
//! `csv_text` writes what a query answers. Begin at `specs/RowText.antt`.
#![tactic(auto)]

pub mod laws;
mod lent;
mod lent_rows;
mod order;
mod packed;
mod recent;
mod started;
mod text;

pub use lent::LentRow;
pub use lent_rows::LentRows;
pub use order::ascending_distinct;
pub use packed::PackedRows;
pub use recent::Recent;
pub use started::start_of;
pub use text::csv_text;
