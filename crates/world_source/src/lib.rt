//! The generator: relations of numbers that a formula gives, as a source that keeps no row, and the texts of a schema and a query over
//! eight of them.
//!
//! Crates above attach a relation at a locator `k/n` and ask it by requests, of which those with a value take no more time however many rows
//! there are; and `world` gives the texts. Begin at `specs/Formulas.antt` and `specs/Texts.antt`.
#![tactic(auto)]

mod formula;
mod generated;
pub mod laws;
mod source;
mod texts;

pub use source::WorldSource;
pub use texts::{WorldTexts, world};
