//! The lines of facts: a listing of facts, each once and in ascending order, as a text of a line each.
//!
//! Crates above use this: texts that show an instance print its facts by these calls, so that all of them print alike.
//! Begin at `specs/Lines.antt`: the line of a fact, the order of facts, and the text of a listing.
#![tactic(auto)]

mod lines;
mod listing;
mod push;

pub use lines::{facts_text, push_facts};
pub use listing::ascending;
pub use push::push_str;
