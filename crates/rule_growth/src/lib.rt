//! Which further rules of a schema facts ask for.
//!
//! Crates above use this: `grown` adds rules to those that are kept, by facts that these make. No clause says which, as a plan over
//! any of the rules is one over all. Begin at `src/growing.rt`.
#![tactic(auto)]

mod asking;
mod growing;
mod marks;
mod matching;
mod reaching;

pub use growing::{Phase, grown};
