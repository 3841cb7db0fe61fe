//! States that grow one out of another, kept as what each adds to its parent, so that going back takes no memory.
//!
//! Begin at `src/path.rt`.
#![tactic(auto)]

mod path;

pub use path::StatePath;
