//! Laws of runs: that new folders of data files supply a run with all that it needs, and how the command `world` ends.
//!
//! They stand above all other crates, so that `pdq_core` is proved once.
#![tactic(auto)]

pub mod files;
pub mod worlds;
