//! The command `batch`, which answers the queries of one file together. Each is decided in order, and its decision written; where all of
//! them have plans, these are executed together, and the rows of each query are written behind a line of its own.
//!
//! Begin at `specs/Deciding.antt`, which says how far a batch is decided, and then at `specs/Ends.antt`, which says how it ends.
#![tactic(auto)]

mod batch;
mod deciding;
mod delivery;
mod lines;

pub use batch::run_batch;
