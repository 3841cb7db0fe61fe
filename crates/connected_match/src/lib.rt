//! Whether atoms have a match in a store, atom by connected atom.
//!
//! Crates above use this: `has_match` answers as `first_match` of `homomorphism` would, in time that grows with the atoms and with the
//! values between two of them. Begin at `specs/Chains.antt`.
#![tactic(auto)]

mod chain;
mod matching;
mod order;
mod walk;

pub use matching::has_match;
