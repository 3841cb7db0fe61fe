//! What a batch has in common with runs of its queries: laws on the definitions alone, as functions that do nothing.
#![tactic(auto)]

pub mod laws;
