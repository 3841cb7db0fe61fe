//! What the world of a size is: the laws that its two texts are read, as which schema and which statement.
#![tactic(auto)]

pub mod laws;
