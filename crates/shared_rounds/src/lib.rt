//! Rounds that plans share.
#![tactic(auto)]

mod book;
pub mod laws;

pub use book::{Book, Shelf};
