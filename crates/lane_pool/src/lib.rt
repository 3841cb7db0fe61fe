//! Lanes that draw the numbers of items from one counter, each number once, and workers that work the items of these numbers.
//!
//! Crates above call `fan_out`: each item is worked once, by one of the workers, and the answers stand in the order of the items.
//! `Draws` is the counter without threads, and `laws` says over every order of events that no number is drawn twice.
//! Begin at `specs/Work.antt`.
#![tactic(auto)]

mod draws;
mod gather;
mod lane;
pub mod laws;
mod parallel;
mod seats;
mod spread;
mod worker;

pub use draws::{Draws, Event};
pub use parallel::fan_out;
pub use worker::Worker;
