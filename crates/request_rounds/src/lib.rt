//! Rounds of requests, one after another, with a limit on how many are made: the loop of an execution, whatever its rounds are.
//!
//! Crates above call `ask_rounds` with what differs between them: what a round wants, how it is asked, and what becomes of its answers.
//! Begin at `specs/Rounds.antt`.
#![tactic(auto)]

mod rounds;

pub use rounds::{Halt, Reached, Turned, ask_rounds};
